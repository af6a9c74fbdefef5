ghost use Rattle.std.specs.Prelude.{◌≡◌, ◌+◌, ◌*◌, ◌^◌, ◌<◌, ◌≤◌, length, false, true, ◌-◌, IfErr, IfOk, Err};
ghost use Rattle.lw_frag.specs.Pieces.{full_count, full_len, full_octets, full_pieces, IsWhole, MayNotPass, piece, pieces_of};
ghost use Rattle.lw_frag.specs.declared.fault.SplitFault.TheVariants.{DontFragment};

use crate::SplitFault;
use lw_base::IpHead;
use std::alloc::{AllocError, Global};

/// The octets of a header without options.
const HEAD_LEN: u32 = 20;

/// The fragments in which a packet passes a network with this MTU, in order: the header of each, the
/// place of its first octet in `body`, and the number of its octets. A packet that fits is one.
pub fn split(
    alloc: Global,
    h: &IpHead,
    body: &[u8],
    mtu: u16,
) -> Result<Vec<(IpHead, u32, u32)>, SplitFault>
    requires mtu { 28 ≤ mtu }
    requires whole { IsWhole h.now }
    requires len { length body.now ≤ 65535 }
    ensures ok { IfOk result (λ pieces. pieces.items ≡ pieces_of h.now (length body.now) mtu) }
    ensures refused { MayNotPass h.now (length body.now) mtu → result ≡ Err DontFragment }
    ensures cause { IfErr result (λ fault. fault ≡ DontFragment → MayNotPass h.now (length body.now) mtu) }
{
    let len = body.len() as u32;
    if h.df && u32::from(mtu) < HEAD_LEN + len {
        return Err(SplitFault::DontFragment);
    }
    Ok(pieces(alloc, h, len, u32::from(mtu))?)
}

/// How many full fragments come before the last one of a packet with `len` octets of data: none where
/// it fits. With `full_piece` and `last_piece` it gives what `split` does, and takes no memory.
pub fn full_count(len: u32, mtu: u16) -> u32
    requires { 28 ≤ mtu }
    ensures { result ≡ full_count len mtu }
{
    let most = u32::from(mtu) - HEAD_LEN;
    len.saturating_sub(most).div_ceil(most / 8 * 8)
}

/// Full fragment `index` of a packet, counted from 0.
pub fn full_piece(h: &IpHead, mtu: u16, index: u32) -> (IpHead, u32, u32)
    requires mtu { 28 ≤ mtu }
    requires index { index < 2 ^ 16 }
    ensures { result ≡ piece h.now (index * full_len mtu) (full_len mtu) true }
{
    let full = (u32::from(mtu) - HEAD_LEN) / 8 * 8;
    piece(h, index * full, full, true)
}

/// The last fragment of a packet with `len` octets of data, and the only one where it fits.
pub fn last_piece(h: &IpHead, len: u32, mtu: u16) -> (IpHead, u32, u32)
    requires mtu { 28 ≤ mtu }
    requires len { len ≤ 65535 }
    ensures { result ≡ piece h.now (full_octets len mtu) (len - full_octets len mtu) false }
{
    let most = u32::from(mtu) - HEAD_LEN;
    let full = most / 8 * 8;
    let octets = len.saturating_sub(most).div_ceil(full) * full;
    piece(h, octets, len - octets, false)
}

fn pieces(
    alloc: Global,
    h: &IpHead,
    len: u32,
    mtu: u32,
) -> Result<Vec<(IpHead, u32, u32)>, AllocError>
    requires mtu { (28 ≤ mtu) × (mtu < 2 ^ 16) }
    requires len { len ≤ 65535 }
    ensures { IfOk result (λ pieces. pieces.items ≡ pieces_of h.now len mtu) }
{
    let most = mtu - HEAD_LEN;
    let full = most / 8 * 8;
    let count = len.saturating_sub(most).div_ceil(full);
    let mut pieces = Vec::with_capacity(alloc, count as usize + 1)?;
    for index in 0..count {
        pieces.push(piece(h, index * full, full, true))?;
    }
    pieces.push(piece(h, count * full, len - count * full, false))?;
    Ok(pieces)
}

/// The fragment with `len` octets from a place; `more` says that others follow.
fn piece(h: &IpHead, from: u32, len: u32, more: bool) -> (IpHead, u32, u32)
    requires { 20 + len < 2 ^ 16 }
    ensures { result ≡ piece h.now from len more }
{
    let head = IpHead {
        total: (HEAD_LEN + len) as u16,
        offset: from,
        mf: more,
        ..*h
    };
    (head, from, len)
}
