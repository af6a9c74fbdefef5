ghost use Rattle.std.specs.Prelude.{◌≡◌, ◌+◌, ◌^◌, ◌<◌, ◌≤◌, ◌++◌, [], ℕ, List, Some, IfOk, IfSome, IsOk, IsSome, OnOk, OnErr, drop, length, is_some, option_map, unwrap_or};
ghost use Rattle.std.specs.Vec.{vec_capacity, vec_len};
ghost use Rattle.lw_icmp.specs.Messages.{echo_answer, echo_reply, echo_request, unreachable};

use crate::NoMemory;
use lw_base::IcmpHead;
use lw_wire::{icmp_octets, read_icmp, write_icmp};
use std::alloc::Global;

/// The type of an echo reply.
const ECHO_REPLY: u8 = 0;

/// The type of destination unreachable.
const UNREACHABLE: u8 = 3;

/// The type of an echo request.
const ECHO_REQUEST: u8 = 8;

/// How many octets of a datagram's data an error message has.
const QUOTED: usize = 8;

/// The head of the message that answers an echo request. Its data is that of the request, which stands
/// from octet 8 on; `None` is for what is no echo request.
pub fn echo_answer(message: &[u8]) -> Option<[u8; 8]>
    ensures exact { option_map (λ front. front ++ drop 8 message.now) result ≡ echo_reply message.now }
    ensures long { IsSome result → 8 ≤ length message.now }
    ensures same { (numbers : ℕ) (body : List ℕ) → numbers < 2 ^ 32 → message.now ≡ echo_request numbers body
        → option_map (λ front. front ++ body) result ≡ Some (echo_answer numbers body) }
{
    answer_in(message)
}

// What `echo_answer` promises of its own result; what it says of a request follows.
fn answer_in(message: &[u8]) -> Option<[u8; 8]>
    ensures exact { option_map (λ front. front ++ drop 8 message.now) result ≡ echo_reply message.now }
    ensures long { IsSome result → 8 ≤ length message.now }
{
    let (head, body) = request_in(message)?;
    Some(icmp_octets(&answer_head(&head), body))
}

// The head and the data of an echo request.
fn request_in(message: &[u8]) -> Option<(IcmpHead, &[u8])>
    ensures answer { option_map (λ r. echo_answer r.0.rest r.1.now) result ≡ echo_reply message.now }
    ensures body { IfSome result (λ r. r.1.now ≡ drop 8 message.now) }
    ensures long { IfSome result (λ r. 8 ≤ length message.now) }
{
    let Ok((head, place)) = read_icmp(message) else {
        return None;
    };
    if head.kind != ECHO_REQUEST || head.code != 0 {
        return None;
    }
    let (_, body) = message.split_at(place);
    Some((head, body))
}

// The head of the answer to a request.
fn answer_head(request: &IcmpHead) -> IcmpHead
    ensures { result ≡ record { kind = 0; code = 0; rest = request.now.rest } }
{
    IcmpHead {
        kind: ECHO_REPLY,
        code: 0,
        rest: request.rest,
    }
}

/// Appends the answer to an echo request, and answers whether `octets` are one.
pub fn echo_reply(octets: &[u8], out: &mut Vec<u8>) -> Result<bool, NoMemory>
    ensures is { IfOk result (λ is. is ≡ is_some (echo_reply octets.now)) }
    ensures ok { OnOk result (out.new.items ≡ out.old.items ++ unwrap_or (echo_reply octets.now) []) }
    ensures err { OnErr result (out.new.items ≡ out.old.items) }
    ensures room { vec_len out.old + length octets.now ≤ vec_capacity out.old → IsOk result }
    ensures len { OnOk result (vec_len out.new ≤ vec_len out.old + length octets.now) }
    ensures capacity { vec_capacity out.old ≤ vec_capacity out.new }
{
    let Some((head, body)) = request_in(octets) else {
        return Ok(false);
    };
    write_icmp(&answer_head(&head), body, out)?;
    Ok(true)
}

/// Appends destination unreachable with a code, for a datagram with the header `ip_head` and the data
/// `body`.
pub fn unreachable(
    alloc: Global,
    code: u8,
    ip_head: &[u8],
    body: &[u8],
    out: &mut Vec<u8>,
) -> Result<(), NoMemory>
    ensures ok { OnOk result (out.new.items ≡ out.old.items ++ unreachable code ip_head.now body.now) }
    ensures err { OnErr result (out.new.items ≡ out.old.items) }
    ensures len { OnOk result (vec_len out.new ≤ vec_len out.old + (16 + length ip_head.now)) }
    ensures capacity { vec_capacity out.old ≤ vec_capacity out.new }
{
    let (quoted, _) = body.split_at(body.len().min(QUOTED));
    let mut data = Vec::with_capacity(alloc, ip_head.len() + quoted.len())?;
    data.extend_from_slice(ip_head)?;
    data.extend_from_slice(quoted)?;
    let head = IcmpHead {
        kind: UNREACHABLE,
        code,
        rest: 0,
    };
    write_icmp(&head, &data, out)
}
