ghost use Rattle.std.specs.Prelude.{◌≡◌, ◌≤◌, ◌+◌, ◌*◌, ◌⊎◌, ◌++◌, ◌∷◌, ℕ, List, [], length, All, OnOk, IfOk, IfErr, Ok, Err};
ghost use Rattle.lw_pcap.specs.Records.{Records};
ghost use Rattle.lw_pcap.specs.Capture.{SpellsCapture, CaptureFails};
ghost use Rattle.lw_pcap.specs.declared.fault.PcapFault.{PcapFault};
ghost use Rattle.lw_pcap.specs.declared.fault.PcapFault.TheVariants.{NoMemory};

use crate::PcapFault;
use crate::header::{HEADER_LEN, read_header};
use crate::record::read_record;
use lw_base::{FrameList, Octets};
use std::alloc::{AllocError, Global};

/// The frames of a capture, in the order of its records.
#[derive(Drop)]
pub struct Capture {
    pub frames: FrameList,
}

/// Reads a capture file (the libpcap format): every frame, or the first fault.
pub fn read_capture(alloc: Global, bytes: &[u8]) -> Result<Capture, PcapFault>
    ensures found { IfOk result (λ capture. SpellsCapture bytes.now capture.frames) }
    ensures only { (frames : List (List ℕ)) → SpellsCapture bytes.now frames
        → (result ≡ Err NoMemory) ⊎ IfOk result (λ capture. capture.frames ≡ frames) }
    ensures fails { IfErr result (λ fault. (fault ≡ NoMemory) ⊎ CaptureFails bytes.now fault) }
    ensures refuses { (fault : PcapFault) → CaptureFails bytes.now fault
        → (result ≡ Err NoMemory) ⊎ (result ≡ Err fault) }
    ensures few { IfOk result (λ capture. 24 + 16 * length capture.frames ≤ length bytes.now) }
    ensures short { IfOk result (λ capture. All (λ frame. length frame ≤ 65535) capture.frames) }
{
    read_frames(alloc, bytes)
}

// What `read_capture` promises of its own result; that nothing else is right follows from it.
fn read_frames(alloc: Global, bytes: &[u8]) -> Result<Capture, PcapFault>
    ensures found { IfOk result (λ capture. SpellsCapture bytes.now capture.frames) }
    ensures fails { IfErr result (λ fault. (fault ≡ NoMemory) ⊎ CaptureFails bytes.now fault) }
{
    let endian = read_header(bytes)?;
    let (_, records) = bytes.split_at(HEADER_LEN);
    let mut frames = Vec::new(alloc);
    let mut rest = records;
    while !rest.is_empty() {
        let (frame, behind) = read_record(endian, bytes.len() - rest.len(), rest)?;
        push_copy(alloc, frame, &mut frames)?;
        rest = behind;
    }
    Ok(Capture {
        frames: FrameList::from_vec(frames),
    })
}

// Copies a frame behind those that are read.
fn push_copy(alloc: Global, frame: &[u8], frames: &mut Vec<Octets>) -> Result<(), AllocError>
    ensures ok { OnOk result (frames.new.items ≡ frames.old.items ++ frame.now ∷ []) }
{
    let octets = Vec::from_slice(alloc, frame)?;
    frames.push(Octets::from_vec(octets))?;
    Ok(())
}
