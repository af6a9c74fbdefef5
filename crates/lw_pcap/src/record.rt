ghost use Rattle.std.specs.Prelude.{◌≡◌, ◌+◌, ◌≤◌, length, MatchResult, Some};
ghost use Rattle.lw_pcap.specs.Records.{SpellsRecord, record_fault};

use crate::{Endian, PcapFault};

/// The octets of a record's head.
const RECORD_LEN: usize = 16;

/// The longest frame, in octets.
const LONGEST: usize = 65535;

/// Reads the record that begins `octets`, at the offset `at` of its file: its frame, and the octets
/// behind it.
pub(crate) fn read_record(
    endian: Endian,
    at: usize,
    octets: &[u8],
) -> Result<(&[u8], &[u8]), PcapFault>
    ensures { MatchResult result (λ parts. SpellsRecord endian octets.now parts.0.now parts.1.now)
        (λ fault. record_fault endian at octets.now ≡ Some fault) }
{
    if octets.len() < RECORD_LEN {
        return Err(PcapFault::Truncated { at });
    }
    let captured = endian.read_u32(octets, 8) as usize;
    if captured > LONGEST {
        return Err(PcapFault::TooLong { at });
    }
    let (_, body) = octets.split_at(RECORD_LEN);
    if body.len() < captured {
        return Err(PcapFault::Truncated { at });
    }
    Ok(body.split_at(captured))
}
