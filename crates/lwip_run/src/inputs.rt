ghost use Rattle.std.specs.Prelude.{◌≡◌, MatchResult};
ghost use Rattle.lwip_run.specs.Reading.{IsRead, SeesOne, Stopped};

use lw_outside::{Failed, Files};
use std::alloc::Global;

/// Why a file wasn't read: a call to the files failed, the file has more octets than its limit, or
/// there was no memory.
#[derive(Clone, Copy, Debug, PartialEq, Eq)]
pub enum InputFault {
    Read,
    TooLong,
    NoMemory,
}

// Octets of a file that are read by one call.
const PIECE: usize = 16_384;

/// All octets of the file of this name, of which there may be `limit`. One octet more is asked for,
/// by which a longer file is known; no other octet behind the limit is read.
pub fn read_whole<F: Files>(
    alloc: Global,
    files: &mut F,
    name: &str,
    limit: usize,
) -> Result<Vec<u8>, InputFault>
    requires asked { F.asked name.now }
    ensures { SeesOne name.now (F.seen files.old) (F.seen files.new) (λ file. MatchResult result
        (λ v. IsRead limit file × (v.items ≡ file.gave)) (λ fault. Stopped limit (F.seen files.old) (F.seen files.new) fault file)) }
{
    let number = match files.find(name) {
        Ok(number) => number,
        Err(Failed) => return Err(InputFault::Read),
    };
    let mut octets = Vec::new(alloc);
    let mut piece = [0; PIECE];
    while octets.len() <= limit {
        let most = (limit - octets.len()).min(PIECE - 1) + 1;
        let (room, _) = piece.split_at_mut(most);
        match files.read(number, room) {
            Ok(0) => return Ok(octets),
            Ok(count) => {
                let (front, _) = room.split_at(count);
                if octets.extend_from_slice(front).is_err() {
                    return Err(InputFault::NoMemory);
                }
            }
            Err(Failed) => return Err(InputFault::Read),
        }
    }
    Err(InputFault::TooLong)
}
