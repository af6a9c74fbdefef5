ghost use Rattle.std.specs.Prelude.{OnErr, OnOk};
ghost use Rattle.lw_outside.specs.Faults.{HasCause};
ghost use Rattle.lw_outside.specs.Sinks.{Adds, AddsFront};

use crate::{Failed, Sink};

/// Writes all octets, by as many calls of the sink as it takes. Where a call fails, what the earlier
/// calls took stays written.
pub fn write_all<K: Sink>(sink: &mut K, octets: &[u8]) -> Result<(), Failed>
    ensures ok { OnOk result (Adds (K.seen sink.old) (K.seen sink.new) octets.now) }
    ensures failed { OnErr result (AddsFront (K.seen sink.old) (K.seen sink.new) octets.now) }
    ensures cause { HasCause (K.seen sink.old).faults (K.seen sink.new).faults result }
{
    let mut rest = octets;
    while !rest.is_empty() {
        let count = sink.write(rest)?;
        (_, rest) = rest.split_at(count);
    }
    Ok(())
}
