ghost use Rattle.lw_outside.specs.Sinks.{SinkSeen, Writes};

use crate::Failed;

/// A place where octets are written behind one another.
pub trait Sink {
    // What was seen: the octets that it took.
    ghost seen: { Self → SinkSeen };

    /// Writes the front of `piece` and answers how many octets of it, at least one where there is one.
    fn write(&mut self, piece: &[u8]) -> Result<usize, Failed>
        ensures { Writes (seen self.old) (seen self.new) piece.now result };
}
