ghost use Rattle.std.specs.Prelude.{◌≡◌, ◌++◌, OnErr, OnOk, decimal, codes};
ghost use Rattle.lw_outside.specs.Faults.{HasCause};
ghost use Rattle.lw_outside.specs.Sinks.{Adds, AddsFront};
ghost use Rattle.lwip_run.specs.Answers.{Says, status_of, text_of};

use itoa::Buffer;
use lw_outside::{Failed, Sink, write_all};

/// Why a form was not done.
#[derive(Clone, Copy, Debug, PartialEq, Eq)]
pub enum Refusal {
    /// The words are no form.
    Usage,
    /// The octets stop being a script at this line, counted from 1.
    BadScript(usize),
    /// The header or record at this offset is none of a capture.
    BadCapture(usize),
    ReadFault,
    WriteFault,
    /// A file has more octets than its limit.
    TooLong,
    NoMemory,
}

impl Refusal {
    /// The status with which the program ends.
    pub fn status(self) -> u8
        ensures { result ≡ status_of self }
    {
        match self {
            Refusal::Usage => 2,
            Refusal::BadScript(_) => 3,
            Refusal::BadCapture(_) => 4,
            Refusal::ReadFault => 5,
            Refusal::WriteFault => 6,
            Refusal::TooLong => 7,
            Refusal::NoMemory => 8,
        }
    }

    /// Writes the text of this refusal, as far as the sink takes it.
    pub fn say<K: Sink>(self, err: &mut K)
        ensures { Says (K.seen err.old) (K.seen err.new) (text_of self) }
    {
        let _ = match self {
            Refusal::Usage => write_all(err, b"lwip: usage\n"),
            Refusal::BadScript(line) => write_numbered(err, b"lwip: script line ", line),
            Refusal::BadCapture(at) => write_numbered(err, b"lwip: capture at ", at),
            Refusal::ReadFault => write_all(err, b"lwip: read fault\n"),
            Refusal::WriteFault => write_all(err, b""),
            Refusal::TooLong => write_all(err, b"lwip: too long\n"),
            Refusal::NoMemory => write_all(err, b"lwip: no memory\n"),
        };
    }
}

/// Writes a line that ends in a number, piece by piece: it takes no memory.
fn write_numbered<K: Sink>(sink: &mut K, head: &[u8], number: usize) -> Result<(), Failed>
    ensures ok { OnOk result (Adds (K.seen sink.old) (K.seen sink.new) ((head.now ++ decimal number) ++ codes "\n")) }
    ensures failed { OnErr result (AddsFront (K.seen sink.old) (K.seen sink.new) ((head.now ++ decimal number) ++ codes "\n")) }
    ensures cause { HasCause (K.seen sink.old).faults (K.seen sink.new).faults result }
{
    let mut buffer = Buffer::new();
    write_two(sink, head, buffer.format(number).as_bytes())?;
    write_all(sink, b"\n")?;
    Ok(())
}

/// Writes two pieces.
fn write_two<K: Sink>(sink: &mut K, first: &[u8], second: &[u8]) -> Result<(), Failed>
    ensures ok { OnOk result (Adds (K.seen sink.old) (K.seen sink.new) (first.now ++ second.now)) }
    ensures failed { OnErr result (AddsFront (K.seen sink.old) (K.seen sink.new) (first.now ++ second.now)) }
    ensures cause { HasCause (K.seen sink.old).faults (K.seen sink.new).faults result }
{
    write_all(sink, first)?;
    write_all(sink, second)?;
    Ok(())
}
