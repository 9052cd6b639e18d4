// The refusals of a command: each has a status and a line, and is told without memory.
ghost use Rattle.std.specs.Prelude.{◌≡◌, OnOk, OnErr};
ghost use Rattle.std.specs.Io.KnownBytes.{Appends};
ghost use Rattle.clover_main.specs.Causes.{AppendsFront, HasCause, Writes};
ghost use Rattle.clover_main.specs.Refusing.{status_of, line_of};

use crate::io::{Failed, Sink, put_both};
use itoa::Buffer;

/// Why a command was refused.
#[derive(Clone, Copy, Debug, PartialEq, Eq)]
pub enum Refusal {
    /// This line of the script, counted from 1, is the first that is not built.
    BadLine(u64),
    /// The input has more than 16,777,216 bytes.
    TooMuchInput,
    /// A call of the source failed.
    ReadFault,
    /// There was no memory.
    OutOfMemory,
    /// The words are of no command.
    BadWords,
}

/// Puts the line of a refusal into the sink, and answers the refusal's status. A failing write leaves
/// the status.
pub fn refuse<K: Sink>(sink: &mut K, refusal: Refusal) -> u8
    ensures status { result ≡ status_of refusal }
    ensures line { Writes (K.taken sink.old) (K.taken sink.new) (K.faults sink.old) (K.faults sink.new) (line_of refusal) }
{
    let _ = put_line(sink, refusal);
    status(refusal)
}

fn status(refusal: Refusal) -> u8
    ensures { result ≡ status_of refusal }
{
    match refusal {
        Refusal::BadLine(_) | Refusal::TooMuchInput => 1,
        Refusal::ReadFault => 2,
        Refusal::OutOfMemory => 4,
        Refusal::BadWords => 6,
    }
}

fn put_line<K: Sink>(sink: &mut K, refusal: Refusal) -> Result<(), Failed>
    ensures ok { OnOk result (Appends (K.taken sink.old) (K.taken sink.new) (line_of refusal)) }
    ensures err { OnErr result (AppendsFront (K.taken sink.old) (K.taken sink.new) (line_of refusal)) }
    ensures cause { HasCause (K.faults sink.old) (K.faults sink.new) result }
{
    match refusal {
        Refusal::BadLine(number) => put_bad_line(sink, number),
        Refusal::TooMuchInput => sink.put(b"error toomuch\n"),
        Refusal::ReadFault => sink.put(b"error read\n"),
        Refusal::OutOfMemory => sink.put(b"error memory\n"),
        Refusal::BadWords => sink.put(b"error badwords\n"),
    }
}

fn put_bad_line<K: Sink>(sink: &mut K, number: u64) -> Result<(), Failed>
    ensures ok { OnOk result (Appends (K.taken sink.old) (K.taken sink.new) (line_of (Refusal.BadLine number))) }
    ensures err { OnErr result (AppendsFront (K.taken sink.old) (K.taken sink.new) (line_of (Refusal.BadLine number))) }
    ensures cause { HasCause (K.faults sink.old) (K.faults sink.new) result }
{
    let mut buffer = Buffer::new();
    put_both(sink, b"error badline ", buffer.format(number).as_bytes())?;
    sink.put(b" unbuilt\n")
}
