// What waits to be put into the sink, in a room of fixed size: a text of any length goes through it without memory.
ghost use Rattle.std.specs.Prelude.{◌≡◌, ◌++◌, [], OnOk, OnErr};
ghost use Rattle.std.specs.Io.KnownBytes.{Appends};
ghost use Rattle.clover_main.specs.Causes.{AppendsFront, HasCause};
ghost use Rattle.clover_main.specs.Chunks.{joined};
ghost use Rattle.clover_main.specs.Running.{Says};

use crate::io::{Failed, Sink};
use arrayvec::ArrayVec;
use std::marker::Model;

/// The bytes that wait. A text is put through it piece by piece, and goes to the sink in large parts. It is not used
/// behind a failed write.
#[derive(Drop)]
pub struct Chunk {
    bytes: ArrayVec<u8, 8192>,
}

impl Model for Chunk {
    ghost use Rattle.std.specs.Prelude.{ℕ, List};

    ghost Value = { List ℕ };

    ghost view = { λ c. c.bytes.items };
}

impl Chunk {
    /// Nothing waits.
    pub fn new() -> Chunk
        ensures { result ≡ [] }
    {
        Chunk {
            bytes: ArrayVec::new(),
        }
    }

    /// Puts a piece behind what waits. Where it does not fit what waits goes to the sink first, and a piece that is
    /// longer than the room follows it at once.
    pub fn add<K: Sink>(&mut self, piece: &[u8], sink: &mut K) -> Result<(), Failed>
        ensures ok { OnOk result (Says (K.taken sink.old) (K.taken sink.new) self.old self.new piece.now) }
        ensures err { OnErr result (AppendsFront (K.taken sink.old) (K.taken sink.new) (self.old ++ piece.now)) }
        ensures cause { HasCause (K.faults sink.old) (K.faults sink.new) result }
    {
        match self.bytes.try_extend_from_slice(piece) {
            Ok(()) => Ok(()),
            Err(_) => self.add_behind(piece, sink),
        }
    }

    // Puts what waits into the sink, and the piece behind it.
    fn add_behind<K: Sink>(&mut self, piece: &[u8], sink: &mut K) -> Result<(), Failed>
        ensures ok { OnOk result (Says (K.taken sink.old) (K.taken sink.new) self.old self.new piece.now) }
        ensures err { OnErr result (AppendsFront (K.taken sink.old) (K.taken sink.new) (self.old ++ piece.now)) }
        ensures cause { HasCause (K.faults sink.old) (K.faults sink.new) result }
    {
        self.flush(sink)?;
        if let Ok(()) = self.bytes.try_extend_from_slice(piece) {
            return Ok(());
        }
        sink.put(piece)
    }

    /// Puts all that waits into the sink; then nothing waits.
    pub fn flush<K: Sink>(&mut self, sink: &mut K) -> Result<(), Failed>
        ensures ok { OnOk result (Appends (K.taken sink.old) (K.taken sink.new) self.old) }
        ensures empty { OnOk result (self.new ≡ []) }
        ensures err { OnErr result (AppendsFront (K.taken sink.old) (K.taken sink.new) self.old) }
        ensures cause { HasCause (K.faults sink.old) (K.faults sink.new) result }
    {
        sink.put(&self.bytes)?;
        self.bytes.clear();
        Ok(())
    }

    /// Puts pieces behind what waits, one behind the other.
    pub fn add_all<K: Sink>(&mut self, pieces: &[&[u8]], sink: &mut K) -> Result<(), Failed>
        ensures ok { OnOk result (Says (K.taken sink.old) (K.taken sink.new) self.old self.new (joined pieces.now)) }
        ensures err { OnErr result (AppendsFront (K.taken sink.old) (K.taken sink.new) (self.old ++ joined pieces.now)) }
        ensures cause { HasCause (K.faults sink.old) (K.faults sink.new) result }
    {
        for piece in pieces {
            self.add(piece, sink)?;
        }
        Ok(())
    }
}
