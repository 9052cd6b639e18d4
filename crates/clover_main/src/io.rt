// Where the input comes from and where the output goes. Both count their faults, and tell the bytes
// that went through them where they can.
ghost use Rattle.std.specs.Prelude.{List, ℕ, ◌++◌, Option, OnOk, OnErr};
ghost use Rattle.std.specs.Io.{ReadsAtMost};
ghost use Rattle.std.specs.Io.KnownBytes.{ReadConsumes, Appends};
ghost use Rattle.clover_main.specs.Causes.{HasCause, AppendsFront};

/// A call of a source or a sink failed; its count of faults rose.
#[derive(Clone, Copy, Debug, PartialEq, Eq)]
pub struct Failed;

pub trait Source {
    /// The bytes that are left, where it tells them.
    ghost left: { Self → Option (List ℕ) };

    /// How often it has failed. A count at its last value stands still.
    ghost faults: { Self → ℕ };

    /// Moves at most as many bytes as `into` has, and answers how many. None into some room is the end
    /// of the input. A failed call moved nothing.
    fn take(&mut self, into: &mut [u8]) -> Result<usize, Failed>
        ensures bound { ReadsAtMost result into.new }
        ensures bytes { ReadConsumes (left self.old) (left self.new) result into.new }
        ensures cause { HasCause (faults self.old) (faults self.new) result };
}

pub trait Sink {
    /// The bytes that it took, where it tells them.
    ghost taken: { Self → Option (List ℕ) };

    /// How often it has failed. A count at its last value stands still.
    ghost faults: { Self → ℕ };

    /// Takes the whole piece, or fails with a front of it taken.
    fn put(&mut self, piece: &[u8]) -> Result<(), Failed>
        ensures ok { OnOk result (Appends (taken self.old) (taken self.new) piece.now) }
        ensures err { OnErr result (AppendsFront (taken self.old) (taken self.new) piece.now) }
        ensures cause { HasCause (faults self.old) (faults self.new) result };
}

/// Puts one piece behind another, or fails with a front of both taken.
pub fn put_both<K: Sink>(sink: &mut K, first: &[u8], second: &[u8]) -> Result<(), Failed>
    ensures ok { OnOk result (Appends (K.taken sink.old) (K.taken sink.new) (first.now ++ second.now)) }
    ensures err { OnErr result (AppendsFront (K.taken sink.old) (K.taken sink.new) (first.now ++ second.now)) }
    ensures cause { HasCause (K.faults sink.old) (K.faults sink.new) result }
{
    sink.put(first)?;
    sink.put(second)
}
