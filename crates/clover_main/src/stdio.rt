// Standard input and output as a source and a sink: over any reader and writer. They tell the bytes that
// these tell; what is trusted is the reader and the writer.
ghost use Rattle.std.specs.Prelude.{◌≡◌, ◌≤◌, drop, length};

use crate::io::{Failed, Sink, Source};
use std::io::{Read, Write};
use std::marker::Model;

/// A reader or a writer, and how many of its calls failed.
#[derive(Drop)]
pub struct Stream<T: Drop> {
    inner: T,
    faults: u64,
}

/// A source over a reader. A failed read counts as a fault.
pub type StdSource<I> = Stream<I>;

/// A sink over a writer. A failed write, and one that takes nothing of a piece, counts as a fault.
pub type StdSink<W> = Stream<W>;

impl<T: Drop> Model for Stream<T> {
    ghost use Rattle.clover_main.specs.Edge.{Counted};

    ghost Value = { Counted T };

    ghost view = { λ s. record { inner = s.inner; faults = s.faults } };
}

impl<T: Drop> Stream<T> {
    /// The source over this reader, or the sink over this writer, with no fault yet. Takes no memory.
    pub fn make(inner: T) -> Stream<T>
        ensures { (result.inner ≡ inner) × (result.faults ≡ 0) }
    {
        Stream { inner, faults: 0 }
    }

    /// The reader or the writer.
    pub fn inner(&self) -> &T
        ensures { result.now ≡ self.now.inner }
    {
        &self.inner
    }
}

impl<I: Read + Drop> Source for Stream<I> {
    ghost left = { λ s. I.remaining s.inner };

    ghost faults = { λ s. s.faults };

    fn take(&mut self, into: &mut [u8]) -> Result<usize, Failed> {
        match self.inner.read(into) {
            Ok(count) => Ok(count),
            Err(_) => {
                self.faults = self.faults.saturating_add(1);
                Err(Failed)
            }
        }
    }
}

impl<W: Write + Drop> Sink for Stream<W> {
    ghost taken = { λ s. W.contents s.inner };

    ghost faults = { λ s. s.faults };

    fn put(&mut self, piece: &[u8]) -> Result<(), Failed> {
        let mut rest = piece;
        while !rest.is_empty() {
            match self.inner.write(rest) {
                Ok(count) if count > 0 => rest = behind(rest, count),
                _ => {
                    self.faults = self.faults.saturating_add(1);
                    return Err(Failed);
                }
            }
        }
        Ok(())
    }
}

/// What is behind the first bytes.
fn behind(bytes: &[u8], count: usize) -> &[u8]
    requires { count ≤ length bytes.now }
    ensures { result.now ≡ drop count bytes.now }
{
    &bytes[count..]
}
