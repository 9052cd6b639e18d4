// What waits to be put into the sink. It is put in large pieces, and what one event prints stays together.
ghost use Rattle.std.specs.Prelude.{◌≡◌, ◌≤◌, ◌++◌, ◌∷◌, List, [], length, true, OnOk, OnErr, IfErr, slice_get};
ghost use Rattle.std.specs.Io.KnownBytes.{Appends};
ghost use Rattle.clover_run.specs.Folds.{entries_in, listed_in, made_after};
ghost use Rattle.clover_run.specs.Machine.{IsAt};
ghost use Rattle.clover_run.specs.Record.{Record};
ghost use Rattle.clover_run.specs.Run.{Opening};
ghost use Rattle.clover_run.specs.Text.{said};
ghost use Rattle.clover_event.specs.Text.{traced, ending};
ghost use Rattle.clover_port.specs.Told.{Rose};
ghost use Rattle.clover_main.specs.Causes.{AppendsFront, HasStopCause};
ghost use Rattle.clover_main.specs.Running.{Says, Puts, PutsEnding};

use crate::io::{Failed, Sink, put_both};
use clover_event::{push_access, push_ending};
use clover_list::OutOfMemory;
use clover_rule::Access;
use clover_run::{Machine, Note, push_note};
use std::alloc::{AllocError, Global};

/// How many bytes may wait before they are put.
const PIECE: usize = 65_536;

/// Why a run was cut short.
#[derive(Clone, Copy, Debug, PartialEq, Eq)]
pub enum Stop {
    /// There was no memory. What was said before was put.
    Memory,
    /// A write failed.
    Write,
}

impl From<Failed> for Stop {
    ghost use Rattle.std.specs.Prelude.{◌≡◌};
    ghost use Rattle.clover_main.specs.declared.output.Stop.TheVariants.{Write};

    ghost from_gives = { λ _ stop. stop ≡ Write };

    fn from(_: Failed) -> Self {
        Stop::Write
    }
}

impl From<OutOfMemory> for Stop {
    ghost use Rattle.std.specs.Prelude.{◌≡◌};
    ghost use Rattle.clover_main.specs.declared.output.Stop.TheVariants.{Memory};

    ghost from_gives = { λ _ stop. stop ≡ Memory };

    fn from(_: OutOfMemory) -> Self {
        Stop::Memory
    }
}

/// What waits to be put, and what the last event prints, built before it joins what waits.
#[derive(Drop)]
pub struct Output {
    pub waiting: Vec<u8>,
    pub piece: Vec<u8>,
}

impl Output {
    /// Nothing waits. Takes no memory.
    pub fn new(alloc: Global) -> Output
        ensures { result.waiting.items ≡ [] }
    {
        Output {
            waiting: Vec::new(alloc),
            piece: Vec::new(alloc),
        }
    }

    /// Puts what an event prints behind what waits: with a trace the line of its access, which is the one
    /// behind those that the machine listed before, and then the line of what it came to.
    ///
    /// Err for want of memory, and then what waits is as it was.
    pub fn say(&mut self, machine: &Machine, listed: usize, note: &Note) -> Result<(), AllocError>
        ensures ok { OnOk result ((o : Opening) (rs : List Record) (r : Record) → IsAt o machine.now (rs ++ r ∷ []) → r.note ≡ note.now → listed ≡ length (listed_in o.listed machine.now.pool.traced rs)
            → self.new.waiting.items ≡ self.old.waiting.items ++ said machine.now.pool.traced r) }
        ensures err { OnErr result (self.new.waiting.items ≡ self.old.waiting.items) }
    {
        self.piece.clear();
        push_said(&mut self.piece, machine, listed, note)?;
        // Most events print nothing.
        if self.piece.is_empty() {
            return Ok(());
        }
        self.waiting.extend_from_slice(&self.piece)
    }

    /// Puts what waits once it is much.
    pub fn put_much<K: Sink>(&mut self, sink: &mut K) -> Result<(), Stop>
        ensures ok { OnOk result (Says (K.taken sink.old) (K.taken sink.new) self.old.waiting.items self.new.waiting.items []) }
        ensures err { OnErr result (AppendsFront (K.taken sink.old) (K.taken sink.new) self.old.waiting.items) }
        ensures why { IfErr result (λ stop. stop ≡ Stop.Write) }
        ensures cause { HasStopCause (K.faults sink.old) (K.faults sink.new) result }
    {
        if self.waiting.len() < PIECE {
            return Ok(());
        }
        sink.put(&self.waiting)?;
        self.waiting.clear();
        Ok(())
    }

    /// Puts all that waits, for want of memory.
    pub fn give_up<K: Sink>(&self, sink: &mut K) -> Stop
        ensures puts { Puts result (K.taken sink.old) (K.taken sink.new) self.now.waiting.items }
        ensures write { result ≡ Stop.Write → Rose (K.faults sink.old) (K.faults sink.new) }
        ensures later { K.faults sink.old ≤ K.faults sink.new }
    {
        match sink.put(&self.waiting) {
            Ok(()) => Stop::Memory,
            Err(_) => Stop::Write,
        }
    }

    /// Puts all that waits, and behind it the history and the number of accesses.
    pub fn close<K: Sink>(mut self, machine: &Machine, sink: &mut K) -> Result<(), Stop>
        ensures ok { OnOk result ((o : Opening) (rs : List Record) → IsAt o machine.now rs → Appends (K.taken sink.old) (K.taken sink.new) (self.waiting.items ++ ending (entries_in rs) (made_after o.made rs))) }
        ensures err { IfErr result (λ stop. (o : Opening) (rs : List Record) → IsAt o machine.now rs → PutsEnding stop (K.taken sink.old) (K.taken sink.new) self.waiting.items (ending (entries_in rs) (made_after o.made rs))) }
        ensures cause { HasStopCause (K.faults sink.old) (K.faults sink.new) result }
    {
        self.piece.clear();
        match push_ending(&mut self.piece, machine.history(), machine.made()) {
            Ok(()) => Ok(put_both(sink, &self.waiting, &self.piece)?),
            Err(_) => Err(self.give_up(sink)),
        }
    }
}

/// Builds what an event prints.
fn push_said(
    piece: &mut Vec<u8>,
    machine: &Machine,
    listed: usize,
    note: &Note,
) -> Result<(), AllocError>
    ensures ok { OnOk result ((o : Opening) (rs : List Record) (r : Record) → IsAt o machine.now (rs ++ r ∷ []) → r.note ≡ note.now → listed ≡ length (listed_in o.listed machine.now.pool.traced rs)
        → piece.new.items ≡ piece.old.items ++ said machine.now.pool.traced r) }
{
    push_listed(piece, machine.accesses(), listed)?;
    push_note(piece, machine.traced(), note, machine.batch())?;
    Ok(())
}

/// Builds the line of the access with this number in a list, if there is one.
fn push_listed(piece: &mut Vec<u8>, accesses: &[Access], listed: usize) -> Result<(), AllocError>
    ensures { OnOk result (piece.new.items ≡ piece.old.items ++ traced true (slice_get accesses.now listed)) }
{
    match accesses.get(listed) {
        Some(access) => push_access(piece, access),
        None => Ok(()),
    }
}
