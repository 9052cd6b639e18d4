// Sources and a sink in memory. Chosen calls of theirs fail, so that every path of a command can be tried.
ghost use Rattle.std.specs.Prelude.{◌≡◌, ◌<◌, ◌↔◌, ◌⊎◌, ◌++◌, [], length, min, take, drop, Contains, IsErr, IfOk, OnOk, OnErr};
ghost use Rattle.std.specs.Io.{ReadsAtMost};
ghost use Rattle.std.specs.Io.KnownBytes.{ReadConsumes, Appends};
ghost use Rattle.clover_main.specs.Causes.{HasCause, AppendsFront};
ghost use Rattle.clover_main.specs.Memory.{raised};

use crate::io::{Failed, Sink, Source};
use clover_list::{ItemList, OutOfMemory};
use clover_script::Bulk;
use std::alloc::Global;
use std::marker::Model;

/// A list of numbers of calls, counted from 1.
pub type NumberList = ItemList<u64>;

/// A source of these bytes, of which the calls with the listed numbers fail. A call that fails moves
/// nothing, and counts.
#[derive(Drop)]
pub struct MemorySource {
    bytes: Bulk,
    at: usize,
    failing: NumberList,
    calls: u64,
    faults: u64,
}

impl Model for MemorySource {
    ghost use Rattle.std.specs.Prelude.{◌≤◌, length, drop};
    ghost use Rattle.clover_main.specs.Memory.{MemoryInput};

    ghost Value = { MemoryInput };

    ghost view = { λ s. record { left = drop s.at s.bytes; failing = s.failing; calls = s.calls; faults = s.faults } };

    ghost invariant = { λ s. s.at ≤ length s.bytes };
}

impl MemorySource {
    /// The source of these bytes. Takes no memory.
    pub fn make(bytes: Bulk, failing: NumberList) -> MemorySource
        ensures left { result.left ≡ bytes }
        ensures failing { result.failing ≡ failing }
        ensures fresh { (result.calls ≡ 0) × (result.faults ≡ 0) }
    {
        MemorySource {
            bytes,
            at: 0,
            failing,
            calls: 0,
            faults: 0,
        }
    }
}

impl Source for MemorySource {
    ghost use Rattle.std.specs.Prelude.{Some};

    ghost left = { λ s. Some s.left };

    ghost faults = { λ s. s.faults };

    fn take(&mut self, into: &mut [u8]) -> Result<usize, Failed>
        ensures bound { ReadsAtMost result into.new }
        ensures bytes { ReadConsumes (Some self.old.left) (Some self.new.left) result into.new }
        ensures cause { HasCause self.old.faults self.new.faults result }
        // It fails exactly at the listed calls, and otherwise moves all that there is room for.
        ensures fails { IsErr result ↔ Contains self.old.failing (raised self.old.calls) }
        ensures most { IfOk result (λ count. count ≡ min (length self.old.left) (length into.old)) }
        ensures counts { (self.new.calls ≡ raised self.old.calls) × (self.new.failing ≡ self.old.failing) }
    {
        self.calls = self.calls.saturating_add(1);
        if self.failing.items().contains(&self.calls) {
            self.faults = self.faults.saturating_add(1);
            return Err(Failed);
        }
        let count = move_front(&self.bytes.items()[self.at..], into);
        self.at += count;
        Ok(count)
    }
}

/// Moves as many bytes as there are and as there is room for.
fn move_front(left: &[u8], into: &mut [u8]) -> usize
    ensures count { result ≡ min (length left.now) (length into.old) }
    ensures bytes { into.new ≡ take result left.now ++ drop result into.old }
{
    let count = left.len().min(into.len());
    into[..count].copy_from_slice(&left[..count]);
    count
}

/// A source of these bytes that never fails.
#[derive(Drop)]
pub struct SteadySource {
    bytes: Bulk,
    at: usize,
}

impl Model for SteadySource {
    ghost use Rattle.std.specs.Prelude.{◌≤◌, List, ℕ, length, drop};

    ghost Value = { List ℕ };

    ghost view = { λ s. drop s.at s.bytes };

    ghost invariant = { λ s. s.at ≤ length s.bytes };
}

impl SteadySource {
    /// The source of these bytes. Takes no memory.
    pub fn make(bytes: Bulk) -> SteadySource
        ensures { result ≡ bytes }
    {
        SteadySource { bytes, at: 0 }
    }
}

impl Source for SteadySource {
    ghost use Rattle.std.specs.Prelude.{Some};

    ghost left = { λ s. Some s };

    ghost faults = { λ s. 0 };

    fn take(&mut self, into: &mut [u8]) -> Result<usize, Failed>
        ensures bound { ReadsAtMost result into.new }
        ensures bytes { ReadConsumes (Some self.old) (Some self.new) result into.new }
        ensures cause { HasCause 0 0 result }
        ensures most { result ≡ Ok (min (length self.old) (length into.old)) }
    {
        let count = move_front(&self.bytes.items()[self.at..], into);
        self.at += count;
        Ok(count)
    }
}

/// A sink that has room for some bytes, and of which the calls with the listed numbers fail. A call
/// that fails, by the list or for want of room, takes nothing, and counts.
#[derive(Drop)]
pub struct MemorySink {
    bytes: Vec<u8>,
    room: usize,
    failing: NumberList,
    calls: u64,
    faults: u64,
}

impl Model for MemorySink {
    ghost use Rattle.std.specs.Prelude.{◌+◌, ◌≤◌, vec_len, vec_capacity};
    ghost use Rattle.clover_main.specs.Memory.{MemoryOutput};

    ghost Value = { MemoryOutput };

    ghost view = { λ s. record { taken = s.bytes.items; room = s.room; failing = s.failing; calls = s.calls; faults = s.faults } };

    ghost invariant = { λ s. vec_len s.bytes + s.room ≤ vec_capacity s.bytes };
}

impl MemorySink {
    /// The sink with this room, in bytes. All its memory is taken here.
    pub fn make(alloc: Global, room: usize, failing: NumberList) -> Result<MemorySink, OutOfMemory>
        ensures made { IfOk result (λ sink. (sink.taken ≡ []) × (sink.room ≡ room) × (sink.failing ≡ failing) × (sink.calls ≡ 0) × (sink.faults ≡ 0)) }
    {
        let mut bytes = Vec::new(alloc);
        match bytes.try_reserve(room) {
            Ok(()) => Ok(MemorySink {
                bytes,
                room,
                failing,
                calls: 0,
                faults: 0,
            }),
            Err(_) => Err(OutOfMemory),
        }
    }

    /// The bytes taken, in order.
    pub fn bytes(&self) -> &[u8]
        ensures { result.now ≡ self.now.taken }
    {
        &self.bytes
    }
}

impl Sink for MemorySink {
    ghost use Rattle.std.specs.Prelude.{Some};

    ghost taken = { λ s. Some s.taken };

    ghost faults = { λ s. s.faults };

    fn put(&mut self, piece: &[u8]) -> Result<(), Failed>
        ensures ok { OnOk result (Appends (Some self.old.taken) (Some self.new.taken) piece.now) }
        ensures err { OnErr result (AppendsFront (Some self.old.taken) (Some self.new.taken) piece.now) }
        ensures cause { HasCause self.old.faults self.new.faults result }
        // It fails exactly at the listed calls and where the piece is longer than the room, and takes nothing then.
        ensures fails { IsErr result ↔ (Contains self.old.failing (raised self.old.calls) ⊎ (self.old.room < length piece.now)) }
        ensures kept { OnErr result ((self.new.taken ≡ self.old.taken) × (self.new.room ≡ self.old.room)) }
        ensures counts { (self.new.calls ≡ raised self.old.calls) × (self.new.failing ≡ self.old.failing) }
    {
        self.calls = self.calls.saturating_add(1);
        if self.failing.items().contains(&self.calls) || piece.len() > self.room {
            self.faults = self.faults.saturating_add(1);
            return Err(Failed);
        }
        self.room -= piece.len();
        match self.bytes.extend_from_slice(piece) {
            Ok(()) => Ok(()),
            Err(_) => unreachable!(),
        }
    }
}
