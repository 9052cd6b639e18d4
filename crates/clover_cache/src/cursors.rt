// The list of cursors. A look-up and a change cost the same however many slots there are: the pairs stand in a
// hash map and in a linked list.
ghost use Rattle.std.specs.Prelude.{◌≡◌, [], IfOk, IsSome, IsTrue, IsFalse};
ghost use Rattle.clover_cache.specs.Cursors.{IsCursorList, cursor_of, after_find, after_keep};

#[cfg(test)]
mod tests;

use clover_list::OutOfMemory;
use clover_words::Tag;
use lru::LruCache;
use std::alloc::Global;
use std::marker::Model;
use std::num::NonZeroUsize;

/// How many cursors a node keeps at most.
const CAPACITY: usize = 64;

/// The cursors that a compute node keeps, at most one for each slot and 64 in all. Contracts see the pairs of
/// slot and tag, most recent first.
#[derive(Drop)]
pub struct Cursors {
    cache: LruCache<u32, Tag>,
}

impl Model for Cursors {
    ghost use Rattle.std.specs.Prelude.{◌≡◌};
    ghost use Rattle.clover_cache.specs.Cursors.{CursorList, IsCursorList, most_cursors};

    ghost Value = { CursorList };

    ghost view = { λ c. c.cache.entries };

    ghost invariant = { λ c. (c.cache.cap ≡ most_cursors) × IsCursorList c.cache.entries };
}

impl Cursors {
    /// No cursors yet, with room in the look-up for all that there may be. `OutOfMemory` for want of memory.
    pub fn make(alloc: Global) -> Result<Cursors, OutOfMemory>
        ensures { IfOk result (λ c. c ≡ []) }
    {
        let cache = LruCache::new(alloc, NonZeroUsize::new(CAPACITY).unwrap())?;
        Ok(Cursors { cache })
    }

    /// The cursor kept for the slot, whose pair is then the most recent. None exactly where none is kept, and
    /// then nothing changes. Takes no memory.
    pub fn find(&mut self, slot: u32) -> Option<Tag>
        ensures answer { result ≡ cursor_of slot self.old }
        ensures list { self.new ≡ after_find slot self.old }
        ensures valid { IsCursorList self.new }
    {
        self.cache.get(&slot).copied()
    }

    /// Keeps the tag as the slot's cursor. True: the pair is the most recent, in the place of the slot's former
    /// one; where the slot had none and the list is full, the least recent pair is gone. False comes for want of
    /// memory alone, at a slot for which none is kept, and nothing changes.
    pub fn keep(&mut self, slot: u32, tag: Tag) -> bool
        ensures kept { IsTrue result → self.new ≡ after_keep slot tag self.old }
        ensures not_kept { IsFalse result → self.new ≡ self.old }
        ensures known_slot_is_kept { IsSome (cursor_of slot self.old) → IsTrue result }
        ensures valid { IsCursorList self.new }
    {
        self.cache.put(slot, tag).is_ok()
    }
}
