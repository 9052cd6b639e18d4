// The stock of a node: the tags of the buffers that the server handed to it.
ghost use Rattle.std.specs.Prelude.{◌≡◌, ◌-◌, ◌≤◌, ◌++◌, [], length, drop, slice_get, IfOk, IsTrue, ◌↔◌};

use circular_buffer::HeapCircularBuffer;
use clover_list::OutOfMemory;
use clover_words::Tag;
use std::alloc::Global;
use std::marker::Model;

/// At most 64 tags, in the order in which they were added. Contracts see them as a list.
#[derive(Drop)]
pub struct Stock {
    tags: HeapCircularBuffer<Tag>,
}

impl Model for Stock {
    ghost use Rattle.std.specs.Prelude.{◌≡◌, List};
    ghost use Rattle.clover_words.specs.Tag.{TagParts};

    ghost Value = { List TagParts };

    ghost view = { λ s. s.tags.items };

    ghost invariant = { λ s. s.tags.capacity ≡ 64 };
}

impl Stock {
    /// No tags, with room for 64. `OutOfMemory` for want of memory.
    pub fn make(alloc: Global) -> Result<Stock, OutOfMemory>
        ensures { IfOk result (λ stock. stock ≡ []) }
    {
        Ok(Stock {
            tags: HeapCircularBuffer::with_capacity(alloc, 64)?,
        })
    }

    /// How many tags there are.
    pub fn len(&self) -> usize
        ensures length { result ≡ length self.now }
        ensures most { result ≤ 64 }
    {
        self.tags.len()
    }

    /// Whether there are none.
    pub fn is_empty(&self) -> bool
        ensures { IsTrue result ↔ (self.now ≡ []) }
    {
        self.tags.is_empty()
    }

    /// The tag that was added first of those that are left.
    pub fn first(&self) -> Option<Tag>
        ensures { result ≡ slice_get self.now 0 }
    {
        self.tags.front().copied()
    }

    /// Takes the first tag away.
    pub fn take(&mut self)
        ensures { self.new ≡ drop 1 self.old }
    {
        let _ = self.tags.pop_front();
    }

    /// Puts the tags at the end. There is room for them.
    pub fn add(&mut self, tags: &[Tag])
        requires room { length tags.now ≤ 64 - length self.old }
        ensures { self.new ≡ self.old ++ tags.now }
    {
        let _ = self.tags.fill_from_slice(tags);
    }
}
