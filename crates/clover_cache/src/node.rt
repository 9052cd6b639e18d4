// The cursors of a node with the one that was set last: that one takes no memory, so it is always there.
ghost use Rattle.std.specs.Prelude.{◌≡◌, [], None, IfOk};
ghost use Rattle.clover_cache.specs.Cursors.{IsCursorList};
ghost use Rattle.clover_cache.specs.Node.{IsSet, cursor_at, asked};

#[cfg(test)]
mod tests;

use crate::cursors::Cursors;
use clover_list::OutOfMemory;
use clover_words::Tag;
use std::alloc::Global;
use std::marker::Model;

/// The cursors of one compute node: the one that was set last, with its slot, which is always there, and the list.
#[derive(Drop)]
pub struct NodeCursors {
    last: Option<(u32, Tag)>,
    list: Cursors,
}

impl Model for NodeCursors {
    ghost use Rattle.clover_cache.specs.Cursors.{IsCursorList};
    ghost use Rattle.clover_cache.specs.Node.{Known};

    ghost Value = { Known };

    ghost view = { λ c. record { last = c.last; list = c.list } };

    ghost invariant = { λ c. IsCursorList c.list };
}

impl NodeCursors {
    /// No cursors yet. `OutOfMemory` for want of memory.
    pub fn make(alloc: Global) -> Result<NodeCursors, OutOfMemory>
        ensures { IfOk result (λ c. c ≡ record { last = None; list = [] }) }
    {
        Ok(NodeCursors {
            last: None,
            list: Cursors::make(alloc)?,
        })
    }

    /// The slot's cursor: the one set last where it is this slot's, else the list's, whose pair is then the most
    /// recent. Takes no memory.
    pub fn find(&mut self, slot: u32) -> Option<Tag>
        ensures answer { result ≡ cursor_at slot self.old }
        ensures value { self.new ≡ asked slot self.old }
        ensures valid { IsCursorList self.new.list }
    {
        match self.last {
            Some((last, tag)) if slot == last => Some(tag),
            _ => self.list.find(slot),
        }
    }

    /// Sets the slot's cursor. It is the one set last; it is the list's most recent too, but for want of memory at a
    /// slot of which the list has none: then the list is as it was.
    pub fn set(&mut self, slot: u32, tag: Tag)
        ensures value { IsSet slot tag self.old self.new }
        ensures valid { IsCursorList self.new.list }
    {
        self.last = Some((slot, tag));
        let _ = self.list.keep(slot, tag);
    }
}
