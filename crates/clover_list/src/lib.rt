//! What every crate that takes memory stands on: the error for want of it, and a list that grows at its end, which
//! contracts see as the list of its items. Pushing may want memory, and where there is none the item comes back. The
//! list types of the crates above are names of it.
#![tactic(auto)]

ghost use Rattle.std.specs.Prelude.{◌≡◌, ◌++◌, ◌∷◌, [], OnOk, OnErr, IfErr};

mod memory;

pub use memory::OutOfMemory;
use std::alloc::{AllocError, Global};
use std::marker::Model;

/// A list of items, in the order in which they were pushed.
#[derive(Drop)]
pub struct ItemList<T> {
    items: Vec<T>,
}

impl<T> Model for ItemList<T> {
    ghost use Rattle.std.specs.Prelude.{List};

    ghost Value = { List T };

    ghost view = { λ l. l.items.items };
}

impl<T> ItemList<T> {
    /// The empty list. Takes no memory.
    pub fn make(alloc: Global) -> ItemList<T>
        ensures { result ≡ [] }
    {
        ItemList {
            items: Vec::new(alloc),
        }
    }

    /// Puts an item at the end. For want of memory alone the item comes back, and nothing changes.
    pub fn push(&mut self, item: T) -> Result<(), T>
        ensures ok { OnOk result (self.new ≡ self.old ++ item ∷ []) }
        ensures err { OnErr result (self.new ≡ self.old) }
        ensures back { IfErr result (λ back. back ≡ item) }
    {
        match self.items.push(item) {
            Ok(()) => Ok(()),
            Err(failed) => Err(failed.value),
        }
    }

    /// The items, in order. Takes no memory.
    pub fn items(&self) -> &[T]
        ensures { result.now ≡ self.now }
    {
        &self.items
    }
}

#[cfg(test)]
mod tests {
    use super::*;

    // The only thing that no clause says: with memory at hand, items are taken. At two types of item.
    #[test]
    fn keeps_what_is_pushed(rt: HostRuntime) {
        let mut numbers = ItemList::make(rt.alloc());
        assert!(rt; numbers.items().is_empty());
        for number in [3u64, 1, 2] {
            assert!(rt; numbers.push(number).is_ok());
        }
        assert!(rt; numbers.items() == [3u64, 1, 2].as_slice());
        let mut pairs = ItemList::make(rt.alloc());
        assert!(rt; pairs.push((1u32, true)).is_ok());
        assert!(rt; pairs.push((2u32, false)).is_ok());
        assert!(rt; pairs.items() == [(1u32, true), (2, false)].as_slice());
    }
}
