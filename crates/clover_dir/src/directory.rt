// The metadata server's directory: which key has which slot, and the root version of each slot.
ghost use Rattle.std.specs.Prelude.{◌≡◌, ◌<◌, ◌≤◌, ◌↔◌, ◌^◌, ℕ, length, replicate, slice_index_or, Some, None, IsNone, IsSome, IfSome, IfOk};
ghost use Rattle.clover_rule.specs.Lists.{Within};
ghost use Rattle.clover_dir.specs.Bindings.{pairs_of};
ghost use Rattle.clover_dir.specs.Names.{IsNew};
ghost use Rattle.clover_dir.specs.Directory.{IsBound, IsDirectory, nothing_bound, root_of, with_root, with_binding};

use crate::binding::Binding;
use crate::names::Names;
use clover_list::OutOfMemory;
use clover_map::Key;
use clover_words::{Pool, Tag};
use std::alloc::Global;
use std::marker::Model;

/// The bindings of a pool's slots, in the order in which they were made, each with the slot's root version.
#[derive(Drop)]
pub struct Directory {
    pool: Pool,
    names: Names,
    // The root version of each slot.
    roots: Vec<Option<Tag>>,
    // The lowest unbound slot, or the number of slots.
    low: u32,
}

impl Model for Directory {
    ghost use Rattle.clover_dir.specs.Directory.{Bindings};

    ghost Value = { Bindings };

    ghost use Rattle.clover_dir.specs.Kept.{directory_in, IsDirectoryKept};

    ghost view = { directory_in };

    ghost invariant = { IsDirectoryKept };
}

impl Directory {
    /// The directory of a pool in which no slot is bound. `OutOfMemory` for want of memory: this is the only call that
    /// takes any.
    pub fn make(alloc: Global, pool: Pool) -> Result<Directory, OutOfMemory>
        ensures { IfOk result (λ directory. directory ≡ nothing_bound pool) }
    {
        let names = Names::make(alloc, pool.slots)?;
        let roots = unbound(alloc, pool.slots)?;
        Ok(Directory {
            pool,
            names,
            roots,
            low: 0,
        })
    }

    /// The slot of the key. None exactly where the key is not bound.
    pub fn find(&self, key: &Key) -> Option<u32>
        ensures found { IfSome result (λ slot. Within (slot, key.now) self.now.list) }
        ensures only { (slot : ℕ) → Within (slot, key.now) self.now.list → result ≡ Some slot }
        ensures none { IsNone result ↔ IsNew key.now self.now.list }
    {
        self.names.find(key)
    }

    /// The lowest unbound slot. None exactly where all slots are bound.
    pub fn free_slot(&self) -> Option<u32>
        ensures free { IfSome result (λ slot. (slot < self.now.pool.slots) × (IsBound slot self.now → ⊥)) }
        ensures lowest { IfSome result (λ slot. (s : ℕ) → s < slot → IsBound s self.now) }
        ensures none { IsNone result ↔ ((s : ℕ) → s < self.now.pool.slots → IsBound s self.now) }
    {
        if self.low < self.pool.slots {
            Some(self.low)
        } else {
            None
        }
    }

    /// The bindings, in the order in which they were made.
    pub fn list(&self) -> &[Binding]
        ensures pairs { pairs_of result.now ≡ self.now.list }
        ensures few { length result.now ≤ self.now.pool.slots }
    {
        self.names.list()
    }

    /// The root version of the slot. None exactly where the slot is unbound.
    pub fn root(&self, slot: u32) -> Option<Tag>
        ensures value { result ≡ root_of self.now slot }
        ensures bound { IsSome result ↔ IsBound slot self.now }
    {
        match self.roots.get(slot as usize) {
            Some(root) => *root,
            None => None,
        }
    }

    /// What holds of each directory: no slot and no key is bound twice, and exactly the bound slots have a root version.
    /// This is for proofs, and does nothing.
    pub fn stands(&self)
        ensures { IsDirectory self.now }
    {
        let _ = &self.low;
    }

    /// Sets the root version of a bound slot.
    pub fn move_root(&mut self, slot: u32, root: Tag)
        requires { IsBound slot self.old }
        ensures { self.new ≡ with_root self.old slot root }
    {
        self.roots[slot as usize] = Some(root);
    }

    /// Binds the key to the slot, with this root version. The binding is the last one. It takes no memory.
    pub fn enter(&mut self, slot: u32, key: Key, root: Tag)
        requires slot { slot < self.old.pool.slots }
        requires unbound { IsBound slot self.old → ⊥ }
        requires new { IsNew key self.old.list }
        ensures { self.new ≡ with_binding self.old slot key root }
    {
        self.names.push(slot, key);
        self.roots[slot as usize] = Some(root);
        self.low = first_unbound(&self.roots, self.low);
    }
}

// The roots of so many slots, none of which is bound.
fn unbound(alloc: Global, slots: u32) -> Result<Vec<Option<Tag>>, OutOfMemory>
    ensures { IfOk result (λ roots. roots.items ≡ replicate slots None) }
{
    match vec![in alloc; None; slots as usize] {
        Ok(roots) => Ok(roots),
        Err(_) => Err(OutOfMemory),
    }
}

// The first slot without a root version from this one on, or the number of slots.
fn first_unbound(roots: &[Option<Tag>], from: u32) -> u32
    requires long { length roots.now < 2 ^ 32 }
    requires from { from ≤ length roots.now }
    ensures behind { from ≤ result }
    ensures inside { result ≤ length roots.now }
    ensures first { result < length roots.now → slice_index_or roots.now result None ≡ None }
    ensures before { (s : ℕ) → from ≤ s → s < result → IsSome (slice_index_or roots.now s None) }
{
    let mut slot = from;
    while (slot as usize) < roots.len() && roots[slot as usize].is_some() {
        slot += 1;
    }
    slot
}
