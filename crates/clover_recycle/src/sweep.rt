// A sweep over the list of bindings, from the first one on.
ghost use Rattle.std.specs.Prelude.{◌≡◌, ℕ, ◌≤◌, ◌↔◌, IsNone, IfSome, Some, slice_get, length};
ghost use Rattle.clover_recycle.specs.Sweeping.{after_turn};

use crate::turn::RecycleTurn;
use clover_dir::Binding;
use std::marker::Model;

/// A sweep over the list of bindings. It says which slot is to be recycled next: the first one, until its root version
/// was read unlinked, then the second one, and so on to the last.
#[derive(Clone, Copy)]
pub struct Sweep {
    // How many of the bindings it has left.
    position: usize,
}

impl Model for Sweep {
    ghost Value = { ℕ };

    ghost view = { λ s. s.position };

    ghost inverse = { λ n. record { position = n } };
}

impl Sweep {
    /// A sweep that is at the first binding. Contracts see how many bindings a sweep has left.
    pub fn make() -> Sweep
        ensures { result ≡ 0 }
    {
        Sweep { position: 0 }
    }

    /// The slot that the sweep is at, of the list of bindings. None exactly where it has left the last one.
    pub fn slot(&self, bindings: &[Binding]) -> Option<u32>
        ensures slot { IfSome result (λ slot. IfSome (slice_get bindings.now self.now) (λ binding. binding.slot ≡ slot)) }
        ensures none { IsNone result ↔ (length bindings.now ≤ self.now) }
    {
        match bindings.get(self.position) {
            Some(binding) => Some(binding.slot),
            None => None,
        }
    }

    /// Takes what a step on that slot's recycling came to: only at `Unlinked` the sweep leaves the slot.
    pub fn turn(&mut self, turn: &RecycleTurn)
        ensures { self.new ≡ after_turn self.old turn.now }
    {
        match turn {
            RecycleTurn::Unlinked => self.position = self.position.saturating_add(1),
            RecycleTurn::More | RecycleTurn::Recycled { .. } | RecycleTurn::Unreached => {}
        }
    }
}
