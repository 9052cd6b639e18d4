// A store of a restart: which copy of which word it is on, and what it writes.
ghost use Rattle.std.specs.Prelude.{◌≡◌, ℕ, false, MatchResult};
ghost use Rattle.clover_rule.specs.Asks.{Asks};
ghost use Rattle.clover_rule.specs.Steps.{Restart};
ghost use Rattle.clover_port.specs.Asked.{IsOp};
ghost use Rattle.clover_restart.specs.Stores.{store_of};

use clover_port::{Failed, Op, Port, perform};
use clover_rule::StepName;
use clover_words::{Side, Tag, Word};

/// A store that a restart makes.
#[derive(Clone, Copy)]
pub enum Store {
    /// This copy of the slot's root becomes 0.
    Clear(u32, Side),
    /// This copy of the next word of the tag's buffer becomes that of the tag, unlinked.
    Lift(Tag, Side),
    /// The count becomes this number.
    Count(u32),
}

impl Store {
    /// The access that makes the store.
    pub fn op(&self) -> Op
        ensures { IsOp (Restart (store_of self.now)) result }
    {
        match *self {
            Store::Clear(slot, side) => Op::Store {
                word: Word::Root(slot),
                side,
                value: 0,
            },
            Store::Lift(tag, side) => Op::Store {
                word: tag.next_word(),
                side,
                value: tag.unlinked(),
            },
            Store::Count(count) => Op::Store {
                word: Word::Count,
                side: Side::Current,
                value: u64::from(count),
            },
        }
    }
}

/// Makes the store, as the step that M names.
pub fn make_store<P: Port, M: StepName>(store: &Store, port: &mut P) -> Result<(), Failed>
    requires name { (M.step ≡ Restart (store_of store.now)) × (M.first ≡ false) }
    requires rule { Asks (P.pool port.old) (Restart (store_of store.now)) (P.view port.old) }
    // A store gives back no number, and any number that it may have found.
    ensures ends { MatchResult result (λ u. (y : ℕ) × P.made port.old (Restart (store_of store.now)) false y port.new) (λ e. P.failed port.old port.new) }
{
    match perform::<P, M>(port, store.op()) {
        Ok(_) => Ok(()),
        Err(failed) => Err(failed),
    }
}
