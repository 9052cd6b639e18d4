//! An actor's way to the words of a pool: one load, store, exchange or raise at a time, each of them a step that the
//! rule allows this actor. The layers above are generic over `Port`, so that they run alike over every pool.
#![tactic(auto)]

ghost use Rattle.std.specs.Prelude.{◌≡◌, ◌≤◌, ℕ, Bool, true, false, Option, Some, MatchResult};
ghost use Rattle.clover_words.specs.declared.pool.Pool.{Pool as Shape};
ghost use Rattle.clover_rule.specs.declared.view.View.{View};
ghost use Rattle.clover_rule.specs.Asks.{Asks};
ghost use Rattle.clover_rule.specs.Steps.{Step};
ghost use Rattle.clover_rule.specs.Meant.{IsLoad, IsStore, IsExchange, IsRaise};
ghost use Rattle.atomic_table.specs.Seated.{TableId};
ghost use Rattle.clover_port.specs.Told.{Open, Made, Rose};

mod op;

use clover_rule::StepName;
use clover_words::{Side, Word};
pub use op::{Op, perform};

/// An access was refused. It changed neither the words nor what the actor knows.
#[derive(Drop)]
pub struct Failed;

/// One actor's accesses. What a port means is what its actor knows, and the words and the history where the port
/// tells them.
pub trait Port {
    /// What the actor knows.
    ghost view: { Self → View };

    /// The words and the history, where the port tells them.
    ghost told: { Self → Option Open };

    /// The shape of the pool.
    ghost pool: { Self → Shape };

    /// The table that holds the views of the pool's actors, where it has one.
    ghost table: { Self → TableId };

    /// What the port borrows to change: the name of the `&mut` in it.
    ghost lender: { Self → ℕ };

    /// How often an access was refused. The count stands still at its type's end.
    ghost faults: { Self → ℕ };

    /// Whether the next access is refused, where the port knows it.
    ghost refuses: { Self → Option Bool };

    /// One access was made: this step, the first of its call or a later one, found this number. It may say more of
    /// the pool behind the port than the laws do, for a caller that knows which port it has.
    ghost made: { Self → Step → Bool → ℕ → Self → Type 0 };

    /// One access was refused.
    ghost failed: { Self → Self → Type 0 };

    /// Reads the current copy of the word. Fails only where it is refused.
    fn load<M: StepName>(&mut self, word: Word) -> Result<u64, Failed>
        requires step { IsLoad M.step word }
        requires rule { Asks (pool self.old) M.step (view self.old) }
        ensures ends { MatchResult result (λ x. made self.old M.step M.first x self.new) (λ e. failed self.old self.new) };

    /// Writes one copy of the word. Fails only where it is refused.
    fn store<M: StepName>(&mut self, word: Word, side: Side, value: u64) -> Result<(), Failed>
        requires step { IsStore M.step word side value }
        requires rule { Asks (pool self.old) M.step (view self.old) }
        ensures ends { MatchResult result (λ u. (x : ℕ) × made self.old M.step M.first x self.new) (λ e. failed self.old self.new) };

    /// Writes the new number to the current copy of a next word where that copy is the expected one, and gives
    /// the number that stood there before. Fails only where it is refused.
    fn exchange<M: StepName>(&mut self, word: Word, expected: u64, new: u64) -> Result<u64, Failed>
        requires step { IsExchange M.step word expected new }
        requires rule { Asks (pool self.old) M.step (view self.old) }
        ensures ends { MatchResult result (λ x. made self.old M.step M.first x self.new) (λ e. failed self.old self.new) };

    /// Leaves the greater of the number and the flushed copy of a next word there, and gives the copy that
    /// stood there before. Fails only where it is refused.
    fn raise<M: StepName>(&mut self, word: Word, value: u64) -> Result<u64, Failed>
        requires step { IsRaise M.step word value }
        requires rule { Asks (pool self.old) M.step (view self.old) }
        ensures ends { MatchResult result (λ x. made self.old M.step M.first x self.new) (λ e. failed self.old self.new) };

    /// An access that was made tells what the rule says of its step.
    ghost made_tells: { (p q : Self) (a : Step) (b : Bool) (x : ℕ) → made p a b x q → Made (pool p) a b (view p) (told p) x (view q) (told q) };

    /// It leaves the port what it was, counts no fault, and comes only where no refusal was foretold.
    ghost made_leaves: { (p q : Self) (a : Step) (b : Bool) (x : ℕ) → made p a b x q → (pool q ≡ pool p) × (table q ≡ table p) × (lender q ≡ lender p) × (faults q ≡ faults p) × (refuses p ≡ Some true → ⊥) };

    /// An access that was refused leaves all but the count of faults, and comes only where no access was foretold.
    ghost failed_leaves: { (p q : Self) → failed p q → (pool q ≡ pool p) × (table q ≡ table p) × (lender q ≡ lender p) × Rose (faults p) (faults q) × (view q ≡ view p) × (told q ≡ told p) × (refuses p ≡ Some false → ⊥) × (faults p ≤ faults q) };
}
