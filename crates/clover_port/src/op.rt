// An access that a machine asks for, and the one function that makes it.
ghost use Rattle.std.specs.Prelude.{ℕ, MatchResult};
ghost use Rattle.clover_rule.specs.Asks.{Asks};
ghost use Rattle.clover_port.specs.Asked.{IsOp, Finds};

use crate::{Failed, Port};
use clover_rule::StepName;
use clover_words::{Side, Word};

/// One access, as a machine asks for it: what it is on and what it writes.
pub enum Op {
    /// The current copy of the word is to be read.
    Load(Word),
    /// One copy of the word is to be written.
    Store { word: Word, side: Side, value: u64 },
    /// The new number is to be written where the current copy is the expected one.
    Exchange { word: Word, expected: u64, new: u64 },
    /// The greater of the number and the flushed copy is to be left there.
    Raise { word: Word, value: u64 },
}

/// Makes the access, as the step that M names, and gives the number that it found; of a store, nothing is said of it.
pub fn perform<P: Port, M: StepName>(port: &mut P, op: Op) -> Result<u64, Failed>
    requires step { IsOp M.step op }
    requires rule { Asks (P.pool port.old) M.step (P.view port.old) }
    ensures ends { MatchResult result (λ x. Finds op x (λ y. P.made port.old M.step M.first y port.new)) (λ e. P.failed port.old port.new) }
{
    match op {
        Op::Load(word) => port.load::<M>(word),
        Op::Store { word, side, value } => match port.store::<M>(word, side, value) {
            Ok(()) => Ok(0),
            Err(failed) => Err(failed),
        },
        Op::Exchange {
            word,
            expected,
            new,
        } => port.exchange::<M>(word, expected, new),
        Op::Raise { word, value } => port.raise::<M>(word, value),
    }
}
