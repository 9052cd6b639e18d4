// What the tests over a plain pool tell apart of a node's turns.
ghost use Rattle.clover_node.specs.declared.answer.NodeTurn.TheVariants.{Decided as IsDecided, Done as IsDone, Refused as IsRefused};
ghost use Rattle.clover_pools.specs.Turns.{IsOutcome};

use clover_node::{Answer, NodeRefusal, NodeTurn};

/// What an access of a call came to, with the number of the tag that it tells.
#[derive(Clone, Copy)]
pub enum Outcome {
    /// The call goes on.
    More,
    /// The access committed a call that stores.
    Committed(u64),
    /// Such a call is over.
    Stored(u64),
    /// A get is over, and found a value with these flags.
    Found(u64, u32),
    /// A call is over, and its key has nothing.
    Absent,
    /// The stock is empty.
    NeedsStock,
    /// The node has so many names, and so many bindings there are.
    NeedsNames(u32, u32),
    /// Anything else.
    Other,
}

// What it comes to that an access decided this answer.
fn decided(answer: Answer) -> Outcome
    ensures { IsOutcome (IsDecided answer) result }
{
    match answer {
        Answer::Stored { tag } => Outcome::Committed(tag.number()),
        _ => Outcome::Other,
    }
}

// What it comes to that a call is over with this answer.
fn done(answer: Answer) -> Outcome
    ensures { IsOutcome (IsDone answer) result }
{
    match answer {
        Answer::Stored { tag } => Outcome::Stored(tag.number()),
        Answer::Found { tag, flags } => Outcome::Found(tag.number(), flags),
        Answer::Absent => Outcome::Absent,
        _ => Outcome::Other,
    }
}

// What it comes to that a call is over without an answer, or was not started.
fn refused(refusal: NodeRefusal) -> Outcome
    ensures { IsOutcome (IsRefused refusal) result }
{
    match refusal {
        NodeRefusal::NeedsStock => Outcome::NeedsStock,
        NodeRefusal::NeedsNames { known, bound } => Outcome::NeedsNames(known, bound),
        _ => Outcome::Other,
    }
}

/// What a turn comes to.
pub fn outcome_of(turn: NodeTurn) -> Outcome
    ensures { IsOutcome turn result }
{
    match turn {
        NodeTurn::More => Outcome::More,
        NodeTurn::Decided(answer) => decided(answer),
        NodeTurn::Done(answer) => done(answer),
        NodeTurn::Refused(refusal) => refused(refusal),
    }
}
