// What a step of a node answers.
ghost use Rattle.std.specs.Prelude.{◌≡◌};
ghost use Rattle.clover_node.specs.Turning.{of_refusal, of_turn, count_turn};

use crate::counting::Counting;
use clover_call::{Answer, CallerRefusal, CallerTurn};
use clover_words::Tag;

/// Why a call ended without an answer, or did not start.
#[derive(Clone, Copy)]
pub enum NodeRefusal {
    /// An access was refused before the call had committed: nothing of it is seen by others.
    Unreached,
    /// The turns of the call have reached the budget, the number of the pool's buffers and two more.
    Behind { turns: u64 },
    /// An access was refused after the call had linked its version, which has this tag.
    Linked { tag: Tag },
    /// The value has more bytes than a buffer has room for.
    TooLong { length: usize, room: usize },
    /// The call may need a buffer for a new version, and the stock is empty.
    NeedsStock,
    /// The node has so many names, not the key's, and so many bindings there are: for a put the key has to be bound,
    /// and for any other call there are bindings that the node does not know.
    NeedsNames { known: u32, bound: u32 },
}

/// What a step of a node came to.
#[derive(Clone, Copy)]
pub enum NodeTurn {
    /// The call goes on by a further step.
    More,
    /// This access committed the call, and decided its answer. It goes on, to make that durable.
    Decided(Answer),
    /// The call is over with this answer.
    Done(Answer),
    /// The call is over without an answer.
    Refused(NodeRefusal),
}

// A caller's refusal as the node's.
fn refusal_of(refusal: CallerRefusal) -> NodeRefusal
    ensures { result ≡ of_refusal refusal }
{
    match refusal {
        CallerRefusal::Unreached => NodeRefusal::Unreached,
        CallerRefusal::Behind { turns } => NodeRefusal::Behind { turns },
        CallerRefusal::Linked { tag } => NodeRefusal::Linked { tag },
        CallerRefusal::TooLong { length, room } => NodeRefusal::TooLong { length, room },
    }
}

/// A caller's turn as the node's.
pub(crate) fn turn_of(turn: CallerTurn) -> NodeTurn
    ensures { result ≡ of_turn turn }
{
    match turn {
        CallerTurn::More => NodeTurn::More,
        CallerTurn::Decided(answer) => NodeTurn::Decided(answer),
        CallerTurn::Done(answer) => NodeTurn::Done(answer),
        CallerTurn::Refused(refusal) => NodeTurn::Refused(refusal_of(refusal)),
    }
}

/// The turn of a load of the count that gave so many bindings, where the node has so many names.
pub(crate) fn counted(counting: Counting, known: u32, bound: u32) -> NodeTurn
    ensures { result ≡ count_turn counting known bound }
{
    match counting {
        Counting::Absence if bound == known => NodeTurn::Done(Answer::Absent),
        _ => NodeTurn::Refused(NodeRefusal::NeedsNames { known, bound }),
    }
}
