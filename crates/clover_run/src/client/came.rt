// What a turn of the node comes to for the run: with numbers for tags, and with the value that was found.
ghost use Rattle.std.specs.Prelude.{◌≡◌};
ghost use Rattle.clover_words.specs.declared.bytes.ValueBuf.{ValueBuf};
ghost use Rattle.clover_call.specs.Turning.{reply_in};
ghost use Rattle.clover_event.specs.Stepping.{IsValueOf};
ghost use Rattle.clover_run.specs.Stepping.{IsCame, IsValue, refused_as};

use crate::want::Want;
use clover_event::CallRefusal;
use clover_map::{Reply, Value};
use clover_node::{Answer, NodeRefusal, NodeTurn};

/// What an access of a call came to.
#[derive(Drop)]
pub(super) enum Came {
    /// The call goes on.
    More,
    /// It has committed, with this reply for its entry.
    Decided(Reply),
    /// It is answered: the reply for its entry, and once more for its note.
    Done(Reply, Reply),
    /// It goes on once it has this of the server.
    Wants(Want),
    /// It ended without an answer.
    Refused(CallRefusal),
}

// The reply that an answer is, with the value where one was found.
#[inline(always)]
fn reply_of(answer: &Answer, value: Option<Value>) -> Reply
    requires value { (room : ValueBuf) × IsValueOf answer.now value room }
    ensures { (room : ValueBuf) → IsValueOf answer.now value room → result ≡ reply_in answer.now room }
{
    match answer {
        Answer::Stored { tag } => Reply::Stored { tag: tag.number() },
        Answer::Found { tag, .. } => match value {
            Some(value) => Reply::Found {
                tag: tag.number(),
                value,
            },
            None => unreachable!(),
        },
        Answer::Absent => Reply::Absent,
        Answer::Deleted { tag } => Reply::Deleted { tag: tag.number() },
        Answer::Differs { tag } => Reply::Differs { tag: tag.number() },
    }
}

// Why the call has no answer, or what it needs before it can go on.
#[inline(always)]
fn why(refusal: NodeRefusal) -> Came
    ensures { result ≡ refused_as refusal }
{
    match refusal {
        NodeRefusal::Unreached => Came::Refused(CallRefusal::Unreached),
        NodeRefusal::Behind { turns } => Came::Refused(CallRefusal::Behind { turns }),
        NodeRefusal::Linked { tag } => Came::Refused(CallRefusal::Linked { tag: tag.number() }),
        NodeRefusal::TooLong { length, room } => Came::Refused(CallRefusal::TooLong {
            length: length as u64,
            room: room as u64,
        }),
        NodeRefusal::NeedsStock => Came::Wants(Want::Stock),
        NodeRefusal::NeedsNames { .. } => Came::Wants(Want::Names),
    }
}

/// What this turn comes to. Where a value was found, it is passed twice, for the entry and for the note.
#[inline(always)]
pub(super) fn came_of(turn: NodeTurn, entered: Option<Value>, noted: Option<Value>) -> Came
    requires values { (room : ValueBuf) × IsValue turn entered room × IsValue turn noted room }
    ensures { (room : ValueBuf) → IsValue turn entered room → IsValue turn noted room → IsCame turn room result }
{
    match turn {
        NodeTurn::More => Came::More,
        NodeTurn::Decided(answer) => Came::Decided(reply_of(&answer, entered)),
        NodeTurn::Done(answer) => Came::Done(reply_of(&answer, entered), reply_of(&answer, noted)),
        NodeTurn::Refused(refusal) => why(refusal),
    }
}
