// One access of the call under way, by its kind: what it came to, and the cursor that it sets where it ends the call.
ghost use Rattle.std.specs.Prelude.{◌≡◌, ℕ};
ghost use Rattle.clover_get.specs.Getting.{get_step};
ghost use Rattle.clover_get.specs.Going.{key_of};
ghost use Rattle.clover_get.specs.Holding.{GetHolds};
ghost use Rattle.clover_put.specs.Holding.{PutHolds};
ghost use Rattle.clover_put.specs.Putting.{put_step};
ghost use Rattle.clover_call.specs.Going.{GoesOn, IsDue, Went};
ghost use Rattle.clover_call.specs.Turning.{OnMade, OnRefused, left_by, committed_as};
ghost use Rattle.clover_call.specs.declared.under.Underway.TheVariants.{Get as IsGet, Write as IsWrite};
ghost use Rattle.clover_words.specs.declared.bytes.ValueBuf.{ValueBuf as Room};

use crate::answer::{Answer, CallerRefusal, CallerTurn};
use clover_cache::NodeCursors;
use clover_get::{GetCall, GetTurn};
use clover_port::Port;
use clover_put::{Job, PutCall, PutTurn};
use clover_words::{Tag, ValueBuf};

/// The next access of a get.
pub(super) fn get<P: Port>(
    call: &mut GetCall,
    cursors: &mut NodeCursors,
    port: &mut P,
    into: &mut ValueBuf,
) -> CallerTurn
    requires pool { P.pool port.old ≡ call.old.walk.pool }
    requires holds { GetHolds call.old (P.view port.old) into.old }
    ensures made { OnMade result ((x : ℕ) × P.made port.old (get_step call.old (key_of call.old (P.view port.old)) into.old) call.old.walk.first x port.new × GoesOn (IsGet call.old) into.old x result (left_by result (IsGet call.new)) into.new × IsDue (IsGet call.old) into.old (get_step call.old (key_of call.old (P.view port.old)) into.old) x (left_by result (IsGet call.new)) into.new result) }
    ensures went { Went call.old.walk.pool (IsGet call.old) (left_by result (IsGet call.new)) cursors.old cursors.new into.new (P.view port.old) (P.told port.old) (P.view port.new) (P.told port.new) result }
    ensures refused { OnRefused result (P.failed port.old port.new × (into.new ≡ into.old)) }
{
    match call.step(port, into) {
        GetTurn::More => CallerTurn::More,
        GetTurn::Found { tag, flags } => {
            cursors.set(call.slot(), tag);
            CallerTurn::Done(Answer::Found { tag, flags })
        }
        GetTurn::Absent { tail } => {
            cursors.set(call.slot(), tail);
            CallerTurn::Done(Answer::Absent)
        }
        GetTurn::Behind { turns } => CallerTurn::Refused(CallerRefusal::Behind { turns }),
        GetTurn::Unreached => CallerTurn::Refused(CallerRefusal::Unreached),
    }
}

// The answer to a job that committed this tag.
fn committed(job: Job, tag: Tag) -> Answer
    ensures { result ≡ committed_as job tag }
{
    match job {
        Job::Put | Job::Swap(_) => Answer::Stored { tag },
        Job::Delete => Answer::Deleted { tag },
    }
}

/// The next access of a call that writes.
pub(super) fn write<P: Port>(
    call: &mut PutCall,
    cursors: &mut NodeCursors,
    port: &mut P,
) -> CallerTurn
    requires pool { P.pool port.old ≡ call.old.walk.pool }
    requires holds { PutHolds call.old (P.view port.old) }
    ensures made { (room : Room) → OnMade result ((x : ℕ) × P.made port.old (put_step call.old (P.view port.old)) call.old.walk.first x port.new × GoesOn (IsWrite call.old) room x result (left_by result (IsWrite call.new)) room × IsDue (IsWrite call.old) room (put_step call.old (P.view port.old)) x (left_by result (IsWrite call.new)) room result) }
    ensures went { (room : Room) → Went call.old.walk.pool (IsWrite call.old) (left_by result (IsWrite call.new)) cursors.old cursors.new room (P.view port.old) (P.told port.old) (P.view port.new) (P.told port.new) result }
    ensures refused { OnRefused result (P.failed port.old port.new) }
{
    match call.step(port) {
        PutTurn::More => CallerTurn::More,
        PutTurn::Decided { tag } => CallerTurn::Decided(committed(call.job(), tag)),
        PutTurn::Stored { tag } => {
            cursors.set(call.slot(), tag);
            CallerTurn::Done(Answer::Stored { tag })
        }
        PutTurn::Deleted { tag } => {
            cursors.set(call.slot(), tag);
            CallerTurn::Done(Answer::Deleted { tag })
        }
        PutTurn::Absent { tail } => {
            cursors.set(call.slot(), tail);
            CallerTurn::Done(Answer::Absent)
        }
        PutTurn::Differs { tag } => {
            cursors.set(call.slot(), tag);
            CallerTurn::Done(Answer::Differs { tag })
        }
        PutTurn::Behind { turns } => CallerTurn::Refused(CallerRefusal::Behind { turns }),
        PutTurn::Unreached => CallerTurn::Refused(CallerRefusal::Unreached),
        PutTurn::Linked { tag } => CallerTurn::Refused(CallerRefusal::Linked { tag }),
    }
}
