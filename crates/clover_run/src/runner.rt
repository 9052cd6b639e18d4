// Running a line over a machine, one event at a time: which event comes next, and what is left of the line. It knows
// neither where the line comes from nor where what its events print goes.
ghost use Rattle.std.specs.Prelude.{◌≡◌, ◌≤◌, ◌<◌, ◌↔◌, IsTrue, IfOk, IfSome, OnErr};
ghost use Rattle.clover_run.specs.Lines.{IsTurnedAway};
ghost use Rattle.clover_run.specs.Machine.{IsSame};
ghost use Rattle.clover_run.specs.Running.{Advances, MayRun, steps_line, steps_left};

use crate::event::Note;
use crate::machine::Machine;
use clover_list::OutOfMemory;
use clover_script::Line;

/// The steps of an actor that are left of a line.
#[derive(Clone, Copy, Debug, PartialEq, Eq)]
pub enum Work {
    /// So many steps.
    Steps { actor: u32, times: u64 },
    /// Steps until the actor has no task, or until one only waits.
    Finish { actor: u32 },
}

/// An event of a line: what it came to, and the steps that are left behind it.
#[derive(Drop)]
pub struct Advance {
    pub note: Note,
    pub left: Work,
}

// Whether a begin was turned away, by what it came to.
#[inline(always)]
fn is_turned_away(note: &Note) -> bool
    ensures { IsTrue result ↔ IsTurnedAway note.now }
{
    match note {
        Note::Busy { .. } | Note::Missing { .. } => true,
        _ => false,
    }
}

// An event behind which nothing of its line is left.
#[inline(always)]
fn last_of(actor: u32, note: Note) -> Advance
    ensures note { result.note ≡ note }
    ensures left { result.left ≡ Work.Steps actor 0 }
{
    Advance {
        note,
        left: Work::Steps { actor, times: 0 },
    }
}

/// Makes the first event of a line. None where all that the line asks for are steps of an actor that has no task or only
/// waits: nothing of it prints anything, and however many there are, no time is spent on them.
///
/// `OutOfMemory` for want of memory, and then nothing has happened.
pub fn begin_line(machine: &mut Machine, line: Line) -> Result<Option<Advance>, OutOfMemory>
    requires { MayRun line }
    ensures came { IfOk result (Advances machine.old machine.new line) }
    ensures same { OnErr result (IsSame machine.old machine.new) }
{
    match line {
        Line::Begin { actor, task } => {
            let note = machine.begin(actor, task);
            Ok(Some(last_of(actor, note)))
        }
        Line::Step { actor, times } => work_on(machine, Work::Steps { actor, times }),
        Line::Finish { actor } => work_on(machine, Work::Finish { actor }),
        Line::Call { actor, task } => {
            let note = machine.begin(actor, task);
            if is_turned_away(&note) {
                return Ok(Some(last_of(actor, note)));
            }
            Ok(Some(Advance {
                note,
                left: Work::Finish { actor },
            }))
        }
        Line::Refuse { actor } => {
            machine.refuse(actor);
            Ok(Some(last_of(actor, Note::Quiet)))
        }
        Line::Cut { .. } | Line::Image { .. } => unreachable!(),
    }
}

/// Makes the next of the steps that are left of a line. None where its actor has no task or only waits, or no step is
/// left: what is left prints nothing, and however much that is, no time is spent on it.
///
/// `OutOfMemory` for want of memory, and then nothing has happened.
#[inline(always)]
pub fn work_on(machine: &mut Machine, work: Work) -> Result<Option<Advance>, OutOfMemory>
    ensures came { IfOk result (Advances machine.old machine.new (steps_line work)) }
    ensures less { IfOk result (λ came. IfSome came (λ x. steps_left machine.new x.left < steps_left machine.old work)) }
    ensures same { OnErr result (IsSame machine.old machine.new) }
{
    match work {
        Work::Steps { actor, times } => {
            if times == 0 || !machine.acts(actor) {
                return Ok(None);
            }
            let note = machine.step(actor)?;
            Ok(Some(Advance {
                note,
                left: Work::Steps {
                    actor,
                    times: times - 1,
                },
            }))
        }
        Work::Finish { actor } => {
            if !machine.acts(actor) {
                return Ok(None);
            }
            let note = machine.step(actor)?;
            Ok(Some(Advance { note, left: work }))
        }
    }
}
