// Running the lines of a script: each is read, run over the machine one event at a time, and what its events print
// goes to the sink in pieces. Nothing is kept of a line.
ghost use Rattle.std.specs.Prelude.{◌≡◌, ◌<◌, ◌++◌, List, [], length, OnOk, IfOk, IfErr};
ghost use Rattle.clover_script.specs.Line.{lines_of, IsLineOf};
ghost use Rattle.clover_script.specs.declared.line.Line.{Line as LineData};
ghost use Rattle.clover_run.specs.Folds.{listed_in};
ghost use Rattle.clover_run.specs.Lines.{CoversLine, Covers};
ghost use Rattle.clover_run.specs.Machine.{IsAt};
ghost use Rattle.clover_run.specs.Record.{Record};
ghost use Rattle.clover_run.specs.Run.{Opening};
ghost use Rattle.clover_run.specs.Running.{Comes, IsLeft, IsPartOrAll, MayRun, steps_line};
ghost use Rattle.clover_main.specs.Beginnings.{CoversFront};
ghost use Rattle.clover_main.specs.Causes.{HasStopCause};
ghost use Rattle.clover_main.specs.Cuts.{IsUncut, HasNoCuts};
ghost use Rattle.clover_main.specs.Hearing.{Heard};
ghost use Rattle.clover_run.specs.Lawful.{IsLawful};
ghost use Rattle.clover_main.specs.Running.{Ran, Runs, Fails, Stops, left_of, most_steps, IsSaidBy, IsPartOfSaid};

use crate::io::Sink;
use crate::output::{Output, Stop};
use clover_run::{Advance, Machine, Work, begin_line, work_on};
use clover_script::{Line, first_line, is_ignored, line_of};
use std::alloc::Global;

/// Puts out what the last event printed, with a trace the access behind those that were listed before it, and
/// answers what is left of the event's line.
#[inline(always)]
fn tell<K: Sink>(
    machine: &Machine,
    listed: usize,
    came: Option<Advance>,
    out: &mut Output,
    sink: &mut K,
) -> Result<Option<Work>, Stop>
    ensures ok { IfOk result (λ left. (o : Opening) (rs more : List Record) (line : LineData) → IsAt o machine.now (rs ++ more) → Comes line came rs more → listed ≡ length (listed_in o.listed machine.now.pool.traced rs)
        → Ran o machine.now.pool.traced rs machine.now (K.taken sink.old) (K.taken sink.new) out.old.waiting.items out.new.waiting.items (IsLeft line left rs)) }
    ensures left { IfOk result (λ left. left ≡ left_of came) }
    ensures err { IfErr result (λ stop. (o : Opening) (rs more : List Record) (line : LineData) → IsLawful o rs → IsAt o machine.now (rs ++ more) → Comes line came rs more → listed ≡ length (listed_in o.listed machine.now.pool.traced rs)
        → Fails o machine.now.pool.traced rs stop (K.taken sink.old) (K.taken sink.new) out.old.waiting.items (IsPartOrAll line rs)) }
    ensures cause { HasStopCause (K.faults sink.old) (K.faults sink.new) result }
{
    let Some(Advance { note, left }) = came else {
        return Ok(None);
    };
    match out.say(machine, listed, &note) {
        Ok(()) => {}
        Err(_) => return Err(out.give_up(sink)),
    }
    out.put_much(sink)?;
    Ok(Some(left))
}

/// The first event of a line. Answers what is left of it.
fn begin<K: Sink>(
    machine: &mut Machine,
    line: Line,
    out: &mut Output,
    sink: &mut K,
) -> Result<Option<Work>, Stop>
    requires may { MayRun line }
    ensures ok { IfOk result (λ left. Runs machine.old machine.new (K.taken sink.old) (K.taken sink.new) out.old.waiting.items out.new.waiting.items (IsLeft line left)) }
    ensures err { IfErr result (λ stop. Stops machine.old stop (K.taken sink.old) (K.taken sink.new) out.old.waiting.items (IsPartOrAll line)) }
    ensures cause { HasStopCause (K.faults sink.old) (K.faults sink.new) result }
{
    let listed = machine.accesses().len();
    match begin_line(machine, line) {
        Ok(came) => tell(machine, listed, came, out, sink),
        Err(_) => Err(out.give_up(sink)),
    }
}

/// The next of the steps that are left of a line. Answers what is left behind it.
#[inline(always)]
fn go_on<K: Sink>(
    machine: &mut Machine,
    work: Work,
    out: &mut Output,
    sink: &mut K,
) -> Result<Option<Work>, Stop>
    ensures ok { IfOk result (λ left. Runs machine.old machine.new (K.taken sink.old) (K.taken sink.new) out.old.waiting.items out.new.waiting.items (IsLeft (steps_line work) left)) }
    ensures less { IfOk result (λ left. most_steps machine.new left < most_steps machine.old (Some work)) }
    ensures err { IfErr result (λ stop. Stops machine.old stop (K.taken sink.old) (K.taken sink.new) out.old.waiting.items (IsPartOrAll (steps_line work))) }
    ensures cause { HasStopCause (K.faults sink.old) (K.faults sink.new) result }
{
    let listed = machine.accesses().len();
    match work_on(machine, work) {
        Ok(came) => tell(machine, listed, came, out, sink),
        Err(_) => Err(out.give_up(sink)),
    }
}

/// The events of a line.
fn run_line<K: Sink>(
    machine: &mut Machine,
    line: Line,
    out: &mut Output,
    sink: &mut K,
) -> Result<(), Stop>
    requires may { MayRun line }
    ensures ok { OnOk result (Runs machine.old machine.new (K.taken sink.old) (K.taken sink.new) out.old.waiting.items out.new.waiting.items (CoversLine line)) }
    ensures err { IfErr result (λ stop. Stops machine.old stop (K.taken sink.old) (K.taken sink.new) out.old.waiting.items (IsPartOrAll line)) }
    ensures cause { HasStopCause (K.faults sink.old) (K.faults sink.new) result }
{
    let mut left = begin(machine, line, out, sink)?;
    while let Some(work) = left {
        left = go_on(machine, work, out, sink)?;
    }
    Ok(())
}

/// The events of the line that a text says; none where it says none.
fn run_text<K: Sink>(
    alloc: Global,
    machine: &mut Machine,
    text: &[u8],
    out: &mut Output,
    sink: &mut K,
) -> Result<(), Stop>
    requires uncut { IsUncut text.now }
    ensures ok { OnOk result (Runs machine.old machine.new (K.taken sink.old) (K.taken sink.new) out.old.waiting.items out.new.waiting.items (IsSaidBy text.now)) }
    ensures err { IfErr result (λ stop. Stops machine.old stop (K.taken sink.old) (K.taken sink.new) out.old.waiting.items (IsPartOfSaid text.now)) }
    ensures cause { HasStopCause (K.faults sink.old) (K.faults sink.new) result }
{
    if is_ignored(text) {
        return Ok(());
    }
    match line_of(alloc, text) {
        Ok(Some(line)) => run_line(machine, line, out, sink),
        Ok(None) => Ok(()),
        Err(_) => Err(out.give_up(sink)),
    }
}

/// The lines behind the pool line of a text, in order; all others are passed over.
pub fn run_lines<K: Sink>(
    alloc: Global,
    machine: &mut Machine,
    text: &[u8],
    out: &mut Output,
    sink: &mut K,
) -> Result<(), Stop>
    requires uncut { HasNoCuts text.now }
    ensures ok { OnOk result ((o : Opening) (lines : List LineData) → IsAt o machine.old [] → Heard (lines_of text.now) lines → Ran o machine.old.pool.traced [] machine.new (K.taken sink.old) (K.taken sink.new) out.old.waiting.items out.new.waiting.items (Covers lines [])) }
    ensures err { IfErr result (λ stop. (o : Opening) (lines : List LineData) → IsAt o machine.old [] → Heard (lines_of text.now) lines → Fails o machine.old.pool.traced [] stop (K.taken sink.old) (K.taken sink.new) out.old.waiting.items (CoversFront lines)) }
    ensures cause { HasStopCause (K.faults sink.old) (K.faults sink.new) result }
{
    let mut rest = text;
    while !rest.is_empty() {
        let (line, after) = first_line(rest);
        run_text(alloc, machine, line, out, sink)?;
        rest = after;
    }
    Ok(())
}
