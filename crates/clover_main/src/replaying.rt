// The command that replays a script.
ghost use Rattle.std.specs.Prelude.{◌≡◌, ◌≤◌, ℕ, List, Some, OnOk, IfOk, IfErr};
ghost use Rattle.std.specs.Io.KnownBytes.{Appends};
ghost use Rattle.clover_script.specs.Line.{Spoken};
ghost use Rattle.clover_script.specs.Lines.{IsLinesOf};
ghost use Rattle.clover_port.specs.Told.{Rose};
ghost use Rattle.clover_main.specs.Causes.{HasStopCause};
ghost use Rattle.clover_main.specs.Cuts.{HasNoCuts};
ghost use Rattle.clover_main.specs.Reading.{Reads, TakesFew};
ghost use Rattle.clover_main.specs.Refusing.{HasShown};
ghost use Rattle.clover_main.specs.Replay.{IsReplay, Replays, StopsShort, LacksMemory, HasStopped, Refuses, IsExact};

use crate::io::{Sink, Source};
use crate::output::{Output, Stop};
use crate::read::read_all;
use crate::refusal::{Refusal, refuse};
use crate::running::run_lines;
use crate::uncut::check_uncut;
use clover_run::Machine;
use clover_words::Setup;
use std::alloc::Global;

/// Reads a script from the source, runs it, and puts what it prints into the sink, with a trace the
/// accesses besides. Answers the exit status: 0 where all was put, 1 for a line that is not built or
/// too much input, 2 for a failed read, 3 for a failed write, 4 for want of memory.
pub fn replay<S: Source, K: Sink>(alloc: Global, trace: bool, source: &mut S, sink: &mut K) -> u8
    // The source was read to its end, its bytes are a script, and the bytes put are the text of a run of
    // its lines, whose accesses replay and whose history is legal.
    ensures done { result ≡ 0 → Replays trace (S.left source.old) (S.left source.new) (K.taken sink.old) (K.taken sink.new) }
    ensures quiet { result ≡ 0 → (S.faults source.new ≡ S.faults source.old) × (K.faults sink.new ≡ K.faults sink.old) }
    // The line put names the first line that is not built, or says that the limit was passed.
    ensures refused { result ≡ 1 → Refuses 1 (S.left source.old) (S.left source.new) (S.faults source.old) (S.faults source.new) (K.taken sink.old) (K.taken sink.new) (K.faults sink.old) (K.faults sink.new) }
    ensures read_fault { result ≡ 2 → Refuses 2 (S.left source.old) (S.left source.new) (S.faults source.old) (S.faults source.new) (K.taken sink.old) (K.taken sink.new) (K.faults sink.old) (K.faults sink.new) }
    ensures write_fault { result ≡ 3 → Rose (K.faults sink.old) (K.faults sink.new) × StopsShort trace (S.left source.old) (S.left source.new) (K.taken sink.old) (K.taken sink.new) }
    // What was said before stays, and the line of want of memory stands behind it.
    ensures memory { result ≡ 4 → LacksMemory trace (S.left source.old) (S.left source.new) (K.taken sink.old) (K.taken sink.new) (K.faults sink.old) (K.faults sink.new) }
    // A failed read is not told as want of memory.
    ensures no_fault { result ≡ 4 → S.faults source.new ≡ S.faults source.old }
    // Reading ends one byte past the limit at the latest.
    ensures few { TakesFew (S.left source.old) (S.left source.new) }
    ensures no_other { result ≤ 4 }
    // Where no count rises, only want of memory keeps a script from being replayed, and any other text from being refused.
    ensures exact { (text : List ℕ) → S.left source.old ≡ Some text → (Rose (S.faults source.old) (S.faults source.new) → ⊥) → (Rose (K.faults sink.old) (K.faults sink.new) → ⊥) → IsExact text result }
{
    attempt(alloc, trace, source, sink)
}

/// The command, without the clause that follows from its others.
fn attempt<S: Source, K: Sink>(alloc: Global, trace: bool, source: &mut S, sink: &mut K) -> u8
    ensures done { result ≡ 0 → Replays trace (S.left source.old) (S.left source.new) (K.taken sink.old) (K.taken sink.new) }
    ensures quiet { result ≡ 0 → (S.faults source.new ≡ S.faults source.old) × (K.faults sink.new ≡ K.faults sink.old) }
    ensures refused { result ≡ 1 → Refuses 1 (S.left source.old) (S.left source.new) (S.faults source.old) (S.faults source.new) (K.taken sink.old) (K.taken sink.new) (K.faults sink.old) (K.faults sink.new) }
    ensures read_fault { result ≡ 2 → Refuses 2 (S.left source.old) (S.left source.new) (S.faults source.old) (S.faults source.new) (K.taken sink.old) (K.taken sink.new) (K.faults sink.old) (K.faults sink.new) }
    ensures write_fault { result ≡ 3 → Rose (K.faults sink.old) (K.faults sink.new) × StopsShort trace (S.left source.old) (S.left source.new) (K.taken sink.old) (K.taken sink.new) }
    ensures memory { result ≡ 4 → LacksMemory trace (S.left source.old) (S.left source.new) (K.taken sink.old) (K.taken sink.new) (K.faults sink.old) (K.faults sink.new) }
    ensures no_fault { result ≡ 4 → S.faults source.new ≡ S.faults source.old }
    ensures few { TakesFew (S.left source.old) (S.left source.new) }
    ensures no_other { result ≤ 4 }
{
    match script_of(alloc, source) {
        Ok(script) => match run_script(alloc, script.setup, &script.text, trace, sink) {
            Ok(()) => 0,
            Err(Stop::Write) => 3,
            Err(Stop::Memory) => refuse(sink, Refusal::OutOfMemory),
        },
        Err(refusal) => refuse(sink, refusal),
    }
}

/// The text of a script, and what it sets up.
#[derive(Drop)]
struct Script {
    text: Vec<u8>,
    setup: Setup,
}

/// The script of the source.
fn script_of<S: Source>(alloc: Global, source: &mut S) -> Result<Script, Refusal>
    ensures read { IfOk result (λ script. Reads (S.left source.old) (S.left source.new) script.text.items) }
    ensures script { IfOk result (λ script. (said : List Spoken) × IsLinesOf script.text.items script.setup said × HasNoCuts script.text.items) }
    ensures quiet { IfOk result (λ script. S.faults source.new ≡ S.faults source.old) }
    ensures err { IfErr result (λ refusal. HasShown (S.left source.old) (S.left source.new) (S.faults source.old) (S.faults source.new) refusal) }
    ensures few { TakesFew (S.left source.old) (S.left source.new) }
{
    let text = read_all(alloc, source)?;
    match check_uncut(&text) {
        Ok(setup) => Ok(Script { text, setup }),
        Err(line) => Err(Refusal::BadLine(line)),
    }
}

/// The run of a script, from a pool with nothing in it.
fn run_script<K: Sink>(
    alloc: Global,
    setup: Setup,
    text: &[u8],
    trace: bool,
    sink: &mut K,
) -> Result<(), Stop>
    requires { (said : List Spoken) × IsLinesOf text.now setup said × HasNoCuts text.now }
    ensures ok { OnOk result ((out : List ℕ) × IsReplay trace text.now out × Appends (K.taken sink.old) (K.taken sink.new) out) }
    ensures err { IfErr result (λ stop. HasStopped stop trace text.now (K.taken sink.old) (K.taken sink.new)) }
    ensures cause { HasStopCause (K.faults sink.old) (K.faults sink.new) result }
{
    let mut machine = Machine::make(alloc, setup, trace)?;
    let mut out = Output::new(alloc);
    run_lines(alloc, &mut machine, text, &mut out, sink)?;
    out.close(&machine, sink)
}
