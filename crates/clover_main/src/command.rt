// The top call, and how the program ends with its status.
ghost use Rattle.std.specs.Prelude.{◌≡◌, Bool, IfSome, IfNone, IfOk, IfErr};
ghost use Rattle.std.specs.Process.{exit_status};
ghost use Rattle.clover_main.specs.Causes.{Writes};
ghost use Rattle.clover_main.specs.Command.{Commands};
ghost use Rattle.clover_main.specs.Refusing.{status_of, line_of};
ghost use Rattle.clover_main.specs.Words.{AskForReplay};

use crate::io::{Sink, Source};
use crate::refusal::{Refusal, refuse};
use crate::replaying::replay;
use std::alloc::Global;
use std::process::ExitCode;

/// Runs the command that the words behind the program's name ask for, and answers the exit status:
/// that of `replay`, or 6 where the words are of no command, and then nothing was read.
pub fn clover<S: Source, K: Sink>(
    alloc: Global,
    words: &[String],
    source: &mut S,
    sink: &mut K,
) -> u8
    ensures commands { Commands words.now (record { left = S.left source.old; after = S.left source.new; read_faults = S.faults source.old; read_faults_after = S.faults source.new; taken = K.taken sink.old; now = K.taken sink.new; write_faults = K.faults sink.old; write_faults_after = K.faults sink.new }) result }
    ensures unread { result ≡ 6 → source.new ≡ source.old }
{
    match trace_asked(words) {
        Some(trace) => replay(alloc, trace, source, sink),
        None => refuse(sink, Refusal::BadWords),
    }
}

/// What the program ends with: the status of its command, or that of the refusal to which reading its
/// words came.
pub fn exit<S: Source, K: Sink>(
    alloc: Global,
    words: Result<Vec<String>, Refusal>,
    source: &mut S,
    sink: &mut K,
) -> ExitCode
    ensures command { IfOk words (λ list. Commands list.items (record { left = S.left source.old; after = S.left source.new; read_faults = S.faults source.old; read_faults_after = S.faults source.new; taken = K.taken sink.old; now = K.taken sink.new; write_faults = K.faults sink.old; write_faults_after = K.faults sink.new }) (exit_status result)) }
    ensures refused { IfErr words (λ refusal. (exit_status result ≡ status_of refusal) × Writes (K.taken sink.old) (K.taken sink.new) (K.faults sink.old) (K.faults sink.new) (line_of refusal)) }
{
    ExitCode::from(match words {
        Ok(words) => clover(alloc, &words, source, sink),
        Err(refusal) => refuse(sink, refusal),
    })
}

/// Whether the words ask for a replay with a trace. None where they ask for no replay.
fn trace_asked(words: &[String]) -> Option<bool>
    ensures found { IfSome result (λ trace. AskForReplay trace words.now) }
    ensures none { IfNone result ((trace : Bool) → AskForReplay trace words.now → ⊥) }
{
    match words {
        [word] if word.as_str() == "replay" => Some(false),
        [word, option] if word.as_str() == "replay" && option.as_str() == "--trace" => Some(true),
        _ => None,
    }
}
