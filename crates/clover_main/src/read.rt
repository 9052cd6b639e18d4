// Reading the whole input, up to its limit.
ghost use Rattle.std.specs.Io.KnownBytes.{Consumes};
ghost use Rattle.std.specs.Prelude.{◌≡◌, ◌+◌, ℕ, ◌≤◌, List, length, IfOk, IsErrOf};
ghost use Rattle.clover_main.specs.declared.refusal.Refusal.TheVariants.{ReadFault, OutOfMemory, TooMuchInput, BadLine, BadWords};
ghost use Rattle.clover_port.specs.Told.{Rose};
ghost use Rattle.clover_main.specs.Reading.{Reads, Gets, TakesMore, TakesFew, input_limit};

use crate::io::Source;
use crate::refusal::Refusal;
use std::alloc::Global;

/// How many bytes an input may have.
const INPUT_LIMIT: usize = 16_777_216;

/// How many bytes are asked of a source at once.
const PIECE: usize = 65_536;

/// All bytes of the source. Refused as `ReadFault` where a call of the source failed, as `TooMuchInput`
/// where 16,777,216 bytes were taken and one further call gave a byte, and as `OutOfMemory`. Whatever it
/// answers, it took no more than that.
pub fn read_all<S: Source>(alloc: Global, source: &mut S) -> Result<Vec<u8>, Refusal>
    ensures whole { IfOk result (λ bytes. Reads (S.left source.old) (S.left source.new) bytes.items) }
    ensures quiet { IfOk result (λ bytes. S.faults source.new ≡ S.faults source.old) }
    ensures fault { IsErrOf result ReadFault → Rose (S.faults source.old) (S.faults source.new) }
    ensures too_much { IsErrOf result TooMuchInput → TakesMore (S.left source.old) (S.left source.new) }
    ensures memory { IsErrOf result OutOfMemory → S.faults source.new ≡ S.faults source.old }
    ensures few { TakesFew (S.left source.old) (S.left source.new) }
    ensures no_line { (n : ℕ) → IsErrOf result (BadLine n) → ⊥ }
    ensures no_words { IsErrOf result BadWords → ⊥ }
{
    let mut bytes = Vec::new(alloc);
    loop {
        let count = take_more(source, &mut bytes)?;
        if count == 0 {
            return Ok(bytes);
        }
        if bytes.len() > INPUT_LIMIT {
            return Err(Refusal::TooMuchInput);
        }
    }
}

/// Moves some bytes behind those that are there, none only at the end. At the limit one more is asked for.
fn take_more<S: Source>(source: &mut S, bytes: &mut Vec<u8>) -> Result<usize, Refusal>
    requires { length bytes.old.items ≤ input_limit }
    ensures ok { IfOk result (λ count. Gets (S.left source.old) (S.left source.new) bytes.old.items bytes.new.items count) }
    ensures most { length bytes.new.items ≤ 16777217 }
    ensures quiet { IfOk result (λ count. S.faults source.new ≡ S.faults source.old) }
    ensures fault { IsErrOf result ReadFault → Rose (S.faults source.old) (S.faults source.new) }
    ensures memory { IsErrOf result OutOfMemory → S.faults source.new ≡ S.faults source.old }
    ensures few { (got : List ℕ) × Consumes (S.left source.old) (S.left source.new) got × (length bytes.old.items + length got ≤ 16777217) }
    ensures no_more { IsErrOf result TooMuchInput → ⊥ }
    ensures no_line { (n : ℕ) → IsErrOf result (BadLine n) → ⊥ }
    ensures no_words { IsErrOf result BadWords → ⊥ }
{
    let mut room = [0u8; PIECE];
    let ask = if bytes.len() < INPUT_LIMIT {
        PIECE.min(INPUT_LIMIT - bytes.len())
    } else {
        1
    };
    match source.take(&mut room[..ask]) {
        Ok(count) => match bytes.extend_from_slice(&room[..count]) {
            Ok(()) => Ok(count),
            Err(_) => Err(Refusal::OutOfMemory),
        },
        Err(_) => Err(Refusal::ReadFault),
    }
}
