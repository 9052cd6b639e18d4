// Which scripts are run. Lines of power cuts are in the grammar, and no run performs them yet: a script with one is
// refused there, as at a line that is not built. This module alone says so. It takes no memory.
ghost use Rattle.std.specs.Prelude.{◌≡◌, ◌≤◌, ℕ, List, length, OnOk, IfOk, IfErr, IfSome, IfNone};
ghost use Rattle.clover_script.specs.Line.{Spoken};
ghost use Rattle.clover_script.specs.Lines.{IsLinesOf};
ghost use Rattle.clover_main.specs.Cuts.{HasNoCuts, CutsAt, IsTurnedDown};

use clover_script::{check_lines, first_line, is_of_cuts};
use clover_words::Setup;

/// What a script without power cuts sets up. Of any other text the line at which it is refused, counted from 1: the first
/// that is not built, or that asks for a power cut or the image of one.
pub fn check_uncut(text: &[u8]) -> Result<Setup, u64>
    requires { length text.now ≤ 16777216 }
    ensures script { IfOk result (λ s. (said : List Spoken) × IsLinesOf text.now s said) }
    ensures uncut { OnOk result (HasNoCuts text.now) }
    ensures bad { IfErr result (IsTurnedDown text.now) }
{
    let cut = first_of_cuts(text);
    match check_lines(text) {
        Ok(setup) => match cut {
            None => Ok(setup),
            Some(line) => Err(line),
        },
        Err(bad) => match cut {
            None => Err(bad.line),
            Some(line) => Err(line.min(bad.line)),
        },
    }
}

/// The first line of a text that asks for a power cut or the image of one.
fn first_of_cuts(text: &[u8]) -> Option<u64>
    requires { length text.now ≤ 16777216 }
    ensures found { IfSome result (λ n. CutsAt text.now n × ((m : ℕ) → CutsAt text.now m → n ≤ m)) }
    ensures none { IfNone result (HasNoCuts text.now) }
{
    let mut lines = 0;
    let mut rest = text;
    while !rest.is_empty() {
        let (line, after) = first_line(rest);
        lines += 1;
        if is_of_cuts(line) {
            return Some(lines);
        }
        rest = after;
    }
    None
}
