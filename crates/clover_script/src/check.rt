// Checking a whole script in one pass, line by line: what it sets up, or the first line that is not built.
// Lines that are passed over count, and say nothing. Nothing is kept of a line, and no memory is taken.
ghost use Rattle.std.specs.Prelude.{◌≡◌, ◌+◌, ◌≤◌, ◌++◌, ◌∷◌, ℕ, List, length, false, All, IsTrue, IfOk, IfErr, IfSome, IfNone};
ghost use Rattle.clover_words.specs.declared.setup.Setup.{Setup as Numbers};
ghost use Rattle.clover_script.specs.Line.{lines_of, numbers_of, pool_line, IsIgnored, Spoken, IsSpoken, line_text};
ghost use Rattle.clover_script.specs.Lines.{IsLinesOf, IsRefusedLine, IsUnbuiltLine, IsBuilt, unopened, begun};

use crate::line::LineFault;
use crate::pool_line::{pool_line_of, setup_from};
use crate::reader::{is_ignored, spelled_line};
use crate::split::first_line;
use clover_words::Setup;

/// The first line of a text, counted from 1, that is not built. In a text without a pool line whose lines are all passed
/// over it is the line behind the last.
#[derive(Clone, Copy, Debug, PartialEq, Eq)]
pub struct BadLine {
    pub line: u64,
    pub fault: LineFault,
}

/// Reads a whole script, and says what it sets up. It takes no memory.
///
/// `BadLine` names the first line that is not built.
pub fn check_lines(text: &[u8]) -> Result<Setup, BadLine>
    requires { length text.now ≤ 16777216 }
    ensures lines { IfOk result (λ s. (said : List Spoken) × IsLinesOf text.now s said) }
    ensures bad { IfErr result (λ bad. (bad.fault ≡ LineFault.Unbuilt) × IsRefusedLine text.now bad.line) }
{
    let (over, rest) = passed_over(text);
    if rest.is_empty() {
        return Err(unbuilt(over + 1));
    }
    let (line, mut rest) = first_line(rest);
    let Some(setup) = opening_of(line) else {
        return Err(unbuilt(over + 1));
    };
    let mut lines = over + 1;
    while !rest.is_empty() {
        let (line, after) = first_line(rest);
        if !is_built(line) {
            return Err(unbuilt(lines + 1));
        }
        lines += 1;
        rest = after;
    }
    Ok(setup)
}

/// Whether a line behind the pool line is built: it is passed over, or says something.
fn is_built(line: &[u8]) -> bool
    ensures yes { IsTrue result → IsBuilt line.now }
    ensures no { result ≡ false → (s : Numbers) (said : List Spoken) → IsUnbuiltLine (begun s said) line.now }
{
    is_ignored(line) || (pool_line_of(line).is_none() && spelled_line(line).is_some())
}

/// The fault of a line that is not built.
fn unbuilt(line: u64) -> BadLine
    ensures { (result.line ≡ line) × (result.fault ≡ LineFault.Unbuilt) }
{
    BadLine {
        line,
        fault: LineFault::Unbuilt,
    }
}

/// How many lines at the front of a text are passed over, and the text behind them.
fn passed_over(text: &[u8]) -> (u64, &[u8])
    requires { length text.now ≤ 16777216 }
    ensures over { (over : List (List ℕ)) × All IsIgnored over × (lines_of text.now ≡ over ++ lines_of result.1.now) × (result.0 ≡ length over) }
    ensures size { result.0 + length result.1.now ≤ length text.now }
    ensures last { (line : List ℕ) (more : List (List ℕ)) → lines_of result.1.now ≡ line ∷ more → IsIgnored line → ⊥ }
{
    let mut passed = 0;
    let mut rest = text;
    while !rest.is_empty() {
        let (line, after) = first_line(rest);
        if !is_ignored(line) {
            return (passed, rest);
        }
        passed += 1;
        rest = after;
    }
    (passed, rest)
}

/// The setup of the first line that is not passed over. None exactly where that line is not built.
fn opening_of(line: &[u8]) -> Option<Setup>
    requires { IsIgnored line.now → ⊥ }
    ensures found { IfSome result (λ s. line.now ≡ pool_line (numbers_of s)) }
    ensures none { IfNone result (IsUnbuiltLine unopened line.now) }
{
    if let Some(numbers) = pool_line_of(line) {
        return setup_from(numbers);
    }
    match spelled_line(line) {
        // A line that says something with no pool line before it.
        Some(_) => None,
        None => None,
    }
}
