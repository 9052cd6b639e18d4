// What a line behind the pool line says. Takes memory for the bytes of a value, and for the words of a choice and the
// further cuts, alone.
ghost use Rattle.std.specs.Prelude.{◌≡◌, ◌↔◌, ℕ, ◌∷◌, ◌++◌, decimal, false, IsTrue, IfOk, IfSome, IfNone};
ghost use Rattle.clover_script.specs.Line.{IsActor, AreTimes, IsLineOf, IsNoLine, IsLineOfCuts, IsIgnored};
ghost use Rattle.clover_script.specs.Spelling.{SpellsLine, IsNoTasklessLine, SpellsLineOfCuts, IsNoLineOfCuts};

use crate::line::Line;
use crate::part::{actor_front, actor_of, times_of};
use crate::spelled::LineText;
use crate::spelled_choice::{choice_of, cut_of};
use crate::split::after_word;
use crate::task::asked_of;
use clover_list::OutOfMemory;
use std::alloc::Global;

/// What a line behind the pool line says: what it asks of an actor, a power cut, or an image that is shown. None exactly
/// where the text is no such line: a pool line, an empty line and one that begins with `#` are none.
///
/// Of a value above 1,024 bytes the first 1,024 are kept, and its whole length beside them.
/// `OutOfMemory` for want of memory alone.
pub fn line_of(alloc: Global, line: &[u8]) -> Result<Option<Line>, OutOfMemory>
    ensures found { IfOk result (λ o. IfSome o (IsLineOf line.now)) }
    ensures none { IfOk result (λ o. IfNone o (IsNoLine line.now)) }
{
    match spelled_line(line) {
        Some(spelled) => Ok(Some(spelled.decode(alloc)?)),
        None => Ok(None),
    }
}

/// The same with the key, the value and the names as the line spells them. It takes no memory.
pub fn spelled_line(line: &[u8]) -> Option<LineText>
    ensures found { IfSome result (SpellsLine line.now) }
    ensures none { IfNone result (IsNoLine line.now) }
{
    if let Some(rest) = after_word(line, b"begin ") {
        let (actor, task) = asked_of(rest)?;
        return Some(LineText::Begin { actor, task });
    }
    if let Some(rest) = after_word(line, b"call ") {
        let (actor, task) = asked_of(rest)?;
        return Some(LineText::Call { actor, task });
    }
    taskless_line(line)
}

/// What a line without a task says.
fn taskless_line(line: &[u8]) -> Option<LineText>
    ensures found { IfSome result (SpellsLine line.now) }
    ensures none { IfNone result (IsNoTasklessLine line.now) }
{
    if let Some(rest) = after_word(line, b"step ") {
        return step_of(rest);
    }
    if let Some(rest) = after_word(line, b"finish ") {
        let actor = actor_of(rest)?;
        return Some(LineText::Finish { actor });
    }
    if let Some(rest) = after_word(line, b"refuse ") {
        let actor = actor_of(rest)?;
        return Some(LineText::Refuse { actor });
    }
    line_of_cuts(line)
}

/// Whether a line asks for a power cut, or for the image that one would leave. It takes no memory.
pub fn is_of_cuts(line: &[u8]) -> bool
    ensures yes { IsTrue result → IsLineOfCuts line.now }
    ensures no { result ≡ false → IsLineOfCuts line.now → ⊥ }
{
    line_of_cuts(line).is_some()
}

/// What a line of power cuts says.
fn line_of_cuts(line: &[u8]) -> Option<LineText>
    ensures found { IfSome result (SpellsLineOfCuts line.now) }
    ensures none { IfNone result (IsNoLineOfCuts line.now) }
{
    if let Some(rest) = after_word(line, b"cut ") {
        let cut = cut_of(rest)?;
        return Some(LineText::Cut(cut));
    }
    let choice = choice_of(after_word(line, b"image ")?)?;
    Some(LineText::Image(choice))
}

/// The steps of the texts of an actor and of times, with one space between them.
fn step_of(text: &[u8]) -> Option<LineText>
    ensures found { IfSome result (λ l. (a : ℕ) × (n : ℕ) × IsActor a × AreTimes n × (text.now ≡ decimal a ++ 32 ∷ decimal n) × (l ≡ LineText.Step a n)) }
    ensures none { IfNone result ((a : ℕ) (n : ℕ) → IsActor a → AreTimes n → text.now ≡ decimal a ++ 32 ∷ decimal n → ⊥) }
{
    let (actor, rest) = actor_front(text)?;
    let times = times_of(rest)?;
    Some(LineText::Step { actor, times })
}

/// Whether a line is passed over: it is empty, or begins with a hash.
pub fn is_ignored(line: &[u8]) -> bool
    ensures { IsTrue result ↔ IsIgnored line.now }
{
    match line {
        [] => true,
        [first, ..] => *first == b'#',
    }
}
