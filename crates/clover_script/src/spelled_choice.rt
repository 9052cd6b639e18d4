// The choices of a cut, read from a line. The first reading of a script leaves the names of words as the line spells
// them, and takes no memory; the second reading decodes them.
ghost use Rattle.std.specs.Prelude.{◌≡◌, ◌^◌, ◌<◌, ℕ, List, [], ◌∷◌, ◌++◌, length, false, codes, flat_map, All, IsTrue, OnOk, IfOk, IfSome, IfNone, IsSomeAnd};
ghost use Rattle.clover_words.specs.declared.word.Word.{Word as AnyWord};
ghost use Rattle.clover_script.specs.declared.choice.Choice.{Choice as AnyChoice};
ghost use Rattle.clover_script.specs.Split.{EndsNumber, EndsWord};
ghost use Rattle.clover_script.specs.Choice.{IsNamed, AreNamed, further_name, names_text, IsChoice, choice_text, IsFurtherCut, further_cut, HasChoice, HasCuts, SpellsChoice, SpellsNoChoice, SpellsCut, SpellsNoCut};

use crate::choice::{Choice, CutList, WordList};
use crate::number::{field, number_of};
use crate::split::{after_word, word_and_rest};
use crate::word_name::word_front;
use clover_list::{ItemList, OutOfMemory};
use clover_words::Word;
use std::alloc::Global;

/// A choice as a line spells it; `Choice` says what each of them leaves.
#[derive(Clone, Copy)]
pub enum ChoiceText<'a> {
    Old,
    New,
    Mix(u64),
    /// The names of one or more words, with a comma between each two.
    Pick(&'a [u8]),
}

/// A choice and further cuts as a line spells them.
#[derive(Clone, Copy)]
pub struct CutText<'a> {
    pub first: ChoiceText<'a>,
    /// The text of the further cuts, each behind a space.
    pub more: &'a [u8],
}

/// The choice that a text spells. None exactly where it spells none.
pub fn choice_of(text: &[u8]) -> Option<ChoiceText>
    ensures found { IfSome result (SpellsChoice text.now) }
    ensures none { IfNone result (SpellsNoChoice text.now) }
{
    if let Some(seed) = after_word(text, b"mix:") {
        return Some(ChoiceText::Mix(number_of(seed)?));
    }
    if let Some(names) = after_word(text, b"pick:") {
        return if are_names(names) {
            Some(ChoiceText::Pick(names))
        } else {
            None
        };
    }
    match text {
        b"old" => Some(ChoiceText::Old),
        b"new" => Some(ChoiceText::New),
        _ => None,
    }
}

/// The choice and the further cuts that a text spells. None exactly where it spells none.
pub fn cut_of(text: &[u8]) -> Option<CutText>
    ensures found { IfSome result (SpellsCut text.now) }
    ensures none { IfNone result (SpellsNoCut text.now) }
{
    let (first, more) = choice_front(text)?;
    if are_further_cuts(more) {
        Some(CutText { first, more })
    } else {
        None
    }
}

impl ChoiceText<'_> {
    /// The choice, its words decoded. `OutOfMemory` for want of memory alone.
    pub fn decode(self, alloc: Global) -> Result<Choice, OutOfMemory>
        ensures { IfOk result (λ choice. (c : AnyChoice) → IsChoice c → HasChoice self.entry c → choice ≡ c) }
    {
        Ok(match self {
            ChoiceText::Old => Choice::Old,
            ChoiceText::New => Choice::New,
            ChoiceText::Mix(seed) => Choice::Mix(seed),
            ChoiceText::Pick(names) => Choice::Pick(words_of(alloc, names)?),
        })
    }
}

impl CutText<'_> {
    /// The choice and the further cuts, their words decoded. `OutOfMemory` for want of memory alone.
    pub fn decode(self, alloc: Global) -> Result<(Choice, CutList), OutOfMemory>
        ensures { IfOk result (λ p. (first : AnyChoice) (more : List (ℕ × AnyChoice)) → IsChoice first → All IsFurtherCut more → HasCuts self.entry first more → (p.0 ≡ first) × (p.1 ≡ more)) }
    {
        let first = self.first.decode(alloc)?;
        let more = further_cuts_of(alloc, self.more)?;
        Ok((first, more))
    }
}

/// Whether a text is the names of one or more words.
fn are_names(text: &[u8]) -> bool
    ensures yes { IsTrue result → (words : List AnyWord) × AreNamed words × (text.now ≡ names_text words) }
    ensures no { result ≡ false → (words : List AnyWord) → AreNamed words → text.now ≡ names_text words → ⊥ }
{
    let Some((_, mut rest)) = word_front(text) else {
        return false;
    };
    while !rest.is_empty() {
        let Some((_, after)) = further_name_front(rest) else {
            return false;
        };
        rest = after;
    }
    true
}

/// The words of their names.
fn words_of(alloc: Global, text: &[u8]) -> Result<WordList, OutOfMemory>
    ensures { IfOk result (λ list. (words : List AnyWord) → AreNamed words → text.now ≡ names_text words → list ≡ words) }
{
    let mut words = WordList::make(alloc);
    let Some((first, mut rest)) = word_front(text) else {
        return Ok(words);
    };
    keep(&mut words, first)?;
    while let Some((word, after)) = further_name_front(rest) {
        keep(&mut words, word)?;
        rest = after;
    }
    Ok(words)
}

/// Puts an item at the end of a list. `OutOfMemory` for want of memory alone.
fn keep<T: Drop>(list: &mut ItemList<T>, item: T) -> Result<(), OutOfMemory>
    ensures ok { OnOk result (list.new ≡ list.old ++ item ∷ []) }
{
    match list.push(item) {
        Ok(()) => Ok(()),
        Err(_) => Err(OutOfMemory),
    }
}

/// The word whose name stands behind a comma at a text's front, up to the first byte behind it that is no digit, and the
/// text after it.
fn further_name_front(text: &[u8]) -> Option<(Word, &[u8])>
    ensures found { IfSome result (λ p. IsNamed p.0 × (text.now ≡ further_name p.0 ++ p.1.now)) }
    ensures only { (w : AnyWord) (rest : List ℕ) → IsNamed w → EndsNumber rest → text.now ≡ further_name w ++ rest → IsSomeAnd result (λ p. (p.0 ≡ w) × (p.1.now ≡ rest)) }
{
    word_front(after_word(text, b",")?)
}

/// The choice of the text up to the first space, and the text from there on.
fn choice_front(text: &[u8]) -> Option<(ChoiceText, &[u8])>
    ensures found { IfSome result (λ p. (c : AnyChoice) × IsChoice c × HasChoice p.0 c × (text.now ≡ choice_text c ++ p.1.now)) }
    ensures end { IfSome result (λ p. EndsWord p.1.now) }
    ensures only { (c : AnyChoice) (rest : List ℕ) → IsChoice c → EndsWord rest → text.now ≡ choice_text c ++ rest → IsSomeAnd result (λ p. HasChoice p.0 c × (p.1.now ≡ rest)) }
{
    let (word, rest) = word_and_rest(text);
    let choice = choice_of(word)?;
    Some((choice, rest))
}

/// Whether a text is some further cuts.
fn are_further_cuts(text: &[u8]) -> bool
    ensures yes { IsTrue result → (more : List (ℕ × AnyChoice)) × All IsFurtherCut more × (text.now ≡ flat_map further_cut more) }
    ensures no { result ≡ false → (more : List (ℕ × AnyChoice)) → All IsFurtherCut more → text.now ≡ flat_map further_cut more → ⊥ }
{
    let mut rest = text;
    while !rest.is_empty() {
        let Some((_, _, after)) = further_cut_front(rest) else {
            return false;
        };
        rest = after;
    }
    true
}

/// The further cuts of their text.
fn further_cuts_of(alloc: Global, text: &[u8]) -> Result<CutList, OutOfMemory>
    ensures { IfOk result (λ list. (more : List (ℕ × AnyChoice)) → All IsFurtherCut more → text.now ≡ flat_map further_cut more → list ≡ more) }
{
    let mut cuts = CutList::make(alloc);
    let mut rest = text;
    while let Some((stores, choice, after)) = further_cut_front(rest) {
        let choice = choice.decode(alloc)?;
        keep(&mut cuts, (stores, choice))?;
        rest = after;
    }
    Ok(cuts)
}

/// The further cut that a text begins with, as its stores and its choice, and the text behind it.
fn further_cut_front(text: &[u8]) -> Option<(u64, ChoiceText, &[u8])>
    ensures found { IfSome result (λ p. (c : AnyChoice) × IsChoice c × HasChoice p.1 c × (text.now ≡ further_cut (p.0, c) ++ p.2.now)) }
    ensures only { (cut : ℕ × AnyChoice) (rest : List ℕ) → IsFurtherCut cut → EndsWord rest → text.now ≡ further_cut cut ++ rest → IsSomeAnd result (λ p. (p.0 ≡ cut.0) × HasChoice p.1 cut.1 × (p.2.now ≡ rest)) }
{
    let (stores, rest) = field(text, b" at ")?;
    let (choice, rest) = choice_front(after_word(rest, b" ")?)?;
    Some((stores, choice, rest))
}
