// Which copies of a pool's words a power cut leaves, and how a line writes it. The types are data alone; each error here
// is want of memory, and then a front of the text may stand there.
ghost use Rattle.std.specs.Prelude.{◌≡◌, ◌++◌, flat_map, OnOk};
ghost use Rattle.clover_script.specs.Choice.{names_text, choice_text, further_cut, cut_text};

use crate::text::push_number;
use crate::word_name::push_word;
use clover_list::ItemList;
use clover_words::{Side, Word};
use std::alloc::AllocError;

/// A list of words, in the order in which a line names them.
pub type WordList = ItemList<Word>;

/// The further cuts of one line: each after how many stores of the restart before it, and its choice.
pub type CutList = ItemList<(u64, Choice)>;

/// Which copy a power cut leaves of each durable word whose two copies differ.
#[derive(Drop)]
pub enum Choice {
    /// The flushed copy of each.
    Old,
    /// The current copy of each.
    New,
    /// The current copy of those for which the generator of this seed draws an odd number.
    Mix(u64),
    /// The current copy of these words alone. One that is not in the pool changes nothing.
    Pick(WordList),
}

/// Puts the text of a choice at the end.
pub fn push_choice(out: &mut Vec<u8>, choice: &Choice) -> Result<(), AllocError>
    ensures ok { OnOk result (out.new.items ≡ out.old.items ++ choice_text choice.now) }
{
    match choice {
        Choice::Old => out.extend_from_slice(b"old"),
        Choice::New => out.extend_from_slice(b"new"),
        Choice::Mix(seed) => {
            out.extend_from_slice(b"mix:")?;
            push_number(out, *seed)
        }
        Choice::Pick(words) => {
            out.extend_from_slice(b"pick:")?;
            push_names(out, words.items())
        }
    }
}

/// Puts the text of a choice and further cuts at the end.
pub fn push_cut(out: &mut Vec<u8>, first: &Choice, more: &[(u64, Choice)]) -> Result<(), AllocError>
    ensures ok { OnOk result (out.new.items ≡ out.old.items ++ cut_text first.now more.now) }
{
    push_choice(out, first)?;
    for (stores, choice) in more {
        push_further_cut(out, *stores, choice)?;
    }
    Ok(())
}

fn push_further_cut(out: &mut Vec<u8>, stores: u64, choice: &Choice) -> Result<(), AllocError>
    ensures ok { OnOk result (out.new.items ≡ out.old.items ++ further_cut (stores, choice.now)) }
{
    out.extend_from_slice(b" at ")?;
    push_number(out, stores)?;
    out.push(b' ')?;
    push_choice(out, choice)
}

/// Puts the names of words at the end, with a comma between each two.
fn push_names(out: &mut Vec<u8>, words: &[Word]) -> Result<(), AllocError>
    ensures ok { OnOk result (out.new.items ≡ out.old.items ++ names_text words.now) }
{
    let [first, more @ ..] = words else {
        return Ok(());
    };
    push_word(out, *first, Side::Current)?;
    for word in more {
        out.push(b',')?;
        push_word(out, *word, Side::Current)?;
    }
    Ok(())
}
