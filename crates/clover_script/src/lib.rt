//! The script and the printed texts: reading a script's lines, naming the first that is not built, and
//! printing replies and history. Nothing here knows of words or of a pool that runs.
#![tactic(auto)]

mod check;
mod choice;
mod coded;
mod laws;
mod line;
mod number;
mod part;
mod pool_line;
mod reader;
mod run_entry;
mod spelled;
mod spelled_choice;
mod split;
mod task;
#[cfg(test)]
mod tests;
mod text;
mod told;
mod word_name;

pub use check::{BadLine, check_lines};
pub use choice::{Choice, CutList, WordList, push_choice, push_cut};
use clover_list::ItemList;
pub use laws::{
    a_cut_has_one_reading, a_name_is_of_one_word, a_text_has_one_line, lines_are_apart,
    lines_are_refused_at_one, lines_have_one_reading, no_lines_are_refused,
};
pub use line::{Line, LineFault, PoolLine, Task};
pub use reader::{is_ignored, is_of_cuts, line_of};
pub use run_entry::{RunEntry, push_entry, push_run_entry};
pub use spelled_choice::{ChoiceText, CutText, choice_of, cut_of};
pub use split::first_line;
pub use text::{push_call, push_number, push_reply, push_tag};
pub use told::{push_behind, push_busy, push_linked, push_none, push_too_long, push_unreached};
pub use word_name::{push_hex, push_word, word_of};

/// A list of bytes.
pub type Bulk = ItemList<u8>;
