//! The machine of a script's events with its metadata server: every client's calls, one access at a time, in any order
//! that a script names, from pools that begin empty; and what a run of such events is.
#![tactic(auto)]

mod client;
mod event;
mod laws;
mod machine;
mod recycler;
mod runner;
mod served;
#[cfg(test)]
mod tests;
mod text;
mod want;

pub use client::ClientState;
pub use event::Note;
pub use machine::Machine;
pub use recycler::{Chore, Recycler};
pub use runner::{Advance, Work, begin_line, work_on};
pub use served::Served;
pub use text::push_note;
pub use want::Want;
