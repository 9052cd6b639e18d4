//! What the runs of a script's events share: the events themselves, why a client's call is refused, what a call that
//! runs alone comes to, and the printed text of accesses and of a run's end.
#![tactic(auto)]

mod event;
mod text;

pub use event::{CallRefusal, Event, Note};
pub use text::{push_access, push_ending, push_note};
