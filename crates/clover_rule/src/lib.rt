//! The rule of the pool: what holds of the words, of what every actor knows and of one history between any two
//! steps, and a law for each kind of step. These are definitions and proofs over plain data: nothing here runs.
#![tactic(auto)]

mod access;
mod laws;
mod step;
mod view;

pub use access::{Access, Act, Actor};
pub use laws::{
    accept_law, access_law, blank_law, client_law, cut_law, grant_law, hand_over_law,
    join_note_law, longest_law, note_law, opening_law, operation_law, parts_law, preset_law,
    rise_law, spent_law, step_law, table_step_law, told_law,
};
pub use step::StepName;
pub use view::{
    BookLine, BufferState, Content, GrantRefusal, Link, NewBinding, Pass, Recycling, RestartStore,
    Role, Server, ServerTask, Shown, View,
};
