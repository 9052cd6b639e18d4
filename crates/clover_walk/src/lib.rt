//! The walk from the start of a slot's chain to its tail, as a machine of single accesses over any port: a load
//! shows a tag's next word, and a link is made durable by a raise of its flushed copy before it is followed.
#![tactic(auto)]

mod laws;
mod start;
mod turn;
mod walk;

pub use laws::{raised_law, start_law, tag_law};
pub use turn::Turn;
pub use walk::Walk;
