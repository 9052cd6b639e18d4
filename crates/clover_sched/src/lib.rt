//! What may happen in a script whose power may fail: runs, one behind the other, and between them losses of power, of
//! which each leaves an image and a restart from it.
#![tactic(auto)]

mod laws;
mod stores;
#[cfg(test)]
mod tests;

pub use laws::runs_stand_law;
pub use stores::{make_all_stores, make_stores};
