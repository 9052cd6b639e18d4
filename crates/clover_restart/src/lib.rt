//! The restart behind a power cut. An image is read once: a slot whose chain ends in a tombstone loses its root, a
//! buffer on no chain that is kept goes on to its next generation, and the books and the directory of the next run are
//! built. What a restart stores is a list, and each store is one access over any port.
#![tactic(auto)]

mod buffers;
mod chain;
mod key;
mod laws;
mod reading;
mod slots;
pub mod steps;
mod store;
#[cfg(test)]
mod tests;

pub use laws::next_run_law;
pub use steps::Restart;
