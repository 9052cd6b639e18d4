//! The metadata server's books: of each buffer its generation and its place, which is free, worn, bound or out. They
//! hand out free buffers, always from the memory node that has the most of them, and take back what was recycled.
//! This crate knows no words of a pool and touches none; `Books::make` takes all the memory.
#![tactic(auto)]

mod batch;
mod bits;
mod books;
mod laws;
mod line;
mod node;
#[cfg(test)]
mod tests;

pub use batch::Batch;
pub use books::Books;
pub use laws::no_tag_twice_law;
pub use line::{Counts, Place};
