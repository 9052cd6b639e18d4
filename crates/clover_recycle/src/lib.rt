//! A recycling of a slot's root version as a task of single accesses over any port, and the sweep over the bindings
//! that says which slot is to be recycled next.
#![tactic(auto)]

mod stage;
mod sweep;
mod task;
#[cfg(test)]
mod tests;
mod turn;

pub use sweep::Sweep;
pub use task::RecycleTask;
pub use turn::RecycleTurn;
