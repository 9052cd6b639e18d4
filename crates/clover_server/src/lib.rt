//! The metadata server over any port: it hands out buffers in batches, binds keys to slots, and recycles the versions
//! that stand behind no other. A step call makes one access of the server's at most, and what was begun is finished
//! first; a whole call repeats a step call to its end. No call takes memory.
#![tactic(auto)]

mod due;
mod laws;
mod outcome;
mod server;
mod turn;
mod whole;
mod work;

pub use laws::{first_law, free_law, handed_law, once_law};
pub use server::Server;
pub use turn::{ServerRefusal, ServerTurn};
