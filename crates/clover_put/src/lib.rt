//! Put, delete and swap of a key whose slot is known, as machines of single accesses over any port: the own version
//! is stored and flushed, the walk finds the tail, one exchange commits behind it, a raise makes that durable, and a
//! store leaves the own tag in the slot's shortcut.
#![tactic(auto)]

mod call;
mod job;
mod laws;
mod stage;
mod turn;

pub use call::PutCall;
pub use job::{Job, TooLong};
pub use laws::put_law;
pub use turn::PutTurn;
