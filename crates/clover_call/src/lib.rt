//! The calls of one client, one at a time and one access a step, over any port. It keeps the call that
//! is under way and, for each slot on which a call was answered, the tag at which the last one ended. It knows no pool
//! behind the port, no script and no other client.
#![tactic(auto)]

mod answer;
mod caller;
mod under;

pub use answer::{Answer, CallerRefusal, CallerTurn};
pub use caller::Caller;
pub use under::Underway;
