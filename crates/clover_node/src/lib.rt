//! A compute node: the calls of one client, over any port. It keeps what a client has from the metadata server, a stock
//! of tags for new versions and a copy of the bindings, and starts a call on the slot of its key. For a key that is not
//! in the copy it loads the count of bindings first. It knows no pool behind the port, no server and no other client.
#![tactic(auto)]

mod answer;
mod counting;
mod node;
mod stock;

pub use answer::{NodeRefusal, NodeTurn};
pub use clover_call::Answer;
pub use counting::Counting;
pub use node::Node;
