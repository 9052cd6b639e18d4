//! A get as a machine of single accesses over any port: it walks to the tail of its slot's chain, copies the tail's
//! version word by word, and loads the tail's next word again. That last load decides the call where it shows the
//! tail unlinked; else the call goes on along the chain.
#![tactic(auto)]

mod call;
mod laws;
mod stage;
mod turn;

pub use call::GetCall;
pub use laws::get_law;
pub use turn::GetTurn;
