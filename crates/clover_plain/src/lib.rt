//! The pool of one thread: its words lie in a list, and what each actor knows lies in a seat of a table with one
//! word, so that the rule holds between any two accesses. Its port makes one access at a time and can refuse the
//! first one.
#![tactic(auto)]

mod blank;
mod pool;
mod port;
mod seats;
mod trace;
mod words;

pub use clover_rule::{Access, Act, Actor};
pub use pool::PlainPool;
pub use port::PlainPort;
