//! The words of a pool as numbers: tags, next words, roots, meta words and packed bytes, each written and
//! read both ways; and the shape of a pool, with the address of each word in it. This crate holds no pool:
//! it computes, and no call takes memory.
#![tactic(auto)]

mod bytes;
mod meta;
mod next;
mod pool;
mod preset;
mod range;
mod setup;
mod tag;
#[cfg(test)]
mod tests;
mod word;

pub use bytes::{ValueBuf, pack, unpack, value_from_words};
pub use meta::{Kind, Meta};
pub use next::{NextWord, root_decode, root_encode};
pub use pool::{Pool, PoolFault, PoolField};
pub use preset::{dealt, tombstone};
pub use setup::Setup;
pub use tag::Tag;
pub use word::{Buffer, Side, Word};
