//! What a power cut leaves of a pool: its image, one number for each durable word. It is built by a choice between the
//! two copies of each word, tested against the rules that each image of a running pool keeps, read as a map, and
//! printed. This crate makes no access of a pool.
#![tactic(auto)]

mod choosing;
mod content;
mod damage;
mod image;
mod laws;
mod map;
mod soundness;
#[cfg(test)]
mod tests;

pub use choosing::PoolWords;
pub use damage::{Damage, DamageRule, SoundFault};
pub use image::Image;
pub use laws::chosen_law;
pub use map::map_of;
pub use soundness::sound;
