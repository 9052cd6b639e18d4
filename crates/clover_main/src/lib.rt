//! The commands of the program: what comes in from a source, what goes out to a sink, and the exit
//! status. The top call is `clover`.
#![tactic(auto)]

mod access_text;
mod chunk;
mod command;
mod image_text;
mod io;
mod memory;
mod output;
mod read;
mod refusal;
mod replaying;
mod running;
mod stdio;
#[cfg(test)]
mod tests;
mod uncut;
mod word_text;

pub use access_text::{put_access, put_accesses, put_numbers_line};
pub use chunk::Chunk;
pub use command::{clover, exit};
pub use image_text::{put_image, put_image_text};
pub use io::{Failed, Sink, Source};
pub use memory::{MemorySink, MemorySource, NumberList, SteadySource};
pub use read::read_all;
pub use refusal::{Refusal, refuse};
pub use replaying::replay;
pub use stdio::{StdSink, StdSource};
