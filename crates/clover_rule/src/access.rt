// Accesses: one load, store, exchange or raise of one word. They are data for lists that no code reads, and
// for the lists that a pool keeps as its trace.
use clover_words::{Side, Word};

/// Who makes an access.
#[derive(Clone, Copy, Debug, PartialEq, Eq)]
pub enum Actor {
    /// The compute node of this client, counted from 1.
    Client(u32),
    /// The metadata server, which is also the recycler.
    Server,
    /// What runs alone after a power cut.
    Restart,
}

/// What an access did to its word, what it was given and what came back.
#[derive(Clone, Copy, Debug, PartialEq, Eq)]
pub enum Act {
    /// The current copy was read.
    Load {
        word: Word,
        got: u64,
    },
    /// A copy was written.
    Store {
        word: Word,
        side: Side,
        value: u64,
    },
    /// The current copy was `old`, and is `new` exactly where it was `expected`.
    Exchange {
        word: Word,
        expected: u64,
        new: u64,
        old: u64,
    },
    /// The flushed copy was `old`, and is the greater of the two.
    Raise {
        word: Word,
        value: u64,
        old: u64,
    },
}

/// An access of an actor. A refused one did nothing, and its `got` or `old` is 0.
#[derive(Clone, Copy, Debug, PartialEq, Eq)]
pub struct Access {
    pub actor: Actor,
    pub act: Act,
    pub refused: bool,
}
