// Where a recycling stands.
use clover_words::Tag;

/// Where a recycling stands. A tag is the one that the root version's next word was shown linked to.
#[derive(Clone, Copy)]
pub enum Stage {
    /// The root version's next word is to be loaded.
    AtVersion,
    /// That word's flushed copy is to be raised to the link.
    AtLink(Tag),
    /// The tag is to be stored as the slot's root.
    AtRoot(Tag),
    /// The tag is to be stored as the root's flushed copy.
    AtFlushedRoot(Tag),
    /// The old version's next word is to be exchanged for its next generation, unlinked.
    AtPass(Tag),
    /// That word's flushed copy is to be raised to that.
    AtFree(Tag),
    /// The recycling is over.
    Over,
}
