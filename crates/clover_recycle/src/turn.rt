// What a step of a recycling answers.
use clover_words::Tag;

/// What a step of a recycling came to.
#[derive(Clone, Copy)]
pub enum RecycleTurn {
    /// The recycling goes on by a further step.
    More,
    /// The root version's next word was just shown unlinked: no version stands behind it, and it stays the root. The
    /// recycling is over.
    Unlinked,
    /// The old root version's buffer has just been flushed at its next generation: it may serve again, or is worn. The
    /// slot's root is the version that stood behind it. The recycling is over.
    Recycled { old: Tag, root: Tag },
    /// The access was refused. The recycling stands where it stood.
    Unreached,
}
