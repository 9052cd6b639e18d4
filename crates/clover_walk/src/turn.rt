// What a step of a walk answers.
use clover_words::Tag;

/// What a step of a walk came to.
#[derive(Clone, Copy)]
pub enum Turn {
    /// The walk goes on by a further step.
    More,
    /// The tag's next word was just shown unlinked, at the tag's generation: it is the tail of the slot's chain.
    AtTail(Tag),
    /// The turns of the call have reached the budget, the number of the pool's buffers and two more. The walk has
    /// ended.
    Behind { turns: u64 },
    /// The access was refused. The walk stands where it stood.
    Unreached,
}
