// What a step of a get answers.
use clover_words::Tag;

/// What a step of a get came to.
#[derive(Drop)]
pub enum GetTurn {
    /// The call goes on by a further step.
    More,
    /// The key has a value: that of the tag's version, with these flags. Its bytes stand in the caller's room.
    Found { tag: Tag, flags: u32 },
    /// The key has no value: the tail of its chain is this tag, a tombstone.
    Absent { tail: Tag },
    /// The turns of the call have reached the budget, the number of the pool's buffers and two more. The call is over.
    Behind { turns: u64 },
    /// The access was refused. The call stands where it stood.
    Unreached,
}
