// What a step of a put answers.
use clover_words::Tag;

/// What a step of a call that writes came to.
#[derive(Drop)]
pub enum PutTurn {
    /// The call goes on by a further step.
    More,
    /// The exchange has linked this tag, which is the call's own, behind the tail: the call stands in the history.
    /// It goes on by the raise that makes the link durable, and by the store of the slot's shortcut.
    Decided { tag: Tag },
    /// The value is stored under the call's own tag, and durable. The call is over.
    Stored { tag: Tag },
    /// The key has nothing from the call's own tag on, and that is durable. The call is over.
    Deleted { tag: Tag },
    /// The key had nothing: this tombstone was the tail. The call is over, and the own buffer stays the caller's.
    Absent { tail: Tag },
    /// The key had the value of this tag, which is not the expected one. The call is over, and the own buffer stays
    /// the caller's.
    Differs { tag: Tag },
    /// The turns of the call have reached the budget, the number of the pool's buffers and two more. The call is
    /// over, and the own buffer stays the caller's.
    Behind { turns: u64 },
    /// The access was refused, and nothing was committed. The call stands where it stood.
    Unreached,
    /// The call's own tag was linked before, and the raise of the link or the store of the shortcut was refused. The
    /// call is over, and stands in the history.
    Linked { tag: Tag },
}
