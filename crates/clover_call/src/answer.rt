// What a step of a caller answers. Tags stay tags: who prints them makes numbers of them.
ghost use Rattle.std.specs.Prelude.{◌≡◌};
ghost use Rattle.clover_call.specs.Turning.{ends};

use clover_words::Tag;

/// How a call is answered.
#[derive(Clone, Copy)]
pub enum Answer {
    /// The value is stored under this tag.
    Stored { tag: Tag },
    /// The key has the value of this tag, with these flags; its bytes stand in the caller's room.
    Found { tag: Tag, flags: u32 },
    /// The key has nothing.
    Absent,
    /// The key has nothing from this tag on.
    Deleted { tag: Tag },
    /// The key has the value of this tag, which is not the expected one.
    Differs { tag: Tag },
}

/// Why a call ended without an answer, or did not start.
#[derive(Clone, Copy)]
pub enum CallerRefusal {
    /// An access was refused before the call had committed: nothing of it is seen by others.
    Unreached,
    /// The turns of the call have reached the budget, the number of the pool's buffers and two more.
    Behind { turns: u64 },
    /// An access was refused after the call had linked its version, which has this tag.
    Linked { tag: Tag },
    /// The value has more bytes than a buffer has room for.
    TooLong { length: usize, room: usize },
}

/// What a step of a caller came to.
#[derive(Clone, Copy)]
pub enum CallerTurn {
    /// The call goes on by a further step.
    More,
    /// This access committed the call, and decided its answer. It goes on, to make that durable.
    Decided(Answer),
    /// The call is over with this answer.
    Done(Answer),
    /// The call is over without an answer.
    Refused(CallerRefusal),
}

impl CallerTurn {
    /// Whether the call is over.
    pub fn is_over(&self) -> bool
        ensures { result ≡ ends self.now }
    {
        matches!(self, CallerTurn::Done(_) | CallerTurn::Refused(_))
    }
}
