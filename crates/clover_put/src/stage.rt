// Where a call that writes stands.
use clover_words::Tag;

/// Where a call that writes stands. A tag is that of the tail at which the walk is.
#[derive(Clone, Copy)]
pub enum Stage {
    /// This content word of the own version is to be stored: the meta word at 0, value word `k` at `k + 1`.
    Storing(u32),
    /// The flushed copy of this content word is to be stored.
    Flushing(u32),
    /// The walk is on its way.
    Seeking,
    /// The tail's meta word is to be loaded.
    AtMeta(Tag),
    /// The own tag is to be linked behind the tail.
    AtLink(Tag),
    /// The tail's meta word says that nothing is to be committed: its next word is to be loaded again, and decides
    /// the reply where it shows the tail still unlinked.
    Deciding { tail: Tag, reply: Verdict },
    /// The tail's meta word was that of no version, so it has been passed: its next word is to be loaded again.
    AtBad(Tag),
    /// The own tag is linked behind this one, and the link is to be raised.
    AtRaise(Tag),
    /// That link is durable, and the own tag is to be stored in the slot's shortcut.
    AtShort,
    /// The call is over.
    Over,
}

/// Why a call commits nothing behind a tail.
#[derive(Clone, Copy)]
pub enum Verdict {
    /// The tail is a tombstone.
    Absent,
    /// The tail is not the tag that a swap expects.
    Differs,
}
