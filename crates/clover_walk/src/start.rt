// Where a walk begins, and where it stands.
ghost use Rattle.std.specs.Prelude.{◌≡◌};
ghost use Rattle.clover_walk.specs.Walking.{begins, next_start};
ghost use Rattle.clover_walk.specs.Standing.{standing};

use clover_words::Tag;

/// Where a walk begins.
#[derive(Clone, Copy)]
pub enum Start {
    /// At the tag that the caller knew.
    FromCursor,
    /// At the slot's shortcut.
    FromShort,
    /// At the slot's root.
    FromRoot,
}

/// Where a walk stands.
#[derive(Clone, Copy)]
pub enum Stand {
    /// The slot's shortcut is to be loaded.
    AtShort,
    /// The slot's root is to be loaded.
    AtRoot,
    /// The tag's next word is to be loaded.
    AtTag(Tag),
    /// The first tag's next word was shown linked to the other, and its flushed copy is to be raised to that.
    AtLink { from: Tag, to: Tag },
    /// The tag is the tail.
    OnTail(Tag),
    /// The walk has ended before the tail.
    Ended,
}

impl Start {
    /// Where a walk begins anew after this start was stale.
    pub fn next(self) -> Start
        ensures { result ≡ next_start self }
    {
        match self {
            Start::FromCursor => Start::FromShort,
            Start::FromShort | Start::FromRoot => Start::FromRoot,
        }
    }

    /// Where a walk stands that begins anew so. None does at a cursor.
    pub fn stand(self) -> Stand
        ensures { standing result ≡ begins self }
    {
        match self {
            Start::FromCursor | Start::FromShort => Stand::AtShort,
            Start::FromRoot => Stand::AtRoot,
        }
    }
}
