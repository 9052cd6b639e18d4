// Where a binding stands.

/// Which store of a binding comes next. Each word is stored in its current copy and then in its flushed one; of the key
/// all current copies come first.
#[derive(Clone, Copy)]
pub enum Stage {
    /// That of the tombstone's meta word, in the own buffer: no access was made yet.
    Tombstone,
    /// That of its flushed copy.
    FlushedTombstone,
    /// That of this word of the key.
    Key(u32),
    /// That of this word's flushed copy.
    FlushedKey(u32),
    /// That of the slot's root.
    Root,
    /// That of its flushed copy.
    FlushedRoot,
    /// That of the count.
    Count,
    /// The binding is over.
    Over,
}
