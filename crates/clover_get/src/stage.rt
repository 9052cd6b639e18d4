// Where a get stands.
use clover_words::Tag;

/// Where a get stands.
#[derive(Clone, Copy)]
pub enum Stage {
    /// On the walk to the tail.
    Seeking,
    /// The tail's meta word is to be loaded.
    AtMeta(Tag),
    /// The tail has a value of these flags, and its value word of this number is to be loaded.
    AtValue { tag: Tag, flags: u32, next: u32 },
    /// All value words are loaded, and the tail's next word is to be loaded for the last time.
    AtFound { tag: Tag, flags: u32 },
    /// The tail is a tombstone, and its next word is to be loaded for the last time.
    AtDead(Tag),
    /// The tail's meta word was that of no version that a buffer has room for. So the tag has been passed, and its
    /// next word is to be loaded to see how.
    AtBad(Tag),
    /// The call has ended.
    Over,
}
