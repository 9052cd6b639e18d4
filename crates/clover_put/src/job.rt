// What a call that writes is to do, and why one is refused at once.
use clover_words::Tag;

/// What a call that writes is to do with its key.
#[derive(Clone, Copy)]
pub enum Job {
    /// To have the value under the key.
    Put,
    /// To have nothing under the key.
    Delete,
    /// To have the value under the key in place of the one whose tag is this.
    Swap(Tag),
}

/// A value has more bytes than a buffer has room for.
#[derive(Clone, Copy, Debug, PartialEq, Eq)]
pub struct TooLong {
    /// The value's length in bytes.
    pub length: usize,
    /// How many bytes a buffer has room for: eight for each of its value words.
    pub room: usize,
}
