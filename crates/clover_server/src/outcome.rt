// What an access of the server's unfinished task came to.
use clover_words::Tag;

/// What an access of a task came to.
#[derive(Clone, Copy)]
pub enum Outcome {
    /// The task goes on.
    Going,
    /// A recycling is over: the slot's root version has no version behind it.
    Unlinked,
    /// A recycling is over: the slot's root is the version that stood behind the old one.
    Recycled { slot: u32, old: Tag, root: Tag },
    /// A binding is over: this tag's version is its slot's root, and the directory has the binding.
    Bound { own: Tag },
    /// The access was refused.
    Unreached,
}
