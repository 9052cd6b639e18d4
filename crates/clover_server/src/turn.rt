// What a step of the server answers, and what a whole call of it is refused by.
use clover_words::Tag;

/// What a step of the server came to.
#[derive(Clone, Copy)]
pub enum ServerTurn {
    /// One access was made, and the call is to be repeated.
    More,
    /// What was wanted is there: a buffer is free, or the key is bound. No access was made.
    Ready,
    /// The access showed the slot's root version unlinked: there is nothing to recycle.
    Unlinked,
    /// The access was the last one of the slot's recycling, which gave this tag's buffer back.
    Recycled { old: Tag },
    /// No buffer is free, and the want's sweep has read the root version of each bound slot unlinked: how many buffers
    /// are bound, worn, and handed out.
    Full { bound: u32, worn: u32, out: u32 },
    /// Every slot is bound, and the key is not. No access was made.
    NoSlot,
    /// The access was refused. What it was for stays unfinished.
    Unreached,
}

/// Why a whole call of the server ended without what it was made for.
#[derive(Clone, Copy)]
pub enum ServerRefusal {
    /// As `ServerTurn::Full`.
    Full { bound: u32, worn: u32, out: u32 },
    /// As `ServerTurn::NoSlot`.
    NoSlot,
    /// As `ServerTurn::Unreached`.
    Unreached,
}
