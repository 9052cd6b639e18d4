// Why an image is not one that a running pool may leave.
use clover_list::OutOfMemory;
use clover_words::Word;
use std::alloc::{AllocError, AllocFailed};

/// A rule of images, in the order of the passes that test them: all next words, all roots, the keys slot by slot, and the
/// chains slot by slot and tag by tag.
#[derive(Clone, Copy, Debug, PartialEq, Eq)]
pub enum DamageRule {
    /// A next word decodes, its own generation is at most the wear, and its target is a buffer of the pool at a
    /// generation below the wear.
    Next,
    /// A root decodes, and its target is a buffer of the pool at a generation below the wear.
    Root,
    /// A slot with a root has a key of 1 to 250 bytes, with zeros behind it in its last word.
    Key,
    /// No earlier slot with a root has the same key.
    SameKey,
    /// A tag on a chain is of the generation that its buffer serves.
    Generation,
    /// A buffer stands on one chain, and once.
    Twice,
    /// The meta word of a version on a chain decodes, and a buffer has room for its length.
    Meta,
    /// Behind a value's end its last word has zeros.
    Padding,
}

/// A rule that an image breaks, and the word at which it does.
#[derive(Clone, Copy, Debug, PartialEq, Eq)]
pub struct Damage {
    pub rule: DamageRule,
    pub word: Word,
}

/// Why an image was not found sound.
#[derive(Clone, Copy, Debug, PartialEq, Eq)]
pub enum SoundFault {
    /// It breaks a rule.
    Damaged(Damage),
    /// The allocator had no memory left.
    OutOfMemory,
}

impl<T: Drop> From<AllocFailed<T>> for SoundFault {
    ghost use Rattle.std.specs.Prelude.{◌≡◌};
    ghost use Rattle.clover_image.specs.declared.damage.SoundFault.TheVariants.{OutOfMemory};

    ghost from_gives = { λ _ fault. fault ≡ OutOfMemory };

    fn from(_: AllocFailed<T>) -> Self {
        SoundFault::OutOfMemory
    }
}

impl From<AllocError> for SoundFault {
    ghost use Rattle.std.specs.Prelude.{◌≡◌};
    ghost use Rattle.clover_image.specs.declared.damage.SoundFault.TheVariants.{OutOfMemory};

    ghost from_gives = { λ _ fault. fault ≡ OutOfMemory };

    fn from(_: AllocError) -> Self {
        SoundFault::OutOfMemory
    }
}

impl From<OutOfMemory> for SoundFault {
    ghost use Rattle.std.specs.Prelude.{◌≡◌};
    ghost use Rattle.clover_image.specs.declared.damage.SoundFault.TheVariants.{OutOfMemory};

    ghost from_gives = { λ _ fault. fault ≡ OutOfMemory };

    fn from(_: OutOfMemory) -> Self {
        SoundFault::OutOfMemory
    }
}

impl From<Damage> for SoundFault {
    ghost use Rattle.std.specs.Prelude.{◌≡◌};
    ghost use Rattle.clover_image.specs.declared.damage.SoundFault.TheVariants.{Damaged};

    ghost from_gives = { λ damage fault. fault ≡ Damaged damage };

    fn from(damage: Damage) -> Self {
        SoundFault::Damaged(damage)
    }
}
