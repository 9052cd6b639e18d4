// The image: one number for each durable word of a pool, in the order of their addresses.
ghost use Rattle.std.specs.Prelude.{◌≡◌, ◌<◌, ◌↔◌, length, replicate, slice_index, slice_set, IfOk, IfSome, IfNone, IsTrue, IsFalse};
ghost use Rattle.clover_words.specs.Place.{place, durable_words};
ghost use Rattle.clover_image.specs.Image.{AreWords, IsDurable};

use clover_list::OutOfMemory;
use clover_words::{Pool, Side, Word};
use std::alloc::Global;
use std::marker::Model;

/// What a power cut leaves of a pool: one number for each durable word. Shortcuts and the count of bindings are lost.
#[derive(Drop)]
pub struct Image {
    pool: Pool,
    words: Vec<u64>,
}

impl Model for Image {
    ghost use Rattle.std.specs.Prelude.{◌≡◌, length};
    ghost use Rattle.clover_words.specs.Place.{durable_words};
    ghost use Rattle.clover_image.specs.Image.{PoolImage};

    ghost Value = { PoolImage };

    ghost view = { λ m. record { pool = m.pool; words = m.words.items } };

    ghost invariant = { λ m. length m.words.items ≡ durable_words m.pool };
}

// How many words of the pool have two copies: all but the shortcuts and the count.
pub(crate) fn durable_count(pool: &Pool) -> usize
    ensures { result ≡ durable_words pool.now }
{
    ((pool.len() - u64::from(pool.slots) - 1) / 2) as usize
}

// Each number fits into a word. Does nothing: its contract is a fact for callers.
fn each_fits(words: &[u64])
    ensures { AreWords words.now }
{}

impl Image {
    /// The image in which each durable word of the pool is 0. `OutOfMemory` for want of memory.
    pub fn blank(alloc: Global, pool: Pool) -> Result<Image, OutOfMemory>
        ensures { IfOk result (λ image. image ≡ record { pool = pool; words = replicate (durable_words pool) 0 }) }
    {
        let words = vec![in alloc; 0; durable_count(&pool)]?;
        Ok(Image { pool, words })
    }

    /// The pool of which this is an image.
    pub fn pool(&self) -> Pool
        ensures { result ≡ self.now.pool }
    {
        self.pool
    }

    /// The numbers of all durable words, in the order of their addresses.
    pub fn words(&self) -> &[u64]
        ensures value { result.now ≡ self.now.words }
        ensures sized { length self.now.words ≡ durable_words self.now.pool }
    {
        &self.words
    }

    // Each number fits into a word. Does nothing: its contract is a fact for callers.
    pub(crate) fn are_words(&self)
        ensures { AreWords self.now.words }
    {
        each_fits(self.words());
    }

    // The image of these numbers.
    pub(crate) fn of(pool: Pool, words: Vec<u64>) -> Image
        requires { length words.items ≡ durable_words pool }
        ensures { result ≡ record { pool = pool; words = words.items } }
    {
        Image { pool, words }
    }

    // Where the image has the number of a word. None exactly where the word is no durable word of the pool.
    pub(crate) fn index_of(&self, word: Word) -> Option<usize>
        ensures some { IfSome result (λ at. IsDurable self.now.pool word × (at ≡ place self.now.pool word) × (at < length self.now.words)) }
        ensures none { IfNone result (IsDurable self.now.pool word → ⊥) }
    {
        let flushed = self.pool.address(word, Side::Flushed)?;
        Some(flushed as usize - self.words.len())
    }

    /// The number of a word. None exactly where the word is no durable word of the pool.
    pub fn get(&self, word: Word) -> Option<u64>
        ensures some { IfSome result (λ n. IsDurable self.now.pool word × (n ≡ slice_index self.now.words (place self.now.pool word))) }
        ensures none { IfNone result (IsDurable self.now.pool word → ⊥) }
    {
        let at = self.index_of(word)?;
        Some(self.words[at])
    }

    /// Sets the number of a word, and of that word alone. False exactly where the word is no durable word of the pool,
    /// and then nothing changes. It takes no memory.
    pub fn set(&mut self, word: Word, value: u64) -> bool
        ensures when { IsTrue result ↔ IsDurable self.old.pool word }
        ensures done { IsTrue result → self.new ≡ record self.old { words = slice_set self.old.words (place self.old.pool word) value } }
        ensures same { IsFalse result → self.new ≡ self.old }
    {
        match self.index_of(word) {
            Some(at) => {
                self.words[at] = value;
                true
            }
            None => false,
        }
    }
}
