// The image that a power cut leaves by a choice. The words of the pool are read one at a time, so that no copy of them
// is made.
ghost use Prim.Native.Nat.{suc};
ghost use Rattle.std.specs.Prelude.{◌≡◌, [], ◌∷◌, ◌≢◌, ◌<◌, ◌≤◌, ◌+◌, ◌*◌, ◌%◌, ℕ, List, length, slice_index, slice_set, true, false, IfOk, nat_eq, if◌then◌else◌};
ghost use Rattle.clover_words.specs.Place.{durable_words};
ghost use Rattle.clover_image.specs.Choosing.{copy_at, taken, mixed, seeded, is_picked, chosen};

use crate::image::{Image, durable_count};
use clover_list::OutOfMemory;
use clover_script::Choice;
use clover_words::{Pool, Word};
use rand_core::utils::NextWord;
use rand_pcg::Lcg64Xsh32;
use std::alloc::Global;

/// The words of a pool, both copies, by address.
pub trait PoolWords {
    // All words, in the order of their addresses.
    ghost numbers: { Self → List ℕ };

    /// The word at an address.
    fn number(&self, address: u64) -> u64
        requires { address < length (numbers self.now) }
        ensures { result ≡ slice_index (numbers self.now) address };
}

impl PoolWords for Vec<u64> {
    ghost numbers = { λ v. v.items };

    fn number(&self, address: u64) -> u64 {
        self[address as usize]
    }
}

// One of the two copies of the durable word whose current copy stands at an address.
fn copy_of<W: PoolWords>(pool: &Pool, words: &W, address: u64, current: bool) -> u64
    requires sized { 2 * durable_words pool.now ≤ length (W.numbers words.now) }
    requires durable { address < durable_words pool.now }
    ensures { result ≡ copy_at current pool.now (W.numbers words.now) address }
{
    if current {
        words.number(address)
    } else {
        words.number(durable_count(pool) as u64 + address)
    }
}

// The same copy of each durable word.
fn one_side<W: PoolWords>(
    alloc: Global,
    pool: &Pool,
    words: &W,
    current: bool,
) -> Result<Vec<u64>, OutOfMemory>
    requires { 2 * durable_words pool.now ≤ length (W.numbers words.now) }
    ensures sized { IfOk result (λ kept. length kept.items ≡ durable_words pool.now) }
    ensures taken { IfOk result (λ kept. kept.items ≡ taken (λ _. current) pool.now (W.numbers words.now) 0 (durable_words pool.now)) }
{
    let count = durable_count(pool);
    let mut kept = Vec::with_capacity(alloc, count)?;
    for at in 0..count {
        kept.push(copy_of(pool, words, at as u64, current))?;
    }
    Ok(kept)
}

// The copy that the generator takes of the durable word at an address; it is drawn from where the copies differ.
fn draw<W: PoolWords>(pool: &Pool, words: &W, address: u64, generator: &mut Lcg64Xsh32) -> u64
    requires sized { 2 * durable_words pool.now ≤ length (W.numbers words.now) }
    requires durable { address < durable_words pool.now }
    ensures { (n : ℕ) → result ∷ mixed generator.new pool.now (W.numbers words.now) (suc address) n ≡ mixed generator.old pool.now (W.numbers words.now) address (suc n) }
{
    let current = copy_of(pool, words, address, true);
    if current == copy_of(pool, words, address, false) {
        return current;
    }
    let odd = generator.next_word() % 2 == 1;
    copy_of(pool, words, address, odd)
}

// Of each durable word the copy that the generator of the seed takes.
fn by_seed<W: PoolWords>(
    alloc: Global,
    pool: &Pool,
    words: &W,
    seed: u64,
) -> Result<Vec<u64>, OutOfMemory>
    requires { 2 * durable_words pool.now ≤ length (W.numbers words.now) }
    ensures sized { IfOk result (λ kept. length kept.items ≡ durable_words pool.now) }
    ensures mixed { IfOk result (λ kept. kept.items ≡ mixed (seeded seed) pool.now (W.numbers words.now) 0 (durable_words pool.now)) }
{
    let count = durable_count(pool);
    let mut generator = Lcg64Xsh32::new(seed, 1);
    let mut kept = Vec::with_capacity(alloc, count)?;
    for at in 0..count {
        kept.push(draw(pool, words, at as u64, &mut generator))?;
    }
    Ok(kept)
}

// Takes the current copy of the word of this name, where the image has one.
fn take_current<W: PoolWords>(image: &mut Image, words: &W, name: Word)
    requires { length image.old.words ≤ length (W.numbers words.now) }
    ensures pool { image.new.pool ≡ image.old.pool }
    ensures sized { length image.new.words ≡ length image.old.words }
    ensures picked { (i : ℕ) → i < length image.old.words → slice_index image.new.words i ≡ (if is_picked image.old.pool (name ∷ []) i then slice_index (W.numbers words.now) i else slice_index image.old.words i) }
{
    if let Some(at) = image.index_of(name) {
        let _ = image.set(name, words.number(at as u64));
    }
}

// The current copies of the words of these names, and the flushed ones of all others.
fn by_names<W: PoolWords>(
    alloc: Global,
    pool: Pool,
    words: &W,
    names: &[Word],
) -> Result<Image, OutOfMemory>
    requires { 2 * durable_words pool ≤ length (W.numbers words.now) }
    ensures { IfOk result (λ image. image ≡ record { pool = pool; words = taken (is_picked pool names.now) pool (W.numbers words.now) 0 (durable_words pool) }) }
{
    let kept = one_side(alloc, &pool, words, false)?;
    let mut image = Image::of(pool, kept);
    for name in names {
        take_current(&mut image, words, *name);
    }
    Ok(image)
}

impl Image {
    /// The image that a power cut leaves by the choice: of each durable word one of its two copies. It reads each word
    /// that it needs once or twice, and copies no other. `OutOfMemory` for want of memory.
    pub fn choose<W: PoolWords>(
        alloc: Global,
        pool: Pool,
        words: &W,
        choice: &Choice,
    ) -> Result<Image, OutOfMemory>
        requires { 2 * durable_words pool ≤ length (W.numbers words.now) }
        ensures { IfOk result (λ image. image ≡ record { pool = pool; words = chosen pool choice.now (W.numbers words.now) }) }
    {
        match choice {
            Choice::Old => Ok(Image::of(pool, one_side(alloc, &pool, words, false)?)),
            Choice::New => Ok(Image::of(pool, one_side(alloc, &pool, words, true)?)),
            Choice::Mix(seed) => Ok(Image::of(pool, by_seed(alloc, &pool, words, *seed)?)),
            Choice::Pick(names) => by_names(alloc, pool, words, names.items()),
        }
    }
}
