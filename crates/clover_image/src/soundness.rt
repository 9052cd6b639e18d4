// The test of an image against the rules, in passes: next words, roots, keys, chains. Each pass ends at the first word
// that breaks a rule.
ghost use Rattle.std.specs.Prelude.{◌≡◌, ℕ, List, Option, ◌+◌, ◌*◌, ◌<◌, ◌↔◌, Some, None, true, false, not, length, slice_index_or, slice_set, IfErr, IfOk, OnOk, IfSome, IsTrue};
ghost use Rattle.std.specs.Option.{option_map};
ghost use Rattle.clover_words.specs.Place.{IsBuffer};
ghost use Rattle.clover_words.specs.Tag.{home, tag_number};
ghost use Rattle.clover_words.specs.Version.{buffer_at};
ghost use Rattle.clover_map.specs.declared.bytes.Value.{Value};
ghost use Rattle.clover_rule.specs.Content.{InRange};
ghost use Rattle.clover_rule.specs.Cut.{IsSound};
ghost use Rattle.clover_image.specs.Contents.{HasVersion};
ghost use Rattle.clover_image.specs.Damage.{Breaks, ChainDamage, ContentDamage, IfDamaged, KeyDamage, KeysHold, LinkHolds, NextDamage, NextHolds, NextsHold, RootDamage, RootHolds, RootsHold, SaysMeta, TagFault};
ghost use Rattle.clover_image.specs.Image.{AreWords};
ghost use Rattle.clover_image.specs.Reading.{decoded};
ghost use Rattle.clover_image.specs.Walking.{AreMarked, AreWalked, IsVersion, place_of};

use crate::content::{is_in_range, is_padded, is_value, key_of, meta_of, next_of, root_of};
use crate::damage::{Damage, DamageRule, SoundFault};
use crate::image::Image;
use clover_map::Key;
use clover_words::{Buffer, Meta, Pool, Tag, Word};
use std::alloc::Global;
use std::collections::BTreeMap;

/// Tests an image against the rules: Ok exactly where it is sound. `Damaged` names the first rule that is broken, and the
/// first word at which it is: next words come first, then roots, then keys slot by slot, then chains slot by slot and tag
/// by tag. `OutOfMemory` for want of memory: the call takes a mark for each buffer, and a copy of the key of each slot
/// that has a root.
pub fn sound(alloc: Global, image: &Image) -> Result<(), SoundFault>
    ensures sound { IfOk result (λ _. IsSound image.now.pool image.now.words) }
    ensures fault { IfErr result (λ fault. IfDamaged fault (λ _. IsSound image.now.pool image.now.words → ⊥)) }
    ensures first { IfErr result (λ fault. IfDamaged fault (Breaks image.now)) }
{
    next_words(image)?;
    roots(image)?;
    keys(alloc, image)?;
    chains(alloc, image)
}

// Every next word decodes and is in range.
fn next_words(image: &Image) -> Result<(), Damage>
    ensures ok { IfOk result (λ _. NextsHold image.now) }
    ensures err { IfErr result (NextDamage image.now) }
{
    let pool = image.pool();
    for number in 0..pool.total() {
        let buffer = pool.buffer(number);
        if !is_next_fine(image, buffer) {
            return Err(Damage {
                rule: DamageRule::Next,
                word: Word::Next(buffer),
            });
        }
    }
    Ok(())
}

// Whether a next word decodes, its own generation is at most the wear, and its target in range.
fn is_next_fine(image: &Image, buffer: Buffer) -> bool
    requires { IsBuffer image.now.pool buffer }
    ensures { IsTrue result ↔ NextHolds image.now buffer }
{
    let pool = image.pool();
    match next_of(image, buffer) {
        Some(next) => next.own <= pool.wear && is_link_fine(&pool, next.link),
        None => false,
    }
}

// Whether a target, where there is one, is in range.
fn is_link_fine(pool: &Pool, link: Option<Tag>) -> bool
    ensures { IsTrue result ↔ LinkHolds pool.now link }
{
    match link {
        Some(tag) => is_in_range(pool, tag),
        None => true,
    }
}

// Every root decodes and is in range.
fn roots(image: &Image) -> Result<(), Damage>
    ensures ok { IfOk result (λ _. RootsHold image.now) }
    ensures err { IfErr result (RootDamage image.now) }
{
    for slot in 0..image.pool().slots {
        if !is_root_fine(image, slot) {
            return Err(Damage {
                rule: DamageRule::Root,
                word: Word::Root(slot),
            });
        }
    }
    Ok(())
}

// Whether a root decodes, and its target is in range.
fn is_root_fine(image: &Image, slot: u32) -> bool
    requires { slot < image.now.pool.slots }
    ensures { IsTrue result ↔ RootHolds image.now slot }
{
    match root_of(image, slot) {
        Some(root) => is_link_fine(&image.pool(), root),
        None => false,
    }
}

// The tag of a slot's root, where it has one.
fn root_tag(image: &Image, slot: u32) -> Option<Tag>
    requires slot { slot < image.now.pool.slots }
    requires root { RootHolds image.now slot }
    ensures value { (decoded image.now).root slot ≡ option_map tag_number result }
    ensures range { IfSome result (λ tag. InRange image.now.pool (tag_number tag)) }
{
    root_of(image, slot)?
}

// Every slot with a root has a key, and no earlier one has the same.
fn keys(alloc: Global, image: &Image) -> Result<(), SoundFault>
    requires { RootsHold image.now }
    ensures ok { IfOk result (λ _. KeysHold image.now) }
    ensures err { IfErr result (λ fault. IfDamaged fault (KeyDamage image.now)) }
{
    let mut slots = BTreeMap::new(alloc);
    for slot in 0..image.pool().slots {
        if root_tag(image, slot).is_some() {
            let word = Word::Key(slot, 0);
            let Some(key) = key_of(image, slot) else {
                return Err(SoundFault::Damaged(Damage {
                    rule: DamageRule::Key,
                    word,
                }));
            };
            if slots.insert(key, slot)?.is_some() {
                return Err(SoundFault::Damaged(Damage {
                    rule: DamageRule::SameKey,
                    word,
                }));
            }
        }
    }
    Ok(())
}

// Every chain is one, and no buffer stands on chains twice.
fn chains(alloc: Global, image: &Image) -> Result<(), SoundFault>
    requires nexts { NextsHold image.now }
    requires roots { RootsHold image.now }
    ensures ok { IfOk result (λ _. (tags : ℕ → List ℕ) × AreWalked image.now image.now.pool.slots tags) }
    ensures err { IfErr result (λ fault. IfDamaged fault (λ damage. (slot : ℕ) × (slot < image.now.pool.slots) × ChainDamage image.now slot damage)) }
{
    let pool = image.pool();
    let mut met = vec![in alloc; false; pool.total() as usize]?;
    for slot in 0..pool.slots {
        match root_tag(image, slot) {
            Some(root) => chain(image, root, &mut met)?,
            None => {}
        }
    }
    Ok(())
}

// Goes along a chain from its root to its end. A chain has each buffer once, so it ends after so many steps, or one of
// them meets a buffer again.
fn chain(image: &Image, root: Tag, met: &mut [bool]) -> Result<(), Damage>
    requires nexts { NextsHold image.now }
    requires range { InRange image.now.pool (tag_number root) }
    requires sized { length met.old ≡ image.now.pool.nodes * image.now.pool.buffers }
    ensures ok { (slot : ℕ) (tags : ℕ → List ℕ) → (decoded image.now).root slot ≡ Some (tag_number root) → AreWalked image.now slot tags → AreMarked image.now.pool tags met.old
        → OnOk result ((more : ℕ → List ℕ) × AreWalked image.now (slot + 1) more × AreMarked image.now.pool more met.new) }
    ensures err { (slot : ℕ) (tags : ℕ → List ℕ) → (decoded image.now).root slot ≡ Some (tag_number root) → AreWalked image.now slot tags → AreMarked image.now.pool tags met.old
        → IfErr result (ChainDamage image.now slot) }
{
    let mut next = Some(root);
    for _step in 0..met.len() + 1 {
        match next {
            Some(tag) => next = version(image, tag, met)?,
            None => return Ok(()),
        }
    }
    Ok(())
}

// Tests the version of a tag on a chain, and gives the tag that its next word links to.
fn version(image: &Image, tag: Tag, met: &mut [bool]) -> Result<Option<Tag>, Damage>
    requires next { NextHolds image.now (buffer_at (home (tag_number tag))) }
    requires range { InRange image.now.pool (tag_number tag) }
    requires sized { length met.old ≡ image.now.pool.nodes * image.now.pool.buffers }
    ensures ok { IfOk result (λ link. IsVersion image.now (tag_number tag) (option_map tag_number link)) }
    ensures fresh { OnOk result (slice_index_or met.old (place_of image.now.pool (tag_number tag)) false ≡ false) }
    ensures marked { OnOk result (met.new ≡ slice_set met.old (place_of image.now.pool (tag_number tag)) true) }
    ensures err { IfErr result (TagFault image.now (tag_number tag) (slice_index_or met.old (place_of image.now.pool (tag_number tag)) false ≡ true)) }
{
    let word = tag.next_word();
    let link = match next_of(image, tag.buffer()) {
        Some(next) if next.own == tag.generation => next.link,
        _ => {
            return Err(Damage {
                rule: DamageRule::Generation,
                word,
            });
        }
    };
    if !is_first(&image.pool(), tag, met) {
        return Err(Damage {
            rule: DamageRule::Twice,
            word,
        });
    }
    content(image, tag)?;
    Ok(link)
}

// Marks the buffer of a tag. False where it was marked before.
fn is_first(pool: &Pool, tag: Tag, met: &mut [bool]) -> bool
    requires range { InRange pool.now (tag_number tag) }
    requires sized { length met.old ≡ pool.now.nodes * pool.now.buffers }
    ensures first { result ≡ not (slice_index_or met.old (place_of pool.now (tag_number tag)) false) }
    ensures marked { met.new ≡ slice_set met.old (place_of pool.now (tag_number tag)) true }
{
    let number = (u64::from(tag.node) * u64::from(pool.buffers) + u64::from(tag.index)) as usize;
    let first = !met[number];
    met[number] = true;
    first
}

// Tests the content of the version of a tag.
fn content(image: &Image, tag: Tag) -> Result<(), Damage>
    requires { InRange image.now.pool (tag_number tag) }
    ensures ok { IfOk result (λ _. (x : Option Value) × HasVersion image.now (tag_number tag) x) }
    ensures err { IfErr result (ContentDamage image.now (buffer_at (home (tag_number tag)))) }
{
    image.are_words();
    match meta_of(image, tag) {
        Some(meta) if meta.length <= 8 * image.pool().words => padding(image, tag, meta),
        _ => Err(Damage {
            rule: DamageRule::Meta,
            word: Word::Meta(tag.buffer()),
        }),
    }
}

// Tests that zeros stand behind a value's end in its last word.
fn padding(image: &Image, tag: Tag, meta: Meta) -> Result<(), Damage>
    requires range { InRange image.now.pool (tag_number tag) }
    requires says { SaysMeta image.now (buffer_at (home (tag_number tag))) meta }
    requires small { AreWords image.now.words }
    ensures ok { IfOk result (λ _. (x : Option Value) × HasVersion image.now (tag_number tag) x) }
    ensures err { IfErr result (ContentDamage image.now (buffer_at (home (tag_number tag)))) }
{
    if !is_value(meta) || meta.length % 8 == 0 {
        return Ok(());
    }
    let word = Word::Value(tag.buffer(), meta.length / 8);
    match image.get(word) {
        Some(last) if is_padded(last, meta.length % 8) => Ok(()),
        _ => Err(Damage {
            rule: DamageRule::Padding,
            word,
        }),
    }
}
