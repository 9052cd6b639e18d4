// What the slots of a sound image come to: which of them lose their root, which buffers stand on the chains of the
// others, and the directory of those.
ghost use Rattle.std.specs.Prelude.{◌≡◌, ℕ, ◌+◌, ◌*◌, ◌<◌, [], ◌∷◌, ◌++◌, true, false, map, length, slice_index_or, IfOk, OnOk, Some, replicate, if◌then◌else◌};
ghost use Rattle.std.specs.Prelude.{nat_eq};
ghost use Rattle.clover_words.specs.Tag.{tag_number, home};
ghost use Rattle.clover_rule.specs.Content.{InRange, Spells};
ghost use Rattle.clover_rule.specs.Cut.{IsSound};
ghost use Rattle.clover_rule.specs.Image.{Chain};
ghost use Rattle.clover_rule.specs.Lists.{Each};
ghost use Rattle.clover_rule.specs.Restart.{stands_on};
ghost use Rattle.clover_rule.specs.Sound.{Sound};
ghost use Rattle.clover_dir.specs.Directory.{nothing_bound};
ghost use Rattle.clover_restart.specs.Reading.{decoded, number_at, place_at};
ghost use Rattle.clover_restart.specs.Slots.{AreRead};
ghost use Rattle.clover_alloc.specs.declared.line.Place.TheVariants.{Free as IsFree, Bound as IsBound, Out as IsOut};

use crate::chain::read_chain;
use crate::key::key_in;
use crate::reading::{is_value, root_in};
use crate::store::Store;
use clover_alloc::Place;
use clover_dir::Directory;
use clover_image::Image;
use clover_list::OutOfMemory;
use clover_words::{Pool, Side, Tag};
use std::alloc::Global;

/// What was read of some slots.
#[derive(Drop)]
pub struct Slots {
    /// The stores that clear the roots of those whose chain ends in a tombstone.
    pub stores: Vec<Store>,
    /// Of each buffer, whether it is the root version of another one, or stands on its chain behind that; else it is free.
    pub marks: Vec<Place>,
    /// The directory of those others.
    pub directory: Directory,
}

/// Reads all slots of the image, each of their chains once.
pub fn read_slots(alloc: Global, image: &Image) -> Result<Slots, OutOfMemory>
    requires sound { IsSound image.now.pool image.now.words }
    ensures { IfOk result (λ slots. (sound : Sound image.now.pool (decoded image.now)) → AreRead image.now.pool (decoded image.now) sound image.now.pool.slots slots) }
{
    let pool = image.pool();
    let mut slots = no_slots(alloc, pool)?;
    let mut chain = Vec::new(alloc);
    for slot in 0..pool.slots {
        slots.read(image, slot, &mut chain)?;
    }
    Ok(slots)
}

// No slot was read yet.
fn no_slots(alloc: Global, pool: Pool) -> Result<Slots, OutOfMemory>
    ensures stores { IfOk result (λ slots. slots.stores.items ≡ []) }
    ensures marks { IfOk result (λ slots. slots.marks.items ≡ replicate (pool.nodes * pool.buffers) IsFree) }
    ensures directory { IfOk result (λ slots. slots.directory ≡ nothing_bound pool) }
{
    let marks = vec![in alloc; Place::Free; pool.total() as usize]?;
    Ok(Slots {
        stores: Vec::new(alloc),
        marks,
        directory: Directory::make(alloc, pool)?,
    })
}

impl Slots {
    // Reads the next slot. The list is room for its chain.
    fn read(&mut self, image: &Image, slot: u32, chain: &mut Vec<Tag>) -> Result<(), OutOfMemory>
        requires sound { IsSound image.now.pool image.now.words }
        requires slot { slot < image.now.pool.slots }
        requires read { (sound : Sound image.now.pool (decoded image.now)) → AreRead image.now.pool (decoded image.now) sound slot self.old }
        ensures { OnOk result ((sound : Sound image.now.pool (decoded image.now)) → AreRead image.now.pool (decoded image.now) sound (slot + 1) self.new) }
    {
        match root_in(image, slot) {
            Some(root) => {
                read_chain(image, root, chain)?;
                self.add(image, slot, root, chain)
            }
            None => Ok(()),
        }
    }

    // Adds a slot with a root, whose chain this is.
    fn add(&mut self, image: &Image, slot: u32, root: Tag, chain: &[Tag]) -> Result<(), OutOfMemory>
        requires sound { IsSound image.now.pool image.now.words }
        requires slot { slot < image.now.pool.slots }
        requires root { (decoded image.now).root slot ≡ Some (tag_number root) }
        requires chain { Chain (decoded image.now) (Some (tag_number root)) (map tag_number chain.now) }
        requires read { (sound : Sound image.now.pool (decoded image.now)) → AreRead image.now.pool (decoded image.now) sound slot self.old }
        ensures { OnOk result ((sound : Sound image.now.pool (decoded image.now)) → AreRead image.now.pool (decoded image.now) sound (slot + 1) self.new) }
    {
        if is_value(image, chain[chain.len() - 1]) {
            mark(&mut self.marks, &image.pool(), root, chain);
            self.directory.stands();
            self.directory.enter(slot, key_in(image, slot), root);
            Ok(())
        } else {
            self.stores.push(Store::Clear(slot, Side::Current))?;
            self.stores.push(Store::Clear(slot, Side::Flushed))?;
            Ok(())
        }
    }
}

// Marks the buffers of a chain that is kept.
fn mark(marks: &mut [Place], pool: &Pool, root: Tag, chain: &[Tag])
    requires sized { length marks.old ≡ pool.now.nodes * pool.now.buffers }
    requires root { InRange pool.now (tag_number root) }
    requires chain { Each (InRange pool.now) (map tag_number chain.now) }
    ensures sized { length marks.new ≡ length marks.old }
    ensures marks { (q : ℕ) → q < pool.now.nodes * pool.now.buffers → slice_index_or marks.new q IsFree ≡ (if nat_eq (home (tag_number root)) (number_at pool.now q) then IsBound else if stands_on (map tag_number chain.now) (number_at pool.now q) then IsOut else slice_index_or marks.old q IsFree) }
{
    for tag in chain {
        marks[place_of(pool, tag)] = Place::Out;
    }
    marks[place_of(pool, &root)] = Place::Bound;
}

// The place of a tag's buffer among the pool's.
fn place_of(pool: &Pool, tag: &Tag) -> usize
    ensures { result ≡ place_at pool.now (home (tag_number tag.now)) }
{
    let buffer = tag.buffer();
    (u64::from(buffer.node) * u64::from(pool.buffers) + u64::from(buffer.index)) as usize
}
