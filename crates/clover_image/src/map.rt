// The map that a sound image stands for.
ghost use Rattle.std.specs.Prelude.{◌≡◌, ◌<◌, List, ℕ, Some, None, IfOk, OnOk};
ghost use Rattle.std.specs.FinMap.{insert};
ghost use Rattle.std.specs.Option.{option_map};
ghost use Rattle.clover_words.specs.Tag.{tag_number};
ghost use Rattle.clover_map.specs.declared.bytes.Value.{Value};
ghost use Rattle.clover_map.specs.Does.{held};
ghost use Rattle.clover_map.specs.Key.{IsKey};
ghost use Rattle.clover_rule.specs.Cut.{IsSound, StandsFor};
ghost use Rattle.clover_rule.specs.Content.{InRange, Spells};
ghost use Rattle.clover_rule.specs.Image.{Chain};
ghost use Rattle.clover_rule.specs.Lists.{Each};
ghost use Rattle.clover_rule.specs.Sound.{versions_of};
ghost use Rattle.clover_image.specs.Contents.{HasVersion};
ghost use Rattle.clover_image.specs.Reading.{decoded, last_of, tail_as, told_tail};

use crate::content::{is_value, key_of, meta_of, next_of, root_of, value_of};
use crate::image::Image;
use clover_list::OutOfMemory;
use clover_map::{Call, Reply, TaggedMap};
use clover_words::Tag;
use std::alloc::Global;

impl Image {
    /// The last tag of the chain of a slot of a sound image, and whether its version is a value. None where the slot
    /// has no root. It takes no memory.
    pub fn tail(&self, slot: u32) -> Option<(Tag, bool)>
        ensures { (sound : IsSound self.now.pool self.now.words) → option_map told_tail result ≡ option_map tail_as (last_of None (versions_of (sound.reads.chain slot) (sound.reads.value slot))) }
    {
        let root = root_of(self, slot)??;
        let last = last_from(self, root)?;
        Some((last, is_value(meta_of(self, last)?)))
    }
}

// The last tag of the chain that begins with this one. A chain has at most as many tags as the pool has buffers.
fn last_from(image: &Image, root: Tag) -> Option<Tag>
    ensures { IsSound image.now.pool image.now.words → (tags : List ℕ) → Chain (decoded image.now) (Some (tag_number root)) tags → Each (InRange image.now.pool) tags → option_map tag_number result ≡ last_of None tags }
{
    let mut last = root;
    for _steps in 0..image.pool().total() {
        match next_of(image, last.buffer())?.link {
            Some(tag) => last = tag,
            None => return Some(last),
        }
    }
    None
}

/// The map that a sound image stands for: the keys whose slot's chain ends in a value, each with the chain's last tag and
/// its value. `OutOfMemory` for want of memory.
pub fn map_of(alloc: Global, image: &Image) -> Result<TaggedMap, OutOfMemory>
    ensures { (sound : IsSound image.now.pool image.now.words) → IfOk result (λ map. StandsFor image.now.pool (decoded image.now) sound.reads map) }
{
    let mut map = TaggedMap::make(alloc);
    for slot in 0..image.pool().slots {
        match image.tail(slot) {
            Some(tail) if tail.1 => enter(alloc, image, slot, tail.0, &mut map)?,
            Some(_) => {}
            None => {}
        }
    }
    Ok(map)
}

// Enters what a slot's chain ends in.
fn enter(
    alloc: Global,
    image: &Image,
    slot: u32,
    tag: Tag,
    map: &mut TaggedMap,
) -> Result<(), OutOfMemory>
    ensures { (key : List ℕ) (value : Value) → slot < image.now.pool.slots → IsKey key → Spells ((decoded image.now).key slot) key → HasVersion image.now (tag_number tag) (Some value) → OnOk result (map.new ≡ insert map.old key (held (tag_number tag) value)) }
{
    let value = value_of(alloc, image, tag)?;
    if let (Some(key), Some(value)) = (key_of(image, slot), value) {
        let put = Call::Put { key, value };
        let _ = map.apply(&put, &Reply::Stored { tag: tag.number() })?;
    }
    Ok(())
}
