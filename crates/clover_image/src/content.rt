// What the words of an image say: next words, roots, keys and the contents of versions.
ghost use Rattle.std.specs.Prelude.{◌≡◌, ◌*◌, ◌<◌, ◌≤◌, ◌↔◌, ℕ, List, length, IfNone, IfOk, IfSome, IsTrue, Some};
ghost use Rattle.std.specs.Prelude.{Option};
ghost use Rattle.clover_words.specs.declared.word.Word.TheVariants.{Next, Root, Meta as MetaOf, Value as ValueOf};
ghost use Rattle.clover_words.specs.declared.tag.Tag.{Tag};
ghost use Rattle.clover_words.specs.Next.{IsNext, IsLink, next_word, root_word};
ghost use Rattle.clover_words.specs.Meta.{IsMeta, meta_word};
ghost use Rattle.clover_words.specs.Place.{IsBuffer};
ghost use Rattle.clover_words.specs.Tag.{tag_number, home};
ghost use Rattle.clover_words.specs.Version.{buffer_at};
ghost use Rattle.clover_words.specs.Pack.{AreBytes, packed};
ghost use Rattle.clover_map.specs.declared.bytes.Value.{Value};
ghost use Rattle.clover_map.specs.Key.{IsKey};
ghost use Rattle.clover_rule.specs.Content.{InRange, Spells};
ghost use Rattle.clover_image.specs.Contents.{HasVersion, HasWords};
ghost use Rattle.clover_image.specs.Damage.{IsPadded};
ghost use Rattle.clover_image.specs.Reading.{HasKey, decoded, number_in, of_value};

use crate::image::Image;
use clover_list::OutOfMemory;
use clover_map::{Bytes, Key, Value};
use clover_words::{
    Buffer, Kind, Meta, NextWord, Pool, Tag, ValueBuf, Word, pack, root_decode, unpack,
};
use std::alloc::Global;

// The longest key, in bytes.
const KEY_BYTES: usize = 250;

// The words of a slot's key.
const KEY_WORDS: u32 = 32;

/// Whether a next word or a root may name the tag: its buffer is in the pool, and its generation below the wear.
pub(crate) fn is_in_range(pool: &Pool, tag: Tag) -> bool
    ensures { IsTrue result ↔ InRange pool.now (tag_number tag) }
{
    tag.node < pool.nodes && tag.index < pool.buffers && tag.generation < pool.wear
}

/// What the next word of a buffer says. None where it does not decode, or no such buffer is in the pool.
pub(crate) fn next_of(image: &Image, buffer: Buffer) -> Option<NextWord>
    ensures some { IfSome result (λ n. IsBuffer image.now.pool buffer × IsNext n × (next_word n ≡ number_in image.now (Next buffer))) }
    ensures only { (n : NextWord) → IsBuffer image.now.pool buffer → IsNext n → next_word n ≡ number_in image.now (Next buffer) → result ≡ Some n }
{
    NextWord::decode(image.get(Word::Next(buffer))?)
}

/// The root of a slot, `Some(None)` where it has none. None where it does not decode, or no such slot is in the pool.
pub(crate) fn root_of(image: &Image, slot: u32) -> Option<Option<Tag>>
    ensures some { IfSome result (λ tag. (slot < image.now.pool.slots) × IsLink tag × (root_word tag ≡ number_in image.now (Root slot))) }
    ensures only { (tag : Option Tag) → slot < image.now.pool.slots → IsLink tag → root_word tag ≡ number_in image.now (Root slot) → result ≡ Some tag }
{
    root_decode(image.get(Word::Root(slot))?)
}

/// What the meta word of a tag's version says. None where it does not decode, or no such buffer is in the pool.
pub(crate) fn meta_of(image: &Image, tag: Tag) -> Option<Meta>
    ensures some { let buffer = buffer_at (home (tag_number tag)) in IfSome result (λ m. IsBuffer image.now.pool buffer × IsMeta m × (meta_word m ≡ number_in image.now (MetaOf buffer))) }
    ensures only { let buffer = buffer_at (home (tag_number tag)) in (m : Meta) → IsBuffer image.now.pool buffer → IsMeta m → meta_word m ≡ number_in image.now (MetaOf buffer) → result ≡ Some m }
{
    Meta::decode(image.get(Word::Meta(tag.buffer()))?)
}

/// Whether a version with this meta word is a value.
pub(crate) fn is_value(meta: Meta) -> bool
    ensures { result ≡ of_value meta.kind }
{
    meta.kind == Kind::Value
}

/// Whether only the first `used` bytes of a word are not zero, of its eight.
pub(crate) fn is_padded(word: u64, used: u32) -> bool
    requires some { 1 ≤ used }
    requires most { used ≤ 8 }
    ensures { IsTrue result ↔ IsPadded word used }
{
    pack(&word.to_be_bytes()[..used as usize], 0) == word
}

/// The key of a slot. None where the key words spell none, or no such slot is in the pool.
pub(crate) fn key_of(image: &Image, slot: u32) -> Option<Key>
    ensures some { IfSome result (λ key. (slot < image.now.pool.slots) × IsKey key × Spells ((decoded image.now).key slot) key) }
    ensures none { IfNone result (slot < image.now.pool.slots → HasKey (decoded image.now) slot → ⊥) }
{
    spelled_key(&key_words(image, slot)?)
}

// The bytes of all key words of a slot. None where no such slot is in the pool.
fn key_words(image: &Image, slot: u32) -> Option<ValueBuf>
    ensures some { IfSome result (λ spelled. (slot < image.now.pool.slots) × ((j : ℕ) → j < 32 → packed spelled.bytes j ≡ (decoded image.now).key slot j)) }
    ensures none { IfNone result (slot < image.now.pool.slots → ⊥) }
{
    let mut spelled = ValueBuf::new();
    for k in 0..KEY_WORDS {
        unpack(image.get(Word::Key(slot, k))?, k, &mut spelled);
    }
    Some(spelled)
}

// The key that these bytes begin with: its length, and its own bytes. None where the length is none of a key, or not
// all bytes behind the key in its last word are 0.
fn spelled_key(spelled: &ValueBuf) -> Option<Key>
    ensures some { IfSome result (λ key. IsKey key × Spells (packed spelled.now.bytes) key) }
    ensures none { IfNone result ((key : List ℕ) → IsKey key → Spells (packed spelled.now.bytes) key → ⊥) }
{
    let length = usize::from(spelled.bytes[0]);
    if length == 0 || length > KEY_BYTES {
        return None;
    }
    let last = length as u32 / 8;
    if pack(&spelled.bytes[..length + 1], last) != pack(&spelled.bytes, last) {
        return None;
    }
    Key::of(&spelled.bytes[1..length + 1]).ok()
}

/// The value of a tag's version. None where it is a tombstone, or where its words are not those of a version.
pub(crate) fn value_of(alloc: Global, image: &Image, tag: Tag) -> Result<Option<Value>, OutOfMemory>
    ensures { (x : Option Value) → HasVersion image.now (tag_number tag) x → IfOk result (λ value. value ≡ x) }
{
    match meta_of(image, tag) {
        Some(meta) if is_value(meta) && meta.length <= 8 * image.pool().words => {
            let bytes = value_bytes(alloc, image, tag.buffer(), meta.length)?;
            Ok(Some(Value {
                flags: meta.flags,
                bytes,
            }))
        }
        _ => Ok(None),
    }
}

// The first bytes of a buffer's value words, so many of them.
fn value_bytes(
    alloc: Global,
    image: &Image,
    buffer: Buffer,
    count: u32,
) -> Result<Bytes, OutOfMemory>
    requires within { IsBuffer image.now.pool buffer }
    requires fits { count ≤ 8 * image.now.pool.words }
    ensures { (value : List ℕ) → AreBytes value → length value ≡ count → HasWords image.now buffer value → IfOk result (λ bytes. bytes ≡ value) }
{
    let room = value_words(image, buffer, count.div_ceil(8));
    let items = room.bytes[..count as usize].to_vec(alloc)?;
    Ok(Bytes::front_of(items))
}

// The bytes of the first value words of a buffer, so many of them.
fn value_words(image: &Image, buffer: Buffer, count: u32) -> ValueBuf
    requires within { IsBuffer image.now.pool buffer }
    requires fits { count ≤ image.now.pool.words }
    ensures { (j : ℕ) → j < count → packed result.bytes j ≡ number_in image.now (ValueOf buffer j) }
{
    let mut room = ValueBuf::new();
    for k in 0..count {
        if let Some(word) = image.get(Word::Value(buffer, k)) {
            unpack(word, k, &mut room);
        }
    }
    room
}
