// The key of a slot in a sound image.
ghost use Rattle.std.specs.Prelude.{◌≡◌, ℕ, ◌<◌, slice_index};
ghost use Rattle.clover_words.specs.Pack.{packed};
ghost use Rattle.clover_map.specs.Key.{IsKey};
ghost use Rattle.clover_rule.specs.Content.{Spells};
ghost use Rattle.clover_restart.specs.Reading.{decoded, HasKey};

use clover_image::Image;
use clover_map::Key;
use clover_words::{ValueBuf, Word, unpack, value_from_words};

// The words of a slot's key.
const KEY_WORDS: u32 = 32;

/// The key that the slot's words spell: a byte for its length, and its own bytes.
pub fn key_in(image: &Image, slot: u32) -> Key
    requires slot { slot < image.now.pool.slots }
    requires key { HasKey (decoded image.now) slot }
    ensures is { IsKey result }
    ensures spells { Spells ((decoded image.now).key slot) result }
{
    let spelled = spelled_in(image, slot);
    value_from_words();
    let length = spelled.bytes[0] as usize;
    Key::of(&spelled.bytes[1..1 + length]).unwrap()
}

// The bytes of all words of a slot's key.
fn spelled_in(image: &Image, slot: u32) -> ValueBuf
    requires slot { slot < image.now.pool.slots }
    ensures { (j : ℕ) → j < 32 → packed result.bytes j ≡ (decoded image.now).key slot j }
{
    let mut spelled = ValueBuf::new();
    for place in 0..KEY_WORDS {
        let word = image.get(Word::Key(slot, place)).unwrap();
        unpack(word, place, &mut spelled);
    }
    spelled
}
