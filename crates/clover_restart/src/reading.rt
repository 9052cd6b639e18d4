// What a sound image says: root versions, generations and links, and which versions are values.
ghost use Rattle.std.specs.Prelude.{◌≡◌, ℕ, ◌+◌, ◌*◌, ◌<◌, not, nat_eq};
ghost use Rattle.std.specs.Option.{option_map};
ghost use Rattle.clover_words.specs.Meta.{tombstone};
ghost use Rattle.clover_words.specs.Place.{IsBuffer};
ghost use Rattle.clover_words.specs.Tag.{tag_number, home};
ghost use Rattle.clover_rule.specs.Content.{inside};
ghost use Rattle.clover_rule.specs.Cut.{IsSound};
ghost use Rattle.clover_rule.specs.Memory.{word as next_of};
ghost use Rattle.std.specs.Prelude.{true};
ghost use Rattle.clover_restart.specs.Reading.{decoded, number_of};

use clover_image::Image;
use clover_words::{Buffer, Meta, NextWord, Tag, Word, root_decode};

/// The root version of a slot, where it has one.
pub fn root_in(image: &Image, slot: u32) -> Option<Tag>
    requires sound { IsSound image.now.pool image.now.words }
    requires slot { slot < image.now.pool.slots }
    ensures { option_map tag_number result ≡ (decoded image.now).root slot }
{
    let word = image.get(Word::Root(slot)).unwrap();
    root_decode(word).unwrap()
}

/// The next word of a buffer.
pub fn next_in(image: &Image, buffer: Buffer) -> NextWord
    requires sound { IsSound image.now.pool image.now.words }
    requires within { IsBuffer image.now.pool buffer }
    ensures { next_of result.own (option_map tag_number result.link) ≡ (decoded image.now).next (number_of buffer) }
{
    let word = image.get(Word::Next(buffer)).unwrap();
    NextWord::decode(word).unwrap()
}

/// Whether the version of a tag is a value: its meta word is not a tombstone's.
pub fn is_value(image: &Image, tag: Tag) -> bool
    requires within { inside image.now.pool (home (tag_number tag)) ≡ true }
    ensures { result ≡ not (nat_eq ((decoded image.now).body (home (tag_number tag)) 0) tombstone) }
{
    let word = image.get(Word::Meta(tag.buffer())).unwrap();
    word != Meta::tombstone_word()
}
