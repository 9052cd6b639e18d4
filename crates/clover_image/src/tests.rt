// Images that were worked out by hand: which rule each breaks, what a sound one stands for, and which copies a choice
// takes.
ghost use Rattle.std.specs.Prelude.{◌≡◌, length, IfSome};
ghost use Rattle.clover_words.specs.Place.{durable_words};

use super::*;
use clover_map::{Call, Key, Reply};
use clover_script::{Choice, WordList};
use clover_words::{Buffer, Pool, Word};
use std::alloc::Global;
use std::process::Abort;
use std::test::Fail;

// The first two buffers.
const FIRST: Buffer = Buffer { node: 0, index: 0 };

const SECOND: Buffer = Buffer { node: 0, index: 1 };

// The next words of a link to the second and to the first buffer, and roots that are these.
const TO_FIRST: u64 = 0x0000_0400_0000_0000;

const TO_SECOND: u64 = 0x0000_0400_0010_0000;

// Keys of one byte, and meta words.
const KEY_A: u64 = 0x0161_0000_0000_0000;

const KEY_B: u64 = 0x0162_0000_0000_0000;

const EMPTY: u64 = 0x0001_0000_0000_0000;

const ONE_BYTE: u64 = 0x0001_0000_0000_0001;

const TOMBSTONE: u64 = 0x0002_0000_0000_0000;

// A pool of two buffers of one word and of two slots; a buffer is worn at 3.
fn small_pool() -> Pool
    ensures { durable_words result ≡ 72 }
{
    Pool {
        nodes: 1,
        buffers: 2,
        slots: 2,
        words: 1,
        wear: 3,
    }
}

// The image of that pool with these words set. None where one is no word of it, or for want of memory.
fn image_of(alloc: Global, lines: &[(Word, u64)]) -> Option<Image> {
    let mut image = Image::blank(alloc, small_pool()).ok()?;
    for (word, value) in lines {
        if !image.set(*word, *value) {
            return None;
        }
    }
    Some(image)
}

// Whether the image breaks this rule first, at this word.
fn breaks(alloc: Global, lines: &[(Word, u64)], rule: DamageRule, word: Word) -> bool {
    match image_of(alloc, lines) {
        Some(image) => sound(alloc, &image) == Err(SoundFault::Damaged(Damage { rule, word })),
        None => false,
    }
}

#[test]
fn names_the_first_rule_that_is_broken(rt: HostRuntime) {
    let alloc = rt.alloc();
    let a = Word::Key(0, 0);
    let b = Word::Key(1, 0);
    let next = Word::Next(FIRST);
    let meta = Word::Meta(FIRST);
    let root = Word::Root(0);
    let other = Word::Root(1);
    // Worn, and beyond; a link out of the pool, to a worn generation, and half a link.
    assert!(rt; breaks(alloc, &[(next, 4 << 43)], DamageRule::Next, next));
    assert!(rt;
        breaks(
            alloc,
            &[(next, 0x0000_2000_0000_0000)],
            DamageRule::Next,
            next
        )
    );
    assert!(rt;
        breaks(
            alloc,
            &[(next, TO_FIRST + (2 << 20))],
            DamageRule::Next,
            next
        )
    );
    assert!(rt; breaks(alloc, &[(next, TO_SECOND + 3)], DamageRule::Next, next));
    assert!(rt; breaks(alloc, &[(next, 1 << 20)], DamageRule::Next, next));
    assert!(rt; breaks(alloc, &[(root, TO_FIRST + 3)], DamageRule::Root, root));
    assert!(rt; breaks(alloc, &[(root, 1)], DamageRule::Root, root));
    // A next word is looked at before each root.
    assert!(rt; breaks(alloc, &[(root, 1), (next, 1 << 20)], DamageRule::Next, next));
    // No key, one that is too long, and one with a byte behind it.
    assert!(rt; breaks(alloc, &[(root, TO_FIRST)], DamageRule::Key, a));
    assert!(rt;
        breaks(
            alloc,
            &[(root, TO_FIRST), (a, 251 << 56)],
            DamageRule::Key,
            a
        )
    );
    assert!(rt;
        breaks(
            alloc,
            &[(root, TO_FIRST), (a, KEY_A + 1)],
            DamageRule::Key,
            a
        )
    );
    assert!(rt;
        breaks(
            alloc,
            &[(root, TO_FIRST), (a, KEY_A), (other, TO_SECOND), (b, KEY_A)],
            DamageRule::SameKey,
            b
        )
    );
    assert!(rt;
        breaks(
            alloc,
            &[(root, TO_FIRST + 1), (a, KEY_A)],
            DamageRule::Generation,
            next
        )
    );
    assert!(rt;
        breaks(
            alloc,
            &[(root, TO_FIRST), (a, KEY_A)],
            DamageRule::Meta,
            meta
        )
    );
    assert!(rt;
        breaks(
            alloc,
            &[(root, TO_FIRST), (a, KEY_A), (meta, EMPTY + 9)],
            DamageRule::Meta,
            meta
        )
    );
    assert!(rt;
        breaks(
            alloc,
            &[
                (root, TO_FIRST),
                (a, KEY_A),
                (meta, ONE_BYTE),
                (Word::Value(FIRST, 0), 0x3100_0000_0000_0001)
            ],
            DamageRule::Padding,
            Word::Value(FIRST, 0)
        )
    );
}

#[test]
fn meets_a_buffer_twice(rt: HostRuntime) {
    let alloc = rt.alloc();
    let next = Word::Next(FIRST);
    let meta = Word::Meta(FIRST);
    // On the chains of two slots.
    assert!(rt;
        breaks(
            alloc,
            &[
                (meta, EMPTY),
                (Word::Root(0), TO_FIRST),
                (Word::Key(0, 0), KEY_A),
                (Word::Root(1), TO_FIRST),
                (Word::Key(1, 0), KEY_B)
            ],
            DamageRule::Twice,
            next
        )
    );
    // On one chain, which leads back.
    assert!(rt;
        breaks(
            alloc,
            &[
                (next, TO_SECOND),
                (meta, EMPTY),
                (Word::Next(SECOND), TO_FIRST),
                (Word::Meta(SECOND), EMPTY),
                (Word::Root(0), TO_FIRST),
                (Word::Key(0, 0), KEY_A)
            ],
            DamageRule::Twice,
            next
        )
    );
}

// A value `1` of `a` behind a tombstone, and a tombstone of no slot that is worn and linked.
fn sound_lines() -> [(Word, u64); 6] {
    [
        (Word::Next(SECOND), TO_FIRST),
        (Word::Meta(SECOND), TOMBSTONE),
        (Word::Meta(FIRST), ONE_BYTE),
        (Word::Value(FIRST, 0), 0x3100_0000_0000_0000),
        (Word::Root(1), TO_SECOND),
        (Word::Key(1, 0), KEY_A),
    ]
}

#[test]
fn a_sound_image_stands_for_its_map(rt: HostRuntime) -> Result<(), Fail> {
    let alloc = rt.alloc();
    let mut image = image_of(alloc, &sound_lines()).ok_or("an image")?;
    assert!(rt; sound(alloc, &image).is_ok());
    assert!(rt; image.tail(0).is_none());
    let (tag, is_value) = image.tail(1).ok_or("a tail")?;
    assert!(rt; tag.number() == 0 && is_value);
    let mut map = map_of(alloc, &image)?;
    assert_eq!(rt; map.len(), 1);
    let get = Call::Get {
        key: Key::of(b"a")?,
    };
    assert!(rt; !map.apply(&get, &Reply::Absent)?);
    // The root of a slot that ends in a tombstone has no pair.
    assert!(rt; image.set(Word::Next(SECOND), 0));
    assert!(rt; sound(alloc, &image).is_ok());
    assert_eq!(rt; map_of(alloc, &image)?.len(), 0);
    // A worn buffer on no chain may be linked.
    assert!(rt; image.set(Word::Next(FIRST), 0x0000_1c00_0010_0000));
    assert!(rt; sound(alloc, &image).is_ok());
    Ok(())
}

// The words of the small pool, of which 72 are durable: each current copy is 1 and each flushed one 2, but those of the
// first three words, which are equal.
fn two_copies(alloc: Global) -> Option<Vec<u64>>
    ensures { IfSome result (λ words. length words.items ≡ 147) }
{
    let mut words = Vec::new(alloc);
    words.resize(72, 1).ok()?;
    words.resize(75, 1).ok()?;
    words.resize(144, 2).ok()?;
    words.resize(147, 0).ok()?;
    Some(words)
}

// Whether the image that the choice leaves begins with these words.
fn begins(alloc: Global, choice: &Choice, front: &[u64]) -> bool {
    let Some(words) = two_copies(alloc) else {
        return false;
    };
    match Image::choose(alloc, small_pool(), &words, choice) {
        Ok(image) => image.words().starts_with(front),
        Err(_) => false,
    }
}

// The names of a meta word, of two words that the small pool does not have, and of a root.
fn names(alloc: Global) -> Option<WordList> {
    let mut names = WordList::make(alloc);
    names.push(Word::Value(SECOND, 0)).ok()?;
    names.push(Word::Key(0, 32)).ok()?;
    names.push(Word::Short(0)).ok()?;
    names.push(Word::Next(SECOND)).ok()?;
    Some(names)
}

#[test]
fn takes_the_copies_of_a_choice(rt: HostRuntime) -> Result<(), Fail> {
    let alloc = rt.alloc();
    assert!(rt; begins(alloc, &Choice::Old, &[1, 1, 1, 2, 2, 2, 2, 2]));
    assert!(rt; begins(alloc, &Choice::New, &[1, 1, 1, 1, 1, 1, 1, 1]));
    let names = names(alloc).ok_or("a list")?;
    assert!(rt; begins(alloc, &Choice::Pick(names), &[1, 1, 1, 1, 2, 1, 2, 2]));
    // The words of this seed, from the reference generator, are even, even, even, odd, odd, odd, odd, odd, odd, even, odd, odd, and are drawn from the fourth word on.
    assert!(rt;
        begins(
            alloc,
            &Choice::Mix(7),
            &[1, 1, 1, 2, 2, 2, 1, 1, 1, 1, 1, 1, 2, 1, 1]
        )
    );
    Ok(())
}
