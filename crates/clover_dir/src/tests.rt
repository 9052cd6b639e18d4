// What no clause says: with memory at hand a list of names is made, and finds what it was given.
// The keys agree in their first eight bytes, so that it looks behind the heads of the index.
ghost use Rattle.std.specs.Prelude.{◌≡◌};

use crate::Names;
use clover_map::Key;
use std::process::Abort;
use std::test::Fail;

const MOST: usize = 100;

// The key `likewise` with a byte behind it.
fn likewise(last: u8) -> Option<Key> {
    let mut bytes = *b"likewise-";
    bytes[8] = last;
    Key::of(&bytes).ok()
}

// Puts the key at the list's end, where it is new and there is room.
fn add(names: &mut Names, slot: u32, key: Key)
    requires { names.old.most ≡ MOST }
    ensures { names.new.most ≡ MOST }
{
    if names.len() < MOST && names.find(&key).is_none() {
        names.push(slot, key);
    }
}

#[test]
fn names_are_found_behind_equal_heads(rt: HostRuntime) -> Result<(), Fail> {
    let mut names = Names::make(rt.alloc(), MOST as u32)?;
    // 37 has no factor in common with 100, so each last byte from 0 to 99 comes once.
    for slot in 0..100u32 {
        if let Some(key) = likewise((slot * 37 % 100) as u8) {
            add(&mut names, slot, key);
        }
    }
    assert_eq!(rt; names.len(), 100);
    for slot in 0..100u32 {
        let found = likewise((slot * 37 % 100) as u8).and_then(|key| names.find(&key));
        assert_eq!(rt; found, Some(slot));
    }
    assert!(rt; likewise(100).and_then(|key| names.find(&key)).is_none());
    assert!(rt; names.find(&Key::of(b"likewise")?).is_none());
    assert_eq!(rt; names.list()[1].slot, 1);
    assert_eq!(rt; names.list()[1].key.bytes(), b"likewise%".as_slice());
    Ok(())
}
