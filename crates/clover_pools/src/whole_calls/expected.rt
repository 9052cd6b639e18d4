// What the tests of the server's whole calls expect to be listed.
use clover_plain::{Access, Act, Actor};
use clover_words::{Buffer, Side, Word};
use std::alloc::Global;
use std::test::Fail;

// What the binding of `a` to slot 0 stores, with buffer 0 for its tombstone.
fn stores() -> [Act; 7] {
    let meta = Word::Meta(Buffer { node: 0, index: 0 });
    let tombstone = 0x0002_0000_0000_0000;
    let spelled = 0x0161_0000_0000_0000;
    let root = 0x0000_0400_0000_0000;
    [
        store(meta, Side::Current, tombstone),
        store(meta, Side::Flushed, tombstone),
        store(Word::Key(0, 0), Side::Current, spelled),
        store(Word::Key(0, 0), Side::Flushed, spelled),
        store(Word::Root(0), Side::Current, root),
        store(Word::Root(0), Side::Flushed, root),
        store(Word::Count, Side::Current, 1),
    ]
}

// A store to one copy of a word.
fn store(word: Word, side: Side, value: u64) -> Act {
    Act::Store { word, side, value }
}

// The load of the tombstone's next word, which has no link.
fn load() -> Act {
    Act::Load {
        word: Word::Next(Buffer { node: 0, index: 0 }),
        got: 0,
    }
}

// Adds an access of the server, and before it the same one refused where that is asked.
fn add(listed: &mut Vec<Access>, act: Act, refused: bool) -> Result<(), Fail> {
    let actor = Actor::Server;
    if refused {
        listed.push(Access {
            actor,
            act,
            refused: true,
        })?;
    }
    listed.push(Access {
        actor,
        act,
        refused: false,
    })?;
    Ok(())
}

// What is listed of a binding whose access behind so many others is refused, and of two reads of its root version, the
// first of them refused.
pub(crate) fn listed(alloc: Global, at: u32) -> Result<Vec<Access>, Fail> {
    let mut listed = Vec::new(alloc);
    let stores = stores();
    for place in 0..7u32 {
        add(&mut listed, stores[place as usize], place == at)?;
    }
    add(&mut listed, load(), true)?;
    add(&mut listed, load(), false)?;
    Ok(listed)
}
