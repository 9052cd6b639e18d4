// The compute node of a small pool's client puts and gets: it asks for stock and for names, the metadata server hands
// over a batch, binds a key and hands over its name, and the calls are started anew. Each access is made and listed.
ghost use Rattle.std.specs.Prelude.{◌≡◌, true, IfOk};
ghost use Rattle.clover_call.specs.Beginning.{ExpectsTag};
ghost use Rattle.clover_node.specs.Node.{first_node};
ghost use Rattle.clover_pools.specs.Calls.{Stands};
ghost use Rattle.clover_pools.specs.Grants.{IsBegun};

use crate::bindings::{begun_pool, small_setup};
use crate::calls::{get, miss, needs_names, needs_stock, put};
use crate::grants::{first_client, hand_batch, name_key};
use clover_alloc::Books;
use clover_map::{Bytes, Call, Key, Value};
use clover_node::Node;
use clover_plain::{Access, Act, Actor, PlainPool};
use clover_words::{Buffer, Setup, Side, ValueBuf, Word};
use std::alloc::Global;
use std::process::Abort;
use std::test::Fail;

// A buffer's next word.
fn next(index: u32) -> Word {
    Word::Next(Buffer { node: 0, index })
}

// Its meta word.
fn meta(index: u32) -> Word {
    Word::Meta(Buffer { node: 0, index })
}

// Its first value word.
fn value(index: u32) -> Word {
    Word::Value(Buffer { node: 0, index }, 0)
}

// A store to one copy of a word.
fn store(word: Word, side: Side, value: u64) -> Act {
    Act::Store { word, side, value }
}

// A load that got this number.
fn load(word: Word, got: u64) -> Act {
    Act::Load { word, got }
}

// What the binding of `a` to slot 0 stores, with buffer 2 for its tombstone.
fn bound() -> [Act; 7] {
    [
        store(meta(2), Side::Current, 0x0002_0000_0000_0000),
        store(meta(2), Side::Flushed, 0x0002_0000_0000_0000),
        store(Word::Key(0, 0), Side::Current, 0x0161_0000_0000_0000),
        store(Word::Key(0, 0), Side::Flushed, 0x0161_0000_0000_0000),
        store(Word::Root(0), Side::Current, 0x0000_0400_0020_0000),
        store(Word::Root(0), Side::Flushed, 0x0000_0400_0020_0000),
        store(Word::Count, Side::Current, 1),
    ]
}

// What the put of `hello` does: its version is in buffer 0, and it is linked behind the tombstone.
fn put_acts() -> [Act; 10] {
    let hello = 0x6865_6c6c_6f00_0000;
    let link = 0x0000_0400_0000_0000;
    [
        store(meta(0), Side::Current, 0x0001_0000_0000_0005),
        store(value(0), Side::Current, hello),
        store(meta(0), Side::Flushed, 0x0001_0000_0000_0005),
        store(value(0), Side::Flushed, hello),
        load(Word::Short(0), 0),
        load(Word::Root(0), 0x0000_0400_0020_0000),
        load(next(2), 0),
        Act::Exchange {
            word: next(2),
            expected: 0,
            new: link,
            old: 0,
        },
        Act::Raise {
            word: next(2),
            value: link,
            old: 0,
        },
        store(Word::Short(0), Side::Current, link),
    ]
}

// What the get loads, from the cursor that the put has set.
fn get_acts() -> [Act; 4] {
    [
        load(next(0), 0),
        load(meta(0), 0x0001_0000_0000_0005),
        load(value(0), 0x6865_6c6c_6f00_0000),
        load(next(0), 0),
    ]
}

// Adds accesses of an actor, none of them refused.
fn add(listed: &mut Vec<Access>, actor: Actor, acts: &[Act]) -> Result<(), Fail> {
    for act in acts {
        listed.push(Access {
            actor,
            act: *act,
            refused: false,
        })?;
    }
    Ok(())
}

// What a node needs for this call: a batch, for want of which it is not started; and the name of the key, for want of
// which it loads the count and ends. Whether each answer was so, and the key is bound.
fn supply(
    alloc: Global,
    pool: &mut PlainPool,
    node: &mut Node,
    setup: Setup,
    call: &Call,
) -> Result<bool, Fail>
    requires begun { IsBegun pool.old }
    requires setup { pool.old.setup ≡ setup }
    requires stands { Stands pool.old node.old }
    requires first { node.old ≡ first_node setup.pool 1 }
    requires expects { ExpectsTag call.now }
    ensures { IfOk result (λ supplied. supplied ≡ true → Stands pool.new node.new) }
{
    let mut books = Books::make(alloc, setup.pool)?;
    if !needs_stock(node, call) {
        return Ok(false);
    }
    hand_batch(pool, node, &mut books);
    let Some((0, 0)) = needs_names(pool, node, call)? else {
        return Ok(false);
    };
    name_key(alloc, pool, node, &mut books, setup)
}

// The calls of a node that has what it needs: the numbers of the tags that were stored and found, and whether the other
// key has nothing.
fn calls(
    alloc: Global,
    pool: &mut PlainPool,
    node: &mut Node,
    room: &mut ValueBuf,
    first: Call,
) -> Result<Option<(u64, u64, bool)>, Fail>
    requires stands { Stands pool.old node.old }
    requires expects { ExpectsTag first }
{
    let Some(stored) = put(pool, node, first)? else {
        return Ok(None);
    };
    let bound = Call::Get {
        key: Key::of(b"a")?,
    };
    let Some(found) = get(alloc, pool, node, room, bound)? else {
        return Ok(None);
    };
    let unbound = Call::Get {
        key: Key::of(b"b")?,
    };
    let missed = miss(pool, node, unbound)?;
    Ok(Some((stored, found, missed)))
}

// The session over a pool whose run begins.
fn session(
    alloc: Global,
    pool: &mut PlainPool,
    setup: Setup,
    room: &mut ValueBuf,
    value: Value,
) -> Result<Option<(u64, u64, bool)>, Fail>
    requires begun { IsBegun pool.old }
    requires setup { pool.old.setup ≡ setup }
{
    let mut node = first_client(alloc, pool, setup)?;
    let call = Call::Put {
        key: Key::of(b"a")?,
        value,
    };
    if !supply(alloc, pool, &mut node, setup, &call)? {
        return Ok(None);
    }
    calls(alloc, pool, &mut node, room, call)
}

#[test]
fn a_node_asks_for_what_its_calls_need(rt: HostRuntime) -> Result<(), Fail> {
    let setup = small_setup()?;
    let mut pool = begun_pool(rt.alloc(), setup)?;
    let mut room = ValueBuf::new();
    let hello = Value {
        flags: 0,
        bytes: Bytes::of(rt.alloc(), b"hello")?,
    };
    let Some((stored, found, missed)) = session(rt.alloc(), &mut pool, setup, &mut room, hello)?
    else {
        return Err("an answer")?;
    };
    assert_eq!(rt; (stored, found, missed), (0, 0, true));
    assert!(rt; room.value() == b"hello".as_slice());
    let mut listed = Vec::new(rt.alloc());
    add(&mut listed, Actor::Client(1), &[load(Word::Count, 0)])?;
    add(&mut listed, Actor::Server, &bound())?;
    add(&mut listed, Actor::Client(1), &put_acts())?;
    add(&mut listed, Actor::Client(1), &get_acts())?;
    add(&mut listed, Actor::Client(1), &[load(Word::Count, 1)])?;
    assert_eq!(rt; pool.accesses(), listed.as_slice());
    assert_eq!(rt; pool.entries().len(), 3);
    Ok(())
}
