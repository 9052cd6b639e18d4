// What a node has by a grant, and calls that start and that do not, on a pool whose buffers have room for sixteen
// bytes. The steps are tried by the crates above, over a pool.
ghost use Rattle.std.specs.Prelude.{◌≡◌, List, ℕ, IfOk};
ghost use Rattle.clover_map.specs.declared.bytes.Value.{Value as Stored};
ghost use Rattle.clover_map.specs.declared.call.Call.{Call as Asked};
ghost use Rattle.clover_map.specs.declared.call.Call.TheVariants.{Put as PutOf};
ghost use Rattle.clover_rule.specs.declared.view.View.{View};
ghost use Rattle.clover_words.specs.declared.bytes.ValueBuf.{ValueBuf as Room};
ghost use Rattle.clover_node.specs.Node.{NodeHolds, first_node};
ghost use Rattle.clover_call.specs.Beginning.{ExpectsTag};
ghost use Rattle.clover_words.specs.declared.pool.Pool.{Pool as Shape};

use super::*;
use crate::NodeRefusal;
use clover_map::{Bytes, Call, Key, Value};
use clover_words::{Pool, Tag, ValueBuf};
use std::test::Fail;

// A node may move to another thread.
fn sent<T: Send>(value: T) -> T
    ensures { result ≡ value }
{
    value
}

// The node of client 1 on a pool of two slots and four buffers.
fn node(alloc: Global) -> Result<Node, Fail>
    ensures { IfOk result (λ node. (p : Shape) × (node ≡ first_node p 1) × (p.slots ≡ 2) × ((call : Asked) (room : Room) → (v : View) × NodeHolds node call v room)) }
{
    let pool = Pool {
        nodes: 1,
        buffers: 4,
        slots: 2,
        words: 2,
        wear: 3,
    };
    let setup = Setup {
        pool,
        clients: 1,
        batch: 2,
    };
    Ok(sent(Node::make(alloc, setup, 1)?))
}

// A put of these bytes under `a`.
fn put_of(alloc: Global, bytes: &[u8]) -> Result<Call, Fail>
    ensures { IfOk result (λ call. (key : List ℕ) × (value : Stored) × (call ≡ PutOf key value)) }
{
    Ok(Call::Put {
        key: Key::of(b"a").map_err(|_| "a key")?,
        value: Value {
            flags: 7,
            bytes: Bytes::of(alloc, bytes).map_err(|_| "bytes")?,
        },
    })
}

// What starting the call comes to on a node that has nothing: whether it is under way, the two numbers of `TooLong`,
// and whether it needs stock.
fn start(alloc: Global, call: &Call) -> Result<(bool, Option<(usize, usize)>, bool), Fail>
    requires expects { ExpectsTag call.now }
{
    let mut node = node(alloc)?;
    let _room = ValueBuf::new();
    let (long, needs) = match node.start(call) {
        Err(NodeRefusal::TooLong { length, room }) => (Some((length, room)), false),
        Err(NodeRefusal::NeedsStock) => (None, true),
        _ => (None, false),
    };
    Ok((node.is_busy(), long, needs))
}

#[test]
fn a_put_needs_room_and_stock(rt: HostRuntime) -> Result<(), Fail> {
    let alloc = rt.alloc();
    assert!(rt;
        start(alloc, &put_of(alloc, b"0123456789abcdefg")?)? == (false, Some((17, 16)), false)
    );
    assert!(rt; start(alloc, &put_of(alloc, b"0123456789abcdef")?)? == (false, None, true));
    Ok(())
}

#[test]
fn other_calls_on_an_unknown_key_need_none(rt: HostRuntime) -> Result<(), Fail> {
    let alloc = rt.alloc();
    assert!(rt;
        start(
            alloc,
            &Call::Get {
                key: Key::of(b"a")?
            }
        )? == (true, None, false)
    );
    assert!(rt;
        start(
            alloc,
            &Call::Delete {
                key: Key::of(b"a")?
            }
        )? == (true, None, false)
    );
    Ok(())
}

#[test]
fn a_grant_comes_behind_what_the_node_has(rt: HostRuntime) -> Result<(), Fail> {
    let mut node = node(rt.alloc())?;
    let tag = Tag {
        node: 0,
        index: 1,
        generation: 2,
    };
    let batch = Batch {
        tags: [tag; 64],
        count: 2,
    };
    node.accept(
        &batch,
        &[Binding {
            slot: 1,
            key: Key::of(b"a")?,
        }],
    );
    assert!(rt; node.known() == 1);
    assert!(rt; node.stock() == 2);
    assert!(rt; !node.is_busy());
    Ok(())
}
