// Calls that start and that do not, on a pool whose buffers have room for sixteen bytes. The steps are tried by the
// crates above, over a pool.
ghost use Rattle.std.specs.Prelude.{◌≡◌, List, ℕ, IfOk};
ghost use Rattle.clover_map.specs.declared.bytes.Value.{Value as Stored};
ghost use Rattle.clover_map.specs.declared.call.Call.TheVariants.{Put};

use super::*;
use clover_map::{Bytes, Key, Value};
use std::test::Fail;

// A caller may move to another thread.
fn sent<T: Send>(value: T) -> T
    ensures { result ≡ value }
{
    value
}

// A put of these bytes.
fn put_of(alloc: Global, bytes: &[u8]) -> Result<Call, Fail>
    ensures { IfOk result (λ call. (key : List ℕ) × (value : Stored) × (call ≡ Put key value)) }
{
    Ok(Call::Put {
        key: Key::of(b"a").map_err(|_| "a key")?,
        value: Value {
            flags: 7,
            bytes: Bytes::of(alloc, bytes).map_err(|_| "bytes")?,
        },
    })
}

// What starting a put of these bytes comes to: whether it is under way, and the two numbers of its refusal.
fn start(alloc: Global, bytes: &[u8]) -> Result<(bool, Option<(usize, usize)>), Fail> {
    let pool = Pool {
        nodes: 1,
        buffers: 4,
        slots: 2,
        words: 2,
        wear: 3,
    };
    let own = Tag {
        node: 0,
        index: 1,
        generation: 2,
    };
    let call = put_of(alloc, bytes)?;
    let mut caller = sent(Caller::make(alloc, pool)?);
    let refusal = match caller.start(1, Some(own), &call) {
        Err(CallerRefusal::TooLong { length, room }) => Some((length, room)),
        _ => None,
    };
    Ok((caller.is_busy(), refusal))
}

#[test]
fn a_value_has_room_or_is_too_long(rt: HostRuntime) -> Result<(), Fail> {
    assert!(rt; start(rt.alloc(), b"")? == (true, None));
    assert!(rt; start(rt.alloc(), b"0123456789abcdef")? == (true, None));
    assert!(rt; start(rt.alloc(), b"0123456789abcdefg")? == (false, Some((17, 16))));
    Ok(())
}
