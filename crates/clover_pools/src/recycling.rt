// The metadata server recycles a slot's root version over a plain pool, by one access a step; each of them is refused
// once and then made. Before that the server binds a key, and a client puts an empty value under it, up to its commit.
ghost use Rattle.std.specs.Prelude.{◌≡◌, true, IfSome, IfOk};
ghost use Rattle.clover_plain.specs.Plain.{view_at};
ghost use Rattle.clover_recycle.specs.Holding.{RecycleHolds};
ghost use Rattle.clover_recycle.specs.Recycling.{made_task};
ghost use Rattle.clover_pools.specs.Grants.{HasRoot, IsBegun};
ghost use Rattle.clover_pools.specs.Recycling.{Recycles};
ghost use Rattle.clover_pools.specs.Small.{IsReady, IsSmall};

use crate::bindings::{begun_pool, small_setup};
use crate::calls::put_up_to_commit;
use crate::grants::{first_client, hand_batch, name_key};
use clover_alloc::Books;
use clover_list::OutOfMemory;
use clover_map::{Bytes, Call, Key, Value};
use clover_plain::{Access, Act, Actor, PlainPool};
use clover_recycle::{RecycleTask, RecycleTurn};
use clover_words::{Buffer, Setup, Side, Tag, ValueBuf, Word};
use std::alloc::Global;
use std::process::Abort;
use std::test::Fail;

// One step of a recycling through the server's port, which makes its access or refuses it.
fn step(
    pool: &mut PlainPool,
    task: &mut RecycleTask,
    refuse: bool,
) -> Result<RecycleTurn, OutOfMemory>
    requires ready { IsReady pool.old }
    requires small { IsSmall pool.old }
    requires holds { RecycleHolds pool.old.setup.pool task.old (view_at pool.old 1) }
    ensures { IfOk result (λ turn. Recycles turn task.new pool.new) }
{
    pool.reserve()?;
    let mut port = pool.port(Actor::Server, refuse);
    Ok(task.step(&mut port))
}

// The same twice: the access is refused, and then it is made. None where it was not refused.
fn refused_and_made(
    pool: &mut PlainPool,
    task: &mut RecycleTask,
) -> Result<Option<RecycleTurn>, OutOfMemory>
    requires ready { IsReady pool.old }
    requires small { IsSmall pool.old }
    requires holds { RecycleHolds pool.old.setup.pool task.old (view_at pool.old 1) }
    ensures { IfOk result (λ answer. IfSome answer (λ turn. Recycles turn task.new pool.new)) }
{
    match step(pool, task, true)? {
        RecycleTurn::Unreached => Ok(Some(step(pool, task, false)?)),
        _ => Ok(None),
    }
}

// A whole recycling of slot 0, each of its accesses refused before it is made. The last answer, or None where an
// earlier one is not that the recycling goes on.
fn recycle(pool: &mut PlainPool, old: Tag) -> Result<Option<RecycleTurn>, OutOfMemory>
    requires ready { IsReady pool.old }
    requires small { IsSmall pool.old }
    requires holds { RecycleHolds pool.old.setup.pool (made_task 0 old) (view_at pool.old 1) }
{
    let mut task = RecycleTask::make(0, old);
    for _ in 0..5 {
        match refused_and_made(pool, &mut task)? {
            Some(RecycleTurn::More) => {}
            _ => return Ok(None),
        }
    }
    refused_and_made(pool, &mut task)
}

// A pool in which `a` is bound to slot 0, and a put of this value has committed. Whether it came to that.
fn put_once(alloc: Global, pool: &mut PlainPool, setup: Setup, value: Value) -> Result<bool, Fail>
    requires begun { IsBegun pool.old }
    requires setup { pool.old.setup ≡ setup }
    ensures { IfOk result (λ put. put ≡ true → IsReady pool.new × IsSmall pool.new × HasRoot (view_at pool.new 1)) }
{
    let mut node = first_client(alloc, pool, setup)?;
    let mut books = Books::make(alloc, setup.pool)?;
    hand_batch(pool, &mut node, &mut books);
    if !name_key(alloc, pool, &mut node, &mut books, setup)? {
        return Ok(false);
    }
    let call = Call::Put {
        key: Key::of(b"a")?,
        value,
    };
    Ok(put_up_to_commit(pool, &mut node, &mut ValueBuf::new(), call)?)
}

// The accesses of a recycling that moves the root of slot 0 from the tombstone in buffer 2 to the version in buffer 0.
fn expected() -> [Act; 6] {
    let next = Word::Next(Buffer { node: 0, index: 2 });
    let root = Word::Root(0);
    let link = 0x0000_0400_0000_0000;
    let passed = 0x0000_0800_0000_0000;
    [
        Act::Load {
            word: next,
            got: link,
        },
        Act::Raise {
            word: next,
            value: link,
            old: 0,
        },
        Act::Store {
            word: root,
            side: Side::Current,
            value: link,
        },
        Act::Store {
            word: root,
            side: Side::Flushed,
            value: link,
        },
        Act::Exchange {
            word: next,
            expected: link,
            new: passed,
            old: link,
        },
        Act::Raise {
            word: next,
            value: passed,
            old: link,
        },
    ]
}

// An access as it is listed where it was refused: what would have come back is 0.
fn unmade(act: Act) -> Act {
    match act {
        Act::Load { word, .. } => Act::Load { word, got: 0 },
        Act::Store { .. } => act,
        Act::Exchange {
            word,
            expected,
            new,
            ..
        } => Act::Exchange {
            word,
            expected,
            new,
            old: 0,
        },
        Act::Raise { word, value, .. } => Act::Raise {
            word,
            value,
            old: 0,
        },
    }
}

// What is listed of a recycling whose accesses are each refused once and then made.
fn listed(alloc: Global) -> Result<Vec<Access>, OutOfMemory> {
    let mut listed = Vec::new(alloc);
    for act in expected() {
        listed.push(Access {
            actor: Actor::Server,
            act: unmade(act),
            refused: true,
        })?;
        listed.push(Access {
            actor: Actor::Server,
            act,
            refused: false,
        })?;
    }
    Ok(listed)
}

// A recycling over a pool in which a key was put once, and whether it answers that buffer 2 is given back and that the
// root is the version in buffer 0.
fn recycle_after_a_put(
    alloc: Global,
    pool: &mut PlainPool,
    setup: Setup,
    value: Value,
) -> Result<bool, Fail>
    requires begun { IsBegun pool.old }
    requires setup { pool.old.setup ≡ setup }
{
    if !put_once(alloc, pool, setup, value)? {
        return Ok(false);
    }
    let tombstone = Tag {
        node: 0,
        index: 2,
        generation: 0,
    };
    let Some(turn) = recycle(pool, tombstone)? else {
        return Ok(false);
    };
    Ok(matches!(turn, RecycleTurn::Recycled { old, root } if old.index == 2 && root.index == 0))
}

#[test]
fn each_access_of_a_recycling_is_refused_and_then_made(rt: HostRuntime) -> Result<(), Fail> {
    let setup = small_setup()?;
    let mut pool = begun_pool(rt.alloc(), setup)?;
    let value = Value {
        flags: 0,
        bytes: Bytes::of(rt.alloc(), b"")?,
    };
    assert!(rt; recycle_after_a_put(rt.alloc(), &mut pool, setup, value)?);
    let listed = listed(rt.alloc())?;
    assert_eq!(rt; pool.accesses().len(), 25);
    assert!(rt; pool.accesses().ends_with(listed.as_slice()));
    Ok(())
}
