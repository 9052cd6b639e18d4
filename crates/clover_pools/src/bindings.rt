// The metadata server binds a key over a plain pool, by one access a step; each of them is refused once and then made.
ghost use Rattle.std.specs.Prelude.{◌≡◌, ◌≢◌, [], OnOk, IfOk};
ghost use Rattle.clover_dir.specs.Directory.{nothing_bound};
ghost use Rattle.clover_dir.specs.Going.{Answers, OnBound, OnGoing};
ghost use Rattle.clover_dir.specs.Holding.{BindHolds, IsDirectoryOf};
ghost use Rattle.clover_dir.specs.declared.stage.Stage.TheVariants.{Over};
ghost use Rattle.clover_plain.specs.Plain.{first_view, view_at};
ghost use Rattle.clover_rule.specs.Asks.{IsAt};
ghost use Rattle.clover_rule.specs.declared.view.ServerTask.TheVariants.{Idle};
ghost use Rattle.clover_pools.specs.Small.{HasSmallNumbers, IsReady, IsSmall};

use clover_dir::{BindTask, BindTurn, Directory};
use clover_list::OutOfMemory;
use clover_map::Key;
use clover_plain::{Access, Act, Actor, PlainPool};
use clover_words::{Buffer, Pool, Setup, Side, Tag, Word};
use std::alloc::Global;
use std::process::Abort;
use std::test::Fail;

// One node of four buffers with two value words each, two slots and one client.
pub(crate) fn small_setup() -> Result<Setup, Fail>
    ensures { IfOk result HasSmallNumbers }
{
    let shape = Pool::check(1, 4, 2, 2, 3)?;
    Ok(Setup::check(shape, 1, 2)?)
}

// The pool as its run begins.
pub(crate) fn begun_pool(alloc: Global, setup: Setup) -> Result<PlainPool, OutOfMemory>
    requires { HasSmallNumbers setup }
    ensures ready { IfOk result (λ pool. IsReady pool × IsSmall pool) }
    ensures setup { IfOk result (λ pool. pool.setup ≡ setup) }
    ensures entries { IfOk result (λ pool. pool.entries ≡ []) }
    ensures views { IfOk result (λ pool. (view_at pool 0 ≡ first_view pool.setup 0) × (view_at pool 1 ≡ first_view pool.setup 1)) }
{
    PlainPool::make(alloc, setup, true)
}

// The binding's next access through a port of the server, or a refused one.
pub(crate) fn bind_next(
    pool: &mut PlainPool,
    task: &mut BindTask,
    directory: &mut Directory,
    refuse: bool,
) -> Result<BindTurn, OutOfMemory>
    requires ready { IsReady pool.old }
    requires small { IsSmall pool.old }
    requires going { task.old.stage ≢ Over }
    requires holds { BindHolds pool.old.setup.pool task.old directory.old (view_at pool.old 1) }
    ensures ready { OnOk result (IsReady pool.new) }
    ensures small { OnOk result (IsSmall pool.new) }
    ensures holds { IfOk result (λ turn. OnGoing turn (BindHolds pool.new.setup.pool task.new directory.new (view_at pool.new 1))) }
    ensures answers { IfOk result (Answers task.old task.new directory.old directory.new) }
    ensures same { OnOk result ((pool.new.setup ≡ pool.old.setup) × (pool.new.entries ≡ pool.old.entries)) }
    ensures client { OnOk result (view_at pool.new 0 ≡ view_at pool.old 0) }
    ensures bound { IfOk result (λ turn. OnBound turn (IsAt (view_at pool.new 1) Idle × IsDirectoryOf pool.new.setup.pool directory.new (view_at pool.new 1))) }
{
    pool.reserve()?;
    let mut port = pool.port(Actor::Server, refuse);
    Ok(task.step(&mut port, directory))
}

// Binds `a` to slot 0, with buffer 2 for the tombstone. Each access is refused once before it is made.
fn bind(pool: &mut PlainPool, directory: &mut Directory) -> Result<bool, Fail>
    requires ready { IsReady pool.old }
    requires small { IsSmall pool.old }
    requires server { view_at pool.old 1 ≡ first_view pool.old.setup 1 }
    requires directory { directory.old ≡ nothing_bound pool.old.setup.pool }
{
    let own = Tag {
        node: 0,
        index: 2,
        generation: 0,
    };
    let mut task = BindTask::make(0, Key::of(b"a")?, own);
    for _ in 0..7u32 {
        let BindTurn::Unreached = bind_next(pool, &mut task, directory, true)? else {
            return Ok(false);
        };
        match bind_next(pool, &mut task, directory, false)? {
            BindTurn::More => {}
            BindTurn::Bound => return Ok(true),
            BindTurn::Unreached => return Ok(false),
        }
    }
    Ok(false)
}

// The stores of a binding of `a` to slot 0, whose tombstone is in buffer 2.
fn stores() -> [(Word, Side, u64); 7] {
    let meta = Word::Meta(Buffer { node: 0, index: 2 });
    [
        (meta, Side::Current, 0x0002_0000_0000_0000),
        (meta, Side::Flushed, 0x0002_0000_0000_0000),
        (Word::Key(0, 0), Side::Current, 0x0161_0000_0000_0000),
        (Word::Key(0, 0), Side::Flushed, 0x0161_0000_0000_0000),
        (Word::Root(0), Side::Current, 0x0000_0400_0020_0000),
        (Word::Root(0), Side::Flushed, 0x0000_0400_0020_0000),
        (Word::Count, Side::Current, 1),
    ]
}

#[test]
fn each_access_of_a_binding_is_refused_and_then_made(rt: HostRuntime) -> Result<(), Fail> {
    let setup = small_setup()?;
    let mut pool = begun_pool(rt.alloc(), setup)?;
    let mut directory = Directory::make(rt.alloc(), setup.pool)?;
    assert_eq!(rt; directory.free_slot(), Some(0));
    assert!(rt; bind(&mut pool, &mut directory)?);
    assert_eq!(rt; directory.free_slot(), Some(1));
    assert_eq!(rt; directory.find(&Key::of(b"a")?), Some(0));
    assert_eq!(rt; pool.made(), 7);
    let mut expected = Vec::new(rt.alloc());
    for (word, side, value) in stores() {
        for refused in [true, false] {
            let act = Act::Store { word, side, value };
            expected.push(Access {
                actor: Actor::Server,
                act,
                refused,
            })?;
        }
    }
    assert_eq!(rt; pool.accesses(), expected.as_slice());
    Ok(())
}
