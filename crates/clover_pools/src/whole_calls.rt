// The metadata server of a small pool makes ready, binds and recycles, by its steps and by its whole calls; an access in
// the middle of each is refused, and what it was for is finished.
ghost use Rattle.std.specs.Prelude.{◌≡◌, IsSome, IfOk, IfSome, OnOk};
ghost use Rattle.clover_dir.specs.Directory.{IsBound};
ghost use Rattle.clover_plain.specs.Plain.{Plain};
ghost use Rattle.clover_pools.specs.Grants.{IsBegun};
ghost use Rattle.clover_pools.specs.Server.{IsServing, Served};
ghost use Rattle.clover_pools.specs.Small.{HasSmallNumbers};

mod expected;

use crate::bindings::{begun_pool, small_setup};
use clover_alloc::{Batch, Books};
use clover_dir::Directory;
use clover_list::OutOfMemory;
use clover_map::Key;
use clover_plain::{Actor, PlainPool};
use clover_server::{Server, ServerRefusal, ServerTurn, first_law};
use clover_words::Setup;
use expected::listed;
use std::alloc::Global;
use std::process::Abort;
use std::test::Fail;

// The server of a pool as its run begins.
fn first_server(alloc: Global, setup: Setup) -> Result<Server, OutOfMemory>
    requires { HasSmallNumbers setup }
    ensures { IfOk result (λ server. (p : Plain) → IsBegun p → p.setup ≡ setup → IsServing server p) }
{
    first_law();
    let books = Books::make(alloc, setup.pool)?;
    let directory = Directory::make(alloc, setup.pool)?;
    Ok(Server::make(setup, books, directory))
}

// The server makes a buffer free.
fn make_ready(
    pool: &mut PlainPool,
    server: &mut Server,
) -> Result<Result<(), ServerRefusal>, OutOfMemory>
    requires { IsServing server.old pool.old }
    ensures { OnOk result (Served server.new pool.old pool.new) }
{
    pool.reserve()?;
    let mut port = pool.port(Actor::Server, false);
    Ok(server.make_ready(&mut port))
}

// The server binds the key.
fn bind(
    pool: &mut PlainPool,
    server: &mut Server,
    key: &Key,
) -> Result<Result<(), ServerRefusal>, OutOfMemory>
    requires { IsServing server.old pool.old }
    ensures { OnOk result (Served server.new pool.old pool.new) }
{
    pool.reserve()?;
    let mut port = pool.port(Actor::Server, false);
    Ok(server.bind(&mut port, key))
}

// The server recycles a bound slot.
fn recycle(
    pool: &mut PlainPool,
    server: &mut Server,
    slot: u32,
) -> Result<Result<bool, ServerRefusal>, OutOfMemory>
    requires bound { IsBound slot server.old.directory }
    requires serving { IsServing server.old pool.old }
    ensures { OnOk result (Served server.new pool.old pool.new) }
{
    pool.reserve()?;
    let mut port = pool.port(Actor::Server, false);
    Ok(server.recycle(&mut port, slot))
}

// The server's next step towards the binding of the key. Its access is made, or refused.
fn bind_next(
    pool: &mut PlainPool,
    server: &mut Server,
    key: &Key,
    refuse: bool,
) -> Result<ServerTurn, OutOfMemory>
    requires { IsServing server.old pool.old }
    ensures { OnOk result (Served server.new pool.old pool.new) }
{
    pool.reserve()?;
    let mut port = pool.port(Actor::Server, refuse);
    Ok(server.bind_step(&mut port, key))
}

// Its next step on a slot's recycling.
fn recycle_next(
    pool: &mut PlainPool,
    server: &mut Server,
    slot: u32,
    refuse: bool,
) -> Result<ServerTurn, OutOfMemory>
    requires bound { IsBound slot server.old.directory }
    requires serving { IsServing server.old pool.old }
    ensures { OnOk result (Served server.new pool.old pool.new) }
{
    pool.reserve()?;
    let mut port = pool.port(Actor::Server, refuse);
    Ok(server.recycle_step(&mut port, slot))
}

// Its next access of what is unfinished.
fn finish_next(pool: &mut PlainPool, server: &mut Server) -> Result<ServerTurn, OutOfMemory>
    requires task { IsSome server.old.task }
    requires serving { IsServing server.old pool.old }
    ensures { OnOk result (Served server.new pool.old pool.new) }
{
    pool.reserve()?;
    let mut port = pool.port(Actor::Server, false);
    Ok(server.finish_step(&mut port))
}

// A pool and its server as the run begins.
fn starts(alloc: Global, setup: Setup) -> Result<(PlainPool, Server), OutOfMemory>
    requires { HasSmallNumbers setup }
    ensures { IfOk result (λ both. IsServing both.1 both.0) }
{
    let pool = begun_pool(alloc, setup)?;
    let server = first_server(alloc, setup)?;
    Ok((pool, server))
}

// The server finishes what is unfinished. Whether it came to that, and each access was answered so.
fn finish(pool: &mut PlainPool, server: &mut Server) -> Result<bool, OutOfMemory>
    requires { IsServing server.old pool.old }
    ensures { OnOk result (Served server.new pool.old pool.new) }
{
    for _ in 0..16u32 {
        if !server.unfinished() {
            return Ok(true);
        }
        let ServerTurn::More = finish_next(pool, server)? else {
            return Ok(false);
        };
    }
    Ok(false)
}

// So many steps towards the binding of the key. Whether each made an access.
fn bind_some(
    pool: &mut PlainPool,
    server: &mut Server,
    key: &Key,
    count: u32,
) -> Result<bool, OutOfMemory>
    requires { IsServing server.old pool.old }
    ensures { OnOk result (Served server.new pool.old pool.new) }
{
    for _ in 0..count {
        let ServerTurn::More = bind_next(pool, server, key, false)? else {
            return Ok(false);
        };
    }
    Ok(true)
}

// A binding of the key whose access behind so many others is refused, and that is finished. Whether each answer was as it
// should be, the last one that the key is bound.
fn bind_with_refusal(
    pool: &mut PlainPool,
    server: &mut Server,
    key: &Key,
    at: u32,
) -> Result<bool, OutOfMemory>
    requires { IsServing server.old pool.old }
    ensures { OnOk result (Served server.new pool.old pool.new) }
{
    if !bind_some(pool, server, key, at)? {
        return Ok(false);
    }
    let ServerTurn::Unreached = bind_next(pool, server, key, true)? else {
        return Ok(false);
    };
    if !server.unfinished() || !finish(pool, server)? {
        return Ok(false);
    }
    Ok(matches!(bind_next(pool, server, key, false)?, ServerTurn::Ready))
}

// The slot of the first binding.
fn first_bound(server: &Server) -> Option<u32>
    ensures { IfSome result (λ slot. IsBound slot server.now.directory) }
{
    let names = server.names_since(0);
    if names.is_empty() {
        return None;
    }
    Some(names[0].slot)
}

// A recycling of the first bound slot whose load is refused, and that is finished. Whether each answer was as it should be.
fn recycle_with_refusal(pool: &mut PlainPool, server: &mut Server) -> Result<bool, OutOfMemory>
    requires { IsServing server.old pool.old }
    ensures { OnOk result (Served server.new pool.old pool.new) }
{
    let Some(slot) = first_bound(server) else {
        return Ok(false);
    };
    let ServerTurn::Unreached = recycle_next(pool, server, slot, true)? else {
        return Ok(false);
    };
    Ok(server.unfinished() && finish(pool, server)?)
}

// The whole recycling of the first bound slot. Whether it found nothing to recycle.
fn recycle_first(pool: &mut PlainPool, server: &mut Server) -> Result<bool, OutOfMemory>
    requires { IsServing server.old pool.old }
    ensures { OnOk result (Served server.new pool.old pool.new) }
{
    let Some(slot) = first_bound(server) else {
        return Ok(false);
    };
    Ok(matches!(recycle(pool, server, slot)?, Ok(false)))
}

// A binding and a recycling, each with an access that is refused, and a recycling by its whole call. Whether each answer
// was as it should be.
fn refused_and_finished(pool: &mut PlainPool, server: &mut Server, at: u32) -> Result<bool, Fail>
    requires { IsServing server.old pool.old }
{
    let key = Key::of(b"a")?;
    if !bind_with_refusal(pool, server, &key, at)? || !recycle_with_refusal(pool, server)? {
        return Ok(false);
    }
    Ok(recycle_first(pool, server)?)
}

#[test]
fn a_refused_access_is_finished(rt: HostRuntime) -> Result<(), Fail> {
    let setup = small_setup()?;
    for at in 0..7u32 {
        let (mut pool, mut server) = starts(rt.alloc(), setup)?;
        assert!(rt; refused_and_finished(&mut pool, &mut server, at)?);
        let expected = listed(rt.alloc(), at)?;
        assert_eq!(rt; pool.accesses(), expected.as_slice());
        assert_eq!(rt; server.names_since(0).len(), 1);
        assert_eq!(rt; server.counts().free, 3);
    }
    Ok(())
}

// The whole calls one behind the other: a buffer is free from the start, a key is bound, once and again, then a second
// one, and a third one has no slot. Whether each answer was as it should be.
fn by_whole_calls(pool: &mut PlainPool, server: &mut Server) -> Result<bool, Fail>
    requires { IsServing server.old pool.old }
{
    let ready = make_ready(pool, server)?;
    let bound = bind(pool, server, &Key::of(b"a")?)?;
    let again = bind(pool, server, &Key::of(b"a")?)?;
    let second = bind(pool, server, &Key::of(b"b")?)?;
    let third = bind(pool, server, &Key::of(b"c")?)?;
    let read = recycle_first(pool, server)?;
    Ok(
        matches!(ready, Ok(()))
            && matches!(bound, Ok(()))
            && matches!(again, Ok(()))
            && matches!(second, Ok(()))
            && matches!(third, Err(ServerRefusal::NoSlot))
            && read,
    )
}

// A batch, where a buffer is free.
fn granted(server: &mut Server) -> Option<Batch> {
    if server.counts().free == 0 {
        return None;
    }
    Some(server.grant())
}

#[test]
fn whole_calls_make_their_accesses(rt: HostRuntime) -> Result<(), Fail> {
    let setup = small_setup()?;
    let (mut pool, mut server) = starts(rt.alloc(), setup)?;
    assert!(rt; by_whole_calls(&mut pool, &mut server)?);
    assert_eq!(rt; pool.made(), 15);
    let counts = server.counts();
    assert_eq!(rt;
        (counts.free, counts.worn, counts.bound, counts.out),
        (2, 0, 2, 0)
    );
    assert!(rt; !server.unfinished());
    let Some(batch) = granted(&mut server) else {
        return Err("a batch")?;
    };
    assert_eq!(rt; batch.count, 2);
    assert_eq!(rt;
        (batch.tags[0].number(), batch.tags[1].number()),
        (0x20_0000, 0x30_0000)
    );
    assert_eq!(rt; server.counts().out, 2);
    Ok(())
}
