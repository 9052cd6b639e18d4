// A small preset pool, its words worked out by hand, and the accesses of a client to it. A small pool as its run
// begins: the server begins a binding and hands a buffer over, and the client writes there.
ghost use Rattle.std.specs.Prelude.{◌≡◌, ◌≤◌, ◌<◌, length, replicate, true, OnOk, IfOk};
ghost use Rattle.clover_words.specs.Place.{pool_words};
ghost use Rattle.clover_alloc.specs.Ledger.{IsLedger, new_ledger};
ghost use Rattle.clover_plain.specs.Plain.{first_view, history, view_at};

use crate::pool::PlainPool;
use crate::{Access, Act, Actor};
use clover_alloc::Books;
use clover_list::OutOfMemory;
use clover_map::Key;
use clover_port::Port;
use clover_words::{Buffer, Pool, Setup, Side, Word};
use std::alloc::Global;
use std::marker::Brand;
use std::process::Abort;
use std::test::Fail;

// One node of two buffers with one value word, one slot bound to `a`, and one client.
fn small_pool(alloc: Global, trace: bool) -> Result<PlainPool, Fail>
    ensures { IfOk result (λ pool. (pool.opened ≡ true) × (pool.entries ≡ history pool) × (pool.setup.clients ≡ 1) × (0 < pool.setup.pool.slots)) }
{
    let shape = Pool::check(1, 2, 1, 1, 9)?;
    let setup = Setup::check(shape, 1, 1)?;
    let mut pool = PlainPool::make(alloc, setup, trace)?;
    let keys = [Key::of(b"a")?];
    pool.preset(&keys);
    Ok(pool)
}

// A port of client 1 reads the root of slot 0, or is refused.
fn read_root(pool: &mut PlainPool, refuse: bool) -> Result<Option<u64>, OutOfMemory>
    requires ready { (pool.old.opened ≡ true) × (pool.old.entries ≡ history pool.old) }
    requires small { (pool.old.setup.clients ≡ 1) × (0 < pool.old.setup.pool.slots) }
    ensures ready { OnOk result ((pool.new.opened ≡ true) × (pool.new.entries ≡ history pool.new)) }
    ensures small { OnOk result ((pool.new.setup.clients ≡ 1) × (0 < pool.new.setup.pool.slots)) }
{
    pool.reserve()?;
    let mut port = pool.port(Actor::Client(1), refuse);
    match port.load::<Brand>(Word::Root(0)) {
        Ok(number) => Ok(Some(number)),
        Err(_) => Ok(None),
    }
}

// Whether an access is a load of the root of slot 0 by client 1.
fn is_load(access: &Access, number: u64, refused: bool) -> bool {
    let loaded = match access.act {
        Act::Load {
            word: Word::Root(0),
            got,
        } => got == number,
        _ => false,
    };
    loaded && access.refused == refused && matches!(access.actor, Actor::Client(1))
}

// The words' numbers: the meta word of the tombstone, the root and the key, each twice, and the count.
const TOMBSTONE: u64 = 2 << 48;

const ROOT: u64 = (1 << 42) + (1 << 20);

const KEY: u64 = (1 << 56) + (0x61 << 48);

#[test]
fn words_of_a_small_preset_pool(rt: HostRuntime) -> Result<(), Fail> {
    let pool = small_pool(rt.alloc(), false)?;
    let mut words = [0u64; 80];
    words[4] = TOMBSTONE;
    words[6] = ROOT;
    words[7] = KEY;
    words[43] = TOMBSTONE;
    words[45] = ROOT;
    words[46] = KEY;
    words[79] = 1;
    assert_eq!(rt; pool.words.len(), 80);
    for at in 0..pool.words.len() {
        assert_eq!(rt; words.get(at).copied(), Some(pool.words.get(at)));
    }
    Ok(())
}

#[test]
fn accesses_refused_and_made(rt: HostRuntime) -> Result<(), Fail> {
    let mut pool = small_pool(rt.alloc(), true)?;
    assert_eq!(rt; read_root(&mut pool, true)?, None);
    assert_eq!(rt; read_root(&mut pool, false)?, Some(ROOT));
    assert_eq!(rt; pool.made(), 1);
    assert_eq!(rt; pool.entries().len(), 0);
    let [refused, made] = pool.accesses() else {
        panic!(rt; "not two accesses");
    };
    assert!(rt; is_load(refused, 0, true));
    assert!(rt; is_load(made, ROOT, false));
    Ok(())
}

#[test]
fn nothing_is_listed_without_a_trace(rt: HostRuntime) -> Result<(), Fail> {
    let mut pool = small_pool(rt.alloc(), false)?;
    assert_eq!(rt; read_root(&mut pool, false)?, Some(ROOT));
    assert_eq!(rt; pool.made(), 1);
    assert_eq!(rt; pool.accesses().len(), 0);
    Ok(())
}

// The same pool as its run begins.
fn begun_pool(alloc: Global) -> Result<PlainPool, Fail>
    ensures ready { IfOk result (λ pool. (pool.opened ≡ true) × (pool.entries ≡ history pool)) }
    ensures small { IfOk result (λ pool. (pool.setup.clients ≡ 1) × (pool.setup.pool.nodes ≡ 1) × (pool.setup.pool.buffers ≡ 2) × (pool.setup.pool.slots ≡ 1)) }
    ensures views { IfOk result (λ pool. (length pool.views ≡ 2) × (view_at pool 0 ≡ first_view pool.setup 0) × (view_at pool 1 ≡ first_view pool.setup 1)) }
{
    let shape = Pool::check(1, 2, 1, 1, 9)?;
    let setup = Setup::check(shape, 1, 1)?;
    let pool = PlainPool::make(alloc, setup, true)?;
    Ok(pool)
}

// The server makes the first store of a binding of `a` to slot 0, whose tombstone takes buffer 1.
fn begin_binding(pool: &mut PlainPool) -> Result<bool, OutOfMemory>
    requires ready { (pool.old.opened ≡ true) × (pool.old.entries ≡ history pool.old) }
    requires small { (pool.old.setup.clients ≡ 1) × (pool.old.setup.pool.nodes ≡ 1) × (pool.old.setup.pool.buffers ≡ 2) × (pool.old.setup.pool.slots ≡ 1) }
    requires views { (length pool.old.views ≡ 2) × (view_at pool.old 0 ≡ first_view pool.old.setup 0) × (view_at pool.old 1 ≡ first_view pool.old.setup 1) }
{
    pool.reserve()?;
    let mut port = pool.port(Actor::Server, false);
    let word = Word::Meta(Buffer { node: 0, index: 1 });
    Ok(port.store::<Brand>(word, Side::Current, TOMBSTONE).is_ok())
}

// The server hands buffer 0 out of its books to client 1, which writes a meta word there.
fn hand_and_write(pool: &mut PlainPool, books: &mut Books) -> Result<bool, OutOfMemory>
    requires ready { (pool.old.opened ≡ true) × (pool.old.entries ≡ history pool.old) }
    requires small { (pool.old.setup.clients ≡ 1) × (pool.old.setup.pool.nodes ≡ 1) × (pool.old.setup.pool.buffers ≡ 2) × (pool.old.setup.pool.slots ≡ 1) }
    requires views { (length pool.old.views ≡ 2) × (view_at pool.old 0 ≡ first_view pool.old.setup 0) × (view_at pool.old 1 ≡ first_view pool.old.setup 1) }
    requires books { (books.old ≡ new_ledger pool.old.setup.pool) × IsLedger books.old }
{
    pool.reserve()?;
    pool.hand_over(1, &books.take(1), &[]);
    let mut port = pool.port(Actor::Client(1), false);
    let word = Word::Meta(Buffer { node: 0, index: 0 });
    Ok(port.store::<Brand>(word, Side::Current, 7).is_ok())
}

// The pool, whose words are all 0, loses its power; restart then has a port.
fn lose_power(pool: &mut PlainPool) -> Result<u64, OutOfMemory>
    requires blank { pool.old.words ≡ replicate (pool_words pool.old.setup.pool) 0 }
    requires small { (pool.old.setup.pool.nodes ≡ 1) × (pool.old.setup.pool.buffers ≡ 2) × (pool.old.setup.pool.slots ≡ 1) × (pool.old.setup.pool.words ≡ 1) }
{
    pool.power_cut(&[0; 39]);
    pool.reserve()?;
    let port = pool.port(Actor::Restart, false);
    Ok(port.seat as u64)
}

// A new pool, with two buffers of one value word.
fn new_pool(alloc: Global) -> Result<PlainPool, Fail>
    ensures blank { IfOk result (λ pool. pool.words ≡ replicate (pool_words pool.setup.pool) 0) }
    ensures small { IfOk result (λ pool. (pool.setup.pool.nodes ≡ 1) × (pool.setup.pool.buffers ≡ 2) × (pool.setup.pool.slots ≡ 1) × (pool.setup.pool.words ≡ 1)) }
{
    let shape = Pool::check(1, 2, 1, 1, 9)?;
    let setup = Setup::check(shape, 1, 1)?;
    Ok(PlainPool::make(alloc, setup, true)?)
}

#[test]
fn restart_has_the_last_seat_behind_a_cut(rt: HostRuntime) -> Result<(), Fail> {
    let mut pool = new_pool(rt.alloc())?;
    assert_eq!(rt; lose_power(&mut pool)?, 2);
    assert_eq!(rt; pool.durable(Word::Root(0), Side::Flushed), Some(0));
    assert_eq!(rt; pool.durable(Word::Count, Side::Current), None);
    assert_eq!(rt; pool.durable(Word::Root(1), Side::Current), None);
    assert_eq!(rt; pool.made(), 0);
    Ok(())
}

#[test]
fn a_binding_is_begun(rt: HostRuntime) -> Result<(), Fail> {
    let mut pool = begun_pool(rt.alloc())?;
    assert!(rt; begin_binding(&mut pool)?);
    assert_eq!(rt; pool.words.get(4), TOMBSTONE);
    let [Access { actor, .. }] = pool.accesses() else {
        panic!(rt; "not one access");
    };
    assert!(rt; matches!(actor, Actor::Server));
    Ok(())
}

#[test]
fn a_buffer_is_handed_over(rt: HostRuntime) -> Result<(), Fail> {
    let mut pool = begun_pool(rt.alloc())?;
    let mut books = Books::make(rt.alloc(), pool.setup.pool)?;
    assert!(rt; hand_and_write(&mut pool, &mut books)?);
    assert_eq!(rt; pool.words.get(1), 7);
    assert_eq!(rt; pool.made(), 1);
    Ok(())
}
