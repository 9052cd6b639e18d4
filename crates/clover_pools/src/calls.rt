// The calls of a small pool's client by its compute node, access by access; each entry is entered behind the access
// that decides it.
ghost use Rattle.std.specs.Prelude.{◌≡◌, ◌≤◌, [], ◌∷◌, ◌++◌, true, IfOk, IfSome};
ghost use Rattle.clover_map.specs.declared.call.Call.{Call as Asked};
ghost use Rattle.clover_get.specs.Getting.{value_in};
ghost use Rattle.clover_plain.specs.Plain.{KeptButEntries, Plain, history};
ghost use Rattle.clover_words.specs.declared.bytes.ValueBuf.{ValueBuf as Room};
ghost use Rattle.clover_call.specs.Beginning.{ExpectsTag};
ghost use Rattle.clover_node.specs.Turning.{OnMade};
ghost use Rattle.clover_node.specs.declared.answer.NodeTurn.{NodeTurn as Turn};
ghost use Rattle.clover_pools.specs.Calls.{Acted, Came, HasBegun, IsCommitted, LeavesServer, Serves, Stands, next_entry};
ghost use Rattle.clover_pools.specs.Turns.{IsOutcome};

use crate::turns::{Outcome, outcome_of};
use clover_list::OutOfMemory;
use clover_map::{Bytes, Call, Entry, Reply, Value};
use clover_node::{Node, NodeTurn};
use clover_plain::{Actor, PlainPool};
use clover_words::ValueBuf;
use std::alloc::Global;
use std::test::Fail;

// The next access of the node's call, through a port of its client.
fn call_next(
    pool: &mut PlainPool,
    node: &mut Node,
    room: &mut ValueBuf,
) -> Result<Outcome, OutOfMemory>
    ghost call: { Asked }
    requires { Serves pool.old node.old call room.old }
    ensures { IfOk result (λ outcome. (turn : Turn) × IsOutcome turn outcome × OnMade turn (Acted turn call node.old node.new pool.old pool.new room.new)) }
{
    pool.reserve()?;
    let mut port = pool.port(Actor::Client(1), false);
    Ok(outcome_of(node.step(&mut port, room)))
}

// The accesses of the node's call up to one that decides or ends it; `Other` too where there are more than sixteen.
fn call_on(
    pool: &mut PlainPool,
    node: &mut Node,
    room: &mut ValueBuf,
) -> Result<Outcome, OutOfMemory>
    ghost call: { Asked }
    requires { Serves pool.old node.old call room.old }
    ensures { IfOk result (λ outcome. (turn : Turn) × IsOutcome turn outcome × OnMade turn (Acted turn call node.old node.new pool.old pool.new room.new)) }
{
    for _ in 0..16u32 {
        match call_next(pool, node, room)? {
            Outcome::More => {}
            outcome => return Ok(outcome),
        }
    }
    Ok(Outcome::Other)
}

// Starts a call. Whether it was started.
fn start(node: &mut Node, call: &Call) -> bool
    requires stands { (p : Plain) × (room : Room) × Stands p node.old }
    requires expects { ExpectsTag call.now }
    ensures { result ≡ true → HasBegun node.old node.new × ((p : Plain) (room : Room) → Stands p node.old → Serves p node.new call.now room) }
{
    match node.start(call) {
        Ok(()) => true,
        Err(_) => false,
    }
}

// A call from its start up to an access that decides or ends it.
fn begin(
    pool: &mut PlainPool,
    node: &mut Node,
    room: &mut ValueBuf,
    call: &Call,
) -> Result<Outcome, OutOfMemory>
    ghost asked: { Asked }
    requires call { asked ≡ call.now }
    requires stands { Stands pool.old node.old }
    requires expects { ExpectsTag call.now }
    ensures { IfOk result (λ outcome. (turn : Turn) × IsOutcome turn outcome × OnMade turn (Came turn call.now node.old node.new pool.old pool.new room.new)) }
{
    if !start(node, call) {
        return Ok(Outcome::Other);
    }
    Ok(call_on(pool, node, room)?)
}

// Enters the entry of the client's call that the last access added.
fn enter(pool: &mut PlainPool, call: Call, reply: Reply)
    requires opened { pool.old.opened ≡ true }
    requires room { 1 ≤ pool.old.entry_room }
    requires due { history pool.old ≡ pool.old.entries ++ next_entry pool.old.entries call reply ∷ [] }
    ensures entered { pool.new.entries ≡ history pool.new }
    ensures same { KeptButEntries pool.old pool.new }
{
    let number = pool.entries().len() as u64 + 1;
    pool.enter(Entry {
        client: 1,
        number,
        call,
        reply,
    });
}

// The value in the room, with these flags.
fn value_of(alloc: Global, flags: u32, room: &ValueBuf) -> Result<Value, Fail>
    ensures { IfOk result (λ value. value ≡ value_in flags room.now) }
{
    let bytes = Bytes::of(alloc, room.value())?;
    Ok(Value { flags, bytes })
}

/// Whether the call does not start for want of stock. The node is then as it was.
pub(crate) fn needs_stock(node: &mut Node, call: &Call) -> bool
    requires stands { (p : Plain) × Stands p node.old }
    requires expects { ExpectsTag call.now }
    ensures { result ≡ true → node.new ≡ node.old }
{
    let _room = ValueBuf::new();
    match node.start(call) {
        Ok(()) => false,
        Err(refusal) => matches!(outcome_of(NodeTurn::Refused(refusal)), Outcome::NeedsStock),
    }
}

/// The call loads the count, and ends for want of names: how many the node has, and how many bindings there are.
pub(crate) fn needs_names(
    pool: &mut PlainPool,
    node: &mut Node,
    call: &Call,
) -> Result<Option<(u32, u32)>, OutOfMemory>
    requires stands { Stands pool.old node.old }
    requires expects { ExpectsTag call.now }
    ensures stands { IfOk result (λ o. IfSome o (λ q. Stands pool.new node.new)) }
    ensures same { IfOk result (λ o. IfSome o (λ q. LeavesServer pool.old pool.new × (pool.new.entries ≡ pool.old.entries))) }
    ensures kept { IfOk result (λ o. IfSome o (λ q. (node.new.names ≡ node.old.names) × (node.new.stock ≡ node.old.stock))) }
{
    match begin(pool, node, &mut ValueBuf::new(), call)? {
        Outcome::NeedsNames(known, bound) => Ok(Some((known, bound))),
        _ => Ok(None),
    }
}

/// A put from its start up to the exchange that commits it. Whether it came to that.
pub(crate) fn put_up_to_commit(
    pool: &mut PlainPool,
    node: &mut Node,
    room: &mut ValueBuf,
    call: Call,
) -> Result<bool, OutOfMemory>
    requires stands { Stands pool.old node.old }
    requires expects { ExpectsTag call }
    ensures { IfOk result (λ committed. committed ≡ true → IsCommitted pool.new node.new call room.new × LeavesServer pool.old pool.new) }
{
    let outcome = begin(pool, node, room, &call)?;
    let Outcome::Committed(tag) = outcome else {
        return Ok(false);
    };
    enter(pool, call, Reply::Stored { tag });
    Ok(true)
}

// Makes the accesses behind the exchange. The number of the tag under which the value is stored.
fn finish(
    pool: &mut PlainPool,
    node: &mut Node,
    room: &mut ValueBuf,
) -> Result<Option<u64>, OutOfMemory>
    ghost call: { Asked }
    requires { IsCommitted pool.old node.old call room.old }
    ensures { IfOk result (λ o. IfSome o (λ tag. Stands pool.new node.new)) }
{
    let outcome = call_on(pool, node, room)?;
    let Outcome::Stored(tag) = outcome else {
        return Ok(None);
    };
    Ok(Some(tag))
}

/// A whole put. The number of the tag under which the value is stored.
pub(crate) fn put(
    pool: &mut PlainPool,
    node: &mut Node,
    call: Call,
) -> Result<Option<u64>, OutOfMemory>
    ghost asked: { Asked }
    requires call { asked ≡ call }
    requires stands { Stands pool.old node.old }
    requires expects { ExpectsTag call }
    ensures { IfOk result (λ o. IfSome o (λ tag. Stands pool.new node.new)) }
{
    let mut room = ValueBuf::new();
    if !put_up_to_commit(pool, node, &mut room, call)? {
        return Ok(None);
    }
    finish(pool, node, &mut room)
}

/// A get that finds a value: the number of its tag; its bytes stand in the room.
pub(crate) fn get(
    alloc: Global,
    pool: &mut PlainPool,
    node: &mut Node,
    room: &mut ValueBuf,
    call: Call,
) -> Result<Option<u64>, Fail>
    requires stands { Stands pool.old node.old }
    requires expects { ExpectsTag call }
    ensures { IfOk result (λ o. IfSome o (λ tag. Stands pool.new node.new)) }
{
    let outcome = begin(pool, node, room, &call)?;
    let Outcome::Found(tag, flags) = outcome else {
        return Ok(None);
    };
    let value = value_of(alloc, flags, room)?;
    enter(pool, call, Reply::Found { tag, value });
    Ok(Some(tag))
}

/// A call whose key has nothing. Whether it came to that.
pub(crate) fn miss(pool: &mut PlainPool, node: &mut Node, call: Call) -> Result<bool, OutOfMemory>
    requires stands { Stands pool.old node.old }
    requires expects { ExpectsTag call }
    ensures { IfOk result (λ missed. missed ≡ true → Stands pool.new node.new) }
{
    let outcome = begin(pool, node, &mut ValueBuf::new(), &call)?;
    let Outcome::Absent = outcome else {
        return Ok(false);
    };
    enter(pool, call, Reply::Absent);
    Ok(true)
}
