// The lines of accesses and the numbers of power cuts, as they go into a chunk.
ghost use Rattle.std.specs.Prelude.{◌≡◌, ◌++◌, codes, flat_map, OnOk, OnErr};
ghost use Rattle.clover_script.specs.Text.{copy_text};
ghost use Rattle.clover_event.specs.Text.{actor_text, act_text, operand_text, exchange_text, back_text, came_text, access_line};
ghost use Rattle.clover_main.specs.Causes.{AppendsFront, HasCause};
ghost use Rattle.clover_main.specs.Chunks.{numbers_line};
ghost use Rattle.clover_main.specs.Running.{Says};

use crate::chunk::Chunk;
use crate::io::{Failed, Sink};
use crate::word_text::{hex_digits, put_word};
use clover_rule::{Access, Act, Actor};
use clover_words::{Side, Word};
use itoa::Buffer;

/// Puts the lines of accesses.
pub fn put_accesses<K: Sink>(
    accesses: &[Access],
    chunk: &mut Chunk,
    sink: &mut K,
) -> Result<(), Failed>
    ensures ok { OnOk result (Says (K.taken sink.old) (K.taken sink.new) chunk.old chunk.new (flat_map access_line accesses.now)) }
    ensures err { OnErr result (AppendsFront (K.taken sink.old) (K.taken sink.new) (chunk.old ++ (flat_map access_line accesses.now))) }
    ensures cause { HasCause (K.faults sink.old) (K.faults sink.new) result }
{
    for access in accesses {
        put_access(access, chunk, sink)?;
    }
    Ok(())
}

/// Puts the line of an access: who made it, what it did to which word, and what came back.
pub fn put_access<K: Sink>(access: &Access, chunk: &mut Chunk, sink: &mut K) -> Result<(), Failed>
    ensures ok { OnOk result (Says (K.taken sink.old) (K.taken sink.new) chunk.old chunk.new (access_line access.now)) }
    ensures err { OnErr result (AppendsFront (K.taken sink.old) (K.taken sink.new) (chunk.old ++ (access_line access.now))) }
    ensures cause { HasCause (K.faults sink.old) (K.faults sink.new) result }
{
    put_actor(access.actor, chunk, sink)?;
    put_done(&access.act, access.refused, chunk, sink)
}

// Puts the begin of a line: who made the access.
fn put_actor<K: Sink>(actor: Actor, chunk: &mut Chunk, sink: &mut K) -> Result<(), Failed>
    ensures ok { OnOk result (Says (K.taken sink.old) (K.taken sink.new) chunk.old chunk.new (codes "a " ++ (actor_text actor ++ codes " "))) }
    ensures err { OnErr result (AppendsFront (K.taken sink.old) (K.taken sink.new) (chunk.old ++ (codes "a " ++ (actor_text actor ++ codes " ")))) }
    ensures cause { HasCause (K.faults sink.old) (K.faults sink.new) result }
{
    match actor {
        Actor::Client(number) => {
            let mut digits = Buffer::new();
            let digits = digits.format(number).as_bytes();
            chunk.add_all(&[b"a ", digits, b" "], sink)
        }
        Actor::Server => chunk.add(b"a s ", sink),
        Actor::Restart => chunk.add(b"a r ", sink),
    }
}

// Puts what an access did, and what came back.
fn put_done<K: Sink>(
    act: &Act,
    refused: bool,
    chunk: &mut Chunk,
    sink: &mut K,
) -> Result<(), Failed>
    ensures ok { OnOk result (Says (K.taken sink.old) (K.taken sink.new) chunk.old chunk.new (act_text act.now ++ (came_text refused act.now ++ codes "\n"))) }
    ensures err { OnErr result (AppendsFront (K.taken sink.old) (K.taken sink.new) (chunk.old ++ (act_text act.now ++ (came_text refused act.now ++ codes "\n")))) }
    ensures cause { HasCause (K.faults sink.old) (K.faults sink.new) result }
{
    put_act(act, chunk, sink)?;
    put_came(act, refused, chunk, sink)
}

// Puts what an access did, to which word and with which numbers.
fn put_act<K: Sink>(act: &Act, chunk: &mut Chunk, sink: &mut K) -> Result<(), Failed>
    ensures ok { OnOk result (Says (K.taken sink.old) (K.taken sink.new) chunk.old chunk.new (act_text act.now)) }
    ensures err { OnErr result (AppendsFront (K.taken sink.old) (K.taken sink.new) (chunk.old ++ (act_text act.now))) }
    ensures cause { HasCause (K.faults sink.old) (K.faults sink.new) result }
{
    match act {
        Act::Load { word, .. } => put_word(b"load ", *word, Side::Current, chunk, sink),
        Act::Store { word, side, value } => put_write(b"store ", *word, *side, *value, chunk, sink),
        Act::Exchange {
            word,
            expected,
            new,
            ..
        } => put_exchange(*word, *expected, *new, chunk, sink),
        Act::Raise { word, value, .. } => put_write(
            b"raise ",
            *word,
            Side::Flushed,
            *value,
            chunk,
            sink,
        ),
    }
}

// Puts a text, the name of a copy of a word, and a number that it was given.
fn put_write<K: Sink>(
    front: &[u8],
    word: Word,
    side: Side,
    value: u64,
    chunk: &mut Chunk,
    sink: &mut K,
) -> Result<(), Failed>
    ensures ok { OnOk result (Says (K.taken sink.old) (K.taken sink.new) chunk.old chunk.new (front.now ++ (copy_text word side ++ operand_text value))) }
    ensures err { OnErr result (AppendsFront (K.taken sink.old) (K.taken sink.new) (chunk.old ++ (front.now ++ (copy_text word side ++ operand_text value)))) }
    ensures cause { HasCause (K.faults sink.old) (K.faults sink.new) result }
{
    put_word(front, word, side, chunk, sink)?;
    chunk.add_all(&[b" ", &hex_digits(value)], sink)
}

// Puts an exchange and its two numbers.
fn put_exchange<K: Sink>(
    word: Word,
    expected: u64,
    new: u64,
    chunk: &mut Chunk,
    sink: &mut K,
) -> Result<(), Failed>
    ensures ok { OnOk result (Says (K.taken sink.old) (K.taken sink.new) chunk.old chunk.new (exchange_text word expected new)) }
    ensures err { OnErr result (AppendsFront (K.taken sink.old) (K.taken sink.new) (chunk.old ++ (exchange_text word expected new))) }
    ensures cause { HasCause (K.faults sink.old) (K.faults sink.new) result }
{
    put_word(b"exchange ", word, Side::Current, chunk, sink)?;
    chunk.add_all(&[b" ", &hex_digits(expected), b" ", &hex_digits(new)], sink)
}

// Puts what came back, and the end of the line.
fn put_came<K: Sink>(
    act: &Act,
    refused: bool,
    chunk: &mut Chunk,
    sink: &mut K,
) -> Result<(), Failed>
    ensures ok { OnOk result (Says (K.taken sink.old) (K.taken sink.new) chunk.old chunk.new (came_text refused act.now ++ codes "\n")) }
    ensures err { OnErr result (AppendsFront (K.taken sink.old) (K.taken sink.new) (chunk.old ++ (came_text refused act.now ++ codes "\n"))) }
    ensures cause { HasCause (K.faults sink.old) (K.faults sink.new) result }
{
    if refused {
        return chunk.add(b" refused\n", sink);
    }
    match act {
        Act::Load { got, .. } => put_back(*got, chunk, sink),
        Act::Store { .. } => chunk.add(b"\n", sink),
        Act::Exchange { old, .. } | Act::Raise { old, .. } => put_back(*old, chunk, sink),
    }
}

// Puts a number that came back, and the end of the line.
fn put_back<K: Sink>(number: u64, chunk: &mut Chunk, sink: &mut K) -> Result<(), Failed>
    ensures ok { OnOk result (Says (K.taken sink.old) (K.taken sink.new) chunk.old chunk.new (back_text number ++ codes "\n")) }
    ensures err { OnErr result (AppendsFront (K.taken sink.old) (K.taken sink.new) (chunk.old ++ (back_text number ++ codes "\n"))) }
    ensures cause { HasCause (K.faults sink.old) (K.faults sink.new) result }
{
    chunk.add_all(&[b" = ", &hex_digits(number), b"\n"], sink)
}

/// Puts the numbers of a line of power cuts: the keys that have a value, the free and the worn buffers, and how many commits
/// were taken.
pub fn put_numbers_line<K: Sink>(
    keys: u64,
    free: u64,
    worn: u64,
    missing: u64,
    chunk: &mut Chunk,
    sink: &mut K,
) -> Result<(), Failed>
    ensures ok { OnOk result (Says (K.taken sink.old) (K.taken sink.new) chunk.old chunk.new (numbers_line keys free worn missing)) }
    ensures err { OnErr result (AppendsFront (K.taken sink.old) (K.taken sink.new) (chunk.old ++ (numbers_line keys free worn missing))) }
    ensures cause { HasCause (K.faults sink.old) (K.faults sink.new) result }
{
    let mut first = Buffer::new();
    let mut second = Buffer::new();
    let mut third = Buffer::new();
    let mut fourth = Buffer::new();
    let pieces: [&[u8]; 9] = [
        b"cut keys ",
        first.format(keys).as_bytes(),
        b" free ",
        second.format(free).as_bytes(),
        b" worn ",
        third.format(worn).as_bytes(),
        b" missing ",
        fourth.format(missing).as_bytes(),
        b"\n",
    ];
    chunk.add_all(&pieces, sink)
}
