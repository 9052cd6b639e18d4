// The names of words and their numbers, as they go into a chunk.
ghost use Rattle.std.specs.Prelude.{◌≡◌, ◌<◌, ◌/◌, ◌%◌, ◌++◌, decimal, codes, OnOk, OnErr};
ghost use Rattle.clover_script.specs.Coded.{hex_digit};
ghost use Rattle.clover_script.specs.Text.{hex_text, buffer_text, side_text, copy_text};
ghost use Rattle.clover_main.specs.Causes.{AppendsFront, HasCause};
ghost use Rattle.clover_main.specs.Running.{Says};

use crate::chunk::Chunk;
use crate::io::{Failed, Sink};
use clover_words::{Buffer, Side, Word};
use itoa::Buffer as Digits;

/// Puts a text, and behind it the name of a copy of a word.
pub fn put_word<K: Sink>(
    front: &[u8],
    word: Word,
    side: Side,
    chunk: &mut Chunk,
    sink: &mut K,
) -> Result<(), Failed>
    ensures ok { OnOk result (Says (K.taken sink.old) (K.taken sink.new) chunk.old chunk.new (front.now ++ copy_text word side)) }
    ensures err { OnErr result (AppendsFront (K.taken sink.old) (K.taken sink.new) (chunk.old ++ (front.now ++ copy_text word side))) }
    ensures cause { HasCause (K.faults sink.old) (K.faults sink.new) result }
{
    let side = side_front(side);
    match word {
        Word::Next(buffer) => put_of_buffer(front, side, b"N", buffer, chunk, sink),
        Word::Meta(buffer) => put_of_buffer(front, side, b"M", buffer, chunk, sink),
        Word::Value(buffer, number) => put_value(front, side, buffer, number, chunk, sink),
        Word::Root(slot) => put_of_slot(front, side, b"R", slot, chunk, sink),
        Word::Key(slot, number) => put_key(front, side, slot, number, chunk, sink),
        Word::Short(slot) => put_of_slot(front, side, b"S", slot, chunk, sink),
        Word::Count => put_count(front, side, chunk, sink),
    }
}

// What stands before the name of a copy.
fn side_front(side: Side) -> &'static [u8]
    ensures { result.now ≡ side_text side }
{
    match side {
        Side::Current => b"",
        Side::Flushed => b"f",
    }
}

// Puts these texts, and behind them the node and the index of a buffer.
fn put_of_buffer<'a, K: Sink>(
    front: &'a [u8],
    side: &'a [u8],
    letter: &'a [u8],
    buffer: Buffer,
    chunk: &mut Chunk,
    sink: &mut K,
) -> Result<(), Failed>
    ensures ok { OnOk result (Says (K.taken sink.old) (K.taken sink.new) chunk.old chunk.new (front.now ++ (side.now ++ (letter.now ++ buffer_text buffer)))) }
    ensures err { OnErr result (AppendsFront (K.taken sink.old) (K.taken sink.new) (chunk.old ++ (front.now ++ (side.now ++ (letter.now ++ buffer_text buffer))))) }
    ensures cause { HasCause (K.faults sink.old) (K.faults sink.new) result }
{
    let mut node = Digits::new();
    let mut index = Digits::new();
    let node = node.format(buffer.node).as_bytes();
    let index = index.format(buffer.index).as_bytes();
    chunk.add_all(&[front, side, letter, node, b".", index], sink)
}

// Puts these texts, and behind them the name of a value word.
fn put_value<'a, K: Sink>(
    front: &'a [u8],
    side: &'a [u8],
    buffer: Buffer,
    number: u32,
    chunk: &mut Chunk,
    sink: &mut K,
) -> Result<(), Failed>
    ensures ok { OnOk result (Says (K.taken sink.old) (K.taken sink.new) chunk.old chunk.new (front.now ++ (side.now ++ (codes "V" ++ (buffer_text buffer ++ (codes "." ++ decimal number)))))) }
    ensures err { OnErr result (AppendsFront (K.taken sink.old) (K.taken sink.new) (chunk.old ++ (front.now ++ (side.now ++ (codes "V" ++ (buffer_text buffer ++ (codes "." ++ decimal number))))))) }
    ensures cause { HasCause (K.faults sink.old) (K.faults sink.new) result }
{
    let mut node = Digits::new();
    let mut index = Digits::new();
    let mut digits = Digits::new();
    let node = node.format(buffer.node).as_bytes();
    let index = index.format(buffer.index).as_bytes();
    let digits = digits.format(number).as_bytes();
    chunk.add_all(&[front, side, b"V", node, b".", index, b".", digits], sink)
}

// Puts these texts, and behind them the number of a slot.
fn put_of_slot<'a, K: Sink>(
    front: &'a [u8],
    side: &'a [u8],
    letter: &'a [u8],
    slot: u32,
    chunk: &mut Chunk,
    sink: &mut K,
) -> Result<(), Failed>
    ensures ok { OnOk result (Says (K.taken sink.old) (K.taken sink.new) chunk.old chunk.new (front.now ++ (side.now ++ (letter.now ++ decimal slot)))) }
    ensures err { OnErr result (AppendsFront (K.taken sink.old) (K.taken sink.new) (chunk.old ++ (front.now ++ (side.now ++ (letter.now ++ decimal slot))))) }
    ensures cause { HasCause (K.faults sink.old) (K.faults sink.new) result }
{
    let mut digits = Digits::new();
    let digits = digits.format(slot).as_bytes();
    chunk.add_all(&[front, side, letter, digits], sink)
}

// Puts these texts, and behind them the name of a key word.
fn put_key<'a, K: Sink>(
    front: &'a [u8],
    side: &'a [u8],
    slot: u32,
    number: u32,
    chunk: &mut Chunk,
    sink: &mut K,
) -> Result<(), Failed>
    ensures ok { OnOk result (Says (K.taken sink.old) (K.taken sink.new) chunk.old chunk.new (front.now ++ (side.now ++ (codes "K" ++ (decimal slot ++ (codes "." ++ decimal number)))))) }
    ensures err { OnErr result (AppendsFront (K.taken sink.old) (K.taken sink.new) (chunk.old ++ (front.now ++ (side.now ++ (codes "K" ++ (decimal slot ++ (codes "." ++ decimal number))))))) }
    ensures cause { HasCause (K.faults sink.old) (K.faults sink.new) result }
{
    let mut first = Digits::new();
    let mut second = Digits::new();
    let first = first.format(slot).as_bytes();
    let second = second.format(number).as_bytes();
    chunk.add_all(&[front, side, b"K", first, b".", second], sink)
}

// Puts these texts, and behind them the name of the count.
fn put_count<'a, K: Sink>(
    front: &'a [u8],
    side: &'a [u8],
    chunk: &mut Chunk,
    sink: &mut K,
) -> Result<(), Failed>
    ensures ok { OnOk result (Says (K.taken sink.old) (K.taken sink.new) chunk.old chunk.new (front.now ++ (side.now ++ codes "C"))) }
    ensures err { OnErr result (AppendsFront (K.taken sink.old) (K.taken sink.new) (chunk.old ++ (front.now ++ (side.now ++ codes "C")))) }
    ensures cause { HasCause (K.faults sink.old) (K.faults sink.new) result }
{
    chunk.add_all(&[front, side, b"C"], sink)
}

/// A number as sixteen digits of four bits, the highest first.
pub fn hex_digits(number: u64) -> [u8; 16]
    ensures { result ≡ hex_text number }
{
    let [a, b, c, d, e, f, g, h] = number.to_be_bytes();
    [
        high(a),
        low(a),
        high(b),
        low(b),
        high(c),
        low(c),
        high(d),
        low(d),
        high(e),
        low(e),
        high(f),
        low(f),
        high(g),
        low(g),
        high(h),
        low(h),
    ]
}

fn high(byte: u8) -> u8
    ensures { result ≡ hex_digit (byte / 16) }
{
    digit(byte / 16)
}

fn low(byte: u8) -> u8
    ensures { result ≡ hex_digit (byte % 16) }
{
    digit(byte % 16)
}

// How a digit below 16 is written.
fn digit(number: u8) -> u8
    requires { number < 16 }
    ensures { result ≡ hex_digit number }
{
    if number < 10 {
        b'0' + number
    } else {
        b'a' + (number - 10)
    }
}
