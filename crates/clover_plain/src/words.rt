// One word of the pool: each access reads it, and writes it where the access says so.
ghost use Rattle.std.specs.Prelude.{◌≡◌, ◌<◌, length, slice_index, slice_set, ◌==◌, max, OnOk};
ghost use prog.Atomic.{either};
ghost use Rattle.clover_words.specs.Place.{IsWithin, HasSide, address_of, pool_words};
ghost use Rattle.clover_rule.specs.Accesses.{words_after_act};
ghost use Rattle.clover_port.specs.Asked.{act_by};
ghost use Rattle.clover_plain.specs.Plain.{op_word, op_side};

use crate::blank::Blank;
use clover_port::Op;
use clover_rule::Act;
use clover_words::{Setup, Side, Word};

/// Makes the access, and gives the number that stood there.
pub fn apply(setup: &Setup, words: &mut Blank, op: &Op) -> u64
    requires within { IsWithin setup.now.pool (op_word op.now) × HasSide (op_word op.now) (op_side op.now) }
    requires sized { length words.old ≡ pool_words setup.now.pool }
    ensures found { result ≡ slice_index words.old (address_of setup.now.pool (op_word op.now) (op_side op.now)) }
    ensures after { words.new ≡ words_after_act setup.now.pool words.old (act_by op.now result) }
{
    match *op {
        Op::Load(word) => {
            let at = place_of(setup, words, word, Side::Current);
            load_at(words, at)
        }
        Op::Store { word, side, value } => {
            let at = place_of(setup, words, word, side);
            store_at(words, at, value)
        }
        Op::Exchange {
            word,
            expected,
            new,
        } => {
            let at = place_of(setup, words, word, Side::Current);
            exchange_at(words, at, expected, new)
        }
        Op::Raise { word, value } => {
            let at = place_of(setup, words, word, Side::Flushed);
            raise_at(words, at, value)
        }
    }
}

/// The access as it is listed where it found this number.
pub fn act_of(op: Op, found: u64) -> Act
    ensures { result ≡ act_by op found }
{
    match op {
        Op::Load(word) => Act::Load { word, got: found },
        Op::Store { word, side, value } => Act::Store { word, side, value },
        Op::Exchange {
            word,
            expected,
            new,
        } => Act::Exchange {
            word,
            expected,
            new,
            old: found,
        },
        Op::Raise { word, value } => Act::Raise {
            word,
            value,
            old: found,
        },
    }
}

// Where a copy of a word stands.
fn place_of(setup: &Setup, words: &Blank, word: Word, side: Side) -> usize
    requires within { IsWithin setup.now.pool word × HasSide word side }
    requires sized { length words.now ≡ pool_words setup.now.pool }
    ensures value { result ≡ address_of setup.now.pool word side }
    ensures inside { result < length words.now }
{
    let _ = words.len();
    match setup.pool.address(word, side) {
        Some(at) => at as usize,
        None => unreachable!(),
    }
}

// The number at an address.
fn load_at(words: &Blank, at: usize) -> u64
    requires { at < length words.now }
    ensures { result ≡ slice_index words.now at }
{
    words.get(at)
}

// Writes the number, and gives the one that stood there.
fn store_at(words: &mut Blank, at: usize, value: u64) -> u64
    requires { at < length words.old }
    ensures found { result ≡ slice_index words.old at }
    ensures after { words.new ≡ slice_set words.old at value }
{
    let found = words.get(at);
    words.set(at, value);
    found
}

// Writes the new number where the expected one stands, and gives the one that stood there.
fn exchange_at(words: &mut Blank, at: usize, expected: u64, new: u64) -> u64
    requires { at < length words.old }
    ensures found { result ≡ slice_index words.old at }
    ensures after { words.new ≡ slice_set words.old at (either (result == expected) new result) }
{
    let found = words.get(at);
    words.set(at, if found == expected { new } else { found });
    found
}

// Leaves the greater number, and gives the one that stood there.
fn raise_at(words: &mut Blank, at: usize, value: u64) -> u64
    requires { at < length words.old }
    ensures found { result ≡ slice_index words.old at }
    ensures after { words.new ≡ slice_set words.old at (max result value) }
{
    let found = words.get(at);
    words.set(at, found.max(value));
    found
}
