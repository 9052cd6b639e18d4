// The preset pool: as long as no metadata server hands out space, the first slots are bound as the run begins, and
// every other buffer that holds no tombstone is dealt to a client. This writes the words and gives each client's seat
// what it knows then.
ghost use Rattle.std.specs.Prelude.{◌≡◌, ◌≤◌, ◌<◌, ℕ, List, [], ◌∷◌, length, true, false, Some, vec_capacity};
ghost use Rattle.clover_words.specs.Place.{IsWithin, pool_words};
ghost use Rattle.clover_words.specs.Pack.{packed};
ghost use Rattle.clover_words.specs.Preset.{buffers_total};
ghost use Rattle.clover_words.specs.Next.{root_code};
ghost use Rattle.clover_map.specs.Key.{IsKey};
ghost use Rattle.clover_rule.specs.Content.{spelling};
ghost use Rattle.clover_rule.specs.Lists.{nth};
ghost use Rattle.clover_rule.specs.declared.view.View.{View};
ghost use Rattle.clover_plain.specs.Plain.{IsFresh};
ghost use Rattle.clover_plain.specs.Kept.{AllFit, views_of};
ghost use Rattle.clover_plain.specs.Preset.{preset_word, or_zero, tomb, IsPreset, start_view, AreDistinct};

use crate::blank::Blank;
use crate::pool::PlainPool;
use crate::seats::{Knowing, begin, deal_view};
use atomic_table::Seat;
use clover_map::Key;
use clover_rule::View;
use clover_words::{Meta, Setup, Tag, Word, pack, root_encode, tombstone as tombstone_buffer};
use std::marker::Brand;

impl PlainPool {
    /// Makes the preset pool of a pool in whose run nothing has happened: slot `n` is bound to `keys[n]`, with a tombstone alone, and
    /// every other buffer is at generation 0 and unlinked. Client `c` has the buffers that `dealt` gives as its stock,
    /// and knows all bindings; the server has no seat any more. The history is empty. It takes no memory.
    pub fn preset(&mut self, keys: &[Key])
        requires fresh { IsFresh self.old }
        requires distinct { AreDistinct keys.now }
        requires slots { length keys.now ≤ self.old.setup.pool.slots }
        requires buffers { self.old.setup.pool.slots ≤ buffers_total self.old.setup.pool }
        ensures fresh { IsFresh self.new }
        ensures words { IsPreset self.old.setup keys.now self.new.words }
        ensures views { (i : ℕ) (v : View) → nth self.new.views i ≡ Some v → v ≡ start_view self.old.setup keys.now i }
        ensures clients { length self.new.views ≡ self.old.setup.clients }
        ensures same { (self.new.setup ≡ self.old.setup) × (self.new.traced ≡ self.old.traced) × (self.new.access_room ≡ self.old.access_room) × (self.new.entry_room ≡ self.old.entry_room) }
    {
        are_keys(keys);
        fill(&self.setup, &mut self.words, keys);
        self.seats.truncate(self.setup.clients as usize);
        deal_views(&self.setup, &self.knowing, &mut self.seats, keys);
        begin::<Brand>(&self.beginning, &mut self.begun, &self.words);
    }
}

// Each key has 1 to 250 bytes. The types say so; this only looks at each.
fn are_keys(keys: &[Key])
    ensures { (i : ℕ) (k : List ℕ) → nth keys.now i ≡ Some k → IsKey k }
{
    for key in keys {
        is_key(key);
    }
}

fn is_key(key: &Key)
    ensures { IsKey key.now }
{
    let bytes = key.bytes();
    let _ = pack(bytes, 0);
}

// Writes each word.
fn fill(setup: &Setup, words: &mut Blank, keys: &[Key])
    requires sized { length words.old ≡ pool_words setup.now.pool }
    requires slots { length keys.now ≤ setup.now.pool.slots }
    requires buffers { setup.now.pool.slots ≤ buffers_total setup.now.pool }
    ensures words { IsPreset setup.now keys.now words.new }
    ensures sized { length words.new ≡ length words.old }
{
    for at in 0..words.len() {
        let Some((word, _)) = setup.pool.word_at(at as u64) else {
            unreachable!()
        };
        words.set(at, preset_number(setup, keys, word));
    }
}

// The number of a word.
fn preset_number(setup: &Setup, keys: &[Key], word: Word) -> u64
    requires within { IsWithin setup.now.pool word }
    requires slots { length keys.now ≤ setup.now.pool.slots }
    requires buffers { setup.now.pool.slots ≤ buffers_total setup.now.pool }
    ensures { result ≡ preset_word setup.now keys.now word }
{
    match word {
        Word::Next(_) | Word::Value(_, _) | Word::Short(_) => 0,
        Word::Meta(buffer) => {
            let number = u64::from(buffer.node) * u64::from(setup.pool.buffers)
                + u64::from(buffer.index);
            if setup.pool.total() - 1 - number < keys.len() as u64 {
                Meta::tombstone_word()
            } else {
                0
            }
        }
        Word::Root(slot) => {
            if (slot as usize) < keys.len() {
                root_word_of(setup, slot)
            } else {
                0
            }
        }
        Word::Key(slot, k) => {
            if (slot as usize) < keys.len() {
                key_word_of(&keys[slot as usize], k)
            } else {
                0
            }
        }
        Word::Count => keys.len() as u64,
    }
}

// The root of a bound slot.
fn root_word_of(setup: &Setup, slot: u32) -> u64
    requires { slot < buffers_total setup.now.pool }
    ensures { result ≡ root_code (Some (tomb setup.now.pool slot)) }
{
    let buffer = tombstone_buffer(setup, slot);
    root_encode(Some(Tag {
        node: buffer.node,
        index: buffer.index,
        generation: 0,
    }))
}

// A word of a key, 0 behind its last one.
fn key_word_of(key: &Key, k: u32) -> u64
    ensures { result ≡ or_zero (nth (spelling key.now) k) }
{
    let words = (8 + key.bytes().len()) / 8;
    if (k as usize) < words {
        spelled_word(key, k)
    } else {
        0
    }
}

// A word of the bytes that spell a key: its length, and its own bytes.
fn spelled_word(key: &Key, k: u32) -> u64
    ensures { result ≡ packed (length key.now ∷ key.now) k }
{
    let bytes = key.bytes();
    let mut spelled = [0; 251];
    spelled[0] = bytes.len() as u8;
    spelled[1..1 + bytes.len()].copy_from_slice(bytes);
    word_of(&spelled[..1 + bytes.len()], key, k)
}

fn word_of(spelled: &[u8], key: &Key, k: u32) -> u64
    requires { spelled.now ≡ length key.now ∷ key.now }
    ensures { result ≡ packed (length key.now ∷ key.now) k }
{
    let _ = key.bytes();
    pack(spelled, k)
}

// Gives the seat of each client its first view.
fn deal_views(setup: &Setup, knowing: &Knowing, seats: &mut Vec<Seat<(), View>>, keys: &[Key])
    requires fits { AllFit knowing.now.shared.table_id seats.old.items × (0 < knowing.now.shared.table_id.words) }
    ensures views { (i : ℕ) (v : View) → nth (views_of seats.new.items) i ≡ Some v → v ≡ start_view setup.now keys.now i }
    ensures fits { AllFit knowing.now.shared.table_id seats.new.items }
    ensures length { length seats.new.items ≡ length seats.old.items }
    ensures room { vec_capacity seats.new ≡ vec_capacity seats.old }
{
    for seat in 0..seats.len() {
        deal_view::<Brand>(setup, knowing, seats, seat, keys);
    }
}
