// The pool: its words, the seats of its actors, the entries and the accesses that were made.
ghost use Rattle.std.specs.Prelude.{◌≡◌, ◌≤◌, ◌<◌, ◌+◌, ◌++◌, ℕ, List, [], ◌∷◌, length, Some, true, false, IfNone, IfOk, IfSome, OnOk, replicate, slice_index, vec_capacity};
ghost use Rattle.clover_words.specs.Place.{HasSide, IsWithin, copy_in, pool_words};
ghost use Rattle.clover_words.specs.declared.word.Side.TheVariants.{Flushed};
ghost use Rattle.clover_plain.specs.Plain.{HasRoom, HasTurn, IsDown, IsFresh, Kept, KeptButEntries, Leads, Running, first_view, history, IsActor, HasSeat, HasRole, view_at};
ghost use Rattle.clover_rule.specs.Lists.{IsPrefix, nth};
ghost use Rattle.clover_rule.specs.Moves.{nobody};
ghost use Rattle.clover_rule.specs.declared.access.Access.{Access};
ghost use Rattle.clover_rule.specs.declared.view.View.{View};
ghost use Rattle.clover_plain.specs.Kept.{AllFit, views_of};

mod cut;
mod hand;
mod open;
mod preset;
mod steps;
#[cfg(test)]
mod tests;

use crate::blank::Blank;
use crate::port::PlainPort;
use crate::seats::{Becomes, Beginning, Begun, Knowing, begin, open_views};
use atomic_table::{Seat, Table};
use clover_list::OutOfMemory;
use clover_map::Entry;
use clover_rule::{Access, Actor, View};
use clover_words::{Setup, Side, Word};
use std::alloc::Global;
use std::marker::{Brand, Model};
use std::mem::replace;

/// The words of a pool with what each actor knows, the entries of its history and, with a trace, its accesses.
#[derive(Drop)]
pub struct PlainPool {
    setup: Setup,
    // both copies of each word, by address
    words: Blank,
    // what each actor knows, as the meaning of its seat: the clients first, and behind them the server
    seats: Vec<Seat<(), View>>,
    // the table of these seats
    knowing: Knowing,
    // the words with which the pool began, and the views that no actor's seat holds, as the meaning of one seat
    begun: Seat<(), Beginning>,
    // the table of that seat
    beginning: Begun,
    // the entries of the history that were entered
    entries: Vec<Entry>,
    // whether accesses are listed
    traced: bool,
    // the listed accesses
    trace: Vec<Access>,
    // how many accesses were made and not refused; it stands still at its type's end
    made: u64,
    // whether the pool runs
    opened: bool,
    // whether no port made a second access: then the trace, if there is one, lists all
    whole: bool,
}

impl Model for PlainPool {
    ghost use Rattle.clover_plain.specs.Plain.{Plain};

    ghost Value = { Plain };

    ghost use Rattle.clover_map.specs.contracts.map.TaggedMap as tagged;
    ghost use Rattle.std.specs.Coded.{codes};

    ghost coded = { Prim.hlevel (codes, tagged.the_row.coded) };

    ghost use Rattle.clover_plain.specs.Kept.{meaning, IsKept};

    ghost view = { meaning };

    ghost invariant = { IsKept };
}

// So many seats, of which nothing is known yet, and room for one more.
fn seats_of(
    alloc: Global,
    knowing: &Knowing,
    first: Seat<(), View>,
    count: u32,
) -> Result<Vec<Seat<(), View>>, OutOfMemory>
    requires first { (first.table_id ≡ knowing.now.shared.table_id) × (first.me.0 ≡ nobody) }
    requires one { (0 < knowing.now.shared.table_id.words) × (1 ≤ count) }
    ensures seats { IfOk result (λ seats. AllFit knowing.now.shared.table_id seats.items × (views_of seats.items ≡ replicate count nobody)) }
    ensures spare { IfOk result (λ seats. count + 1 ≤ vec_capacity seats) }
{
    let mut seats = Vec::new(alloc);
    seats.reserve(count as usize + 1)?;
    seats.push(first)?;
    for _ in 1..count {
        let (_, seat) = knowing.shared.load_new_seat::<Becomes<Brand>>(0);
        seats.push(seat)?;
    }
    Ok(seats)
}

impl PlainPool {
    /// A pool of words that are all 0, as a run begins: the metadata server has every buffer and no binding, and the
    /// clients know nothing. There is no entry and no access; with `trace` the pool lists the accesses. `OutOfMemory`
    /// for want of memory: this call takes all of it but that of the lists of entries and accesses.
    pub fn make(alloc: Global, setup: Setup, trace: bool) -> Result<PlainPool, OutOfMemory>
        ensures setup { IfOk result (λ pool. (pool.setup ≡ setup) × (pool.traced ≡ trace)) }
        ensures words { IfOk result (λ pool. pool.words ≡ replicate (pool_words setup.pool) 0) }
        ensures views { IfOk result (λ pool. (length pool.views ≡ setup.clients + 1) × ((i : ℕ) (v : View) → nth pool.views i ≡ Some v → v ≡ first_view setup i)) }
        ensures fresh { IfOk result (λ pool. IsFresh pool) }
    {
        let words = Blank::make(alloc, setup.pool.len() as usize)?;
        let (knowing, first) = Table::of_words(alloc, &[0], &setup)?;
        let (beginning, mut begun) = Table::of_words(alloc, &[0], &())?;
        let mut seats = seats_of(alloc, &knowing, first, setup.clients + 1)?;
        open_views(&setup, &knowing, &mut seats);
        begin::<Brand>(&beginning, &mut begun, &words);
        Ok(PlainPool {
            setup,
            words,
            seats,
            knowing,
            begun,
            beginning,
            entries: Vec::new(alloc),
            traced: trace,
            trace: Vec::new(alloc),
            made: 0,
            opened: true,
            whole: true,
        })
    }

    /// Makes room for one access, where accesses are listed, and for one entry. `OutOfMemory` for want of memory: the
    /// pool is then as before, and keeps what room it has.
    pub fn reserve(&mut self) -> Result<(), OutOfMemory>
        ensures room { OnOk result (HasRoom self.new) }
        ensures kept { (self.old.access_room ≤ self.new.access_room) × (self.old.entry_room ≤ self.new.entry_room) }
        ensures same { Kept self.old self.new }
    {
        self.entries.reserve(1)?;
        if self.traced {
            self.trace.reserve(1)?;
        }
        Ok(())
    }

    /// The port of an actor, for one access: `reserve` has made room, and each entry of the history was entered. With
    /// `refuse` the port's first access is refused, and no other one is. It takes no memory.
    ///
    /// A port makes and counts further accesses too, but lists the first one alone.
    pub fn port(&mut self, actor: Actor, refuse: bool) -> PlainPort<'_>
        requires opened { HasTurn self.old actor }
        requires actor { IsActor self.old actor }
        requires room { HasRoom self.old }
        requires entered { self.old.entries ≡ history self.old }
        ensures seat { HasSeat self.old actor result.seat }
        ensures role { HasRole actor (view_at self.old result.seat) }
        ensures pool { (result.pool.now ≡ self.old) × (result.pool.ghost_name ≡ self.entry.ghost_name) }
        ensures fresh { (result.refuse ≡ refuse) × (result.list ≡ true) × (result.faults ≡ 0) }
    {
        let _ = &self.setup;
        let seat = self.seat_of(actor);
        PlainPort {
            pool: self,
            seat,
            refuse,
            list: true,
            faults: 0,
        }
    }

    // The seat of an actor.
    fn seat_of(&self, actor: Actor) -> usize
        requires { IsActor self.now actor }
        ensures { HasSeat self.now actor result }
    {
        match actor {
            Actor::Client(number) => number as usize - 1,
            Actor::Server => self.setup.clients as usize,
            Actor::Restart => self.setup.clients as usize + 1,
        }
    }

    /// Enters the entry that the last access added to the pool's history. It takes no memory.
    pub fn enter(&mut self, entry: Entry)
        requires opened { self.old.opened ≡ true }
        requires room { 1 ≤ self.old.entry_room }
        requires entry { history self.old ≡ self.old.entries ++ entry ∷ [] }
        ensures entries { self.new.entries ≡ self.old.entries ++ entry ∷ [] }
        ensures same { KeptButEntries self.old self.new }
    {
        match self.entries.push(entry) {
            Ok(()) => {}
            Err(_) => unreachable!(),
        }
    }

    /// Hands out the entries that were entered: none is then. It takes no memory.
    pub fn take_entries(&mut self) -> Vec<Entry>
        requires opened { self.old.opened ≡ true }
        ensures entries { (result.items ≡ self.old.entries) × (self.new.entries ≡ []) }
        ensures same { KeptButEntries self.old self.new }
    {
        let none = Vec::new(*self.entries.allocator());
        replace(&mut self.entries, none)
    }

    /// The entries of the pool's history, as far as they were entered.
    pub fn entries(&self) -> &[Entry]
        ensures value { result.now ≡ self.now.entries }
        ensures history { self.now.opened ≡ true → IsPrefix self.now.entries (history self.now) }
    {
        self.entries.as_slice()
    }

    /// Whether accesses are listed.
    pub fn traced(&self) -> bool
        ensures { result ≡ self.now.traced }
    {
        self.traced
    }

    /// The accesses, in order, refused ones among them; none without a trace. Where no port made a second access, they
    /// are all accesses, and those since the last power cut lead from the words that it left to the present ones.
    pub fn accesses(&self) -> &[Access]
        ensures value { result.now ≡ self.now.accesses }
        ensures replay { self.now.traced ≡ true → self.now.whole ≡ true → (earlier since : List Access) × (earlier ++ since ≡ self.now.accesses) × Leads self.now.setup.pool self.now.start self.now.words self.now.made earlier since }
        ensures untraced { self.now.traced ≡ false → self.now.accesses ≡ [] }
    {
        self.trace.as_slice()
    }

    /// The number at an address: the current copies of the durable words come first, behind them their flushed copies,
    /// and then the shortcuts and the count.
    pub fn number(&self, address: u64) -> u64
        requires { address < length self.now.words }
        ensures { result ≡ slice_index self.now.words address }
    {
        self.words.get(address as usize)
    }

    /// What a copy of a durable word says. `None` exactly where the word is no durable word of the pool: shortcuts and
    /// the count are none.
    pub fn durable(&self, word: Word, side: Side) -> Option<u64>
        ensures some { IfSome result (λ number. IsWithin self.now.setup.pool word × HasSide word Flushed × (number ≡ copy_in self.now.setup.pool self.now.words word side)) }
        ensures none { IfNone result (IsWithin self.now.setup.pool word → HasSide word Flushed → ⊥) }
    {
        self.setup.pool.address(word, Side::Flushed)?;
        let at = self.setup.pool.address(word, side)?;
        Some(self.words.get(at as usize))
    }

    /// How many accesses were made and not refused, 2^64 - 1 also where there were more.
    pub fn made(&self) -> u64
        ensures value { result ≡ self.now.made }
        ensures counted { (earlier since : List Access) × Leads self.now.setup.pool self.now.start self.now.words result earlier since }
    {
        self.made
    }

    /// What holds of a pool between any two accesses: the rule above all of one that runs, and how far restart has come
    /// of one that is down. This is for proofs, and does nothing.
    pub fn stands(&self)
        ensures running { self.now.opened ≡ true → Running self.now }
        ensures down { self.now.opened ≡ false → IsDown self.now }
    {
        let _ = &self.setup;
    }
}
