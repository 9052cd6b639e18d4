// A power cut: each word keeps one of its copies, and what the actors knew is gone but for how the next run begins.
ghost use Rattle.std.specs.Prelude.{◌≡◌, ◌≤◌, ◌<◌, ◌+◌, ◌*◌, ◌-◌, ◌++◌, ◌∷◌, [], ℕ, false, length, replicate, slice_index, slice_index_or, vec_capacity, vec_len};
ghost use Prim.Native.Nat.{suc};
ghost use Rattle.clover_rule.specs.Cut.{IsCut};
ghost use Rattle.clover_rule.specs.Moves.{nobody};
ghost use Rattle.clover_rule.specs.Restart.{rested_words};
ghost use Rattle.clover_rule.specs.Views.{alone, start_pass};
ghost use Rattle.clover_plain.specs.Kept.{AllFit, view_of, views_of};
ghost use Rattle.clover_plain.specs.Plain.{history, restart_view, role_at};
ghost use Rattle.clover_plain.specs.Waking.{IsWoken};

use crate::blank::Blank;
use crate::pool::PlainPool;
use crate::seats::{Becomes, Knowing, begin, rest_views, wake};
use atomic_table::Seat;
use clover_rule::View;
use clover_words::Setup;
use std::marker::Brand;

impl PlainPool {
    /// The pool loses its power, while it runs or between two stores of restart. `kept` has a number for each durable
    /// word, in ascending order: the word's current or its flushed copy. Both copies become it, and shortcuts and
    /// count become 0. The entries are gone, and what the actors knew; the accesses stay, and are counted on. Only
    /// restart steps from now on, until `open_run`. It takes no memory.
    pub fn power_cut(&mut self, kept: &[u64])
        requires cut { IsCut self.old.setup.pool self.old.words kept.now }
        ensures down { self.new.opened ≡ false }
        ensures words { self.new.words ≡ rested_words self.old.setup.pool kept.now }
        ensures start { self.new.start ≡ rested_words self.old.setup.pool kept.now }
        ensures restart { IsWoken self.old.opened self.old.setup.pool self.old.first self.old.used (self.old.views ++ self.old.absent) (history self.old) kept.now (restart_view self.new) }
        ensures first { (self.new.first ≡ (restart_view self.new).pass.map) × (self.new.used ≡ (restart_view self.new).pass.used) }
        ensures seats { length self.new.views ≡ self.old.setup.clients + 2 }
        ensures entries { (self.new.entries ≡ []) × (history self.new ≡ []) }
        ensures accesses { (self.new.accesses ≡ self.old.accesses) × (self.new.made ≡ self.old.made) × (self.new.whole ≡ self.old.whole) }
        ensures same { (self.new.setup ≡ self.old.setup) × (self.new.traced ≡ self.old.traced) × (self.new.access_room ≡ self.old.access_room) × (self.old.entry_room ≤ self.new.entry_room) }
    {
        let restart = wake::<Brand>(
            &self.setup,
            self.opened,
            &self.knowing,
            &self.begun,
            &self.seats,
            kept,
        );
        renew_seats(&self.setup, &self.knowing, &mut self.seats, restart);
        rest(&mut self.words, kept);
        begin::<Brand>(&self.beginning, &mut self.begun, &self.words);
        self.entries.clear();
        self.opened = false;
    }
}

// The clients' seats and a new one of the server have what restart's says of the next run, and restart's stands
// behind them.
fn renew_seats(
    setup: &Setup,
    knowing: &Knowing,
    seats: &mut Vec<Seat<(), View>>,
    restart: Seat<(), View>,
)
    requires fits { AllFit knowing.now.shared.table_id seats.old.items × (restart.table_id ≡ knowing.now.shared.table_id) × (0 < knowing.now.shared.table_id.words) }
    requires room { (setup.now.clients ≤ length seats.old.items) × (setup.now.clients + 2 ≤ vec_capacity seats.old) }
    ensures length { length seats.new.items ≡ setup.now.clients + 2 }
    ensures rest { (i : ℕ) → i ≤ setup.now.clients → slice_index_or (views_of seats.new.items) i nobody ≡ alone (start_pass setup.now.pool (view_of restart).pass.map (view_of restart).pass.used (role_at setup.now i)) }
    ensures restart { slice_index_or (views_of seats.new.items) (suc setup.now.clients) nobody ≡ view_of restart }
    ensures fits { AllFit knowing.now.shared.table_id seats.new.items }
    ensures room { setup.now.clients + 2 ≤ vec_capacity seats.new }
{
    seats.truncate(setup.clients as usize);
    let (_, server) = knowing.shared.load_new_seat::<Becomes<Brand>>(0);
    add_seat(seats, server);
    rest_views(setup, knowing, &restart, seats);
    add_seat(seats, restart);
}

// One more seat, for which there is room.
fn add_seat(seats: &mut Vec<Seat<(), View>>, seat: Seat<(), View>)
    requires { vec_len seats.old < vec_capacity seats.old }
    ensures seats { seats.new.items ≡ seats.old.items ++ seat ∷ [] }
    ensures room { vec_capacity seats.old ≤ vec_capacity seats.new }
{
    match seats.push(seat) {
        Ok(()) => {}
        Err(_) => unreachable!(),
    }
}

// The words right behind a power cut. A place that has its number already is not written.
fn rest(words: &mut Blank, kept: &[u64])
    requires { 2 * length kept.now ≤ length words.old }
    ensures words { words.new ≡ kept.now ++ kept.now ++ replicate (length words.old - 2 * length kept.now) 0 }
    ensures sized { length words.new ≡ length words.old }
{
    for at in 0..words.len() {
        let number = rested_number(kept, at);
        if words.get(at) != number {
            words.set(at, number);
        }
    }
}

// The number at a place: both copies are what was kept, and behind them all is 0.
fn rested_number(kept: &[u64], at: usize) -> u64
    ensures { result ≡ slice_index (kept.now ++ kept.now) at }
{
    if let Some(number) = kept.get(at) {
        return *number;
    }
    match kept.get(at - kept.len()) {
        Some(number) => *number,
        None => 0,
    }
}
