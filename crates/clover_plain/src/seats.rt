// The seats of a pool's actors. What an actor knows is the meaning of its seat alone: a load of the one word of the
// table by a seat gives it its next view, and nothing of a view stands at run time.
ghost use Rattle.std.specs.Prelude.{◌≡◌, ◌<◌, ℕ, length, slice_set, [], List, Some, vec_capacity};
ghost use Rattle.clover_rule.specs.Lists.{nth};
ghost use Rattle.clover_rule.specs.declared.view.View.{View};
ghost use Rattle.clover_rule.specs.Views.{alone, start_pass};
ghost use Rattle.clover_plain.specs.Kept.{AllFit, view_of, views_of};
ghost use Rattle.clover_plain.specs.Plain.{actor_at, first_view, role_at};
ghost use Rattle.clover_plain.specs.Waking.{IsWoken};

use crate::blank::Blank;
use atomic_table::{Play, Seat, Table, TableRule};
use clover_alloc::{Batch, Books};
use clover_dir::{Binding, Directory};
use clover_map::Key;
use clover_rule::{Actor, View};
use clover_words::Setup;
use std::alloc::Global;
use std::collections::LinkedList;
use std::marker::{Brand, PhantomData};

/// A rule that allows every step.
pub struct AnyStep;

impl TableRule<(), View, Setup> for AnyStep {
    ghost use Rattle.clover_rule.specs.Moves.{nobody};

    ghost holds = { λ _ s. Unit {0} };

    ghost first = { λ _. nobody };
}

/// The seats' table: no slot, and one word that is always 0.
pub type Knowing = Table<(), View, Setup, AnyStep, Global>;

/// Names the next view of a seat, from the one before.
pub trait ViewName {
    ghost use Rattle.clover_rule.specs.declared.view.View.{View};

    ghost becomes: { View → View };
}

impl ViewName for Brand {
    ghost becomes = { λ v. v };
}

/// The seat gets the named view.
pub struct Becomes<J> {
    of: PhantomData<J>,
}

impl<J: ViewName> Play<(), View> for Becomes<J> {
    ghost use Rattle.std.specs.Prelude.{◌≡◌};

    ghost then = { λ _ before _ after. after.0 ≡ J.becomes before.0 };
}

/// The words with which a pool began, and the views that no actor's seat holds.
pub struct Beginning {
    pub words: LinkedList<u64>,
    pub views: LinkedList<View>,
}

/// A rule that allows every step.
pub struct AnyBeginning;

impl TableRule<(), Beginning, ()> for AnyBeginning {
    ghost use Rattle.std.specs.Prelude.{[]};

    ghost holds = { λ _ s. Unit {0} };

    ghost first = { λ _. record { words = []; views = [] } };
}

/// A table whose one seat keeps what the pool began with.
pub type Begun = Table<(), Beginning, (), AnyBeginning, Global>;

/// The actor of a seat.
pub fn actor_of(setup: &Setup, seat: usize) -> Actor
    ensures { result ≡ actor_at setup.now seat }
{
    let server = setup.clients as usize;
    if seat < server {
        Actor::Client(seat as u32 + 1)
    } else if seat == server {
        Actor::Server
    } else {
        Actor::Restart
    }
}

// The seat at a place gets the named view.
fn renew<J: ViewName>(knowing: &Knowing, seats: &mut Vec<Seat<(), View>>, at: usize)
    requires at { at < length seats.old.items }
    requires fits { AllFit knowing.now.shared.table_id seats.old.items × (0 < knowing.now.shared.table_id.words) }
    ensures views { (v : View) → nth (views_of seats.old.items) at ≡ Some v → views_of seats.new.items ≡ slice_set (views_of seats.old.items) at (J.becomes v) }
    ensures fits { AllFit knowing.now.shared.table_id seats.new.items }
    ensures length { length seats.new.items ≡ length seats.old.items }
    ensures room { vec_capacity seats.new ≡ vec_capacity seats.old }
{
    let seat = &mut seats[at];
    knowing.shared.load::<Becomes<J>>(seat, 0);
}

/// The seat at a place gets the view that a step leaves, named by what the step found. The other arguments are for
/// that name alone.
pub fn set_view<J: ViewName>(
    knowing: &Knowing,
    begun: &Seat<(), Beginning>,
    seats: &mut Vec<Seat<(), View>>,
    at: usize,
    found: u64,
)
    requires at { at < length seats.old.items }
    requires fits { AllFit knowing.now.shared.table_id seats.old.items × (0 < knowing.now.shared.table_id.words) }
    ensures views { (v : View) → nth (views_of seats.old.items) at ≡ Some v → views_of seats.new.items ≡ slice_set (views_of seats.old.items) at (J.becomes v) }
    ensures fits { AllFit knowing.now.shared.table_id seats.new.items }
    ensures length { length seats.new.items ≡ length seats.old.items }
    ensures room { vec_capacity seats.new ≡ vec_capacity seats.old }
{
    let _ = begun;
    let _ = found;
    renew::<J>(knowing, seats, at);
}

/// The seat at a place gets the view with which its actor begins. The other arguments are for that name alone.
pub fn deal_view<J: ViewName>(
    setup: &Setup,
    knowing: &Knowing,
    seats: &mut Vec<Seat<(), View>>,
    at: usize,
    keys: &[Key],
)
    requires at { at < length seats.old.items }
    requires fits { AllFit knowing.now.shared.table_id seats.old.items × (0 < knowing.now.shared.table_id.words) }
    ensures views { (v : View) → nth (views_of seats.old.items) at ≡ Some v → views_of seats.new.items ≡ slice_set (views_of seats.old.items) at (J.becomes v) }
    ensures fits { AllFit knowing.now.shared.table_id seats.new.items }
    ensures length { length seats.new.items ≡ length seats.old.items }
    ensures room { vec_capacity seats.new ≡ vec_capacity seats.old }
{
    let _ = setup.clients;
    let _ = keys.len();
    renew::<J>(knowing, seats, at);
}

/// The seat at a place gets the view that a grant leaves, the server's seat or a client's. The other arguments are
/// for that name alone.
pub fn hand_view<J: ViewName>(
    knowing: &Knowing,
    seats: &mut Vec<Seat<(), View>>,
    at: usize,
    serving: bool,
    batch: &Batch,
    names: &[Binding],
)
    requires at { at < length seats.old.items }
    requires fits { AllFit knowing.now.shared.table_id seats.old.items × (0 < knowing.now.shared.table_id.words) }
    ensures views { (v : View) → nth (views_of seats.old.items) at ≡ Some v → views_of seats.new.items ≡ slice_set (views_of seats.old.items) at (J.becomes v) }
    ensures fits { AllFit knowing.now.shared.table_id seats.new.items }
    ensures length { length seats.new.items ≡ length seats.old.items }
    ensures room { vec_capacity seats.new ≡ vec_capacity seats.old }
{
    let _ = serving;
    let _ = batch.count;
    let _ = names.len();
    renew::<J>(knowing, seats, at);
}

/// Each seat gets what its actor knows as a run begins from words of 0.
pub fn open_views(setup: &Setup, knowing: &Knowing, seats: &mut Vec<Seat<(), View>>)
    requires fits { AllFit knowing.now.shared.table_id seats.old.items × (0 < knowing.now.shared.table_id.words) }
    ensures views { (i : ℕ) (v : View) → nth (views_of seats.new.items) i ≡ Some v → v ≡ first_view setup.now i }
    ensures fits { AllFit knowing.now.shared.table_id seats.new.items }
    ensures length { length seats.new.items ≡ length seats.old.items }
    ensures room { vec_capacity seats.new ≡ vec_capacity seats.old }
{
    for seat in 0..seats.len() {
        deal_view::<Brand>(setup, knowing, seats, seat, &[]);
    }
}

/// Names a pool that loses its power: whether it runs, its shape, the map and the used tags with which its run began,
/// its views and its history, and the image that is left of its words.
pub trait LossName {
    ghost use Rattle.std.specs.Prelude.{Bool, List, ℕ};
    ghost use Rattle.clover_words.specs.declared.pool.Pool.{Pool};
    ghost use Rattle.clover_map.specs.declared.call.Entry.{Entry};
    ghost use Rattle.clover_map.specs.Tagged.{Tagged};
    ghost use Rattle.clover_rule.specs.declared.view.View.{View};

    ghost opened: { Bool };

    ghost pool: { Pool };

    ghost first: { Tagged };

    ghost used: { List ℕ };

    ghost views: { List View };

    ghost history: { List Entry };

    ghost image: { List ℕ };
}

impl LossName for Brand {
    ghost use Rattle.std.specs.Prelude.{[], false};
    ghost use Rattle.std.specs.FinMap as finite;
    ghost use Rattle.clover_rule.specs.Moves.{least_pool};

    ghost opened = { false };

    ghost pool = { least_pool };

    ghost first = { finite.empty };

    ghost used = { [] };

    ghost views = { [] };

    ghost history = { [] };

    ghost image = { [] };
}

/// The seat gets what restart knows behind the named loss of power.
pub struct Wakes<J> {
    of: PhantomData<J>,
}

impl<J: LossName> Play<(), View> for Wakes<J> {
    ghost use Rattle.clover_plain.specs.Waking.{IsWoken};

    ghost then = { λ _ _ _ after. IsWoken J.opened J.pool J.first J.used J.views J.history J.image after.0 };
}

/// A new seat, with what restart knows behind the named loss of power; there is such a view. The other arguments are
/// for that name alone.
pub fn wake<J: LossName>(
    setup: &Setup,
    opened: bool,
    knowing: &Knowing,
    begun: &Seat<(), Beginning>,
    seats: &Vec<Seat<(), View>>,
    kept: &[u64],
) -> Seat<(), View>
    requires one { 0 < knowing.now.shared.table_id.words }
    requires there { (v : View) × IsWoken J.opened J.pool J.first J.used J.views J.history J.image v }
    ensures fits { result.table_id ≡ knowing.now.shared.table_id }
    ensures woken { IsWoken J.opened J.pool J.first J.used J.views J.history J.image (view_of result) }
{
    let _ = setup.clients;
    let _ = opened;
    let _ = begun;
    let _ = seats.len();
    let _ = kept.len();
    let (_, seat) = knowing.shared.load_new_seat::<Wakes<J>>(0);
    seat
}

// The seat at a place gets what its actor knows while the pool is down. The other arguments are for that name alone.
fn rest_view<J: ViewName>(
    setup: &Setup,
    knowing: &Knowing,
    restart: &Seat<(), View>,
    seats: &mut Vec<Seat<(), View>>,
    at: usize,
)
    requires at { at < length seats.old.items }
    requires fits { AllFit knowing.now.shared.table_id seats.old.items × (0 < knowing.now.shared.table_id.words) }
    ensures views { (v : View) → nth (views_of seats.old.items) at ≡ Some v → views_of seats.new.items ≡ slice_set (views_of seats.old.items) at (J.becomes v) }
    ensures fits { AllFit knowing.now.shared.table_id seats.new.items }
    ensures length { length seats.new.items ≡ length seats.old.items }
    ensures room { vec_capacity seats.new ≡ vec_capacity seats.old }
{
    let _ = setup.clients;
    let _ = restart;
    renew::<J>(knowing, seats, at);
}

/// Each seat gets what its actor knows while the pool is down: how the next run begins, by restart's seat.
pub fn rest_views(
    setup: &Setup,
    knowing: &Knowing,
    restart: &Seat<(), View>,
    seats: &mut Vec<Seat<(), View>>,
)
    requires fits { AllFit knowing.now.shared.table_id seats.old.items × (0 < knowing.now.shared.table_id.words) }
    ensures views { (i : ℕ) (v : View) → nth (views_of seats.new.items) i ≡ Some v → v ≡ alone (start_pass setup.now.pool (view_of restart.now).pass.map (view_of restart.now).pass.used (role_at setup.now i)) }
    ensures fits { AllFit knowing.now.shared.table_id seats.new.items }
    ensures length { length seats.new.items ≡ length seats.old.items }
    ensures room { vec_capacity seats.new ≡ vec_capacity seats.old }
{
    for seat in 0..seats.len() {
        rest_view::<Brand>(setup, knowing, restart, seats, seat);
    }
}

/// The server's seat gets the view with which its next run begins. The other arguments are for that name alone.
pub fn serve_view<J: ViewName>(
    setup: &Setup,
    knowing: &Knowing,
    seats: &mut Vec<Seat<(), View>>,
    at: usize,
    books: &Books,
    directory: &Directory,
)
    requires at { at < length seats.old.items }
    requires fits { AllFit knowing.now.shared.table_id seats.old.items × (0 < knowing.now.shared.table_id.words) }
    ensures views { (v : View) → nth (views_of seats.old.items) at ≡ Some v → views_of seats.new.items ≡ slice_set (views_of seats.old.items) at (J.becomes v) }
    ensures fits { AllFit knowing.now.shared.table_id seats.new.items }
    ensures length { length seats.new.items ≡ length seats.old.items }
    ensures room { vec_capacity seats.new ≡ vec_capacity seats.old }
{
    let _ = setup.clients;
    let _ = books;
    let _ = directory;
    renew::<J>(knowing, seats, at);
}

/// Names the words with which a pool begins.
pub trait WordsName {
    ghost use Rattle.std.specs.Prelude.{List, ℕ};

    ghost words: { List ℕ };
}

impl WordsName for Brand {
    ghost use Rattle.std.specs.Prelude.{[]};

    ghost words = { [] };
}

/// The seat keeps the named words, and no views.
pub struct Keeps<J> {
    of: PhantomData<J>,
}

impl<J: WordsName> Play<(), Beginning> for Keeps<J> {
    ghost use Rattle.std.specs.Prelude.{◌≡◌, []};

    ghost then = { λ _ _ _ after. (after.0.words ≡ J.words) × (after.0.views ≡ []) };
}

/// The seat keeps the named words, and no views. The words that are passed are for that name alone.
pub fn begin<J: WordsName>(beginning: &Begun, begun: &mut Seat<(), Beginning>, words: &Blank)
    requires fits { (begun.old.table_id ≡ beginning.now.shared.table_id) × (0 < beginning.now.shared.table_id.words) }
    ensures words { begun.new.me.0.words ≡ J.words }
    ensures views { begun.new.me.0.views ≡ [] }
    ensures fits { begun.new.table_id ≡ beginning.now.shared.table_id }
{
    let _ = words.len();
    beginning.shared.load::<Keeps<J>>(begun, 0);
}
