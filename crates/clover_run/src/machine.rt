// The machine: a pool with its server and its clients, one event at a time.
ghost use Rattle.std.specs.Prelude.{◌≡◌, ◌+◌, ◌<◌, ◌≤◌, ◌++◌, ◌∷◌, ◌⊎◌, ◌↔◌, [], false, ℕ, List, length, IsTrue, IfOk, OnErr, Some};
ghost use Rattle.clover_rule.specs.Lists.{nth};
ghost use Rattle.clover_run.specs.Client.{IsFirst};
ghost use Rattle.clover_run.specs.Folds.{entries_in, listed_in, made_after};
ghost use Rattle.clover_run.specs.Left.{left};
ghost use Rattle.clover_run.specs.Machine.{IsAt, Continues, Happens, IsSame, MayCome, IsBusy, IsFirstSide, OnlyWaits, WantsNothing, first_opening, new_side, no_batch};
ghost use Rattle.clover_run.specs.Record.{Record};
ghost use Rattle.clover_run.specs.Run.{Opening};
ghost use Rattle.clover_run.specs.declared.client.ClientState.{ClientState as State};
ghost use Rattle.clover_event.specs.Client.{IsCallTask};
ghost use Rattle.clover_script.specs.declared.line.Task.TheVariants.{Client as ClientTask};
ghost use Rattle.clover_event.specs.declared.event.Event.TheVariants.{Begin as BeginOf, Step as StepOf, Refuse as RefuseOf};
ghost use Rattle.clover_run.specs.declared.event.Note.TheVariants.{Quiet as IsQuiet};

mod power;

use crate::client::ClientState;
use crate::event::Note;
use crate::recycler::{Chore, Recycler};
use crate::served::Served;
use crate::want::Want;
use clover_alloc::{Batch, Books};
use clover_dir::Directory;
use clover_event::Event;
use clover_list::OutOfMemory;
use clover_map::{Call, Entry};
use clover_plain::PlainPool;
use clover_rule::Access;
use clover_script::Task;
use clover_server::{Server, first_law};
use clover_words::{Setup, Tag};
use std::alloc::Global;
use std::marker::Model;

/// A pool with its metadata server, its clients, each with at most one call under way, and the recycler, which is actor
/// 0. Events come in any order.
#[derive(Drop)]
pub struct Machine {
    setup: Setup,
    pool: PlainPool,
    served: Served,
    recycler: Recycler,
    clients: Vec<ClientState>,
}

impl Model for Machine {
    ghost use Rattle.clover_run.specs.Machine.{Parts};

    ghost Value = { Parts };

    ghost use Rattle.clover_map.specs.contracts.map.TaggedMap as tagged;
    ghost use Rattle.std.specs.Coded.{codes};

    ghost coded = { Prim.hlevel (codes, tagged.the_row.coded) };

    ghost use Rattle.clover_run.specs.Kept.{meaning, IsKept};

    ghost view = { meaning };

    ghost invariant = { IsKept };
}

// The clients of this setup, which have done nothing.
fn first_clients(alloc: Global, setup: Setup) -> Result<Vec<ClientState>, OutOfMemory>
    ensures { IfOk result (λ clients. (length clients.items ≡ setup.clients) × ((i : ℕ) (x : State) → nth clients.items i ≡ Some x → IsFirst setup (i + 1) x)) }
{
    let mut clients = Vec::new(alloc);
    for index in 0..setup.clients {
        clients.push(ClientState::idle(alloc, setup, index + 1)?)?;
    }
    Ok(clients)
}

// The server's side of a pool of which nothing was handed out.
fn first_side(alloc: Global, setup: Setup) -> Result<Served, OutOfMemory>
    ensures { IfOk result (IsFirstSide setup) }
{
    first_law();
    let books = Books::make(alloc, setup.pool)?;
    let directory = Directory::make(alloc, setup.pool)?;
    Ok(new_side(setup, books, directory))
}

// The server's side of a run that begins with these books and this directory.
fn new_side(setup: Setup, books: Books, directory: Directory) -> Served
    ensures { result ≡ new_side setup books directory }
{
    Served {
        server: Server::make(setup, books, directory),
        holder: None,
        read: 0,
        done: 0,
        batch: no_batch(),
    }
}

// The batch of a side of which nothing was handed out.
fn no_batch() -> Batch
    ensures { result ≡ no_batch }
{
    let nothing = Tag {
        node: 0,
        index: 0,
        generation: 0,
    };
    Batch {
        tags: [nothing; 64],
        count: 0,
    }
}

impl Machine {
    /// The machine of a setup over a pool of words that are all 0, before any event. With `trace` it lists its accesses.
    /// `OutOfMemory` for want of memory.
    pub fn make(alloc: Global, setup: Setup, trace: bool) -> Result<Machine, OutOfMemory>
        ensures at { IfOk result (λ m. IsAt (first_opening setup) m []) }
        ensures parts { IfOk result (λ m. (m.setup ≡ setup) × (m.pool.traced ≡ trace)) }
    {
        let pool = PlainPool::make(alloc, setup, trace)?;
        pool.stands();
        let served = first_side(alloc, setup)?;
        let clients = first_clients(alloc, setup)?;
        Ok(Machine {
            setup,
            pool,
            served,
            recycler: Recycler::idle(),
            clients,
        })
    }

    /// Makes an event happen: at most one access and one entry. It answers what the event came to.
    ///
    /// `OutOfMemory` for want of memory, before anything has changed.
    pub fn event(&mut self, event: Event) -> Result<Note, OutOfMemory>
        requires may { MayCome event }
        ensures happened { IfOk result (Happens self.old self.new event) }
        ensures parts { IfOk result (λ note. Continues self.old self.new) }
        ensures less { IfOk result (λ note. (a : ℕ) → event ≡ StepOf a → IsBusy self.old a → (OnlyWaits self.old a → ⊥) → left self.new a < left self.old a) }
        ensures same { OnErr result (IsSame self.old self.new) }
    {
        match event {
            Event::Begin { actor, task } => Ok(self.begin(actor, task)),
            Event::Step { actor } => self.step(actor),
            Event::Refuse { actor } => {
                self.refuse(actor);
                Ok(Note::Quiet)
            }
        }
    }

    /// Begins a task of an actor.
    #[inline(always)]
    pub(crate) fn begin(&mut self, actor: u32, task: Task) -> Note
        requires may { MayCome (BeginOf actor task) }
        ensures happened { Happens self.old self.new (BeginOf actor task) result }
        ensures parts { Continues self.old self.new }
    {
        match task {
            Task::Client { call, written } => self.begin_call(actor, call, written),
            Task::Recycle(slot) => self.served.begin(&mut self.recycler, Chore::OfSlot(slot)),
            Task::Sweep => self.served.begin(&mut self.recycler, Chore::OfAll),
        }
    }

    // Begins a client's call.
    #[inline(always)]
    fn begin_call(&mut self, actor: u32, call: Call, written: u32) -> Note
        requires client { 1 ≤ actor }
        requires may { IsCallTask call written }
        ensures happened { Happens self.old self.new (BeginOf actor (ClientTask call written)) result }
        ensures parts { Continues self.old self.new }
    {
        let seat = actor as usize - 1;
        if seat >= self.clients.len() {
            return Note::Missing { actor };
        }
        if self.clients[seat].is_busy() {
            return Note::Busy { actor };
        }
        self.pool.stands();
        self.clients[seat].begin(&self.setup, actor, call, written)
    }

    /// Makes a step of an actor: the next access of its call, or a step of the server for it; nothing happens where it has
    /// no task.
    ///
    /// `OutOfMemory` for want of memory, before anything has changed.
    #[inline(always)]
    pub(crate) fn step(&mut self, actor: u32) -> Result<Note, OutOfMemory>
        ensures happened { IfOk result (Happens self.old self.new (StepOf actor)) }
        ensures parts { IfOk result (λ note. Continues self.old self.new) }
        ensures less { IfOk result (λ note. IsBusy self.old actor → (OnlyWaits self.old actor → ⊥) → left self.new actor < left self.old actor) }
        ensures same { OnErr result (IsSame self.old self.new) }
    {
        if !self.is_busy(actor) {
            return Ok(Note::Quiet);
        }
        if actor == 0 {
            return self.step_recycler();
        }
        self.pool.stands();
        let seat = actor as usize - 1;
        match self.clients[seat].want {
            Want::Nothing => self.step_own(seat, actor),
            Want::Stock | Want::Names => self.step_served(seat, actor),
        }
    }

    // Makes the next access of a client's own call.
    #[inline(always)]
    fn step_own(&mut self, seat: usize, actor: u32) -> Result<Note, OutOfMemory>
        requires here { seat + 1 ≡ actor }
        requires busy { IsBusy self.old actor }
        requires own { WantsNothing (nth self.old.clients seat) }
        ensures happened { IfOk result (Happens self.old self.new (StepOf actor)) }
        ensures parts { IfOk result (λ note. Continues self.old self.new) }
        ensures less { IfOk result (λ note. left self.new actor < left self.old actor) }
        ensures same { OnErr result (IsSame self.old self.new) }
    {
        let alloc = *self.clients.allocator();
        let done = self.clients[seat].step(alloc, &mut self.pool, actor);
        self.pool.stands();
        done
    }

    // Makes a step of the server for a client whose call wants something of it.
    #[inline(always)]
    fn step_served(&mut self, seat: usize, actor: u32) -> Result<Note, OutOfMemory>
        requires here { seat + 1 ≡ actor }
        requires there { seat < length self.old.clients }
        requires wants { WantsNothing (nth self.old.clients seat) → ⊥ }
        ensures happened { IfOk result (Happens self.old self.new (StepOf actor)) }
        ensures parts { IfOk result (λ note. Continues self.old self.new) }
        ensures less { IfOk result (λ note. (OnlyWaits self.old actor → ⊥) → left self.new actor < left self.old actor) }
        ensures same { OnErr result (IsSame self.old self.new) }
    {
        self.pool.stands();
        let done = self
            .served
            .step(&mut self.pool, &mut self.clients[seat], actor);
        self.pool.stands();
        done
    }

    // Makes a step of the recycler, which has a task.
    fn step_recycler(&mut self) -> Result<Note, OutOfMemory>
        requires busy { IsBusy self.old 0 }
        ensures happened { IfOk result (Happens self.old self.new (StepOf 0)) }
        ensures parts { IfOk result (λ note. Continues self.old self.new) }
        ensures less { IfOk result (λ note. (OnlyWaits self.old 0 → ⊥) → left self.new 0 < left self.old 0) }
        ensures same { OnErr result (IsSame self.old self.new) }
    {
        self.pool.stands();
        let done = self.served.clean(&mut self.pool, &mut self.recycler);
        self.pool.stands();
        done
    }

    /// Has the next access in an event of an actor refused.
    pub(crate) fn refuse(&mut self, actor: u32)
        ensures happened { Happens self.old self.new (RefuseOf actor) IsQuiet }
        ensures parts { Continues self.old self.new }
    {
        if actor == 0 {
            self.recycler.refusing = true;
            return;
        }
        let seat = actor as usize - 1;
        if seat < self.clients.len() {
            self.clients[seat].refusing = true;
        }
    }

    /// Whether an actor has a task.
    pub fn is_busy(&self, actor: u32) -> bool
        ensures busy { IsTrue result ↔ IsBusy self.now actor }
    {
        if actor == 0 {
            return self.recycler.is_busy();
        }
        match self.clients.get(actor as usize - 1) {
            Some(client) => client.is_busy(),
            None => false,
        }
    }

    /// Whether a step of an actor would only wait: it wants something of the server, which another one holds.
    pub fn only_waits(&self, actor: u32) -> bool
        ensures { IsTrue result ↔ OnlyWaits self.now actor }
    {
        if actor == 0 {
            return self.recycler.is_busy() && self.served.is_elsewhere(0);
        }
        match self.clients.get(actor as usize - 1) {
            Some(client) => client.want != Want::Nothing && self.served.is_elsewhere(actor),
            None => false,
        }
    }

    /// Whether a step of an actor does anything: it has a task, and does not only wait.
    #[inline(always)]
    pub fn acts(&self, actor: u32) -> bool
        ensures yes { IsTrue result → IsBusy self.now actor × (OnlyWaits self.now actor → ⊥) }
        ensures no { result ≡ false → (IsBusy self.now actor → ⊥) ⊎ OnlyWaits self.now actor }
    {
        self.is_busy(actor) && !self.only_waits(actor)
    }

    /// The setup, which is the pool's too.
    pub fn setup(&self) -> Setup
        ensures value { result ≡ self.now.setup }
        ensures pool { self.now.pool.setup ≡ self.now.setup }
    {
        self.setup
    }

    /// The pool, whose words a power cut keeps.
    pub fn pool(&self) -> &PlainPool
        ensures { result.now ≡ self.now.pool }
    {
        &self.pool
    }

    /// Whether the accesses are listed.
    pub fn traced(&self) -> bool
        ensures { result ≡ self.now.pool.traced }
    {
        self.pool.traced()
    }

    /// The batch that was handed out last: where the last event was a grant, its batch.
    pub fn batch(&self) -> &Batch
        ensures { (o : Opening) (rs : List Record) (r : Record) → IsAt o self.now (rs ++ r ∷ []) → result.now ≡ r.served.batch }
    {
        &self.served.batch
    }

    /// The history so far.
    pub fn history(&self) -> &[Entry]
        ensures { (o : Opening) (rs : List Record) → IsAt o self.now rs → result.now ≡ entries_in rs }
    {
        self.pool.entries()
    }

    /// The accesses so far, in this run and before it, in order, refused ones among them; none without a trace.
    pub fn accesses(&self) -> &[Access]
        ensures { (o : Opening) (rs : List Record) → IsAt o self.now rs → result.now ≡ listed_in o.listed self.now.pool.traced rs }
    {
        self.pool.accesses()
    }

    /// How many accesses were made and not refused, in this run and before it.
    pub fn made(&self) -> u64
        ensures { (o : Opening) (rs : List Record) → IsAt o self.now rs → result ≡ made_after o.made rs }
    {
        self.pool.made()
    }
}
