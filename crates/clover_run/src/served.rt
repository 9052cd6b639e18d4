// The server's side of a run: the server itself, and who holds it.
ghost use Prim.Native.Nat.{suc};
ghost use Rattle.std.specs.Prelude.{◌≡◌, ◌≢◌, ◌<◌, ◌≤◌, ◌+◌, ◌-◌, ◌^◌, ◌↔◌, [], ℕ, true, false, None, IsTrue, IfOk, OnErr};
ghost use Rattle.clover_words.specs.Tag.{tag_number};
ghost use Rattle.clover_words.specs.declared.pool.Pool.{Pool as PoolShape};
ghost use Rattle.clover_rule.specs.Content.{InRange};
ghost use Rattle.clover_rule.specs.Lists.{Each};
ghost use Rattle.clover_rule.specs.declared.view.View.{View};
ghost use Rattle.clover_alloc.specs.Batch.{tags_of};
ghost use Rattle.clover_server.specs.Holding.{Agrees};
ghost use Rattle.clover_server.specs.Left.{Lessens, OnMore, sweep_left, work_left};
ghost use Rattle.clover_server.specs.Looking.{free_in, given_back};
ghost use Rattle.clover_server.specs.Told.{IsOwnTurn};
ghost use Rattle.clover_plain.specs.Plain.{HasRoom, Kept};
ghost use Rattle.clover_run.specs.Run.{Opening};
ghost use Rattle.clover_run.specs.Served.{is_elsewhere};
ghost use Rattle.clover_run.specs.Serving.{Serves, TakesFor};
ghost use Rattle.clover_run.specs.Working.{HasServer, MayGrant, MayServe, WasGranted, WasServed, Worked};
ghost use Rattle.clover_run.specs.Cleaning.{Cleans, clean_note, holder_of, reads, slot_due};
ghost use Rattle.clover_run.specs.Recycling.{BeginsChore, MayClean, MayRecycle, RecycledFor, WasCleaned};
ghost use Rattle.clover_server.specs.declared.turn.ServerTurn.TheVariants.{Unlinked as TurnUnlinked};
ghost use Rattle.clover_run.specs.declared.want.Want.TheVariants.{Nothing as WantsNothing, Stock as WantsStock};

use crate::client::ClientState;
use crate::event::Note;
use crate::recycler::{Chore, Recycler};
use crate::want::Want;
use clover_alloc::Batch;
use clover_event::CallRefusal;
use clover_list::OutOfMemory;
use clover_map::Call;
use clover_plain::PlainPool;
use clover_port::Port;
use clover_rule::Actor;
use clover_server::{Server, ServerTurn};

/// The server, and the actor that holds it between two events; of the recycler's task, how many bindings it has read
/// unlinked and how many recyclings have ended in its events; and the batch that was handed out last.
#[derive(Drop)]
pub struct Served {
    pub server: Server,
    pub holder: Option<u32>,
    pub read: u32,
    pub done: u64,
    pub batch: Batch,
}

// Makes a step of the server towards what a call wants: at most one access.
fn step_for<P: Port>(server: &mut Server, port: &mut P, want: Want, call: &Call) -> ServerTurn
    requires wants { want ≢ WantsNothing }
    requires agrees { Agrees (P.pool port.old) [] server.old (P.view port.old) }
    ensures serves { Serves want call.now server.old server.new result (record { made = λ a x. P.made port.old a false x port.new; failed = P.failed port.old port.new; still = port.new ≡ port.old }) }
    ensures lowers { OnMore result (work_left server.new < work_left server.old) }
    ensures agrees { Agrees (P.pool port.new) [] server.new (P.view port.new) }
{
    match want {
        Want::Nothing => unreachable!(),
        Want::Stock => server.stock_step(port),
        Want::Names => match call {
            Call::Put { key, .. } => server.bind_step(port, key),
            _ if server.unfinished() => server.finish_step(port),
            _ => {
                server.end_want();
                ServerTurn::Ready
            }
        },
    }
}

// Makes that step in the pool. Where refusing is set, its access is refused, and refusing is not set any more.
fn work(
    server: &mut Server,
    pool: &mut PlainPool,
    want: Want,
    call: &Call,
    refusing: &mut bool,
) -> ServerTurn
    requires wants { want ≢ WantsNothing }
    requires room { HasRoom pool.old }
    requires made { pool.old.made < 2 ^ 64 - 1 }
    requires stands { HasServer pool.old server.old }
    ensures { Worked want call.now refusing.old refusing.new server.old server.new pool.old pool.new result }
{
    let mut port = pool.port(Actor::Server, *refusing);
    let turn = step_for(server, &mut port, want, call);
    *refusing = port.refuse;
    turn
}

// Makes an access of the slot's recycling, or without a slot of the unfinished task.
fn clean_for<P: Port>(server: &mut Server, port: &mut P, slot: Option<u32>) -> ServerTurn
    requires may { MayRecycle slot server.old }
    requires agrees { Agrees (P.pool port.old) [] server.old (P.view port.old) }
    ensures cleans { Cleans slot server.old server.new result (record { made = λ a x. P.made port.old a false x port.new; failed = P.failed port.old port.new; still = port.new ≡ port.old }) }
    ensures lessens { Lessens result (sweep_left server.old) (sweep_left server.new) }
    ensures gives { given_back server.new ≤ given_back server.old + 1 }
    ensures own { IsOwnTurn result }
    ensures agrees { Agrees (P.pool port.new) [] server.new (P.view port.new) }
{
    match slot {
        Some(slot) => server.recycle_step(port, slot),
        None => server.finish_step(port),
    }
}

// Makes an access of the slot's recycling in the pool, or without a slot of the unfinished task. Where `refuse` is set it
// is refused, and that is not set any more.
fn recycle_for(
    server: &mut Server,
    pool: &mut PlainPool,
    slot: Option<u32>,
    refuse: &mut bool,
) -> ServerTurn
    requires may { MayRecycle slot server.old }
    requires room { HasRoom pool.old }
    requires made { pool.old.made < 2 ^ 64 - 1 }
    requires stands { HasServer pool.old server.old }
    ensures { RecycledFor slot refuse.old refuse.new server.old server.new pool.old pool.new result }
{
    let mut port = pool.port(Actor::Server, *refuse);
    let turn = clean_for(server, &mut port, slot);
    *refuse = port.refuse;
    turn
}

// How many bindings more a sweep has read unlinked.
fn read_by(chore: Chore, turn: ServerTurn) -> u32
    ensures { result ≡ reads chore turn }
{
    match (chore, turn) {
        (Chore::OfAll, ServerTurn::Unlinked) => 1,
        _ => 0,
    }
}

// Takes what a call wants from the books: a batch where it wants stock, and else nothing.
fn take_for(server: &mut Server, want: Want) -> Batch
    requires free { want ≡ WantsStock → 0 < free_in server.old }
    ensures takes { TakesFor want server.old.books server.old.setup.batch (tags_of result) server.new.books }
    ensures rest { server.new ≡ record server.old { books = server.new.books } }
    ensures ahead { (p : PoolShape) (v : View) → Agrees p [] server.old v → Agrees p (tags_of result) server.new v × Each (λ tag. InRange p (tag_number tag)) (tags_of result) }
    ensures nothing { want ≢ WantsStock → result.count ≡ 0 }
{
    match want {
        Want::Stock => server.grant(),
        Want::Nothing | Want::Names => Batch::empty(),
    }
}

impl Served {
    /// Whether another actor holds the server.
    #[inline(always)]
    pub(crate) fn is_elsewhere(&self, actor: u32) -> bool
        ensures { IsTrue result ↔ (is_elsewhere self.now.holder actor ≡ true) }
    {
        match self.holder {
            Some(holder) => holder != actor,
            None => false,
        }
    }

    /// Makes the step of an actor whose call wants something of the server: it waits where another one holds the server,
    /// and else makes a step there.
    ///
    /// `OutOfMemory` for want of memory, and then nothing has changed.
    #[inline(always)]
    pub(crate) fn step(
        &mut self,
        pool: &mut PlainPool,
        client: &mut ClientState,
        actor: u32,
    ) -> Result<Note, OutOfMemory>
        requires may { (o : Opening) × (i : ℕ) × (suc i ≡ actor) × MayServe o i client.old self.old pool.old }
        ensures served { IfOk result (λ note. (o : Opening) (i : ℕ) → suc i ≡ actor → MayServe o i client.old self.old pool.old → WasServed o i client.old client.new self.old self.new pool.old pool.new note) }
        ensures same { OnErr result ((client.new ≡ client.old) × (self.new ≡ self.old) × Kept pool.old pool.new) }
    {
        if self.is_elsewhere(actor) {
            return Ok(Note::Waits);
        }
        if pool.made() == u64::MAX {
            return Err(OutOfMemory);
        }
        pool.reserve()?;
        Ok(self.serve(pool, client, actor))
    }

    // Makes a step of the server for the actor, which holds it from now on until it has what it wants.
    fn serve(&mut self, pool: &mut PlainPool, client: &mut ClientState, actor: u32) -> Note
        requires room { HasRoom pool.old }
        requires made { pool.old.made < 2 ^ 64 - 1 }
        requires free { is_elsewhere self.old.holder actor ≡ false }
        requires may { (o : Opening) × (i : ℕ) × (suc i ≡ actor) × MayServe o i client.old self.old pool.old }
        ensures { (o : Opening) (i : ℕ) → suc i ≡ actor → MayServe o i client.old self.old pool.old → WasServed o i client.old client.new self.old self.new pool.old pool.new result }
    {
        let Some(call) = &client.call else {
            unreachable!()
        };
        let turn = work(
            &mut self.server,
            pool,
            client.want,
            call,
            &mut client.refusing,
        );
        match turn {
            ServerTurn::More => {
                self.holder = Some(actor);
                Note::Quiet
            }
            ServerTurn::Ready => {
                pool.stands();
                self.grant(pool, client, actor)
            }
            ServerTurn::Full { bound, worn, out } => {
                self.end(client);
                Note::Full {
                    client: actor,
                    bound,
                    worn,
                    out,
                }
            }
            ServerTurn::NoSlot => {
                self.end(client);
                Note::NoSlot { client: actor }
            }
            ServerTurn::Unreached => {
                self.end(client);
                Note::Refused {
                    client: actor,
                    refusal: CallRefusal::Unreached,
                }
            }
            ServerTurn::Unlinked | ServerTurn::Recycled { .. } => unreachable!(),
        }
    }

    /// Begins a task of the recycler, and answers what that comes to: nothing that is printed, or that it has one
    /// already, or that the slot is not bound. Nothing is read then, and nothing is done.
    pub(crate) fn begin(&mut self, recycler: &mut Recycler, chore: Chore) -> Note
        ensures { BeginsChore chore recycler.old recycler.new self.old self.new result }
    {
        if recycler.is_busy() {
            return Note::Busy { actor: 0 };
        }
        if let Chore::OfSlot(slot) = chore {
            if !self.server.is_bound(slot) {
                return Note::Unbound;
            }
        }
        self.read = 0;
        self.done = 0;
        recycler.chore = Some(chore);
        Note::Quiet
    }

    /// Makes the step of a recycler that has a task: it waits where another actor holds the server, and else makes a
    /// step there.
    ///
    /// `OutOfMemory` for want of memory, and then nothing has changed.
    pub(crate) fn clean(
        &mut self,
        pool: &mut PlainPool,
        recycler: &mut Recycler,
    ) -> Result<Note, OutOfMemory>
        requires may { (o : Opening) × MayClean o recycler.old self.old pool.old }
        ensures cleaned { IfOk result (λ note. (o : Opening) → MayClean o recycler.old self.old pool.old → WasCleaned o recycler.old recycler.new self.old self.new pool.old pool.new note) }
        ensures same { OnErr result ((recycler.new ≡ recycler.old) × (self.new ≡ self.old) × Kept pool.old pool.new) }
    {
        if self.is_elsewhere(0) {
            return Ok(Note::Waits);
        }
        if pool.made() == u64::MAX {
            return Err(OutOfMemory);
        }
        pool.reserve()?;
        Ok(self.recycle(pool, recycler))
    }

    // Makes an access of the recycler's task, or of one that is unfinished; none where its sweep has nothing to read.
    fn recycle(&mut self, pool: &mut PlainPool, recycler: &mut Recycler) -> Note
        requires room { HasRoom pool.old }
        requires made { pool.old.made < 2 ^ 64 - 1 }
        requires free { is_elsewhere self.old.holder 0 ≡ false }
        requires may { (o : Opening) × MayClean o recycler.old self.old pool.old }
        ensures { (o : Opening) → MayClean o recycler.old self.old pool.old → WasCleaned o recycler.old recycler.new self.old self.new pool.old pool.new result }
    {
        let Some(chore) = recycler.chore else {
            unreachable!()
        };
        let slot = self.slot_due(chore);
        if slot.is_none() && !self.server.unfinished() {
            recycler.chore = None;
            return Note::Swept { count: self.done };
        }
        let before = self.given_back();
        let turn = recycle_for(&mut self.server, pool, slot, &mut recycler.refusing);
        self.holder = self.cleaner();
        self.done += u64::from(self.given_back().saturating_sub(before));
        pool.stands();
        self.read += read_by(chore, turn);
        let note = self.clean_note(chore, turn);
        if !matches!(note, Note::Quiet) {
            recycler.chore = None;
        }
        note
    }

    // Who holds the server behind an access for the recycler: nobody but the recycler, while a recycling is under way.
    fn cleaner(&self) -> Option<u32>
        ensures { result ≡ holder_of self.now.server.task }
    {
        if self.server.under_way() {
            Some(0)
        } else {
            None
        }
    }

    // The slot whose root version is to be taken off next; none where a sweep has no binding left.
    fn slot_due(&self, chore: Chore) -> Option<u32>
        ensures { result ≡ slot_due chore self.now }
    {
        match chore {
            Chore::OfSlot(slot) => Some(slot),
            Chore::OfAll => self.server.slot_at(self.read),
        }
    }

    // How many buffers the books have as free or worn.
    fn given_back(&self) -> u32
        ensures { result ≡ given_back self.now.server }
    {
        let counts = self.server.counts();
        counts.free + counts.worn
    }

    // What the recycler's access comes to that was told so; a sweep ends behind the last of the bindings.
    fn clean_note(&self, chore: Chore, turn: ServerTurn) -> Note
        requires { IsOwnTurn turn }
        ensures { result ≡ clean_note chore self.now turn }
    {
        match turn {
            ServerTurn::Unreached => Note::Unreached,
            ServerTurn::Unlinked => self.unlinked_note(chore),
            ServerTurn::Recycled { old } => match chore {
                Chore::OfSlot(_) => Note::Recycled { old },
                Chore::OfAll => Note::Quiet,
            },
            _ => Note::Quiet,
        }
    }

    // What it comes to where it showed a root version unlinked.
    fn unlinked_note(&self, chore: Chore) -> Note
        ensures { result ≡ clean_note chore self.now TurnUnlinked }
    {
        match chore {
            Chore::OfSlot(_) => Note::Unlinked,
            Chore::OfAll => match self.slot_due(Chore::OfAll) {
                None => Note::Swept { count: self.done },
                Some(_) => Note::Quiet,
            },
        }
    }

    // Ends the client's call, and lets go of the server.
    fn end(&mut self, client: &mut ClientState)
        ensures side { self.new ≡ record self.old { holder = None } }
        ensures client { client.new ≡ record client.old { call = None; want = WantsNothing } }
    {
        self.holder = None;
        client.call = None;
        client.want = Want::Nothing;
    }

    // Hands the client what its call wants, and all bindings that it does not know, and lets go of the server. The call
    // starts anew.
    fn grant(&mut self, pool: &mut PlainPool, client: &mut ClientState, actor: u32) -> Note
        requires may { (o : Opening) × (i : ℕ) × (suc i ≡ actor) × MayGrant o i client.old self.old pool.old }
        ensures { (o : Opening) (i : ℕ) → suc i ≡ actor → MayGrant o i client.old self.old pool.old → WasGranted i client.old client.new self.old self.new pool.old pool.new result }
    {
        self.batch = take_for(&mut self.server, client.want);
        let names = self.server.names_since(client.node.known());
        pool.hand_over(actor, &self.batch, names);
        client.take(&self.batch, names);
        self.holder = None;
        Note::Granted {
            client: actor,
            names: names.len() as u32,
        }
    }
}
