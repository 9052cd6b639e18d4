// The metadata server: its books, its directory, its unfinished task, and the sweep of a want.
ghost use Rattle.std.specs.Prelude.{◌≡◌, ◌≤◌, ◌<◌, ◌+◌, ◌↔◌, ℕ, false, [], drop, length, IsTrue, IsSome, Option, None};
ghost use Rattle.clover_words.specs.declared.pool.Pool.{Pool as PoolShape};
ghost use Rattle.clover_rule.specs.declared.view.View.{View};
ghost use Rattle.clover_alloc.specs.Batch.{tags_of};
ghost use Rattle.clover_alloc.specs.Ledger.{count_of, total_of};
ghost use Rattle.clover_alloc.specs.Lines.{number_of, sum_of};
ghost use Rattle.clover_alloc.specs.Taking.{Takes, AreNew};
ghost use Rattle.clover_alloc.specs.declared.line.Place.{Place};
ghost use Rattle.clover_dir.specs.Bindings.{pairs_of};
ghost use Rattle.clover_dir.specs.Directory.{IsBound, root_of};
ghost use Rattle.clover_server.specs.Steps.{own_turn};

mod task;
mod want;

use crate::due::Room;
use crate::turn::ServerTurn;
use crate::work::Unfinished;
use clover_alloc::{Batch, Books, Counts};
use clover_dir::{Binding, Directory};
use clover_map::Key;
use clover_port::Port;
use clover_recycle::Sweep;
use clover_words::Setup;
use std::marker::Model;

/// The metadata server. It keeps the books and the directory, and finishes what it began.
///
/// A *want* is of stock or of a key's binding. It begins at the first call of `stock_step` or `bind_step` after the
/// server was made, after one of them answered `Ready`, `Full`, `NoSlot` or `Unreached`, or after `end_want`. Where no
/// buffer is free, a want sweeps over the bound slots from the first one on and recycles the versions that no longer
/// serve; the reads of a task that it did not begin are no reads of its sweep.
///
/// A binding or a recycling whose access was refused stays unfinished in the server, and each later step call makes its
/// next access first.
///
/// A step call that is repeated while it answers `More` comes to an end, since each access lowers what is left to do.
/// One whose access was the last of a binding or a recycling tells what that is of the words that it left: that the
/// slot's key words, its root and its tombstone are flushed, or that the old version's buffer is flushed at its next
/// generation, unlinked, and stands on no chain of any image.
#[derive(Drop)]
pub struct Server {
    setup: Setup,
    books: Books,
    directory: Directory,
    task: Option<Unfinished>,
    // The sweep of the want under way, where it has begun.
    sweep: Option<Sweep>,
}

impl Model for Server {
    ghost use Rattle.clover_server.specs.Server.{ServerState};

    ghost Value = { ServerState };

    ghost view = { λ s. record { setup = s.setup; books = s.books; directory = s.directory; task = s.task; sweep = s.sweep } };
}

impl Server {
    ghost use Rattle.clover_server.specs.Server.{new_server};
    ghost use Rattle.clover_server.specs.Holding.{Agrees};
    ghost use Rattle.clover_server.specs.Looking.{IsSlotOf, IsLowestFree, free_in, given_back, slot_at, is_under_way};
    ghost use Rattle.clover_server.specs.Steps.{WantStep, RecycleStep, FinishStep, ended, stock_due, named_due, recycle_due, Finishes};
    ghost use Rattle.clover_server.specs.Left.{work_left, sweep_left, OnMore, Lessens};
    ghost use Rattle.clover_server.specs.Told.{IsFull, IfFull, IfReached, IfUnreached, IsWantTurn, IsOwnTurn, EndsTask};

    /// The server of a pool, with these books and this directory. It takes no memory.
    pub fn make(setup: Setup, books: Books, directory: Directory) -> Server
        ensures { result ≡ new_server setup books directory }
    {
        Server {
            setup,
            books,
            directory,
            task: None,
            sweep: None,
        }
    }

    /// Makes a step towards a free buffer: at most one access.
    ///
    /// An unfinished task makes its next access first. `Ready`, where a buffer is free and no sweep of this want is
    /// under way; no access is made then. Where none is free, a sweep begins, and is under way until as many buffers as
    /// a batch are free or it has read each bound slot's root version unlinked. `Full` exactly where no buffer is free
    /// then. `Unreached` only where the access was refused.
    pub fn stock_step<P: Port>(&mut self, port: &mut P) -> ServerTurn
        requires { Agrees (P.pool port.old) [] self.old (P.view port.old) }
        ensures step { WantStep (stock_due self.old) self.old self.new result (λ a x. P.made port.old a false x port.new) (P.failed port.old port.new) (port.new ≡ port.old) }
        ensures full { IfFull result (λ bound worn out. IsFull self.new (P.view port.new) bound worn out) }
        ensures ends { IfReached result (EndsTask (P.pool port.old) self.old.task (length self.new.directory.list) (P.view port.old) (P.told port.old) (P.view port.new) (P.told port.new)) }
        ensures lowers { OnMore result (work_left self.new < work_left self.old) }
        ensures refused { IfUnreached result (P.failed port.old port.new) }
        ensures answers { IsWantTurn result }
        ensures agrees { Agrees (P.pool port.new) [] self.new (P.view port.new) }
    {
        if self.task.is_some() {
            return self.finish_for_want(port);
        }
        match self.room(self.setup.batch) {
            Room::Swept { slot } => self.sweep_slot(slot, port),
            Room::Full => self.answer_full(),
            Room::Free => self.answer(ServerTurn::Ready),
        }
    }

    /// Makes a step towards the key's binding: at most one access.
    ///
    /// An unfinished task makes its next access first. `Ready` exactly where the key is bound then, and `NoSlot` exactly
    /// where every slot is bound and the key is not; no access is made in either case. Where no buffer is free, it
    /// sweeps until one is; `Full` is as at `stock_step`. `Unreached` only where the access was refused.
    pub fn bind_step<P: Port>(&mut self, port: &mut P, key: &Key) -> ServerTurn
        requires { Agrees (P.pool port.old) [] self.old (P.view port.old) }
        ensures finishes { IsSome self.old.task → WantStep Finishes self.old self.new result (λ a x. P.made port.old a false x port.new) (P.failed port.old port.new) (port.new ≡ port.old) }
        ensures step { self.old.task ≡ None → (found free : Option ℕ) × IsSlotOf key.now self.old.directory found × IsLowestFree self.old.directory free × WantStep (named_due self.old key.now found free) self.old self.new result (λ a x. P.made port.old a false x port.new) (P.failed port.old port.new) (port.new ≡ port.old) }
        ensures full { IfFull result (λ bound worn out. IsFull self.new (P.view port.new) bound worn out) }
        ensures ends { IfReached result (EndsTask (P.pool port.old) self.old.task (length self.new.directory.list) (P.view port.old) (P.told port.old) (P.view port.new) (P.told port.new)) }
        ensures lowers { OnMore result (work_left self.new < work_left self.old) }
        ensures refused { IfUnreached result (P.failed port.old port.new) }
        ensures answers { IsWantTurn result }
        ensures agrees { Agrees (P.pool port.new) [] self.new (P.view port.new) }
    {
        if self.task.is_some() {
            return self.finish_for_want(port);
        }
        let found = self.directory.find(key);
        let free = self.directory.free_slot();
        self.bind_key(key, found, free, port)
    }

    /// Makes a step of the recycling of a bound slot's root version: one access.
    ///
    /// An unfinished task makes its next access first; of one that a refused access left, the answer tells nothing but
    /// `More`. `Unlinked` exactly where the access was this recycling's load and showed the root version unlinked, and
    /// `Recycled` exactly where it was its last one. `Unreached` only where the access was refused.
    pub fn recycle_step<P: Port>(&mut self, port: &mut P, slot: u32) -> ServerTurn
        requires bound { IsBound slot self.old.directory }
        requires agrees { Agrees (P.pool port.old) [] self.old (P.view port.old) }
        ensures step { RecycleStep (recycle_due self.old slot) self.old self.new result (λ a x. P.made port.old a false x port.new) (P.failed port.old port.new) }
        ensures ends { IfReached result (EndsTask (P.pool port.old) self.old.task (length self.new.directory.list) (P.view port.old) (P.told port.old) (P.view port.new) (P.told port.new)) }
        ensures lowers { OnMore result (work_left self.new < work_left self.old) }
        ensures lessens { Lessens result (sweep_left self.old) (sweep_left self.new) }
        ensures gives { given_back self.new ≤ given_back self.old + 1 }
        ensures refused { IfUnreached result (P.failed port.old port.new) }
        ensures answers { IsOwnTurn result }
        ensures agrees { Agrees (P.pool port.new) [] self.new (P.view port.new) }
    {
        match &self.task {
            Some(unfinished) => {
                let left = unfinished.left;
                tell(left, self.go_on(port))
            }
            None => {
                self.begin_recycling(slot);
                self.go_on(port)
            }
        }
    }

    /// Makes the next access of the unfinished task, and begins nothing: `More`, or `Unreached` only where the access
    /// was refused.
    pub fn finish_step<P: Port>(&mut self, port: &mut P) -> ServerTurn
        requires task { IsSome self.old.task }
        requires agrees { Agrees (P.pool port.old) [] self.old (P.view port.old) }
        ensures step { FinishStep self.old self.new result (λ a x. P.made port.old a false x port.new) (P.failed port.old port.new) }
        ensures ends { IfReached result (EndsTask (P.pool port.old) self.old.task (length self.new.directory.list) (P.view port.old) (P.told port.old) (P.view port.new) (P.told port.new)) }
        ensures lowers { OnMore result (work_left self.new < work_left self.old) }
        ensures lessens { Lessens result (sweep_left self.old) (sweep_left self.new) }
        ensures gives { given_back self.new ≤ given_back self.old + 1 }
        ensures refused { IfUnreached result (P.failed port.old port.new) }
        ensures answers { IsOwnTurn result }
        ensures agrees { Agrees (P.pool port.new) [] self.new (P.view port.new) }
    {
        tell(true, self.go_on(port))
    }

    /// Ends the want under way, if there is one, as an answer to it does.
    pub fn end_want(&mut self)
        ensures value { self.new ≡ ended self.old }
        ensures agrees { (p : PoolShape) (v : View) → Agrees p [] self.old v → Agrees p [] self.new v }
    {
        self.sweep = None;
    }

    /// Takes a batch of the setup's size from the books, or all free buffers where there are fewer. A buffer is free.
    /// Until the batch is handed over, the books are ahead of the server's view by its tags.
    pub fn grant(&mut self) -> Batch
        requires { 0 < free_in self.old }
        ensures taken { Takes self.old.books self.old.setup.batch (tags_of result) self.new.books }
        ensures new { AreNew self.old.books (tags_of result) self.new.books }
        ensures rest { self.new ≡ record self.old { books = self.new.books } }
        ensures ahead { (p : PoolShape) (v : View) → Agrees p [] self.old v → Agrees p (tags_of result) self.new v }
    {
        self.books.take(self.setup.batch)
    }

    /// Whether a binding or a recycling is unfinished.
    pub fn unfinished(&self) -> bool
        ensures { IsTrue result ↔ IsSome self.now.task }
    {
        self.task.is_some()
    }

    /// Whether a task is unfinished that no refused access has left to a later call.
    pub fn under_way(&self) -> bool
        ensures { result ≡ is_under_way self.now.task }
    {
        match &self.task {
            Some(unfinished) => !unfinished.left,
            None => false,
        }
    }

    /// Whether a slot is bound.
    pub fn is_bound(&self, slot: u32) -> bool
        ensures bound { IsTrue result ↔ IsBound slot self.now.directory }
        ensures root { IsTrue result ↔ IsSome (root_of self.now.directory slot) }
    {
        self.directory.root(slot).is_some()
    }

    /// The slot of the binding at a position; none where there are no more bindings than that.
    pub fn slot_at(&self, position: u32) -> Option<u32>
        ensures { result ≡ slot_at self.now position }
    {
        match self.directory.list().get(position as usize) {
            Some(binding) => Some(binding.slot),
            None => None,
        }
    }

    /// How many buffers the books have in each place.
    pub fn counts(&self) -> Counts
        ensures each { (p : Place) → number_of p result ≡ count_of p self.now.books }
        ensures adds_up { sum_of result ≡ total_of self.now.books }
    {
        self.books.counts()
    }

    /// The bindings from a position on, which is at most their number.
    pub fn names_since(&self, known: u32) -> &[Binding]
        requires { known ≤ length self.now.directory.list }
        ensures { pairs_of result.now ≡ drop known self.now.directory.list }
    {
        &self.directory.list()[known as usize..]
    }
}

// What an access tells: of a task that was left, nothing of how it ended.
fn tell(left: bool, turn: ServerTurn) -> ServerTurn
    ensures { result ≡ own_turn left turn }
{
    match turn {
        ServerTurn::Unreached => ServerTurn::Unreached,
        _ if left => ServerTurn::More,
        _ => turn,
    }
}
