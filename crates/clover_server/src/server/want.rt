// Wants: the sweep of one, and what it finds where a buffer must be free.
ghost use Rattle.std.specs.Prelude.{◌≡◌, ◌<◌, ◌+◌, ℕ, false, [], slice_get, length, IsSome, List, Some, None};
ghost use Rattle.clover_alloc.specs.Ledger.{count_of, total_of};
ghost use Rattle.clover_alloc.specs.declared.line.Place.TheVariants.{Worn, Bound, Out};
ghost use Rattle.clover_dir.specs.Holding.{MayEnter};
ghost use Rattle.clover_dir.specs.Names.{IsNew};

use super::Server;
use crate::due::Room;
use crate::turn::ServerTurn;
use crate::work::fits;
use clover_map::Key;
use clover_port::Port;
use clover_recycle::{RecycleTurn, Sweep};

impl Server {
    ghost use Rattle.clover_server.specs.Holding.{Agrees};
    ghost use Rattle.clover_server.specs.Looking.{IsSlotOf, IsLowestFree, room_of, position, free_in, slot_in};
    ghost use Rattle.clover_server.specs.Steps.{WantStep, named_due, unbound_due, sweeping, ended, swept_on, swept, swept_turn, full_turn, all_swept, by_room, Finishes, Sweeps, Binds};
    ghost use Rattle.clover_server.specs.Left.{work_left, OnMore};
    ghost use Rattle.clover_server.specs.Told.{IsFull, IfFull, IfReached, IfUnreached, IsWantTurn, EndsTask};

    // What a want for so many free buffers finds.
    pub(crate) fn room(&self, enough: u32) -> Room
        ensures { result ≡ room_of self.now enough }
    {
        let free = self.books.counts().free;
        let lacks = match self.sweep {
            Some(_) => free < enough,
            None => free == 0,
        };
        match self.swept_slot() {
            Some(slot) if lacks => Room::Swept { slot },
            _ if free == 0 => Room::Full,
            _ => Room::Free,
        }
    }

    // The slot that the sweep is at, or that it begins with. None where it has left all bindings behind.
    fn swept_slot(&self) -> Option<u32>
        ensures { result ≡ slot_in (slice_get self.now.directory.list (position self.now.sweep)) }
    {
        let bindings = self.directory.list();
        match self.sweep {
            Some(sweep) => sweep.slot(bindings),
            None => Sweep::make().slot(bindings),
        }
    }

    // Makes the next access of an unfinished task for a want.
    pub(crate) fn finish_for_want<P: Port>(&mut self, port: &mut P) -> ServerTurn
        requires task { IsSome self.old.task }
        requires agrees { Agrees (P.pool port.old) [] self.old (P.view port.old) }
        ensures step { WantStep Finishes self.old self.new result (λ a x. P.made port.old a false x port.new) (P.failed port.old port.new) (port.new ≡ port.old) }
        ensures not_full { IfFull result (λ bound worn out. ⊥) }
        ensures ends { IfReached result (EndsTask (P.pool port.old) self.old.task (length self.new.directory.list) (P.view port.old) (P.told port.old) (P.view port.new) (P.told port.new)) }
        ensures lowers { OnMore result (work_left self.new < work_left self.old) }
        ensures refused { IfUnreached result (P.failed port.old port.new) }
        ensures answers { IsWantTurn result }
        ensures agrees { Agrees (P.pool port.new) [] self.new (P.view port.new) }
    {
        match self.go_on(port) {
            ServerTurn::Unreached => self.answer(ServerTurn::Unreached),
            _ => ServerTurn::More,
        }
    }

    // Ends the want with this answer.
    pub(crate) fn answer(&mut self, turn: ServerTurn) -> ServerTurn
        ensures value { self.new ≡ ended self.old }
        ensures answer { result ≡ turn }
    {
        self.sweep = None;
        turn
    }

    // Ends the want: no buffer is free.
    pub(crate) fn answer_full(&mut self) -> ServerTurn
        ensures value { self.new ≡ ended self.old }
        ensures answer { result ≡ full_turn self.old }
        ensures adds_up { free_in self.old + count_of Bound self.old.books + count_of Worn self.old.books + count_of Out self.old.books ≡ total_of self.old.books }
    {
        let counts = self.books.counts();
        self.answer(ServerTurn::Full {
            bound: counts.bound,
            worn: counts.worn,
            out: counts.out,
        })
    }

    // Begins the recycling of the slot that the sweep is at, and makes its load.
    pub(crate) fn sweep_slot<P: Port>(&mut self, slot: u32, port: &mut P) -> ServerTurn
        requires idle { self.old.task ≡ None }
        requires at { (key : List ℕ) × (slice_get self.old.directory.list (position self.old.sweep) ≡ Some (slot, key)) }
        requires agrees { Agrees (P.pool port.old) [] self.old (P.view port.old) }
        ensures step { WantStep (Sweeps slot) self.old self.new result (λ a x. P.made port.old a false x port.new) (P.failed port.old port.new) (port.new ≡ port.old) }
        ensures full { IfFull result (λ bound worn out. IsFull self.new (P.view port.new) bound worn out) }
        ensures lowers { OnMore result (work_left self.new < work_left self.old) }
        ensures refused { IfUnreached result (P.failed port.old port.new) }
        ensures answers { IsWantTurn result }
        ensures agrees { Agrees (P.pool port.new) [] self.new (P.view port.new) }
    {
        self.begin_recycling(slot);
        self.begin_sweep();
        match self.go_on(port) {
            ServerTurn::Unlinked => self.read_unlinked(),
            ServerTurn::Unreached => self.answer(ServerTurn::Unreached),
            _ => ServerTurn::More,
        }
    }

    // The sweep leaves the slot whose root version it has read unlinked.
    fn read_unlinked(&mut self) -> ServerTurn
        requires sweep { IsSome self.old.sweep }
        requires at { (q : ℕ × List ℕ) × (slice_get self.old.directory.list (position self.old.sweep) ≡ Some q) }
        ensures lowers { OnMore result (work_left self.new < work_left self.old) }
        ensures answers { IsWantTurn result }
        ensures reached { IfUnreached result ⊥ }
        ensures value { self.new ≡ swept self.old ServerTurn.Unlinked }
        ensures answer { result ≡ swept_turn self.old ServerTurn.Unlinked }
        ensures adds_up { IfFull result (λ bound worn out. bound + worn + out ≡ total_of self.new.books) }
    {
        self.pass_on();
        if self.all_swept() {
            self.answer_full()
        } else {
            ServerTurn::More
        }
    }

    // The sweep of a want is under way.
    fn begin_sweep(&mut self)
        ensures { self.new ≡ sweeping self.old }
    {
        if self.sweep.is_none() {
            self.sweep = Some(Sweep::make());
        }
    }

    // The sweep leaves a binding behind.
    fn pass_on(&mut self)
        requires sweep { IsSome self.old.sweep }
        requires at { (q : ℕ × List ℕ) × (slice_get self.old.directory.list (position self.old.sweep) ≡ Some q) }
        ensures value { self.new ≡ swept_on self.old }
        ensures lowers { work_left self.new + 1 ≡ work_left self.old }
    {
        fits(&self.directory);
        if let Some(sweep) = self.sweep.as_mut() {
            sweep.turn(&RecycleTurn::Unlinked);
        }
    }

    // The sweep has left all bindings behind, and no buffer is free.
    fn all_swept(&self) -> bool
        ensures { result ≡ all_swept self.now }
    {
        self.swept_slot().is_none() && self.books.counts().free == 0
    }

    // Makes a step towards the binding of a key that has this slot, where this is the lowest unbound one.
    pub(crate) fn bind_key<P: Port>(
        &mut self,
        key: &Key,
        found: Option<u32>,
        free: Option<u32>,
        port: &mut P,
    ) -> ServerTurn
        requires idle { self.old.task ≡ None }
        requires found { IsSlotOf key.now self.old.directory found }
        requires free { IsLowestFree self.old.directory free }
        requires agrees { Agrees (P.pool port.old) [] self.old (P.view port.old) }
        ensures step { WantStep (named_due self.old key.now found free) self.old self.new result (λ a x. P.made port.old a false x port.new) (P.failed port.old port.new) (port.new ≡ port.old) }
        ensures full { IfFull result (λ bound worn out. IsFull self.new (P.view port.new) bound worn out) }
        ensures lowers { OnMore result (work_left self.new < work_left self.old) }
        ensures refused { IfUnreached result (P.failed port.old port.new) }
        ensures answers { IsWantTurn result }
        ensures agrees { Agrees (P.pool port.new) [] self.new (P.view port.new) }
    {
        match found {
            Some(_) => self.answer(ServerTurn::Ready),
            None => self.bind_unbound(key, free, port),
        }
    }

    // Makes a step towards the binding of a key that is not bound.
    fn bind_unbound<P: Port>(&mut self, key: &Key, free: Option<u32>, port: &mut P) -> ServerTurn
        requires idle { self.old.task ≡ None }
        requires new { IsNew key.now self.old.directory.list }
        requires free { IsLowestFree self.old.directory free }
        requires agrees { Agrees (P.pool port.old) [] self.old (P.view port.old) }
        ensures step { WantStep (unbound_due self.old key.now free) self.old self.new result (λ a x. P.made port.old a false x port.new) (P.failed port.old port.new) (port.new ≡ port.old) }
        ensures full { IfFull result (λ bound worn out. IsFull self.new (P.view port.new) bound worn out) }
        ensures lowers { OnMore result (work_left self.new < work_left self.old) }
        ensures refused { IfUnreached result (P.failed port.old port.new) }
        ensures answers { IsWantTurn result }
        ensures agrees { Agrees (P.pool port.new) [] self.new (P.view port.new) }
    {
        match free {
            None => self.answer(ServerTurn::NoSlot),
            Some(slot) => self.bind_slot(slot, key, port),
        }
    }

    // Binds the key to the slot where a buffer is free, and sweeps until one is.
    fn bind_slot<P: Port>(&mut self, slot: u32, key: &Key, port: &mut P) -> ServerTurn
        requires idle { self.old.task ≡ None }
        requires may { MayEnter slot key.now self.old.directory }
        requires agrees { Agrees (P.pool port.old) [] self.old (P.view port.old) }
        ensures step { WantStep (by_room self.old (room_of self.old 1) (Binds slot key.now)) self.old self.new result (λ a x. P.made port.old a false x port.new) (P.failed port.old port.new) (port.new ≡ port.old) }
        ensures full { IfFull result (λ bound worn out. IsFull self.new (P.view port.new) bound worn out) }
        ensures lowers { OnMore result (work_left self.new < work_left self.old) }
        ensures refused { IfUnreached result (P.failed port.old port.new) }
        ensures answers { IsWantTurn result }
        ensures agrees { Agrees (P.pool port.new) [] self.new (P.view port.new) }
    {
        match self.room(1) {
            Room::Swept { slot } => self.sweep_slot(slot, port),
            Room::Full => self.answer_full(),
            Room::Free => {
                self.begin_binding(slot, key);
                self.finish_for_want(port)
            }
        }
    }
}
