// A step of a client's own: one access of its node, and the entry of the call where the access decides it. All memory is
// taken before the access.
ghost use Prim.Native.Nat.{suc};
ghost use Rattle.std.specs.Prelude.{◌≡◌, ◌<◌, ◌≤◌, ◌-◌, ◌^◌, ◌++◌, ◌∷◌, [], ℕ, true, false, Some, IfOk, OnErr};
ghost use Rattle.clover_map.specs.declared.call.Call.{Call as Asked};
ghost use Rattle.clover_plain.specs.Plain.{HasRoom, Kept, history, view_at};
ghost use Rattle.clover_event.specs.Stepping.{next_entry};
ghost use Rattle.clover_run.specs.Client.{IsOwnPhase, Phase, Stands, Went, call_at};
ghost use Rattle.clover_run.specs.Run.{Opening};
ghost use Rattle.clover_run.specs.Stepping.{Accesses, Enters, IsFound};

use crate::client::ClientState;
use crate::client::came::{Came, came_of};
use crate::event::Note;
use clover_list::OutOfMemory;
use clover_map::{Bytes, Entry, Reply, Value};
use clover_node::NodeTurn;
use clover_plain::PlainPool;
use clover_rule::Actor;
use std::alloc::Global;
use std::mem::replace;

impl ClientState {
    /// Makes the next access of the call under way, which wants nothing of the server, and answers what it came to.
    ///
    /// `OutOfMemory` for want of memory, and then nothing has changed.
    #[inline(always)]
    pub(crate) fn step(
        &mut self,
        alloc: Global,
        pool: &mut PlainPool,
        client: u32,
    ) -> Result<Note, OutOfMemory>
        requires stands { (o : Opening) × (i : ℕ) × (f : Phase) × (suc i ≡ client) × IsOwnPhase f × Stands o pool.old i self.old f }
        ensures went { IfOk result (λ note. (o : Opening) (i : ℕ) (f : Phase) → suc i ≡ client → IsOwnPhase f → Stands o pool.old i self.old f → Went o i f self.old self.new pool.old pool.new note) }
        ensures same { OnErr result ((self.new ≡ self.old) × Kept pool.old pool.new) }
    {
        if pool.made() == u64::MAX || self.number == u64::MAX {
            return Err(OutOfMemory);
        }
        pool.reserve()?;
        let entered = self.found(alloc)?;
        let noted = self.found(alloc)?;
        Ok(self.go_on(pool, client, entered, noted))
    }

    // The value in the room, where the next access may find it.
    #[inline(always)]
    fn found(&self, alloc: Global) -> Result<Option<Value>, OutOfMemory>
        ensures { IfOk result (IsFound self.now) }
    {
        let Some(flags) = self.node.copied() else {
            return Ok(None);
        };
        match Bytes::of(alloc, self.room.value()) {
            Ok(bytes) => Ok(Some(Value { flags, bytes })),
            Err(_) => Err(OutOfMemory),
        }
    }

    // Makes the next access of the node, or has it refused.
    #[inline(always)]
    fn access(&mut self, pool: &mut PlainPool, client: u32) -> NodeTurn
        requires stands { (o : Opening) × (i : ℕ) × (f : Phase) × (suc i ≡ client) × IsOwnPhase f × Stands o pool.old i self.old f }
        requires room { HasRoom pool.old }
        ensures { (o : Opening) (i : ℕ) (f : Phase) → suc i ≡ client → IsOwnPhase f → Stands o pool.old i self.old f → Accesses i self.old self.new pool.old pool.new result }
    {
        let refuse = replace(&mut self.refusing, false);
        self.reach(pool, client, refuse)
    }

    // Makes the next access of the node through its client's port, which refuses it where that is asked for.
    #[inline(always)]
    fn reach(&mut self, pool: &mut PlainPool, client: u32, refuse: bool) -> NodeTurn
        ghost call: { Asked }
        requires call { (i : ℕ) → suc i ≡ client → call ≡ call_at self.old (view_at pool.old i) }
        requires stands { (o : Opening) × (i : ℕ) × (f : Phase) × (suc i ≡ client) × IsOwnPhase f × Stands o pool.old i self.old f }
        requires room { HasRoom pool.old }
        requires asked { self.old.refusing ≡ false }
        ensures { (o : Opening) (i : ℕ) (f : Phase) → suc i ≡ client → IsOwnPhase f → Stands o pool.old i self.old f → Accesses i (record self.old { refusing = refuse }) self.new pool.old pool.new result }
    {
        let mut port = pool.port(Actor::Client(client), refuse);
        self.node.step(&mut port, &mut self.room)
    }

    // Enters the call with this reply, unless it has been entered.
    #[inline(always)]
    fn enter(&mut self, pool: &mut PlainPool, client: u32, reply: Reply)
        requires number { self.old.number < 2 ^ 64 - 1 }
        requires opened { pool.old.opened ≡ true }
        requires room { 1 ≤ pool.old.entry_room }
        requires entry { (call : Asked) → self.old.call ≡ Some call → history pool.old ≡ pool.old.entries ++ next_entry client self.old.number call reply ∷ [] }
        ensures { Enters self.old.call self.old client reply self.new pool.old pool.new }
    {
        if let Some(call) = self.call.take() {
            self.number += 1;
            pool.enter(Entry {
                client,
                number: self.number,
                call,
                reply,
            });
        }
    }

    // Lets the call go that ended without an answer. A function of its own, so that only such an end pays for the room
    // of a call.
    fn drop_call(&mut self)
        ensures { self.new ≡ record self.old { call = None } }
    {
        self.call = None;
    }

    // Makes the next access of the call under way, with what it may find once for the entry and once for the note.
    #[inline(always)]
    fn go_on(
        &mut self,
        pool: &mut PlainPool,
        client: u32,
        entered: Option<Value>,
        noted: Option<Value>,
    ) -> Note
        requires stands { (o : Opening) × (i : ℕ) × (f : Phase) × (suc i ≡ client) × IsOwnPhase f × Stands o pool.old i self.old f }
        requires room { HasRoom pool.old }
        requires counts { (pool.old.made < 2 ^ 64 - 1) × (self.old.number < 2 ^ 64 - 1) }
        requires values { IsFound self.old entered × IsFound self.old noted }
        ensures { (o : Opening) (i : ℕ) (f : Phase) → suc i ≡ client → IsOwnPhase f → Stands o pool.old i self.old f → Went o i f self.old self.new pool.old pool.new result }
    {
        let turn = self.access(pool, client);
        match came_of(turn, entered, noted) {
            Came::More => Note::Quiet,
            Came::Decided(reply) => {
                self.enter(pool, client, reply);
                Note::Quiet
            }
            Came::Done(reply, noted) => {
                self.enter(pool, client, reply);
                Note::Answered {
                    client,
                    reply: noted,
                }
            }
            Came::Wants(want) => {
                self.want = want;
                Note::Quiet
            }
            Came::Refused(refusal) => {
                self.drop_call();
                Note::Refused { client, refusal }
            }
        }
    }
}
