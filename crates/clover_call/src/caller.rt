// The caller: it starts a call, and makes the call's accesses one at a time.
ghost use Rattle.std.specs.Prelude.{◌≡◌, ◌≢◌, ◌<◌, ◌≤◌, ◌*◌, ◌↔◌, ℕ, List, [], length, IsTrue, IsErr, IfOk, IfErr, OnOk};
ghost use Rattle.clover_words.specs.Tag.{tag_number};
ghost use Rattle.clover_map.specs.declared.call.Call.TheVariants.{Get as GetOf};
ghost use Rattle.clover_rule.specs.Content.{InRange};
ghost use Rattle.clover_cache.specs.Node.{asked, cursor_at};
ghost use Rattle.clover_walk.specs.Standing.{number_of};
ghost use Rattle.clover_walk.specs.Walking.{made_walk};
ghost use Rattle.clover_put.specs.Putting.{call_of};
ghost use Rattle.clover_put.specs.declared.job.Job.TheVariants.{Delete as IsDelete};
ghost use Rattle.clover_rule.specs.declared.view.View.{View};
ghost use Rattle.clover_call.specs.Beginning.{Starts, HasTag, ExpectsTag, size_of, given_number};
ghost use Rattle.clover_call.specs.Going.{GoesOn, IsDue, Stays, Went};
ghost use Rattle.clover_call.specs.Caller.{CallerHolds, AreCursors, copied_flags, next_step, is_first, first_caller};
ghost use Rattle.clover_call.specs.Turning.{OnMade, OnRefused, left_by};
ghost use Rattle.clover_call.specs.declared.answer.CallerRefusal.TheVariants.{TooLong as IsTooLong};
ghost use Rattle.clover_call.specs.declared.under.Underway.TheVariants.{Nothing as IsNothing, Get as IsGet, Write as IsWrite};

mod access;
mod start;
#[cfg(test)]
mod tests;

use crate::answer::{CallerRefusal, CallerTurn};
use crate::under::{Kind, Underway};
use clover_cache::NodeCursors;
use clover_get::GetCall;
use clover_list::OutOfMemory;
use clover_map::Call;
use clover_port::Port;
use clover_put::{Job, PutCall};
use clover_walk::Walk;
use clover_words::{Pool, Tag, ValueBuf};
use std::alloc::Global;
use std::marker::Model;

/// One client's calls over any port, with at most one call under way.
#[derive(Drop)]
pub struct Caller {
    pool: Pool,
    cursors: NodeCursors,
    // Which call is under way, and where each kind of call stands: a call stays in its place from its start to its end,
    // since one that writes is large.
    kind: Kind,
    get: Option<GetCall>,
    write: Option<PutCall>,
}

impl Model for Caller {
    ghost use Rattle.clover_call.specs.Caller.{CallerState};
    ghost use Rattle.clover_call.specs.Kept.{meaning, IsThere};

    ghost Value = { CallerState };

    ghost view = { meaning };

    ghost invariant = { λ n. IsThere n.kind n.get n.write };
}

impl Caller {
    /// A caller of this pool with nothing under way and no cursor. `OutOfMemory` for want of memory.
    pub fn make(alloc: Global, pool: Pool) -> Result<Caller, OutOfMemory>
        ensures { IfOk result (λ caller. caller ≡ first_caller pool) }
    {
        Ok(Caller {
            pool,
            cursors: NodeCursors::make(alloc)?,
            kind: Kind::Nothing,
            get: None,
            write: None,
        })
    }

    /// Whether a call is under way.
    pub fn is_busy(&self) -> bool
        ensures { IsTrue result ↔ (self.now.under ≢ IsNothing) }
    {
        !matches!(self.kind, Kind::Nothing)
    }

    /// Starts a call on the slot of its key, with the tag of the buffer that a call that writes may commit: the next
    /// one of the client's stock. It makes no access, copies no key and takes no memory.
    ///
    /// The call goes on from the cursor that the caller has for the slot. `TooLong`, exactly where the value has more
    /// bytes than a buffer has room for; the caller is as it was then.
    pub fn start(&mut self, slot: u32, own: Option<Tag>, call: &Call) -> Result<(), CallerRefusal>
        requires idle { self.old.under ≡ IsNothing }
        requires slot { slot < self.old.pool.slots }
        requires cursors { (v : View) × AreCursors self.old.pool v self.old.cursors }
        requires own { HasTag self.old.pool own call.now }
        requires expects { ExpectsTag call.now }
        ensures started { OnOk result (Starts self.old slot (given_number own) call.now self.new) }
        ensures refused { IfErr result (λ refusal. (refusal ≡ IsTooLong (size_of call.now) (8 * self.old.pool.words)) × (self.new ≡ self.old)) }
        ensures when { IsErr result ↔ (8 * self.old.pool.words < size_of call.now) }
    {
        let length = start::length_of(call);
        let room = self.room();
        if length > room {
            return Err(CallerRefusal::TooLong { length, room });
        }
        let walk = self.walk(slot);
        self.place(start::call_on(walk, own, call));
        Ok(())
    }

    // Has this under way.
    fn place(&mut self, under: Underway)
        ensures { self.new ≡ record self.old { under = under } }
    {
        match under {
            Underway::Nothing => self.kind = Kind::Nothing,
            Underway::Get(call) => self.place_get(call),
            Underway::Write(call) => self.place_write(call),
        }
    }

    // Has this get under way.
    fn place_get(&mut self, call: GetCall)
        ensures { self.new ≡ record self.old { under = IsGet call } }
    {
        self.get = Some(call);
        self.kind = Kind::Get;
    }

    // Has this call that writes under way.
    fn place_write(&mut self, call: PutCall)
        ensures { self.new ≡ record self.old { under = IsWrite call } }
    {
        self.write = Some(call);
        self.kind = Kind::Write;
    }

    // The walk of a call that begins on the slot: from the cursor that the caller has for it.
    fn walk(&mut self, slot: u32) -> Walk
        requires slot { slot < self.old.pool.slots }
        requires cursors { (v : View) × AreCursors self.old.pool v self.old.cursors }
        ensures walk { result ≡ made_walk self.old.pool slot (number_of (cursor_at slot self.old.cursors)) }
        ensures asked { self.new ≡ record self.old { cursors = asked slot self.old.cursors } }
    {
        Walk::make(self.pool, slot, self.cursors.find(slot))
    }

    /// Starts a get of the key that the slot binds, as `start` does.
    pub fn start_get(&mut self, slot: u32)
        requires idle { self.old.under ≡ IsNothing }
        requires slot { slot < self.old.pool.slots }
        requires cursors { (v : View) × AreCursors self.old.pool v self.old.cursors }
        ensures { (key : List ℕ) → Starts self.old slot 0 (GetOf key) self.new }
    {
        let walk = self.walk(slot);
        self.place_get(GetCall::make(walk));
    }

    /// Starts a call that writes these flags and bytes, as `start` does. The bytes have room in a buffer; a delete has
    /// no flags and no bytes.
    pub fn start_write(&mut self, slot: u32, own: Tag, job: Job, flags: u32, bytes: &[u8])
        requires idle { self.old.under ≡ IsNothing }
        requires slot { slot < self.old.pool.slots }
        requires cursors { (v : View) × AreCursors self.old.pool v self.old.cursors }
        requires own { InRange self.old.pool (tag_number own) }
        requires room { length bytes.now ≤ 8 * self.old.pool.words }
        requires delete { job ≡ IsDelete → (flags ≡ 0) × (bytes.now ≡ []) }
        ensures { (key : List ℕ) → Starts self.old slot (tag_number own) (call_of job key (record { flags = flags; bytes = bytes.now })) self.new }
    {
        let walk = self.walk(slot);
        match PutCall::make(walk, job, own, flags, bytes) {
            Ok(call) => self.place_write(call),
            Err(_) => unreachable!(),
        }
    }

    /// How many bytes a value may have: eight for each value word of a buffer.
    pub fn room(&self) -> usize
        ensures { result ≡ 8 * self.now.pool.words }
    {
        8 * self.pool.words as usize
    }

    /// The flags of the value that stands in the room, where the next access is the last load for it. Only such an
    /// access may be answered with `Found`.
    pub fn copied(&self) -> Option<u32>
        ensures { result ≡ copied_flags self.now.under }
    {
        match (self.kind, &self.get) {
            (Kind::Get, Some(call)) => call.copied(),
            _ => None,
        }
    }

    /// Makes the next access of the call under way, and goes on by what it found.
    ///
    /// The port is of the caller's pool, and of the one client for which the caller makes all its calls; and the same
    /// room is passed to all steps of a call. `Decided`, once in a call that writes, exactly where this access was the
    /// exchange that linked its version. `Done`, where the call is over: a found value stands in the room then, and
    /// the slot's cursor is the tag at which the call ended. Else the room holds no promise to the caller. `Refused`,
    /// where the call is over without an answer: `Unreached` and `Linked` only where the access was refused, and
    /// `Behind` exactly where the turns of the call have reached the budget.
    pub fn step<P: Port>(&mut self, port: &mut P, into: &mut ValueBuf) -> CallerTurn
        requires busy { self.old.under ≢ IsNothing }
        requires pool { P.pool port.old ≡ self.old.pool }
        requires holds { CallerHolds self.old (P.view port.old) into.old }
        ensures made { OnMade result ((x : ℕ) × P.made port.old (next_step self.old.under (P.view port.old) into.old) (is_first self.old.under) x port.new × GoesOn self.old.under into.old x result self.new.under into.new × IsDue self.old.under into.old (next_step self.old.under (P.view port.old) into.old) x self.new.under into.new result × Stays self.old.under (P.view port.old) (next_step self.old.under (P.view port.old) into.old) x self.new.under (P.view port.new) result) }
        ensures went { Went self.old.pool self.old.under self.new.under self.old.cursors self.new.cursors into.new (P.view port.old) (P.told port.old) (P.view port.new) (P.told port.new) result }
        ensures refused { OnRefused result (P.failed port.old port.new × (into.new ≡ into.old)) }
        ensures pool { self.new.pool ≡ self.old.pool }
        ensures holds { CallerHolds self.new (P.view port.new) into.new }
    {
        let turn = self.access(port, into);
        if turn.is_over() {
            self.kind = Kind::Nothing;
        }
        turn
    }

    // Makes the next access of the call under way, which stays there even where it is over.
    fn access<P: Port>(&mut self, port: &mut P, into: &mut ValueBuf) -> CallerTurn
        requires busy { self.old.under ≢ IsNothing }
        requires pool { P.pool port.old ≡ self.old.pool }
        requires holds { CallerHolds self.old (P.view port.old) into.old }
        ensures made { OnMade result ((x : ℕ) × P.made port.old (next_step self.old.under (P.view port.old) into.old) (is_first self.old.under) x port.new × GoesOn self.old.under into.old x result (left_by result self.new.under) into.new × IsDue self.old.under into.old (next_step self.old.under (P.view port.old) into.old) x (left_by result self.new.under) into.new result) }
        ensures went { Went self.old.pool self.old.under (left_by result self.new.under) self.old.cursors self.new.cursors into.new (P.view port.old) (P.told port.old) (P.view port.new) (P.told port.new) result }
        ensures refused { OnRefused result (P.failed port.old port.new × (into.new ≡ into.old)) }
        ensures pool { self.new.pool ≡ self.old.pool }
    {
        match self.kind {
            Kind::Nothing => unreachable!(),
            Kind::Get => match &mut self.get {
                Some(call) => access::get(call, &mut self.cursors, port, into),
                None => unreachable!(),
            },
            Kind::Write => match &mut self.write {
                Some(call) => access::write(call, &mut self.cursors, port),
                None => unreachable!(),
            },
        }
    }
}
