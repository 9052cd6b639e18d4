// A call from its start to its end, at once.
ghost use Rattle.std.specs.Prelude.{◌≡◌, ℕ, [], true};
ghost use Rattle.clover_words.specs.Tag.{tag_number};
ghost use Rattle.clover_words.specs.declared.bytes.ValueBuf.{ValueBuf as Room};
ghost use Rattle.clover_map.specs.declared.call.Call.{Call};
ghost use Rattle.clover_map.specs.declared.call.Call.TheVariants.{Get as GetOf, Put as PutOf, Delete as DeleteOf, Swap as SwapOf};
ghost use Rattle.clover_port.specs.Told.{Rose};
ghost use Rattle.clover_put.specs.Putting.{call_of};
ghost use Rattle.clover_put.specs.declared.job.Job.TheVariants.{Delete as IsDelete};
ghost use Rattle.clover_node.specs.Node.{NodeHolds, IsIdle, node_first};
ghost use Rattle.clover_node.specs.Trying.{Finished, Tried, end_of};
ghost use Rattle.clover_node.specs.Turning.{OnRefused};

use super::Node;
use crate::answer::{NodeRefusal, NodeTurn};
use clover_call::Answer;
use clover_map::Key;
use clover_port::Port;
use clover_put::Job;
use clover_words::{Tag, ValueBuf};

impl Node {
    /// Gets the value under the key: starts the get, and makes its steps to the end. A found value stands in the room.
    ///
    /// It always returns: a call makes no more accesses than the budget of its turns allows.
    pub fn try_get<P: Port>(
        &mut self,
        port: &mut P,
        key: &Key,
        into: &mut ValueBuf,
    ) -> Result<Answer, NodeRefusal>
        requires idle { IsIdle self.old }
        requires pool { P.pool port.old ≡ self.old.caller.pool }
        requires holds { NodeHolds self.old (GetOf key.now) (P.view port.old) into.old }
        ensures finished { Finished (GetOf key.now) (P.view port.old) into.new self.new (P.view port.new) (P.told port.new) (end_of result) }
        ensures faults { OnRefused (end_of result) (Rose (P.faults port.old) (P.faults port.new)) }
        ensures port { (P.pool port.new ≡ P.pool port.old) × (P.table port.new ≡ P.table port.old) × (P.lender port.new ≡ P.lender port.old) }
        ensures pool { P.pool port.new ≡ self.new.caller.pool }
        ensures idle { IsIdle self.new }
        ensures holds { NodeHolds self.new (GetOf key.now) (P.view port.new) into.new }
    {
        self.get(port, key, into)
    }

    /// Has this value under the key, as `try_get` makes its call.
    pub fn try_put<P: Port>(
        &mut self,
        port: &mut P,
        key: &Key,
        flags: u32,
        bytes: &[u8],
    ) -> Result<Answer, NodeRefusal>
        requires idle { IsIdle self.old }
        requires pool { P.pool port.old ≡ self.old.caller.pool }
        requires holds { (room : Room) × NodeHolds self.old (PutOf key.now (record { flags = flags; bytes = bytes.now })) (P.view port.old) room }
        ensures tried { Tried self.old (PutOf key.now (record { flags = flags; bytes = bytes.now })) (P.view port.old) (P.told port.old) self.new (P.view port.new) (P.told port.new) (end_of result) }
        ensures faults { OnRefused (end_of result) (Rose (P.faults port.old) (P.faults port.new)) }
        ensures port { (P.pool port.new ≡ P.pool port.old) × (P.table port.new ≡ P.table port.old) × (P.lender port.new ≡ P.lender port.old) }
        ensures pool { P.pool port.new ≡ self.new.caller.pool }
        ensures idle { IsIdle self.new }
        ensures holds { (room : Room) → NodeHolds self.new (PutOf key.now (record { flags = flags; bytes = bytes.now })) (P.view port.new) room }
    {
        self.write(port, key, Job::Put, flags, bytes)
    }

    /// Has nothing under the key, as `try_get` makes its call.
    pub fn try_delete<P: Port>(&mut self, port: &mut P, key: &Key) -> Result<Answer, NodeRefusal>
        requires idle { IsIdle self.old }
        requires pool { P.pool port.old ≡ self.old.caller.pool }
        requires holds { (room : Room) × NodeHolds self.old (DeleteOf key.now) (P.view port.old) room }
        ensures tried { Tried self.old (DeleteOf key.now) (P.view port.old) (P.told port.old) self.new (P.view port.new) (P.told port.new) (end_of result) }
        ensures faults { OnRefused (end_of result) (Rose (P.faults port.old) (P.faults port.new)) }
        ensures port { (P.pool port.new ≡ P.pool port.old) × (P.table port.new ≡ P.table port.old) × (P.lender port.new ≡ P.lender port.old) }
        ensures pool { P.pool port.new ≡ self.new.caller.pool }
        ensures idle { IsIdle self.new }
        ensures holds { (room : Room) → NodeHolds self.new (DeleteOf key.now) (P.view port.new) room }
    {
        self.write(port, key, Job::Delete, 0, &[])
    }

    /// Has this value under the key in place of the one whose tag is expected, as `try_get` makes its call.
    pub fn try_swap<P: Port>(
        &mut self,
        port: &mut P,
        key: &Key,
        expected: Tag,
        flags: u32,
        bytes: &[u8],
    ) -> Result<Answer, NodeRefusal>
        requires idle { IsIdle self.old }
        requires pool { P.pool port.old ≡ self.old.caller.pool }
        requires holds { (room : Room) × NodeHolds self.old (SwapOf key.now (tag_number expected) (record { flags = flags; bytes = bytes.now })) (P.view port.old) room }
        ensures tried { Tried self.old (SwapOf key.now (tag_number expected) (record { flags = flags; bytes = bytes.now })) (P.view port.old) (P.told port.old) self.new (P.view port.new) (P.told port.new) (end_of result) }
        ensures faults { OnRefused (end_of result) (Rose (P.faults port.old) (P.faults port.new)) }
        ensures port { (P.pool port.new ≡ P.pool port.old) × (P.table port.new ≡ P.table port.old) × (P.lender port.new ≡ P.lender port.old) }
        ensures pool { P.pool port.new ≡ self.new.caller.pool }
        ensures idle { IsIdle self.new }
        ensures holds { (room : Room) → NodeHolds self.new (SwapOf key.now (tag_number expected) (record { flags = flags; bytes = bytes.now })) (P.view port.new) room }
    {
        self.write(port, key, Job::Swap(expected), flags, bytes)
    }

    // Gets the value under the key.
    fn get<P: Port>(
        &mut self,
        port: &mut P,
        key: &Key,
        into: &mut ValueBuf,
    ) -> Result<Answer, NodeRefusal>
        ghost call: { Call }
        requires call { call ≡ GetOf key.now }
        requires idle { IsIdle self.old }
        requires pool { P.pool port.old ≡ self.old.caller.pool }
        requires holds { NodeHolds self.old call (P.view port.old) into.old }
        ensures finished { Finished call (P.view port.old) into.new self.new (P.view port.new) (P.told port.new) (end_of result) }
        ensures faults { OnRefused (end_of result) (Rose (P.faults port.old) (P.faults port.new)) }
        ensures port { (P.pool port.new ≡ P.pool port.old) × (P.table port.new ≡ P.table port.old) × (P.lender port.new ≡ P.lender port.old) }
        ensures pool { P.pool port.new ≡ self.new.caller.pool }
        ensures idle { IsIdle self.new }
        ensures holds { NodeHolds self.new call (P.view port.new) into.new }
    {
        self.start_get(key);
        self.finish(port, into)
    }

    // Makes the call that writes as its job says.
    fn write<P: Port>(
        &mut self,
        port: &mut P,
        key: &Key,
        job: Job,
        flags: u32,
        bytes: &[u8],
    ) -> Result<Answer, NodeRefusal>
        ghost call: { Call }
        requires call { call ≡ call_of job key.now (record { flags = flags; bytes = bytes.now }) }
        requires delete { job ≡ IsDelete → (flags ≡ 0) × (bytes.now ≡ []) }
        requires idle { IsIdle self.old }
        requires pool { P.pool port.old ≡ self.old.caller.pool }
        requires holds { (room : Room) × NodeHolds self.old call (P.view port.old) room }
        ensures tried { Tried self.old call (P.view port.old) (P.told port.old) self.new (P.view port.new) (P.told port.new) (end_of result) }
        ensures faults { OnRefused (end_of result) (Rose (P.faults port.old) (P.faults port.new)) }
        ensures port { (P.pool port.new ≡ P.pool port.old) × (P.table port.new ≡ P.table port.old) × (P.lender port.new ≡ P.lender port.old) }
        ensures pool { P.pool port.new ≡ self.new.caller.pool }
        ensures idle { IsIdle self.new }
        ensures holds { (room : Room) → NodeHolds self.new call (P.view port.new) room }
    {
        match self.start_write(key, job, flags, bytes) {
            Ok(()) => {}
            Err(refusal) => return Err(refusal),
        }
        let mut room = ValueBuf::new();
        self.finish(port, &mut room)
    }

    // Makes the steps of a call that was just started, to its end.
    fn finish<P: Port>(&mut self, port: &mut P, into: &mut ValueBuf) -> Result<Answer, NodeRefusal>
        ghost call: { Call }
        requires busy { IsIdle self.old → ⊥ }
        requires first { node_first self.old ≡ true }
        requires pool { P.pool port.old ≡ self.old.caller.pool }
        requires holds { NodeHolds self.old call (P.view port.old) into.old }
        ensures finished { Finished call (P.view port.old) into.new self.new (P.view port.new) (P.told port.new) (end_of result) }
        ensures faults { OnRefused (end_of result) (Rose (P.faults port.old) (P.faults port.new)) }
        ensures port { (P.pool port.new ≡ P.pool port.old) × (P.table port.new ≡ P.table port.old) × (P.lender port.new ≡ P.lender port.old) }
        ensures pool { P.pool port.new ≡ self.new.caller.pool }
        ensures idle { IsIdle self.new }
        ensures holds { NodeHolds self.new call (P.view port.new) into.new }
    {
        'steps: loop {
            match self.step(port, into) {
                NodeTurn::More | NodeTurn::Decided(_) => {}
                NodeTurn::Done(answer) => return Ok(answer),
                NodeTurn::Refused(refusal) => return Err(refusal),
            }
        }
    }
}
