// How a node starts a call: on the slot of its key, or by the load of the count.
ghost use Rattle.std.specs.Prelude.{◌≡◌, ◌≢◌, ℕ, List, [], IfErr, OnOk};
ghost use Rattle.clover_words.specs.declared.bytes.ValueBuf.{ValueBuf as Room};
ghost use Rattle.clover_map.specs.declared.bytes.Value.{Value as Stored};
ghost use Rattle.clover_map.specs.declared.call.Call.{Call as Asked};
ghost use Rattle.clover_map.specs.declared.call.Call.TheVariants.{Get as GetOf};
ghost use Rattle.clover_rule.specs.declared.view.View.{View};
ghost use Rattle.clover_put.specs.Putting.{call_of};
ghost use Rattle.clover_put.specs.declared.job.Job.TheVariants.{Put as IsPutJob, Delete as IsDelete};
ghost use Rattle.clover_call.specs.Beginning.{ExpectsTag};
ghost use Rattle.clover_node.specs.Beginning.{NodeStarts, Refuses, counts_for};
ghost use Rattle.clover_node.specs.Node.{NodeHolds, IsIdle};
ghost use Rattle.clover_node.specs.declared.answer.NodeRefusal.TheVariants.{NeedsStock as IsNeedsStock};

use super::Node;
use crate::answer::NodeRefusal;
use crate::counting::Counting;
use clover_map::{Call, Key};
use clover_put::Job;
use clover_words::Tag;

impl Node {
    /// Starts a call. It makes no access, copies no key and takes no memory.
    ///
    /// A call whose key is in the copy of the bindings goes on from the cursor that the node has for the key's slot,
    /// with the first tag of the stock for its version. Any other call loads the count of bindings first. `TooLong`,
    /// exactly where the value has more bytes than a buffer has room for. `NeedsStock`, exactly where else the stock
    /// is empty and the call is a put, or a delete or a swap of a key in the copy. The node is as it was then.
    pub fn start(&mut self, call: &Call) -> Result<(), NodeRefusal>
        requires idle { IsIdle self.old }
        requires expects { ExpectsTag call.now }
        requires holds { (v : View) × (room : Room) × NodeHolds self.old call.now v room }
        ensures started { OnOk result (NodeStarts self.old call.now self.new) }
        ensures refused { IfErr result (λ refusal. Refuses self.old call.now refusal × (self.new ≡ self.old)) }
    {
        match call {
            Call::Get { key } => {
                self.start_get(key);
                Ok(())
            }
            Call::Put { key, value } => {
                self.start_write(key, Job::Put, value.flags, value.bytes.items())
            }
            Call::Delete { key } => self.start_write(key, Job::Delete, 0, &[]),
            Call::Swap {
                key,
                expected,
                value,
            } => {
                let Some(expected) = Tag::of_number(*expected) else {
                    unreachable!()
                };
                self.start_write(key, Job::Swap(expected), value.flags, value.bytes.items())
            }
        }
    }

    /// Starts a get.
    pub(super) fn start_get(&mut self, key: &Key)
        requires idle { IsIdle self.old }
        requires holds { (call : Asked) × (v : View) × (room : Room) × NodeHolds self.old call v room }
        ensures { NodeStarts self.old (GetOf key.now) self.new }
    {
        match self.names.find(key) {
            Some(slot) => self.caller.start_get(slot),
            None => self.counting = Counting::Absence,
        }
    }

    /// Starts a call that writes as its job says, with these flags and bytes; a delete has none.
    pub(super) fn start_write(
        &mut self,
        key: &Key,
        job: Job,
        flags: u32,
        bytes: &[u8],
    ) -> Result<(), NodeRefusal>
        requires idle { IsIdle self.old }
        requires delete { job ≡ IsDelete → (flags ≡ 0) × (bytes.now ≡ []) }
        requires holds { (call : Asked) × (v : View) × (room : Room) × NodeHolds self.old call v room }
        ensures started { OnOk result (NodeStarts self.old (call_of job key.now (record { flags = flags; bytes = bytes.now })) self.new) }
        ensures refused { IfErr result (λ refusal. Refuses self.old (call_of job key.now (record { flags = flags; bytes = bytes.now })) refusal × (self.new ≡ self.old)) }
    {
        let length = bytes.len();
        let room = self.caller.room();
        if length > room {
            return Err(NodeRefusal::TooLong { length, room });
        }
        let Some(slot) = self.names.find(key) else {
            return self.start_count(job);
        };
        let Some(own) = self.stock.first() else {
            return Err(NodeRefusal::NeedsStock);
        };
        self.caller.start_write(slot, own, job, flags, bytes);
        Ok(())
    }

    // Starts the load of the count by a call that writes, whose key the node does not know. Only a put needs a buffer
    // before it has the key's name.
    fn start_count(&mut self, job: Job) -> Result<(), NodeRefusal>
        ensures started { OnOk result ((key : List ℕ) (value : Stored) → (self.new ≡ record self.old { counting = counts_for (call_of job key value) }) × (job ≡ IsPutJob → self.old.stock ≢ [])) }
        ensures refused { IfErr result (λ refusal. (refusal ≡ IsNeedsStock) × (self.new ≡ self.old) × (job ≡ IsPutJob) × (self.old.stock ≡ [])) }
    {
        match job {
            Job::Put if self.stock.is_empty() => Err(NodeRefusal::NeedsStock),
            Job::Put => {
                self.counting = Counting::Names;
                Ok(())
            }
            Job::Delete | Job::Swap(_) => {
                self.counting = Counting::Absence;
                Ok(())
            }
        }
    }
}
