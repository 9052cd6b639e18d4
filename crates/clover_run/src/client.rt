// A client of the machine: its compute node, and what the run keeps of it beside that.
ghost use Prim.Native.Nat.{suc};
ghost use Rattle.std.specs.Prelude.{◌≡◌, ◌≤◌, ◌-◌, ◌++◌, ◌↔◌, ℕ, length, IsTrue, IfOk, Some};
ghost use Rattle.clover_map.specs.declared.call.Call.{Call as Asked};
ghost use Rattle.clover_alloc.specs.Batch.{tags_of};
ghost use Rattle.clover_dir.specs.Bindings.{pairs_of};
ghost use Rattle.clover_rule.specs.Names.{KeysOnce};
ghost use Rattle.clover_node.specs.Accepting.{MayTake};
ghost use Rattle.clover_plain.specs.Plain.{Plain};
ghost use Rattle.clover_event.specs.Client.{IsCallTask};
ghost use Rattle.clover_run.specs.Client.{HasTask, IsFirst, Rests, Stands, Begun, Started, StartsFrom, granted_to};
ghost use Rattle.clover_run.specs.Run.{Opening};

mod came;
mod step;

use crate::event::Note;
use crate::want::Want;
use clover_alloc::Batch;
use clover_dir::Binding;
use clover_event::CallRefusal;
use clover_list::OutOfMemory;
use clover_map::Call;
use clover_node::{Node, NodeRefusal};
use clover_plain::PlainPool;
use clover_words::{Setup, ValueBuf};
use std::alloc::Global;

/// A client: its compute node with the room for the value that a get finds, the call under way until its entry is
/// entered, what that wants of the server, whether its next access is refused, and how many entries the history has of
/// it.
#[derive(Drop)]
pub struct ClientState {
    pub node: Node,
    pub room: ValueBuf,
    pub call: Option<Call>,
    pub want: Want,
    pub refusing: bool,
    pub number: u64,
}

impl ClientState {
    /// A client of this number that has done nothing. `OutOfMemory` for want of memory.
    pub(crate) fn idle(alloc: Global, setup: Setup, client: u32) -> Result<ClientState, OutOfMemory>
        ensures { IfOk result (IsFirst setup client) }
    {
        Ok(ClientState {
            node: Node::make(alloc, setup, client)?,
            room: ValueBuf::new(),
            call: None,
            want: Want::Nothing,
            refusing: false,
            number: 0,
        })
    }

    /// Whether a call is under way.
    pub(crate) fn is_busy(&self) -> bool
        ensures { IsTrue result ↔ HasTask self.now }
    {
        self.call.is_some() || self.node.is_busy()
    }

    /// Begins a call whose value was written with so many bytes, and answers what that comes to: nothing that is
    /// printed, or that the value is longer than the room of a buffer.
    #[inline(always)]
    pub(crate) fn begin(&mut self, setup: &Setup, client: u32, call: Call, written: u32) -> Note
        requires task { IsCallTask call written }
        requires rests { (o : Opening) × (p : Plain) × (i : ℕ) × (suc i ≡ client) × (o.setup ≡ setup.now) × Stands o p i self.old Rests }
        ensures { Begun client setup.now self.old self.new call written result }
    {
        let length = u64::from(written);
        let room = 8 * u64::from(setup.pool.words);
        if length > room {
            return Note::Refused {
                client,
                refusal: CallRefusal::TooLong { length, room },
            };
        }
        self.call = Some(call);
        self.start();
        Note::Quiet
    }

    // Starts the call: it goes on by an access of its own, or wants stock.
    fn start(&mut self)
        requires starts { StartsFrom self.old }
        ensures { (call : Asked) → self.old.call ≡ Some call → Started self.old self.new call }
    {
        let Some(call) = &self.call else {
            unreachable!()
        };
        self.want = match self.node.start(call) {
            Ok(()) => Want::Nothing,
            Err(NodeRefusal::NeedsStock) => Want::Stock,
            Err(_) => unreachable!(),
        };
    }

    /// Takes a batch and names in, and starts the call anew.
    pub(crate) fn take(&mut self, batch: &Batch, names: &[Binding])
        requires stock { batch.now.count ≤ 64 - length self.old.node.stock }
        requires once { KeysOnce (self.old.node.names ++ pairs_of names.now) }
        requires room { length (self.old.node.names ++ pairs_of names.now) ≤ self.old.node.caller.pool.slots }
        requires starts { StartsFrom self.old }
        requires may { MayTake self.old.node (tags_of batch.now) (pairs_of names.now) }
        ensures { (call : Asked) → self.old.call ≡ Some call → Started (granted_to self.old (tags_of batch.now) (pairs_of names.now)) self.new call }
    {
        self.node.accept(batch, names);
        self.start();
    }
}
