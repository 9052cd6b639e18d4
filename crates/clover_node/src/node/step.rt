// One access of a node's call.
ghost use Rattle.std.specs.Prelude.{◌≡◌, ◌≤◌, ℕ, true, length};
ghost use Rattle.clover_map.specs.declared.call.Call.{Call};
ghost use Rattle.clover_node.specs.Going.{NodeMade, NodeWent, stock_behind};
ghost use Rattle.clover_node.specs.Node.{NodeHolds, HasNames, IsCounting, IsIdle, count_of};
ghost use Rattle.clover_node.specs.Turning.{OnMade, OnRefused, count_turn};
ghost use Rattle.clover_node.specs.declared.answer.NodeRefusal.TheVariants.{Unreached as IsUnreached};
ghost use Rattle.clover_node.specs.declared.answer.NodeTurn.TheVariants.{Refused as IsRefused};
ghost use Rattle.clover_node.specs.declared.counting.Counting.TheVariants.{No as IsNo};

use super::Node;
use crate::answer::{NodeRefusal, NodeTurn, counted, turn_of};
use crate::counting::Counting;
use clover_port::{Op, Port, perform};
use clover_rule::StepName;
use clover_words::{ValueBuf, Word};
use std::marker::Brand;

impl Node {
    /// Makes the next access of the call under way, and goes on by what it found.
    ///
    /// The port is of the node's pool and client, whose view has the node's stock and names and what the call stands
    /// on; and the same room is passed to all steps of a call. `Decided`, once in a call that writes, exactly where
    /// this access was the exchange that linked its version; the first tag leaves the stock then, and at no other
    /// access. `Done`, where the call is over: a found value stands in the room then. `Absent` of a key that the node
    /// does not know, only where the count was loaded as the number of names. `Refused`, where the call is over
    /// without an answer: `Unreached` and `Linked` only where the access was refused, `Behind` exactly where the turns
    /// of the call have reached the budget, and `NeedsNames` exactly where the count was loaded, and as a greater
    /// number than that of the names or for a put.
    pub fn step<P: Port>(&mut self, port: &mut P, into: &mut ValueBuf) -> NodeTurn
        ghost call: { Call }
        requires busy { IsIdle self.old → ⊥ }
        requires pool { P.pool port.old ≡ self.old.caller.pool }
        requires holds { NodeHolds self.old call (P.view port.old) into.old }
        ensures made { NodeMade (λ step first x. P.made port.old step first x port.new) self.old call (P.view port.old) into.old self.new (P.view port.new) into.new result }
        ensures went { NodeWent self.old call into.new (P.view port.old) (P.told port.old) self.new (P.view port.new) (P.told port.new) result }
        ensures refused { OnRefused result (P.failed port.old port.new × (into.new ≡ into.old)) }
        ensures holds { NodeHolds self.new call (P.view port.new) into.new }
    {
        match self.counting {
            Counting::No => self.call(port, into),
            Counting::Names | Counting::Absence => self.count::<P, Brand>(port),
        }
    }

    // Makes the next access of a call on a slot.
    fn call<P: Port>(&mut self, port: &mut P, into: &mut ValueBuf) -> NodeTurn
        ghost call: { Call }
        requires calls { self.old.counting ≡ IsNo }
        requires busy { IsIdle self.old → ⊥ }
        requires pool { P.pool port.old ≡ self.old.caller.pool }
        requires holds { NodeHolds self.old call (P.view port.old) into.old }
        ensures made { NodeMade (λ step first x. P.made port.old step first x port.new) self.old call (P.view port.old) into.old self.new (P.view port.new) into.new result }
        ensures went { NodeWent self.old call into.new (P.view port.old) (P.told port.old) self.new (P.view port.new) (P.told port.new) result }
        ensures refused { OnRefused result (P.failed port.old port.new × (into.new ≡ into.old)) }
        ensures holds { NodeHolds self.new call (P.view port.new) into.new }
    {
        let turn = turn_of(self.caller.step(port, into));
        self.spend(&turn);
        turn
    }

    // Takes the first tag out of the stock, where this turn committed it.
    fn spend(&mut self, turn: &NodeTurn)
        ensures { self.new ≡ record self.old { stock = stock_behind turn.now self.old.stock } }
    {
        if matches!(turn, NodeTurn::Decided(_)) {
            self.stock.take();
        }
    }

    // Loads the count, as the step that M names, which ends the call.
    fn count<P: Port, M: StepName>(&mut self, port: &mut P) -> NodeTurn
        ghost call: { Call }
        requires name { (M.step ≡ count_of self.old.counting call) × (M.first ≡ true) }
        requires counts { IsCounting self.old call }
        requires pool { P.pool port.old ≡ self.old.caller.pool }
        requires holds { HasNames self.old (P.view port.old) }
        ensures made { OnMade result ((x : ℕ) × P.made port.old (count_of self.old.counting call) true x port.new × (result ≡ count_turn self.old.counting (length self.old.names) x)) }
        ensures refused { OnRefused result (P.failed port.old port.new × (result ≡ IsRefused IsUnreached)) }
        ensures value { self.new ≡ record self.old { counting = IsNo } }
    {
        let counting = self.counting;
        let known = self.known();
        self.counting = Counting::No;
        match perform::<P, M>(port, Op::Load(Word::Count)) {
            Ok(bound) => counted(counting, known, bound as u32),
            Err(_) => NodeTurn::Refused(NodeRefusal::Unreached),
        }
    }
}
