// The node: what it has of the metadata server, and the call under way.
ghost use Rattle.std.specs.Prelude.{◌≡◌, ◌-◌, ◌≤◌, ◌++◌, ◌↔◌, ℕ, [], length, map, IsTrue, IfOk};
ghost use Rattle.clover_words.specs.Tag.{TagParts, tag_number};
ghost use Rattle.clover_words.specs.declared.bytes.ValueBuf.{ValueBuf as Room};
ghost use Rattle.clover_map.specs.declared.call.Call.{Call as Asked};
ghost use Rattle.clover_rule.specs.Content.{InRange};
ghost use Rattle.clover_rule.specs.Lists.{Each};
ghost use Rattle.clover_rule.specs.Moves.{given};
ghost use Rattle.clover_rule.specs.Names.{KeysOnce};
ghost use Rattle.clover_rule.specs.Views.{SlotsOnce};
ghost use Rattle.clover_rule.specs.declared.view.Role.TheVariants.{Client};
ghost use Rattle.clover_rule.specs.declared.view.View.{View};
ghost use Rattle.clover_alloc.specs.Batch.{tags_of};
ghost use Rattle.clover_dir.specs.Bindings.{pairs_of};
ghost use Rattle.clover_call.specs.Caller.{copied_flags};
ghost use Rattle.clover_node.specs.Accepting.{MayTake};
ghost use Rattle.clover_node.specs.Node.{NodeHolds, IsIdle, first_node};

mod start;
mod step;
#[cfg(test)]
mod tests;
mod tries;

use crate::counting::Counting;
use crate::stock::Stock;
use clover_alloc::Batch;
use clover_call::Caller;
use clover_dir::{Binding, Names};
use clover_list::OutOfMemory;
use clover_words::Setup;
use std::alloc::Global;
use std::marker::Model;

/// The compute node of one client, with at most one call under way.
#[derive(Drop)]
pub struct Node {
    client: u32,
    caller: Caller,
    counting: Counting,
    stock: Stock,
    names: Names,
}

impl Model for Node {
    ghost use Rattle.std.specs.Prelude.{◌≡◌};
    ghost use Rattle.clover_node.specs.Node.{NodeState};

    ghost Value = { NodeState };

    ghost view = { λ n. record { client = n.client; caller = n.caller; counting = n.counting; stock = n.stock; names = n.names.list } };

    // There is room for the names of all slots.
    ghost invariant = { λ n. n.names.most ≡ n.caller.pool.slots };
}

impl Node {
    /// A node of this client with nothing under way, an empty stock, no names and no cursors. It takes the room for
    /// the names of all slots; no other call takes memory, but for a cursor, whose want changes no answer.
    /// `OutOfMemory` for want of memory.
    pub fn make(alloc: Global, setup: Setup, client: u32) -> Result<Node, OutOfMemory>
        ensures value { IfOk result (λ node. node ≡ first_node setup.pool client) }
        ensures holds { IfOk result (λ node. (call : Asked) (v : View) (room : Room) → v.pass.pool ≡ setup.pool → v.pass.role ≡ Client client → v.pass.stock ≡ [] → v.pass.names ≡ [] → NodeHolds node call v room) }
    {
        Ok(Node {
            client,
            caller: Caller::make(alloc, setup.pool)?,
            counting: Counting::No,
            stock: Stock::make(alloc)?,
            names: Names::make(alloc, setup.pool.slots)?,
        })
    }

    /// Whether a call is under way.
    pub fn is_busy(&self) -> bool
        ensures { IsTrue result ↔ (IsIdle self.now → ⊥) }
    {
        !matches!(self.counting, Counting::No) || self.caller.is_busy()
    }

    /// The flags of the value that stands in the room, where the next access is the last load for it.
    pub fn copied(&self) -> Option<u32>
        ensures { result ≡ copied_flags self.now.caller.under }
    {
        self.caller.copied()
    }

    /// How many names the node has.
    pub fn known(&self) -> u32
        ensures { result ≡ length self.now.names }
    {
        self.names.len() as u32
    }

    /// How many buffers stand in the stock.
    pub fn stock(&self) -> u32
        ensures { result ≡ length self.now.stock }
    {
        self.stock.len() as u32
    }

    /// Puts the tags of the batch at the end of the stock, and the names behind those that the node has.
    ///
    /// No call is under way, the batch has at most as many tags as the stock has room for, which is 64 in all, and the
    /// names are of other keys than those that the node has, and with these at most as many as the pool has slots.
    pub fn accept(&mut self, batch: &Batch, names: &[Binding])
        requires idle { IsIdle self.old }
        requires stock { batch.now.count ≤ 64 - length self.old.stock }
        requires once { KeysOnce (self.old.names ++ pairs_of names.now) }
        requires room { length (self.old.names ++ pairs_of names.now) ≤ self.old.caller.pool.slots }
        ensures value { self.new ≡ record self.old { stock = self.old.stock ++ tags_of batch.now; names = self.old.names ++ pairs_of names.now } }
        ensures holds { (call : Asked) (v : View) (room : Room) → NodeHolds self.old call v room → MayTake self.old (tags_of batch.now) (pairs_of names.now) → NodeHolds self.new call (given (map tag_number (tags_of batch.now)) (pairs_of names.now) v) room }
    {
        self.stock.add(batch.items());
        learn(&mut self.names, names);
    }
}

// Puts these bindings behind those that are known.
fn learn(known: &mut Names, names: &[Binding])
    requires once { KeysOnce (known.old.list ++ pairs_of names.now) }
    requires room { length (known.old.list ++ pairs_of names.now) ≤ known.old.most }
    ensures { known.new ≡ record known.old { list = known.old.list ++ pairs_of names.now } }
{
    for binding in names {
        known.push(binding.slot, binding.key.copy());
    }
}
