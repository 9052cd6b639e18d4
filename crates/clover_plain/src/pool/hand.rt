// What the server hands to a client: buffers out of its books, and the names that the client has not yet.
ghost use Rattle.std.specs.Prelude.{◌≡◌, ◌-◌, true};
ghost use Rattle.clover_dir.specs.Bindings.{pairs_of};
ghost use Rattle.clover_rule.specs.Moves.{MayHand};
ghost use Rattle.clover_rule.specs.declared.access.Actor.TheVariants.{Client, Server};
ghost use Rattle.clover_plain.specs.Plain.{IsActor, history, view_at};
ghost use Rattle.clover_plain.specs.Handing.{Handed, numbers_of};

use crate::pool::PlainPool;
use crate::seats::hand_view;
use clover_alloc::Batch;
use clover_dir::Binding;
use std::marker::Brand;

impl PlainPool {
    /// The metadata server hands a client a batch of tags that are free in its books, and bindings, with
    /// which the client has all of them but one that waits for its last store. The batch is then out in the
    /// books, and stands behind the client's stock, as the bindings stand behind its names. It is one event and no
    /// access. It takes no memory.
    pub fn hand_over(&mut self, client: u32, batch: &Batch, names: &[Binding])
        requires opened { self.old.opened ≡ true }
        requires server { IsActor self.old Server }
        requires client { IsActor self.old (Client client) }
        requires may { MayHand self.old.setup.pool (view_at self.old self.old.setup.clients) (view_at self.old (client - 1)) (numbers_of batch.now) (pairs_of names.now) }
        ensures handed { Handed client (numbers_of batch.now) (pairs_of names.now) self.old self.new }
        ensures history { history self.new ≡ history self.old }
    {
        let server = self.setup.clients as usize;
        hand_view::<Brand>(&self.knowing, &mut self.seats, server, true, batch, names);
        let seat = client as usize - 1;
        hand_view::<Brand>(&self.knowing, &mut self.seats, seat, false, batch, names);
    }
}
