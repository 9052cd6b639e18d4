// One access of an actor: the word is read and written, the actor's seat gets its next view, and the access is
// counted and listed.
ghost use Rattle.std.specs.Prelude.{◌≡◌, ◌≤◌, ◌<◌, ◌+◌, ◌-◌, ◌&&◌, ℕ, Bool, true, false, length, Some, vec_len, vec_capacity};
ghost use Rattle.clover_rule.specs.Asks.{Asks};
ghost use Rattle.clover_port.specs.Asked.{IsOp};
ghost use Rattle.clover_port.specs.Told.{Made};
ghost use Rattle.clover_plain.specs.Plain.{IsTurn, Stepped, Refused, view_at, open_of, counted};

use crate::pool::PlainPool;
use crate::seats::{actor_of, set_view};
use crate::trace::note;
use crate::words::{act_of, apply};
use clover_port::Op;
use clover_rule::{Access, Act, StepName};
use std::marker::Brand;

impl PlainPool {
    /// The access is made, as the step that M names. It gives the number that stood there.
    pub(crate) fn access<M: StepName>(&mut self, seat: usize, list: bool, op: Op) -> u64
        requires seat { seat < length self.old.views }
        requires turn { IsTurn self.old seat }
        requires room { (self.old.traced && list) ≡ true → 1 ≤ self.old.access_room }
        requires step { IsOp M.step op }
        requires rule { Asks self.old.setup.pool M.step (view_at self.old seat) }
        ensures step { Stepped M.step M.first list seat result self.old self.new }
        ensures made { Made self.old.setup.pool M.step M.first (view_at self.old seat) (Some (open_of self.old)) result (view_at self.new seat) (Some (open_of self.new)) }
    {
        let found = apply(&self.setup, &mut self.words, &op);
        set_view::<Brand>(&self.knowing, &self.begun, &mut self.seats, seat, found);
        self.made = self.made.saturating_add(1);
        self.whole &= list;
        let listed = self.traced & list;
        note(
            &mut self.trace,
            listed,
            Access {
                actor: actor_of(&self.setup, seat),
                act: act_of(op, found),
                refused: false,
            },
        );
        found
    }

    /// The access is refused: it is listed, and changes nothing else.
    pub(crate) fn refuse(&mut self, seat: usize, act: Act)
        requires seat { seat < length self.old.views }
        requires room { self.old.traced ≡ true → 1 ≤ self.old.access_room }
        ensures { Refused act seat self.old self.new }
    {
        note(
            &mut self.trace,
            self.traced,
            Access {
                actor: actor_of(&self.setup, seat),
                act,
                refused: true,
            },
        );
    }
}
