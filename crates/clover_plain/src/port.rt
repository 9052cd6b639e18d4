// An actor's port: each access is made at once, by a step of the pool, or refused.
ghost use Rattle.std.specs.Prelude.{◌≡◌, ◌≤◌, ◌<◌, ◌&&◌, true, false, length};
ghost use Rattle.clover_port.specs.Told.{Rose};
ghost use Rattle.clover_plain.specs.Plain.{IsTurn, Refused};

use crate::pool::PlainPool;
use crate::words::act_of;
use clover_port::{Failed, Op, Port};
use clover_rule::{Act, StepName};
use clover_words::{Side, Word};

/// One actor's accesses, of which the first may be refused. It counts the refusals.
#[derive(Drop)]
pub struct PlainPort<'a> {
    /// The pool that it changes.
    pub pool: &'a mut PlainPool,
    /// The actor's seat.
    pub seat: usize,
    /// Whether the next access is refused.
    pub refuse: bool,
    /// Whether the next access is listed in a trace, as the port's first one.
    pub list: bool,
    /// How many accesses were refused.
    pub faults: u64,
    pub ghost seated: { seat < length pool.now.views },
    pub ghost turn: { IsTurn pool.now seat },
    pub ghost room: { (pool.now.traced && list) ≡ true → 1 ≤ pool.now.access_room },
    pub ghost first: { refuse ≡ true → list ≡ true },
}

impl<'a> Port for PlainPort<'a> {
    ghost use Rattle.std.specs.Prelude.{Some};
    ghost use Rattle.std.proofs.Common.{refl};
    ghost use Rattle.clover_plain.specs.Plain.{open_of, view_at, no_table};
    ghost use Rattle.clover_plain.specs.Ports.{MadeBy, FailedBy, pool_same, refused_view, refused_told, not_true, not_false};

    ghost view = { λ p. view_at p.pool.now p.seat };

    ghost told = { λ p. Some (open_of p.pool.now) };

    ghost pool = { λ p. p.pool.now.setup.pool };

    ghost table = { λ p. no_table };

    ghost lender = { λ p. p.pool.ghost_name };

    ghost faults = { λ p. p.faults };

    ghost refuses = { λ p. Some p.refuse };

    ghost made = { MadeBy };

    ghost failed = { FailedBy };

    ghost made_tells = { λ p q a b x h. h.1 };

    ghost made_leaves = { λ p q a b x h. (pool_same h.0.same, refl, h.4, h.3, not_true h.5) };

    ghost failed_leaves = { λ p q h. (pool_same h.0.1.same, refl, h.3, h.2, refused_view p.seat q.seat h.1 h.0.1, refused_told p.seat h.0.1, not_false h.4, h.7) };

    fn load<M: StepName>(&mut self, word: Word) -> Result<u64, Failed> {
        self.make::<M>(Op::Load(word))
    }

    fn store<M: StepName>(&mut self, word: Word, side: Side, value: u64) -> Result<(), Failed> {
        match self.make::<M>(Op::Store { word, side, value }) {
            Ok(_) => Ok(()),
            Err(failed) => Err(failed),
        }
    }

    fn exchange<M: StepName>(
        &mut self,
        word: Word,
        expected: u64,
        new: u64,
    ) -> Result<u64, Failed> {
        self.make::<M>(Op::Exchange {
            word,
            expected,
            new,
        })
    }

    fn raise<M: StepName>(&mut self, word: Word, value: u64) -> Result<u64, Failed> {
        self.make::<M>(Op::Raise { word, value })
    }
}

impl<'a> PlainPort<'a> {
    ghost use Rattle.std.specs.Prelude.{MatchResult};
    ghost use Rattle.clover_rule.specs.Asks.{Asks};
    ghost use Rattle.clover_port.specs.Asked.{IsOp};
    ghost use Rattle.clover_plain.specs.Plain.{view_at};
    ghost use Rattle.clover_plain.specs.Ports.{MadeBy, FailedBy};

    // Makes the access as the step that M names, or refuses it.
    fn make<M: StepName>(&mut self, op: Op) -> Result<u64, Failed>
        requires step { IsOp M.step op }
        requires rule { Asks self.old.pool.now.setup.pool M.step (view_at self.old.pool.now self.old.seat) }
        ensures ends { MatchResult result (λ x. MadeBy self.old M.step M.first x self.new) (λ e. FailedBy self.old self.new) }
    {
        if self.refuse {
            self.fail(act_of(op, 0));
            return Err(Failed);
        }
        let list = self.list;
        self.list = false;
        Ok(self.pool.access::<M>(self.seat, list, op))
    }

    // Refuses the access, and counts that.
    fn fail(&mut self, act: Act)
        requires { self.old.refuse ≡ true }
        ensures refused { Refused act self.old.seat self.old.pool.now self.new.pool.now }
        ensures next { (self.new.seat ≡ self.old.seat) × (self.new.refuse ≡ false) × (self.new.list ≡ false) }
        ensures lender { self.new.pool.ghost_name ≡ self.old.pool.ghost_name }
        ensures rises { self.old.faults ≤ self.new.faults }
        ensures count { Rose self.old.faults self.new.faults }
    {
        self.refuse = false;
        self.list = false;
        self.faults = self.faults.saturating_add(1);
        self.pool.refuse(self.seat, act);
    }
}
