// Whole calls of the server: its step calls, repeated to their end.
ghost use Rattle.std.specs.Prelude.{◌≡◌, ◌↔◌, [], None, IfOk, IfErr, IsNone, IfSome, OnOk};
ghost use Rattle.clover_port.specs.Told.{Rose};
ghost use Rattle.clover_dir.specs.Directory.{IsBound};
ghost use Rattle.clover_dir.specs.Names.{IsNew};
ghost use Rattle.clover_server.specs.Holding.{Agrees};
ghost use Rattle.clover_server.specs.Left.{work_left};
ghost use Rattle.clover_server.specs.Told.{IsFull, IfReached, IsWantTurn, IsOwnTurn};
ghost use Rattle.clover_server.specs.Whole.{StockStep, NamedStep, SlotStep, Repeats, moment, want_turn_of, IsRecycleTurn, ByCause, IsReady, IsNamed, HasNoSlot, CameTo};
ghost use Rattle.clover_server.specs.declared.turn.ServerTurn.TheVariants.{More};

use crate::server::Server;
use crate::turn::{ServerRefusal, ServerTurn};
use clover_map::Key;
use clover_port::Port;

impl Server {
    /// Makes a buffer free: `stock_step`, repeated to its end. It ends since each recycling raises a generation that
    /// stops at the wear.
    ///
    /// `Full` exactly where no buffer is free then and the root version of each bound slot was read unlinked.
    /// `Unreached` only where an access was refused; what it was for stays unfinished.
    pub fn make_ready<P: Port>(&mut self, port: &mut P) -> Result<(), ServerRefusal>
        requires { Agrees (P.pool port.old) [] self.old (P.view port.old) }
        ensures came { Repeats (StockStep (λ p a b x q. P.made p a b x q) (λ p q. P.failed p q)) (work_left self.old) (moment self.old port.old) (moment self.new port.new) (want_turn_of result) }
        ensures ready { OnOk result (IsReady self.new) }
        ensures refused { IfErr result (λ e. ByCause e (λ bound worn out. IsFull self.new (P.view port.new) bound worn out) ⊥ (Rose (P.faults port.old) (P.faults port.new))) }
        ensures quiet { IfReached (want_turn_of result) (P.faults port.new ≡ P.faults port.old) }
        ensures same { (P.pool port.new ≡ P.pool port.old) × (P.table port.new ≡ P.table port.old) × (P.lender port.new ≡ P.lender port.old) }
        ensures agrees { Agrees (P.pool port.new) [] self.new (P.view port.new) }
    {
        'steps: loop {
            if let Some(end) = want_end(self.stock_step(port)) {
                return end;
            }
        }
    }

    /// Binds the key where it is not bound: `bind_step`, repeated to its end.
    ///
    /// `NoSlot` exactly where every slot is bound and the key is not. `Full` exactly where the key is not bound, no
    /// buffer is free, and the root version of each bound slot was read unlinked. `Unreached` only where an access was
    /// refused; what it was for stays unfinished.
    pub fn bind<P: Port>(&mut self, port: &mut P, key: &Key) -> Result<(), ServerRefusal>
        requires { Agrees (P.pool port.old) [] self.old (P.view port.old) }
        ensures came { Repeats (NamedStep key.now (λ p a b x q. P.made p a b x q) (λ p q. P.failed p q)) (work_left self.old) (moment self.old port.old) (moment self.new port.new) (want_turn_of result) }
        ensures named { OnOk result (IsNamed key.now self.new) }
        ensures refused { IfErr result (λ e. ByCause e (λ bound worn out. IsFull self.new (P.view port.new) bound worn out × IsNew key.now self.new.directory.list) (HasNoSlot key.now self.new) (Rose (P.faults port.old) (P.faults port.new))) }
        ensures quiet { IfReached (want_turn_of result) (P.faults port.new ≡ P.faults port.old) }
        ensures same { (P.pool port.new ≡ P.pool port.old) × (P.table port.new ≡ P.table port.old) × (P.lender port.new ≡ P.lender port.old) }
        ensures agrees { Agrees (P.pool port.new) [] self.new (P.view port.new) }
    {
        'steps: loop {
            if let Some(end) = want_end(self.bind_step(port, key)) {
                return end;
            }
        }
    }

    /// Recycles a bound slot's root version where a version stands behind it: `recycle_step`, repeated to its end.
    /// Whether a version was recycled; of a task that a refused access left, which is finished first, it tells nothing.
    ///
    /// Only `Unreached` is refused, and only where an access was; what it was for stays unfinished.
    pub fn recycle<P: Port>(&mut self, port: &mut P, slot: u32) -> Result<bool, ServerRefusal>
        requires bound { IsBound slot self.old.directory }
        requires agrees { Agrees (P.pool port.old) [] self.old (P.view port.old) }
        ensures came { (r : ServerTurn) × IsRecycleTurn result r × Repeats (SlotStep slot (λ p a b x q. P.made p a b x q) (λ p q. P.failed p q)) (work_left self.old) (moment self.old port.old) (moment self.new port.new) r }
        ensures recycled { IfOk result (λ recycled. self.old.task ≡ None → CameTo recycled (P.pool port.old) slot self.old self.new (P.view port.new) (P.told port.new)) }
        ensures idle { OnOk result (self.new.task ≡ None) }
        ensures refused { IfErr result (λ e. ByCause e (λ bound worn out. ⊥) ⊥ (Rose (P.faults port.old) (P.faults port.new))) }
        ensures quiet { OnOk result (P.faults port.new ≡ P.faults port.old) }
        ensures same { (P.pool port.new ≡ P.pool port.old) × (P.table port.new ≡ P.table port.old) × (P.lender port.new ≡ P.lender port.old) }
        ensures agrees { Agrees (P.pool port.new) [] self.new (P.view port.new) }
    {
        'steps: loop {
            if let Some(end) = recycle_end(self.recycle_step(port, slot)) {
                return end;
            }
        }
    }
}

// How a want's step ends its whole call; none where the step is to be repeated.
fn want_end(turn: ServerTurn) -> Option<Result<(), ServerRefusal>>
    requires { IsWantTurn turn }
    ensures some { IfSome result (λ end. turn ≡ want_turn_of end) }
    ensures none { IsNone result ↔ (turn ≡ More) }
{
    match turn {
        ServerTurn::More => None,
        ServerTurn::Ready => Some(Ok(())),
        ServerTurn::Full { bound, worn, out } => Some(Err(ServerRefusal::Full {
            bound,
            worn,
            out,
        })),
        ServerTurn::NoSlot => Some(Err(ServerRefusal::NoSlot)),
        ServerTurn::Unreached => Some(Err(ServerRefusal::Unreached)),
        ServerTurn::Unlinked | ServerTurn::Recycled { .. } => unreachable!(),
    }
}

// How a recycling's step ends its whole call; none where the step is to be repeated.
fn recycle_end(turn: ServerTurn) -> Option<Result<bool, ServerRefusal>>
    requires { IsOwnTurn turn }
    ensures some { IfSome result (λ end. IsRecycleTurn end turn) }
    ensures none { IsNone result ↔ (turn ≡ More) }
{
    match turn {
        ServerTurn::More => None,
        ServerTurn::Unlinked => Some(Ok(false)),
        ServerTurn::Recycled { .. } => Some(Ok(true)),
        ServerTurn::Unreached => Some(Err(ServerRefusal::Unreached)),
        ServerTurn::Ready | ServerTurn::Full { .. } | ServerTurn::NoSlot => unreachable!(),
    }
}
