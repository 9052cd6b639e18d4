// The server's unfinished task: how it is begun, its accesses, and what they came to.
ghost use Rattle.std.specs.Prelude.{◌≡◌, ◌≤◌, ◌<◌, false, [], ◌∷◌, length, IsSome, IfSome, None};
ghost use Rattle.clover_words.specs.Tag.{TagParts, IsTag};
ghost use Rattle.clover_alloc.specs.Ledger.{IsLedger};
ghost use Rattle.clover_alloc.specs.Taking.{AreNew, IsBalanced};
ghost use Rattle.clover_dir.specs.Directory.{IsBound, root_of};

use super::Server;
use crate::outcome::Outcome;
use crate::turn::ServerTurn;
use crate::work::{Unfinished, Work, is_key, step_work};
use clover_dir::{BindTask, Binding};
use clover_map::Key;
use clover_port::Port;
use clover_recycle::RecycleTask;
use clover_words::Tag;

impl Server {
    ghost use Rattle.clover_server.specs.Going.{server_step, went, answer_of, refused, taken_in, turn_of};
    ghost use Rattle.clover_server.specs.Holding.{Agrees};
    ghost use Rattle.clover_server.specs.Looking.{free_in};
    ghost use Rattle.clover_server.specs.Steps.{OnAccess, recycling, binding};
    ghost use Rattle.clover_server.specs.Left.{work_left, LowersBy};
    ghost use Rattle.clover_server.specs.Told.{IfReached, IfUnreached, IsOwnTurn, EndsTask, CanTake};

    // Makes the next access of the unfinished task, and takes in what it came to.
    pub(crate) fn go_on<P: Port>(&mut self, port: &mut P) -> ServerTurn
        requires task { IsSome self.old.task }
        requires agrees { Agrees (P.pool port.old) [] self.old (P.view port.old) }
        ensures made { OnAccess result (λ x. P.made port.old (server_step self.old) false x port.new × (self.new ≡ went self.old x) × (result ≡ answer_of self.old x)) (P.failed port.old port.new × (self.new ≡ refused self.old)) }
        ensures ends { IfReached result (EndsTask (P.pool port.old) self.old.task (length self.new.directory.list) (P.view port.old) (P.told port.old) (P.view port.new) (P.told port.new)) }
        ensures lowers { LowersBy result (work_left self.old) (work_left self.new) }
        ensures refused { IfUnreached result (P.failed port.old port.new) }
        ensures answers { IsOwnTurn result }
        ensures agrees { Agrees (P.pool port.new) [] self.new (P.view port.new) }
    {
        let outcome = match self.task.as_mut() {
            Some(unfinished) => step_work(&mut unfinished.work, &mut self.directory, port),
            None => unreachable!(),
        };
        self.take_in(outcome)
    }

    // Takes in what an access of the task came to.
    fn take_in(&mut self, outcome: Outcome) -> ServerTurn
        requires { CanTake self.old outcome }
        ensures value { self.new ≡ taken_in self.old outcome }
        ensures whole { IsLedger self.old.books → IsLedger self.new.books }
        ensures answer { result ≡ turn_of outcome }
    {
        match outcome {
            Outcome::Going => ServerTurn::More,
            Outcome::Unlinked => {
                self.task = None;
                ServerTurn::Unlinked
            }
            Outcome::Recycled { slot, old, root } => {
                self.move_root(slot, old, root);
                ServerTurn::Recycled { old }
            }
            Outcome::Bound { own } => {
                self.books.bind(own);
                self.task = None;
                ServerTurn::More
            }
            Outcome::Unreached => {
                self.leave();
                ServerTurn::Unreached
            }
        }
    }

    // A recycling has ended: the new root version is bound, the old one's buffer is back, and the slot's root moves.
    fn move_root(&mut self, slot: u32, old: Tag, root: Tag)
        requires { CanTake self.old (Outcome.Recycled slot old root) }
        ensures value { self.new ≡ taken_in self.old (Outcome.Recycled slot old root) }
        ensures whole { IsLedger self.new.books }
    {
        self.books.bind(root);
        self.books.give_back(old);
        self.directory.move_root(slot, root);
        self.task = None;
    }

    // The task is left to a later call.
    fn leave(&mut self)
        ensures { self.new ≡ refused self.old }
    {
        if let Some(unfinished) = self.task.as_mut() {
            unfinished.left = true;
        }
    }

    // Begins the recycling of a bound slot's root version.
    pub(crate) fn begin_recycling(&mut self, slot: u32)
        requires { IsBound slot self.old.directory }
        ensures begun { IfSome (root_of self.old.directory slot) (λ root. self.new ≡ recycling self.old slot root) }
        ensures root { IsSome (root_of self.old.directory slot) }
    {
        match self.directory.root(slot) {
            Some(root) => {
                self.task = Some(Unfinished {
                    work: Work::Recycling {
                        slot,
                        task: RecycleTask::make(slot, root),
                    },
                    left: false,
                })
            }
            None => unreachable!(),
        }
    }

    // Takes a free buffer, and begins the binding of the key to the slot with it.
    pub(crate) fn begin_binding(&mut self, slot: u32, key: &Key)
        requires free { 0 < free_in self.old }
        requires idle { self.old.task ≡ None }
        ensures begun { (own : TagParts) × IsBalanced self.old.books own × AreNew self.old.books (own ∷ []) self.new.books × IsTag own × (self.new ≡ binding self.old slot key.now own) }
        ensures lowers { IsLedger self.old.books → work_left self.new ≤ work_left self.old }
        ensures whole { IsLedger self.new.books }
    {
        is_key(key);
        let own = self.books.take(1).tags[0];
        self.task = Some(Unfinished {
            work: Work::Binding {
                own,
                task: BindTask::make(slot, key.copy(), own),
            },
            left: false,
        });
    }
}
