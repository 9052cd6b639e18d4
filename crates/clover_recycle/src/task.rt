// A recycling: where it stands, which access it asks for, and how it goes on.
ghost use Rattle.std.specs.Prelude.{◌≡◌, ◌<◌, ℕ, false, MatchResult};
ghost use Rattle.clover_words.specs.Tag.{tag_number, age};
ghost use Rattle.clover_rule.specs.Memory.{link};
ghost use Rattle.clover_rule.specs.Steps.{moved_on};
ghost use Rattle.clover_rule.specs.Words.{next_of};
ghost use Rattle.clover_port.specs.Asked.{IsOp, IsFinding};
ghost use Rattle.clover_recycle.specs.Recycling.{made_task, recycle_step, goes_on, answer_to, staged, looked, look_answer, MayFind, IsNextWord, OnLoad};
ghost use Rattle.clover_recycle.specs.declared.turn.RecycleTurn.TheVariants.{More};
ghost use Rattle.clover_recycle.specs.Holding.{RecycleHolds};
ghost use Rattle.clover_recycle.specs.Answering.{Went, GivesBack, OnReached, OnUnreached, IfRecycled};

use crate::stage::Stage;
use crate::turn::RecycleTurn;
use clover_port::{Failed, Op, Port, perform};
use clover_rule::StepName;
use clover_words::{NextWord, Side, Tag, Word, root_encode};
use std::marker::{Brand, Model};

/// A recycling of one slot's root version, made by the metadata server. It makes one access a step.
///
/// It loads the root version's next word. Where that is unlinked there is nothing to recycle. Where it is linked, the
/// link is made durable by a raise of its flushed copy, the slot's root is moved to the link's target, first the
/// current copy and then the flushed one, and then the old version's next word is exchanged for its next generation,
/// unlinked. Only when the flushed copy is raised to that as well has the old version's buffer been given back: at that
/// moment no power cut can leave it on a chain, or at the generation that it served.
#[derive(Clone, Copy)]
pub struct RecycleTask {
    slot: u32,
    root: Tag,
    stage: Stage,
}

impl Model for RecycleTask {
    ghost use Rattle.clover_recycle.specs.Recycling.{RecycleState};

    ghost Value = { RecycleState };

    ghost view = { λ t. record { slot = t.slot; root = t.root; stage = t.stage } };

    ghost inverse = { λ c. record { slot = c.slot; root = c.root; stage = c.stage } };
}

impl RecycleTask {
    /// A recycling of this slot, whose root version is this tag. It makes no access.
    pub fn make(slot: u32, root: Tag) -> RecycleTask
        ensures value { result ≡ made_task slot root }
    {
        RecycleTask {
            slot,
            root,
            stage: Stage::AtVersion,
        }
    }

    /// Makes the recycling's next access, and goes on by what it found.
    ///
    /// The recycling is not over, and the port is the metadata server's. Before the first access the server has
    /// nothing unfinished, and the task's root is the slot's root version in its directory; from then on the task is
    /// what the server has unfinished.
    ///
    /// `Unlinked`, exactly where this access was the load and showed the root version unlinked. `Recycled`, exactly
    /// where it was the last raise. `Unreached`, only where the access was refused; neither the recycling nor what the
    /// server knows has changed then.
    pub fn step<P: Port>(&mut self, port: &mut P) -> RecycleTurn
        requires holds { RecycleHolds (P.pool port.old) self.old (P.view port.old) }
        ensures made { OnReached result ((x : ℕ) × P.made port.old (recycle_step self.old) false x port.new × Went (P.pool port.old) self.old x (P.view port.new) self.new result) }
        ensures recycled { IfRecycled result (λ old root. GivesBack (P.pool port.old) (P.told port.new) (tag_number old)) }
        ensures unreached { OnUnreached result (P.failed port.old port.new × (self.new ≡ self.old)) }
    {
        match access::<P, Brand>(self, port) {
            Ok(found) => self.on(found),
            Err(_) => RecycleTurn::Unreached,
        }
    }

    /// The access that the recycling asks for next. One that is over asks for none.
    pub fn next(&self) -> Op
        requires serves { age (tag_number self.now.root) < 1048575 }
        ensures op { IsOp (recycle_step self.now) result }
        ensures finds { OnLoad self.now.stage (IsFinding result) }
    {
        let root = self.root;
        match self.stage {
            Stage::AtVersion | Stage::Over => Op::Load(root.next_word()),
            Stage::AtLink(next) => Op::Raise {
                word: root.next_word(),
                value: root.linked(next),
            },
            Stage::AtRoot(next) => Op::Store {
                word: Word::Root(self.slot),
                side: Side::Current,
                value: root_encode(Some(next)),
            },
            Stage::AtFlushedRoot(next) => Op::Store {
                word: Word::Root(self.slot),
                side: Side::Flushed,
                value: root_encode(Some(next)),
            },
            Stage::AtPass(next) => Op::Exchange {
                word: root.next_word(),
                expected: root.linked(next),
                new: moved_on(root),
            },
            Stage::AtFree(_) => Op::Raise {
                word: root.next_word(),
                value: moved_on(root),
            },
        }
    }

    /// Goes on by what the access found; only the load's number is looked at. It never answers `Unreached`.
    pub fn on(&mut self, found: u64) -> RecycleTurn
        requires found { MayFind self.old found }
        ensures value { self.new ≡ goes_on self.old found }
        ensures answer { result ≡ answer_to self.old found }
    {
        let stage = self.stage;
        match stage {
            Stage::AtVersion => self.look(found),
            Stage::AtLink(next) => self.place(Stage::AtRoot(next)),
            Stage::AtRoot(next) => self.place(Stage::AtFlushedRoot(next)),
            Stage::AtFlushedRoot(next) => self.place(Stage::AtPass(next)),
            Stage::AtPass(next) => self.place(Stage::AtFree(next)),
            Stage::AtFree(next) => {
                self.stage = Stage::Over;
                RecycleTurn::Recycled {
                    old: self.root,
                    root: next,
                }
            }
            Stage::Over => unreachable!(),
        }
    }

    // Stands there, and goes on.
    fn place(&mut self, stage: Stage) -> RecycleTurn
        ensures value { self.new ≡ staged self.old stage }
        ensures answer { result ≡ More }
    {
        self.stage = stage;
        RecycleTurn::More
    }

    // Goes on by the root version's next word.
    fn look(&mut self, found: u64) -> RecycleTurn
        requires next { IsNextWord found }
        ensures value { self.new ≡ looked self.old (link (next_of found)) }
        ensures answer { result ≡ look_answer (link (next_of found)) }
    {
        match NextWord::decode(found).unwrap().link {
            Some(next) => self.place(Stage::AtLink(next)),
            None => {
                self.stage = Stage::Over;
                RecycleTurn::Unlinked
            }
        }
    }
}

// The number of the tag's next word once its buffer went on to the next generation, unlinked.
fn moved_on(tag: Tag) -> u64
    requires { age (tag_number tag) < 1048575 }
    ensures { result ≡ moved_on (tag_number tag) }
{
    let next = NextWord {
        own: tag.generation + 1,
        link: None,
    };
    next.encode()
}

// Makes the access that the recycling asks for, as the step that M names.
fn access<P: Port, M: StepName>(task: &RecycleTask, port: &mut P) -> Result<u64, Failed>
    requires name { (M.step ≡ recycle_step task.now) × (M.first ≡ false) }
    requires holds { RecycleHolds (P.pool port.old) task.now (P.view port.old) }
    // A store gives back no number, and any number that it may have found.
    ensures ends { MatchResult result (λ x. (y : ℕ) × P.made port.old (recycle_step task.now) false y port.new × OnLoad task.now.stage (x ≡ y)) (λ e. P.failed port.old port.new) }
{
    perform::<P, M>(port, task.next())
}
