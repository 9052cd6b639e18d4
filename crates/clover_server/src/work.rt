// The server's unfinished task, and the access that it makes next.
ghost use Rattle.std.specs.Prelude.{◌≡◌, ◌≢◌, ◌≤◌, ◌<◌, ◌^◌, ℕ, false, length};
ghost use Rattle.clover_words.specs.Tag.{IsTag};
ghost use Rattle.clover_dir.specs.Holding.{BindHolds};
ghost use Rattle.clover_dir.specs.Task.{bind_step, bind_on};
ghost use Rattle.clover_dir.specs.declared.stage.Stage.TheVariants.{Over};
ghost use Rattle.clover_recycle.specs.Holding.{RecycleHolds};
ghost use Rattle.clover_recycle.specs.Recycling.{recycle_step, goes_on, answer_to};
ghost use Rattle.clover_server.specs.Going.{work_step, work_on, directory_on, outcome_of, bind_outcome, recycle_outcome, OnBound, OnMade, OnRefused};
ghost use Rattle.clover_server.specs.Holding.{WorkHolds, WorkLeaves};
ghost use Rattle.clover_server.specs.Left.{Lowers};
ghost use Rattle.clover_server.specs.Told.{AreTags, Ends};

use crate::outcome::Outcome;
use clover_dir::{BindTask, BindTurn, Directory};
use clover_map::Key;
use clover_port::Port;
use clover_recycle::{RecycleTask, RecycleTurn};
use clover_words::Tag;

/// A task of the server.
#[derive(Drop)]
pub enum Work {
    /// A binding, whose tombstone has this tag.
    Binding { own: Tag, task: BindTask },
    /// A recycling of this slot's root version.
    Recycling { slot: u32, task: RecycleTask },
}

/// A task that was begun and has not ended.
#[derive(Drop)]
pub struct Unfinished {
    pub work: Work,
    /// Whether an access of it was refused, so that it was left to a later call.
    pub left: bool,
}

/// Makes the task's next access. Behind a binding's last one the directory has the binding.
pub fn step_work<P: Port>(work: &mut Work, directory: &mut Directory, port: &mut P) -> Outcome
    requires holds { WorkHolds (P.pool port.old) directory.old (P.view port.old) work.old }
    ensures made { OnMade result ((x : ℕ) × P.made port.old (work_step directory.old work.old) false x port.new × (result ≡ outcome_of work.old x) × (work.new ≡ work_on work.old x) × (directory.new ≡ directory_on directory.old work.old)) }
    ensures ends { OnMade result (Ends (P.pool port.old) work.old (length directory.new.list) (P.view port.old) (P.told port.old) (P.view port.new) (P.told port.new)) }
    ensures lowers { Lowers result work.old work.new }
    ensures fits { OnBound result (length directory.new.list ≤ directory.new.pool.slots) }
    ensures leaves { WorkLeaves (P.pool port.old) directory.new (P.view port.new) work.new result }
    ensures tags { AreTags result }
    ensures refused { OnRefused result (P.failed port.old port.new × (work.new ≡ work.old) × (directory.new ≡ directory.old)) }
{
    match work {
        Work::Binding { own, task } => step_binding(*own, task, directory, port),
        Work::Recycling { slot, task } => step_recycling(*slot, task, port),
    }
}

// The parts of a tag fit. Its type says so; this is for proofs, and does nothing.
fn is_tag(tag: Tag)
    ensures { IsTag tag }
{
    let _ = tag.node;
}

/// There are at most as many bindings as slots. The directory's type says so; this is for proofs, and does nothing.
pub fn fits(directory: &Directory)
    ensures slots { length directory.now.list ≤ directory.now.pool.slots }
    ensures number { length directory.now.list < 2 ^ 64 }
{
    let _ = directory.list().len();
}

/// A key has at most 250 bytes. Its type says so; this is for proofs, and does nothing.
pub fn is_key(key: &Key)
    ensures { length key.now ≤ 250 }
{
    let _ = key.bytes();
}

// Makes the binding's next access.
fn step_binding<P: Port>(
    own: Tag,
    task: &mut BindTask,
    directory: &mut Directory,
    port: &mut P,
) -> Outcome
    requires going { task.old.stage ≢ Over }
    requires holds { BindHolds (P.pool port.old) task.old directory.old (P.view port.old) }
    requires own { task.old.own ≡ own }
    ensures made { OnMade result ((x : ℕ) × P.made port.old (bind_step task.old directory.old) false x port.new × (result ≡ bind_outcome own task.old.stage) × (task.new ≡ bind_on task.old) × (directory.new ≡ directory_on directory.old (Work.Binding own task.old))) }
    ensures ends { OnMade result (Ends (P.pool port.old) (Work.Binding own task.old) (length directory.new.list) (P.view port.old) (P.told port.old) (P.view port.new) (P.told port.new)) }
    ensures lowers { Lowers result (Work.Binding own task.old) (Work.Binding own task.new) }
    ensures fits { OnBound result (length directory.new.list ≤ directory.new.pool.slots) }
    ensures leaves { WorkLeaves (P.pool port.old) directory.new (P.view port.new) (Work.Binding own task.new) result }
    ensures tags { AreTags result }
    ensures refused { OnRefused result (P.failed port.old port.new × (task.new ≡ task.old) × (directory.new ≡ directory.old)) }
{
    match task.step(port, directory) {
        BindTurn::More => Outcome::Going,
        BindTurn::Bound => {
            is_tag(own);
            fits(directory);
            Outcome::Bound { own }
        }
        BindTurn::Unreached => Outcome::Unreached,
    }
}

// Makes the recycling's next access.
fn step_recycling<P: Port>(slot: u32, task: &mut RecycleTask, port: &mut P) -> Outcome
    requires holds { RecycleHolds (P.pool port.old) task.old (P.view port.old) }
    ensures made { OnMade result ((x : ℕ) × P.made port.old (recycle_step task.old) false x port.new × (result ≡ recycle_outcome slot (answer_to task.old x)) × (task.new ≡ goes_on task.old x)) }
    ensures ends { OnMade result (Ends (P.pool port.old) (Work.Recycling slot task.old) 0 (P.view port.old) (P.told port.old) (P.view port.new) (P.told port.new)) }
    ensures lowers { Lowers result (Work.Recycling slot task.old) (Work.Recycling slot task.new) }
    ensures over { OnBound result ⊥ }
    ensures tags { AreTags result }
    ensures refused { OnRefused result (P.failed port.old port.new × (task.new ≡ task.old)) }
{
    match task.step(port) {
        RecycleTurn::More => Outcome::Going,
        RecycleTurn::Unlinked => Outcome::Unlinked,
        RecycleTurn::Recycled { old, root } => {
            is_tag(old);
            is_tag(root);
            Outcome::Recycled { slot, old, root }
        }
        RecycleTurn::Unreached => Outcome::Unreached,
    }
}
