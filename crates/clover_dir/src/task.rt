// The binding of a key: where it stands, which access it asks for, and how it goes on.
ghost use Rattle.std.specs.Prelude.{◌≡◌, ◌≢◌, ◌+◌, ◌*◌, ◌/◌, ◌<◌, ℕ, ◌∷◌, length, false, MatchResult};
ghost use Rattle.clover_words.specs.Pack.{packed};
ghost use Rattle.clover_words.specs.Tag.{tag_number};
ghost use Rattle.clover_map.specs.Key.{IsKey};
ghost use Rattle.clover_port.specs.Asked.{IsOp};
ghost use Rattle.clover_dir.specs.Directory.{Bindings};
ghost use Rattle.clover_dir.specs.Going.{BindWent, OnMade, OnRefused, Answers};
ghost use Rattle.clover_dir.specs.Holding.{BindHolds, MayEnter};
ghost use Rattle.clover_dir.specs.Task.{IsUnderWay, made_bind, bind_step, word_at, key_length, left, after};
ghost use Rattle.clover_dir.specs.declared.stage.Stage.TheVariants.{Over, Count as AtCount};

use crate::directory::Directory;
use crate::stage::Stage;
use crate::turn::BindTurn;
use clover_map::Key;
use clover_port::{Failed, Op, Port, perform};
use clover_rule::StepName;
use clover_words::{Meta, Side, Tag, Word, pack, root_encode};
use std::marker::{Brand, Model};

/// The binding of a key to a slot. It makes one access a step, and each of them is a store: the meta word of a
/// tombstone in the own buffer, and its flushed copy; the words that spell the key, and then their flushed copies; the
/// slot's root, which leads to the tombstone, and its flushed copy; and the count of bindings. So a slot whose root is
/// durable has a durable key and version, and no client hears of a binding that is not durable.
#[derive(Drop)]
pub struct BindTask {
    slot: u32,
    key: Key,
    // The tag of the tombstone.
    own: Tag,
    stage: Stage,
}

impl Model for BindTask {
    ghost use Rattle.clover_dir.specs.Task.{UnderWay};

    ghost Value = { UnderWay };

    ghost use Rattle.clover_dir.specs.Kept.{task_in, IsTaskKept};

    ghost view = { task_in };

    ghost invariant = { IsTaskKept };
}

impl BindTask {
    /// The binding of the key to the slot, with this tag's buffer for the tombstone. It makes no access.
    pub fn make(slot: u32, key: Key, own: Tag) -> BindTask
        ensures made { result ≡ made_bind slot key own }
        ensures accesses { left (key_length key) result.stage ≡ 2 * key_length key + 5 }
    {
        is_key(&key);
        BindTask {
            slot,
            key,
            own,
            stage: Stage::Tombstone,
        }
    }

    /// Makes the binding's next access, and goes on.
    ///
    /// The binding is not over; the port is the metadata server's, and the directory is the one that the server's view
    /// has, but for a binding whose root is stored and which waits for the count. Before the first access the server is
    /// idle, neither the slot nor the key is bound, and the own buffer is free in its books; from then on the binding is
    /// its unfinished task.
    ///
    /// `Bound`, exactly where this access was the store of the count: the directory then has the binding. `Unreached`
    /// only where the access was refused: nothing has changed then.
    pub fn step<P: Port>(&mut self, port: &mut P, directory: &mut Directory) -> BindTurn
        requires going { self.old.stage ≢ Over }
        requires holds { BindHolds (P.pool port.old) self.old directory.old (P.view port.old) }
        ensures made { OnMade result ((x : ℕ) × P.made port.old (bind_step self.old directory.old) false x port.new) }
        ensures went { BindWent (P.pool port.old) self.old self.new directory.old directory.new (P.view port.old) (P.told port.old) (P.view port.new) (P.told port.new) result }
        ensures refused { OnRefused result (P.failed port.old port.new) }
    {
        directory.stands();
        match access::<P, Brand>(self, port, directory) {
            Ok(_) => self.on(directory),
            Err(_) => BindTurn::Unreached,
        }
    }

    /// The access that the binding asks for next.
    pub fn next(&self, directory: &Directory) -> Op
        ensures op { IsOp (bind_step self.now directory.now) result }
        ensures valid { IsUnderWay self.now }
    {
        let slot = self.slot;
        match self.stage {
            Stage::Tombstone => Op::Store {
                word: self.own.content_word(0),
                side: Side::Current,
                value: Meta::tombstone_word(),
            },
            Stage::FlushedTombstone => Op::Store {
                word: self.own.content_word(0),
                side: Side::Flushed,
                value: Meta::tombstone_word(),
            },
            Stage::Key(place) => Op::Store {
                word: Word::Key(slot, place),
                side: Side::Current,
                value: key_word(&self.key, place),
            },
            Stage::FlushedKey(place) => Op::Store {
                word: Word::Key(slot, place),
                side: Side::Flushed,
                value: key_word(&self.key, place),
            },
            Stage::Root => Op::Store {
                word: Word::Root(slot),
                side: Side::Current,
                value: root_encode(Some(self.own)),
            },
            Stage::FlushedRoot => Op::Store {
                word: Word::Root(slot),
                side: Side::Flushed,
                value: root_encode(Some(self.own)),
            },
            Stage::Count | Stage::Over => Op::Store {
                word: Word::Count,
                side: Side::Current,
                value: directory.list().len() as u64 + 1,
            },
        }
    }

    /// Goes on once the access was made.
    pub fn on(&mut self, directory: &mut Directory) -> BindTurn
        requires going { self.old.stage ≢ Over }
        requires enter { self.old.stage ≡ AtCount → MayEnter self.old.slot self.old.key directory.old }
        ensures answers { Answers self.old self.new directory.old directory.new result }
        ensures made { OnRefused result ⊥ }
    {
        let stage = self.after();
        self.stage = stage;
        match stage {
            Stage::Over => {
                directory.enter(self.slot, self.key.copy(), self.own);
                BindTurn::Bound
            }
            _ => BindTurn::More,
        }
    }

    // Where the binding stands once the access was made.
    fn after(&self) -> Stage
        ensures { result ≡ after (key_length self.now.key) self.now.stage }
    {
        let length = key_words(&self.key);
        match self.stage {
            Stage::Tombstone => Stage::FlushedTombstone,
            Stage::FlushedTombstone => Stage::Key(0),
            Stage::Key(place) if place + 1 < length => Stage::Key(place + 1),
            Stage::Key(_) => Stage::FlushedKey(0),
            Stage::FlushedKey(place) if place + 1 < length => Stage::FlushedKey(place + 1),
            Stage::FlushedKey(_) => Stage::Root,
            Stage::Root => Stage::FlushedRoot,
            Stage::FlushedRoot => Stage::Count,
            Stage::Count | Stage::Over => Stage::Over,
        }
    }
}

// Each key has 1 to 250 bytes. Its type says so; this is for proofs, and does nothing.
fn is_key(key: &Key)
    ensures { IsKey key.now }
{
    let bytes = key.bytes();
    let _ = pack(bytes, 0);
}

// How many words spell the key: a byte for its length and its own bytes, eight to a word.
fn key_words(key: &Key) -> u32
    ensures { result ≡ key_length key.now }
{
    (key.bytes().len() as u32 + 8) / 8
}

// A word of those that spell the key: its length and its own bytes, and zeros behind them.
fn key_word(key: &Key, place: u32) -> u64
    ensures { result ≡ word_at key.now place }
{
    let bytes = key.bytes();
    let mut spelled = [0; 251];
    spelled[0] = bytes.len() as u8;
    spelled[1..1 + bytes.len()].copy_from_slice(bytes);
    packed_key(&spelled[..1 + bytes.len()], key, place)
}

fn packed_key(spelled: &[u8], key: &Key, place: u32) -> u64
    requires { spelled.now ≡ length key.now ∷ key.now }
    ensures { result ≡ word_at key.now place }
{
    let _ = key.bytes();
    pack(spelled, place)
}

// Makes the access that the binding asks for, as the step that M names.
fn access<P: Port, M: StepName>(
    task: &BindTask,
    port: &mut P,
    directory: &Directory,
) -> Result<u64, Failed>
    requires name { (M.step ≡ bind_step task.now directory.now) × (M.first ≡ false) }
    requires going { task.now.stage ≢ Over }
    requires holds { BindHolds (P.pool port.old) task.now directory.now (P.view port.old) }
    ensures valid { IsUnderWay task.now }
    // A store gives back no number, and any number that it may have found.
    ensures ends { MatchResult result (λ x. (y : ℕ) × P.made port.old (bind_step task.now directory.now) false y port.new) (λ e. P.failed port.old port.new) }
{
    perform::<P, M>(port, task.next(directory))
}
