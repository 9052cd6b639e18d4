// A get: where it stands, which access it asks for, and how it goes on.
ghost use Rattle.std.specs.Prelude.{◌≡◌, ◌<◌, ◌≤◌, ℕ, List, Option, Some, IfSome, IfNone, MatchResult, length};
ghost use Rattle.clover_words.specs.Meta.{MetaParts};
ghost use Rattle.clover_words.specs.Place.{IsWithin};
ghost use Rattle.clover_words.specs.Tag.{tag_number};
ghost use Rattle.clover_words.specs.declared.bytes.ValueBuf.{ValueBuf as Room};
ghost use Rattle.clover_words.specs.Version.{unlinked};
ghost use Rattle.clover_rule.specs.Steps.{word_of};
ghost use Rattle.clover_port.specs.Asked.{IsOp, IsFinding};
ghost use Rattle.clover_walk.specs.Finding.{MayFind};
ghost use Rattle.clover_walk.specs.Walking.{goes_on, walk_step, budget};
ghost use Rattle.clover_get.specs.Answering.{OnReached, OnUnreached};
ghost use Rattle.clover_get.specs.Finding.{GetFinds, GetAnswers, Came, PacksFrom};
ghost use Rattle.clover_get.specs.Getting.{Seeking, AtFound, Over, IsOpen, Reads, GoesOn, FillsFrom, getting, get_step, read_stage, valued, sought};
ghost use Rattle.clover_get.specs.Going.{Went, key_of};
ghost use Rattle.clover_get.specs.Holding.{GetHolds};
ghost use Rattle.clover_get.specs.Standing.{standing};

use crate::stage::Stage;
use crate::turn::GetTurn;
use clover_port::{Failed, Op, Port, perform};
use clover_rule::StepName;
use clover_walk::{Turn, Walk};
use clover_words::{Kind, Meta, Pool, Tag, ValueBuf, Word, unpack};
use std::marker::{Brand, Model};

/// A get of the key that a slot binds. It makes one access a step, and takes no memory.
///
/// It walks to the tail of the slot's chain, loads the tail's meta word and then its value words, in order, and then
/// the tail's next word again. Where that shows the tail unlinked, the call is decided: what was copied is the value
/// of the key at that moment. Else the call goes on along the chain as after any load of that word.
#[derive(Drop)]
pub struct GetCall {
    walk: Walk,
    stage: Stage,
}

impl Model for GetCall {
    ghost use Rattle.clover_get.specs.Getting.{Getting};

    ghost Value = { Getting };

    ghost use Rattle.clover_get.specs.Kept.{meaning};

    ghost view = { meaning };
}

impl GetCall {
    /// A get of the key that the walk's slot binds. The walk has made no step yet.
    pub fn make(walk: Walk) -> GetCall
        ensures value { result ≡ getting walk Seeking }
    {
        GetCall {
            walk,
            stage: Stage::Seeking,
        }
    }

    /// Makes the call's next access, and goes on by what it found.
    ///
    /// The call is not over; the port is of its pool, and of the one actor that makes all its steps; and the same
    /// room is passed to all its steps.
    ///
    /// `Found` and `Absent`, only where this access was the load of the tail's next word that showed the tail
    /// unlinked, and then the tail is known to be durable in the slot; at `Found` the value's bytes stand in the room,
    /// whose length is theirs, and stood there before the access too; earlier the room holds no promise to the caller.
    /// `Behind`, exactly where by this access the turns of the call have reached the budget. `Unreached`, only where
    /// the access was refused; neither the call nor the room nor what the actor knows has changed then.
    pub fn step<P: Port>(&mut self, port: &mut P, into: &mut ValueBuf) -> GetTurn
        requires open { IsOpen self.old.stage }
        requires pool { P.pool port.old ≡ self.old.walk.pool }
        requires holds { GetHolds self.old (P.view port.old) into.old }
        ensures made { OnReached result ((x : ℕ) × P.made port.old (get_step self.old (key_of self.old (P.view port.old)) into.old) self.old.walk.first x port.new × GoesOn self.old into.new.length x self.new × FillsFrom self.old.stage x into.old into.new) }
        ensures went { Went (P.pool port.old) self.old self.new into.old into.new (P.view port.old) (P.told port.old) (P.view port.new) (P.told port.new) result }
        ensures unreached { OnUnreached result (P.failed port.old port.new × (self.new ≡ self.old) × (into.new ≡ into.old)) }
    {
        match access::<P, Brand>(self, port, into) {
            Ok(found) => self.on(found, into),
            Err(_) => GetTurn::Unreached,
        }
    }

    /// The slot whose key it gets.
    pub fn slot(&self) -> u32
        ensures { result ≡ self.now.walk.slot }
    {
        self.walk.slot()
    }

    /// The flags of the value that stands in the room, where the next access is the last load for it. Only such an
    /// access may be answered with `Found`.
    pub fn copied(&self) -> Option<u32>
        ensures some { IfSome result (λ flags. (t : ℕ) × (self.now.stage ≡ AtFound t flags)) }
        ensures none { IfNone result ((t f : ℕ) → self.now.stage ≡ AtFound t f → ⊥) }
    {
        let stage = self.stage;
        match stage {
            Stage::AtFound { tag: _, flags } => Some(flags),
            _ => None,
        }
    }

    /// The access that the get asks for next.
    pub fn next(&self) -> Op
        ensures op { (key : List ℕ) (room : Room) → IsOp (get_step self.now key room) result }
        ensures finds { IsFinding result }
        ensures within { self.now.stage ≡ Seeking → IsWithin self.now.walk.pool (word_of (walk_step self.now.walk)) }
    {
        match self.stage {
            Stage::Seeking | Stage::Over => self.walk.next(),
            Stage::AtMeta(tag) => Op::Load(Word::Meta(tag.buffer())),
            Stage::AtValue {
                tag,
                flags: _,
                next,
            } => Op::Load(Word::Value(tag.buffer(), next)),
            Stage::AtFound { tag, flags: _ } | Stage::AtDead(tag) | Stage::AtBad(tag) => {
                Op::Load(tag.next_word())
            }
        }
    }

    /// Goes on by what the access found. It never answers `Unreached`.
    pub fn on(&mut self, found: u64, into: &mut ValueBuf) -> GetTurn
        requires found { GetFinds self.old into.old found }
        requires below { self.old.walk.turns < budget self.old.walk.pool }
        ensures goes { GoesOn self.old into.new.length found self.new }
        ensures fills { FillsFrom self.old.stage found into.old into.new }
        ensures packs { PacksFrom self.old.stage found into.old into.new }
        ensures answers { GetAnswers self.old found result }
    {
        let stage = self.stage;
        match stage {
            Stage::Seeking | Stage::AtBad(_) => self.go_on(found),
            Stage::AtMeta(tag) => {
                self.take_meta(tag, found, into);
                GetTurn::More
            }
            Stage::AtValue { tag, flags, next } => {
                unpack(found, next, into);
                self.stage = value_stage(tag, flags, into.length, next + 1);
                GetTurn::More
            }
            Stage::AtFound { tag, flags } if found == tag.unlinked() => {
                self.stage = Stage::Over;
                GetTurn::Found { tag, flags }
            }
            Stage::AtDead(tag) if found == tag.unlinked() => {
                self.stage = Stage::Over;
                GetTurn::Absent { tail: tag }
            }
            Stage::AtFound { tag: _, flags: _ } | Stage::AtDead(_) => self.go_on(found),
            Stage::Over => unreachable!(),
        }
    }

    // Goes on with the walk by a next word, or by what else the walk's access found.
    fn go_on(&mut self, found: u64) -> GetTurn
        requires found { MayFind self.old.walk found }
        requires below { self.old.walk.turns < budget self.old.walk.pool }
        ensures value { self.new ≡ sought (goes_on self.old.walk found) }
        ensures came { Came self.old.walk found result }
    {
        match self.walk.on(found) {
            Turn::More => {
                self.stage = Stage::Seeking;
                GetTurn::More
            }
            Turn::AtTail(tag) => {
                self.stage = Stage::AtMeta(tag);
                GetTurn::More
            }
            Turn::Behind { turns } => {
                self.stage = Stage::Over;
                GetTurn::Behind { turns }
            }
            Turn::Unreached => unreachable!(),
        }
    }

    // Goes on by the tag's meta word.
    fn take_meta(&mut self, tag: Tag, word: u64, into: &mut ValueBuf)
        ensures stage { (o : Option MetaParts) × Reads word o × (self.new ≡ getting self.old.walk (read_stage self.old.walk.pool (tag_number tag) o)) × IfSome o (λ m. into.new.length ≡ m.length) }
        ensures bytes { into.new.bytes ≡ into.old.bytes }
    {
        self.stage = match Meta::decode(word) {
            Some(meta) => {
                into.length = meta.length;
                meta_stage(&self.walk.pool(), tag, meta)
            }
            None => Stage::AtBad(tag),
        };
    }
}

// The stage after so many value words, of a value of so many bytes.
fn value_stage(tag: Tag, flags: u32, length: u32, next: u32) -> Stage
    requires { length ≤ 1024 }
    ensures { standing result ≡ valued (tag_number tag) flags length next }
{
    if next < length.div_ceil(8) {
        Stage::AtValue { tag, flags, next }
    } else {
        Stage::AtFound { tag, flags }
    }
}

// The stage after a meta word.
fn meta_stage(pool: &Pool, tag: Tag, meta: Meta) -> Stage
    ensures { standing result ≡ read_stage pool.now (tag_number tag) (Some meta) }
{
    match meta.kind {
        Kind::Tombstone => Stage::AtDead(tag),
        Kind::Value if meta.length > 8 * pool.words => Stage::AtBad(tag),
        Kind::Value => value_stage(tag, meta.flags, meta.length, 0),
    }
}

// Makes the access that the get asks for, as the step that M names.
fn access<P: Port, M: StepName>(
    call: &GetCall,
    port: &mut P,
    into: &ValueBuf,
) -> Result<u64, Failed>
    requires name { (M.step ≡ get_step call.now (key_of call.now (P.view port.old)) into.now) × (M.first ≡ call.now.walk.first) }
    requires open { IsOpen call.now.stage }
    requires pool { P.pool port.old ≡ call.now.walk.pool }
    requires holds { GetHolds call.now (P.view port.old) into.now }
    ensures ends { MatchResult result (λ x. P.made port.old (get_step call.now (key_of call.now (P.view port.old)) into.now) call.now.walk.first x port.new) (λ e. P.failed port.old port.new) }
{
    let _ = into.length;
    perform::<P, M>(port, call.next())
}
