// A call that writes: where it stands, which access it asks for, and how it goes on.
ghost use Rattle.std.specs.Prelude.{◌≡◌, ◌≢◌, ◌≤◌, ◌<◌, ◌+◌, ◌*◌, ◌↔◌, ℕ, Option, length, take, IfOk, IfErr, IsErr, MatchResult};
ghost use Rattle.clover_words.specs.declared.meta.Kind.TheVariants.{Value as IsValue};
ghost use Rattle.clover_words.specs.Meta.{IsMeta, meta_word as spelled};
ghost use Rattle.clover_words.specs.Place.{IsWithin};
ghost use Rattle.clover_words.specs.Tag.{tag_number};
ghost use Rattle.clover_rule.specs.Content.{InRange, Fits};
ghost use Rattle.clover_rule.specs.Steps.{word_of};
ghost use Rattle.clover_rule.specs.declared.view.View.{View};
ghost use Rattle.clover_map.specs.declared.call.Reply.TheVariants.{Absent, Differs};
ghost use Rattle.clover_port.specs.Asked.{IsOp, IsFinding};
ghost use Rattle.clover_walk.specs.Finding.{MayFind};
ghost use Rattle.clover_walk.specs.Walking.{walk_step, goes_on, budget};
ghost use Rattle.clover_put.specs.Answering.{Answers, OnReached, OnRefused};
ghost use Rattle.clover_put.specs.Finding.{OnFinding, PutFinds, PutAnswers, Came, Tells};
ghost use Rattle.clover_put.specs.Going.{Went, done_with};
ghost use Rattle.clover_put.specs.Holding.{PutHolds};
ghost use Rattle.clover_put.specs.Putting.{Seeking, Over, made_put, put_step, put_on, commits, body, body_word, at_tail, filled, walked, after_store, after_flush, on_meta, kind_of};
ghost use Rattle.clover_put.specs.declared.turn.PutTurn.TheVariants.{More};
ghost use Rattle.clover_put.specs.Standing.{standing, reply_at};

use crate::job::{Job, TooLong};
use crate::stage::{Stage, Verdict};
use crate::turn::PutTurn;
use clover_port::{Failed, Op, Port, perform};
use clover_rule::StepName;
use clover_walk::{Turn, Walk};
use clover_words::{Kind, Meta, Side, Tag, ValueBuf, Word, pack, root_encode};
use std::marker::{Brand, Model};

/// A put, a delete or a swap of the key of one slot. It makes one access a step.
///
/// It stores the content words of its own version, the meta word first, and then their flushed copies in the same
/// order. Then it walks to the tail. A delete or a swap looks at the tail's meta word first: on a tombstone, and for
/// a swap on another tag than the expected one, it loads the tail's next word again, and where that shows the tail
/// still unlinked it is answered. Otherwise one exchange links the own tag behind the tail, where that is still
/// unlinked; from then on the call stands in the history. The raise of the flushed copy of that link makes it durable,
/// and the store of the own tag in the slot's shortcut ends the call.
#[derive(Drop)]
pub struct PutCall {
    walk: Walk,
    job: Job,
    // The tag that it commits, whose buffer is the caller's until the exchange.
    own: Tag,
    flags: u32,
    buffer: ValueBuf,
    stage: Stage,
}

impl Model for PutCall {
    ghost use Rattle.clover_put.specs.Putting.{Putting};

    ghost Value = { Putting };

    ghost use Rattle.clover_put.specs.Kept.{meaning, IsKept};

    ghost view = { meaning };

    ghost invariant = { IsKept };
}

impl PutCall {
    /// A call that writes, with the walk to its slot's tail, the tag that it is to commit, and the flags and bytes of
    /// the value. A delete stores no value, whatever they are. It makes no access and takes no memory.
    ///
    /// `TooLong` exactly where there are more bytes than a buffer has room for, with both numbers.
    pub fn make(
        walk: Walk,
        job: Job,
        own: Tag,
        flags: u32,
        bytes: &[u8],
    ) -> Result<PutCall, TooLong>
        requires own { InRange walk.pool (tag_number own) }
        ensures made { IfOk result (λ call. call ≡ made_put walk job (tag_number own) (record { flags = flags; bytes = bytes.now })) }
        ensures long { IfErr result (λ fault. (fault.length ≡ length bytes.now) × (fault.room ≡ 8 * walk.pool.words)) }
        ensures when { IsErr result ↔ (8 * walk.pool.words < length bytes.now) }
    {
        let length = bytes.len();
        let room = 8 * walk.pool().words as usize;
        if length > room {
            return Err(TooLong { length, room });
        }
        Ok(PutCall {
            walk,
            job,
            own,
            flags,
            buffer: buffer_with(bytes),
            stage: Stage::Storing(0),
        })
    }

    /// Makes the call's next access, and goes on by what it found.
    ///
    /// The call is not over; the port is of its pool, and of the one client that makes all its steps.
    ///
    /// `Decided`, once, exactly where this access was the exchange that linked the own tag. `Stored` and `Deleted`,
    /// exactly where it was the store of the own tag in the slot's shortcut, which comes after the raise of that link.
    /// `Absent` and `Differs`, exactly where it was the load that showed the tail again unlinked. After each of these
    /// four the tag of the answer is known to be durable in the slot. `Behind`, exactly where by this access the turns
    /// of the call have reached the budget. `Unreached`, only where the access was refused and nothing was committed:
    /// neither the call nor what the client knows has changed then. `Linked`, only where an access after the exchange
    /// was refused.
    pub fn step<P: Port>(&mut self, port: &mut P) -> PutTurn
        requires going { self.old.stage ≢ Over }
        requires pool { P.pool port.old ≡ self.old.walk.pool }
        requires holds { PutHolds self.old (P.view port.old) }
        ensures made { OnReached result ((x : ℕ) × P.made port.old (put_step self.old (P.view port.old)) self.old.walk.first x port.new × (self.new ≡ put_on self.old x)) }
        ensures went { Went (P.pool port.old) self.old self.new (P.view port.old) (P.told port.old) (P.view port.new) (P.told port.new) result }
        ensures refused { OnRefused result (P.failed port.old port.new) }
    {
        self.fits();
        match access::<P, Brand>(self, port) {
            Ok(found) => self.on(found),
            Err(_) => self.refused(),
        }
    }

    /// The slot whose key it writes.
    pub fn slot(&self) -> u32
        ensures { result ≡ self.now.walk.slot }
    {
        self.walk.slot()
    }

    /// What it is to do with its key.
    pub fn job(&self) -> Job
        ensures { result ≡ self.now.job }
    {
        self.job
    }

    /// What holds of each call: the version that it is to commit fits into a buffer of its pool. This is for proofs,
    /// and does nothing.
    pub fn fits(&self)
        ensures { length (body self.now) ≤ self.now.walk.pool.words + 1 }
    {
        let _ = &self.stage;
    }

    /// The access that the call asks for next.
    pub fn next(&self) -> Op
        ensures op { (v : View) → IsOp (put_step self.now v) result }
        ensures finds { OnFinding self.now.stage (IsFinding result) }
        ensures within { self.now.stage ≡ Seeking → IsWithin self.now.walk.pool (word_of (walk_step self.now.walk)) }
        ensures fits { InRange self.now.walk.pool self.now.own × Fits self.now.walk.pool (commits self.now.job self.now.value) }
    {
        match self.stage {
            Stage::Storing(place) => Op::Store {
                word: self.own.content_word(place),
                side: Side::Current,
                value: self.body_word(place),
            },
            Stage::Flushing(place) => Op::Store {
                word: self.own.content_word(place),
                side: Side::Flushed,
                value: self.body_word(place),
            },
            Stage::Seeking | Stage::Over => self.walk.next(),
            Stage::AtMeta(tail) => Op::Load(tail.content_word(0)),
            Stage::AtLink(tail) => Op::Exchange {
                word: tail.next_word(),
                expected: tail.unlinked(),
                new: tail.linked(self.own),
            },
            Stage::Deciding { tail, reply: _ } | Stage::AtBad(tail) => Op::Load(tail.next_word()),
            Stage::AtRaise(tail) => Op::Raise {
                word: tail.next_word(),
                value: tail.linked(self.own),
            },
            Stage::AtShort => Op::Store {
                word: Word::Short(self.walk.slot()),
                side: Side::Current,
                value: root_encode(Some(self.own)),
            },
        }
    }

    /// Goes on by what the access found; after a store that may be any number. It never answers `Unreached`, nor
    /// `Linked`.
    pub fn on(&mut self, found: u64) -> PutTurn
        requires found { PutFinds self.old found }
        requires below { self.old.walk.turns < budget self.old.walk.pool }
        ensures goes { self.new ≡ put_on self.old found }
        ensures answers { PutAnswers self.old found result }
    {
        let stage = self.stage;
        match stage {
            Stage::Storing(place) => {
                let next = self.after_store(place);
                self.fill(next)
            }
            Stage::Flushing(place) => {
                let next = self.after_flush(place);
                self.fill(next)
            }
            Stage::Seeking | Stage::AtBad(_) => self.go_on(found),
            Stage::AtMeta(tail) => {
                self.stage = self.after_meta(tail, found);
                PutTurn::More
            }
            Stage::AtLink(tail) if found == tail.unlinked() => {
                self.stage = Stage::AtRaise(tail);
                PutTurn::Decided { tag: self.own }
            }
            Stage::Deciding { tail, reply } if found == tail.unlinked() => {
                self.stage = Stage::Over;
                reply_turn(reply, tail)
            }
            Stage::AtLink(_) | Stage::Deciding { tail: _, reply: _ } => self.go_on(found),
            Stage::AtRaise(_) => {
                self.stage = Stage::AtShort;
                PutTurn::More
            }
            Stage::AtShort => {
                self.stage = Stage::Over;
                done_turn(self.job, self.own)
            }
            Stage::Over => unreachable!(),
        }
    }

    /// Answers for an access that was refused. Before the exchange the call stands where it stood, and after it the
    /// call is over.
    pub fn refused(&mut self) -> PutTurn
        requires going { self.old.stage ≢ Over }
        ensures answer { Answers self.old self.new result }
        ensures refused { OnReached result ⊥ }
    {
        match self.stage {
            Stage::AtRaise(_) | Stage::AtShort => {
                self.stage = Stage::Over;
                PutTurn::Linked { tag: self.own }
            }
            _ => PutTurn::Unreached,
        }
    }

    // How many content words the own version has.
    fn body_length(&self) -> u32
        ensures { result ≡ length (body self.now) }
    {
        match self.job {
            Job::Delete => 1,
            Job::Put | Job::Swap(_) => 1 + (self.buffer.value().len() as u32 + 7) / 8,
        }
    }

    // The content word of the own version at this place.
    fn body_word(&self, place: u32) -> u64
        ensures { result ≡ body_word self.now.job self.now.value place }
    {
        match self.job {
            Job::Delete => Meta::tombstone_word(),
            Job::Put | Job::Swap(_) if place == 0 => value_word(self.flags, self.buffer.length),
            Job::Put | Job::Swap(_) => pack(self.buffer.value(), place - 1),
        }
    }

    // Where the call stands after it stored the content word at this place.
    fn after_store(&self, place: u32) -> Stage
        requires { place < length (body self.now) }
        ensures { standing result ≡ after_store (length (body self.now)) place }
    {
        let length = self.body_length();
        if place + 1 < length {
            Stage::Storing(place + 1)
        } else {
            Stage::Flushing(0)
        }
    }

    // Where the call stands after it flushed the content word at this place.
    fn after_flush(&self, place: u32) -> Stage
        requires { place < length (body self.now) }
        ensures { standing result ≡ after_flush (length (body self.now)) place }
    {
        let length = self.body_length();
        if place + 1 < length {
            Stage::Flushing(place + 1)
        } else {
            Stage::Seeking
        }
    }

    // Where the call stands after it loaded the tail's meta word.
    fn after_meta(&self, tail: Tag, word: u64) -> Stage
        ensures { standing result ≡ on_meta self.now.job (tag_number tail) (kind_of word) }
    {
        match (kind_in(word), self.job) {
            (Some(Kind::Tombstone), _) => Stage::Deciding {
                tail,
                reply: Verdict::Absent,
            },
            (Some(Kind::Value), Job::Swap(expected)) if expected.number() != tail.number() => {
                Stage::Deciding {
                    tail,
                    reply: Verdict::Differs,
                }
            }
            (Some(Kind::Value), _) => Stage::AtLink(tail),
            (None, _) => Stage::AtBad(tail),
        }
    }

    // Stands there after a store or a flush.
    fn fill(&mut self, stage: Stage) -> PutTurn
        ensures value { self.new ≡ filled self.old (standing stage) }
        ensures answer { result ≡ More }
    {
        self.walk.begun();
        self.stage = stage;
        PutTurn::More
    }

    // Goes on with the walk by a next word, or by what else the walk's access found.
    fn go_on(&mut self, found: u64) -> PutTurn
        requires found { MayFind self.old.walk found }
        requires below { self.old.walk.turns < budget self.old.walk.pool }
        ensures value { self.new ≡ walked self.old (goes_on self.old.walk found) }
        ensures came { Came self.old.walk found result }
    {
        match self.walk.on(found) {
            Turn::More => {
                self.stage = Stage::Seeking;
                PutTurn::More
            }
            Turn::AtTail(tail) => {
                self.stage = at_tail_stage(self.job, tail);
                PutTurn::More
            }
            Turn::Behind { turns } => {
                self.stage = Stage::Over;
                PutTurn::Behind { turns }
            }
            Turn::Unreached => unreachable!(),
        }
    }
}

// What a meta word says that a version is. None where it is the word of no version.
fn kind_in(word: u64) -> Option<Kind>
    ensures { result ≡ kind_of word }
{
    match Meta::decode(word) {
        Some(meta) => Some(meta.kind),
        None => None,
    }
}

// What a job does at a tail.
fn at_tail_stage(job: Job, tail: Tag) -> Stage
    ensures { standing result ≡ at_tail job (tag_number tail) }
{
    match job {
        Job::Put => Stage::AtLink(tail),
        Job::Delete | Job::Swap(_) => Stage::AtMeta(tail),
    }
}

// The answer of a call that commits nothing behind this tail.
fn reply_turn(reply: Verdict, tail: Tag) -> PutTurn
    ensures { Tells (reply_at reply (tag_number tail)) tail result }
{
    match reply {
        Verdict::Absent => PutTurn::Absent { tail },
        Verdict::Differs => PutTurn::Differs { tag: tail },
    }
}

// The answer of a job whose own version is durable.
fn done_turn(job: Job, tag: Tag) -> PutTurn
    ensures { result ≡ done_with job tag }
{
    match job {
        Job::Put | Job::Swap(_) => PutTurn::Stored { tag },
        Job::Delete => PutTurn::Deleted { tag },
    }
}

// A buffer with these bytes.
fn buffer_with(bytes: &[u8]) -> ValueBuf
    requires { length bytes.now ≤ 1024 }
    ensures { (result.length ≡ length bytes.now) × (take result.length result.bytes ≡ bytes.now) }
{
    let mut room = [0u8; 1024];
    room[..bytes.len()].copy_from_slice(bytes);
    ValueBuf {
        bytes: room,
        length: bytes.len() as u32,
    }
}

// The meta word of a value.
fn value_word(flags: u32, length: u32) -> u64
    requires { IsMeta (record { kind = IsValue; flags = flags; length = length }) }
    ensures { result ≡ spelled (record { kind = IsValue; flags = flags; length = length }) }
{
    let meta = Meta {
        kind: Kind::Value,
        flags,
        length,
    };
    meta.encode()
}

// Makes the access that the call asks for, as the step that M names.
fn access<P: Port, M: StepName>(call: &PutCall, port: &mut P) -> Result<u64, Failed>
    requires name { (M.step ≡ put_step call.now (P.view port.old)) × (M.first ≡ call.now.walk.first) }
    requires going { call.now.stage ≢ Over }
    requires pool { P.pool port.old ≡ call.now.walk.pool }
    requires holds { PutHolds call.now (P.view port.old) }
    // A store gives back no number, and any number that it may have found.
    ensures ends { MatchResult result (λ x. (y : ℕ) × P.made port.old (put_step call.now (P.view port.old)) call.now.walk.first y port.new × OnFinding call.now.stage (x ≡ y)) (λ e. P.failed port.old port.new) }
{
    perform::<P, M>(port, call.next())
}
