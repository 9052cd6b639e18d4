// A walk: where it stands, and how it goes on.
ghost use Rattle.std.specs.Prelude.{◌≡◌, ◌<◌, ℕ, Option, Some, IfSome, MatchResult};
ghost use Rattle.clover_words.specs.Tag.{tag_number, home};
ghost use Rattle.clover_words.specs.Version.{buffer_at};
ghost use Rattle.clover_rule.specs.Content.{InRange};
ghost use Rattle.clover_rule.specs.Steps.{word_of};
ghost use Rattle.clover_words.specs.Place.{IsWithin};
ghost use Rattle.clover_rule.specs.Told.{IsShown};
ghost use Rattle.clover_rule.specs.Words.{next_of, root_of};
ghost use Rattle.clover_words.specs.declared.word.Word.TheVariants.{Next as NextOf, Root as RootOf, Short as ShortOf};
ghost use Rattle.clover_port.specs.Asked.{IsOp, IsFinding};
ghost use Rattle.clover_walk.specs.Walking.{IsOnWay, AreTags, Holds, ShowsNext, made_walk, begun, walk_step, goes_on, followed, hops, shortened, rooted, turned, placed, budget};
ghost use Rattle.clover_walk.specs.Standing.{standing, number_of};
ghost use Rattle.clover_walk.specs.Turning.{Answers, OnReached, OnUnreached};
ghost use Rattle.clover_walk.specs.Finding.{MayFind, Walked};
ghost use Rattle.clover_walk.specs.declared.turn.Turn.TheVariants.{More};

use crate::start::{Stand, Start};
use crate::turn::Turn;
use clover_port::{Failed, Op, Port, perform};
use clover_rule::StepName;
use clover_words::{NextWord, Pool, Tag, Word, root_decode};
use std::marker::{Brand, Model};

/// A walk of one call along one slot's chain, to the chain's tail. It makes one access a step.
///
/// It begins at the cursor, a tag that the actor knows to be durable in the slot, or else at the tag in the slot's
/// shortcut, or where that is empty at the slot's root. At a tag it loads the next word. That word may show a link:
/// then the walk raises the flushed copy to it, and goes on at the link's target. It may show no link: the tag is the
/// tail. Or it may show another generation than the tag's: the start is stale, the tag has been passed, and the walk
/// begins again, after a cursor at the shortcut, after a shortcut at the root and after a root at the root again.
/// Each link and each passed tag that it is shown is a turn.
#[derive(Drop)]
pub struct Walk {
    pool: Pool,
    slot: u32,
    turns: u64,
    // Whether the next access is the first of its call.
    first: bool,
    start: Start,
    stand: Stand,
}

impl Model for Walk {
    ghost use Rattle.clover_walk.specs.Walking.{Walking};

    ghost Value = { Walking };

    ghost use Rattle.clover_walk.specs.Kept.{meaning, IsKept};

    ghost view = { meaning };

    ghost invariant = { IsKept };
}

impl Walk {
    /// A walk on a bound slot, from a cursor where there is one. Its first access is the first of its call.
    pub fn make(pool: Pool, slot: u32, cursor: Option<Tag>) -> Walk
        requires slot { slot < pool.slots }
        requires cursor { IfSome cursor (λ tag. InRange pool (tag_number tag)) }
        ensures value { result ≡ made_walk pool slot (number_of cursor) }
    {
        let (start, stand) = match cursor {
            Some(tag) => (Start::FromCursor, Stand::AtTag(tag)),
            None => (Start::FromShort, Stand::AtShort),
        };
        Walk {
            pool,
            slot,
            turns: 0,
            first: true,
            start,
            stand,
        }
    }

    /// Tells the walk that its call has made an access, so that the walk's next one is not the call's first.
    pub fn begun(&mut self)
        ensures value { self.new ≡ begun self.old }
    {
        self.first = false;
    }

    /// The pool that the walk is in.
    pub fn pool(&self) -> Pool
        ensures value { result ≡ self.now.pool }
    {
        self.pool
    }

    /// The slot whose chain it walks.
    pub fn slot(&self) -> u32
        ensures value { result ≡ self.now.slot }
    {
        self.slot
    }

    /// The access that the walk asks for next. Where the walk is at the tail, it is a further load of the tail's next
    /// word.
    pub fn next(&self) -> Op
        ensures op { IsOp (walk_step self.now) result }
        ensures finds { IsFinding result }
        ensures within { IsWithin self.now.pool (word_of (walk_step self.now)) }
    {
        match self.stand {
            Stand::AtShort => Op::Load(Word::Short(self.slot)),
            Stand::AtRoot | Stand::Ended => Op::Load(Word::Root(self.slot)),
            Stand::AtTag(tag) | Stand::OnTail(tag) => Op::Load(tag.next_word()),
            Stand::AtLink { from, to } => Op::Raise {
                word: from.next_word(),
                value: from.linked(to),
            },
        }
    }

    /// Goes on by what the access found.
    ///
    /// `AtTail`, exactly where the word was a next word that shows the tag unlinked at its generation. `Behind`,
    /// exactly where the turns of the call have reached the budget. It never answers `Unreached`.
    pub fn on(&mut self, found: u64) -> Turn
        requires found { MayFind self.old found }
        requires below { self.old.turns < budget self.old.pool }
        ensures value { self.new ≡ goes_on self.old found }
        ensures answer { Answers self.new result }
    {
        let stand = self.stand;
        match stand {
            Stand::AtShort => self.cut(found),
            Stand::AtRoot => self.lead(found),
            Stand::AtTag(tag) => self.follow(tag, found),
            Stand::AtLink { from: _, to } => self.place(Stand::AtTag(to)),
            Stand::OnTail(tag) => self.follow(tag, found),
            Stand::Ended => unreachable!(),
        }
    }

    /// Makes the walk's next access, and goes on by what it found.
    ///
    /// The walk has not ended, nor is it at the tail; the port is of its pool, and of the one actor that makes all
    /// its steps.
    ///
    /// `AtTail`, exactly where this access was the load of the tag's next word and showed it unlinked at the tag's
    /// generation. `Behind`, exactly where by this access the turns of the call have reached the budget.
    /// `Unreached`, only where the access was refused; neither the walk nor what the actor knows has changed then.
    pub fn step<P: Port>(&mut self, port: &mut P) -> Turn
        requires way { IsOnWay self.old.stand }
        requires pool { P.pool port.old ≡ self.old.pool }
        requires holds { Holds self.old (P.view port.old) }
        ensures made { OnReached result ((x : ℕ) × P.made port.old (walk_step self.old) self.old.first x port.new × Walked self.old x (P.view port.new) self.new result) }
        ensures unreached { OnUnreached result (P.failed port.old port.new × (self.new ≡ self.old)) }
    {
        match access::<P, Brand>(self, port) {
            Ok(found) => self.on(found),
            Err(_) => Turn::Unreached,
        }
    }

    /// Takes a next word that the caller's own access found at the walk's tail, and goes on as after a load. It
    /// makes no access: the caller's has counted the turn already. It never answers `Unreached`.
    pub fn seen<P: Port>(&mut self, port: &mut P, word: u64) -> Turn
        requires pool { P.pool port.old ≡ self.old.pool }
        requires shows { ShowsNext self.old (P.view port.old) word }
        ensures walked { Walked self.old word (P.view port.new) self.new result }
        ensures port { port.new ≡ port.old }
    {
        let _ = port;
        // Read for what the walk keeps.
        let _slot = self.slot;
        self.on(word)
    }

    // Stands there, without a turn.
    fn place(&mut self, stand: Stand) -> Turn
        requires tags { AreTags self.old.pool (standing stand) }
        requires way { IsOnWay (standing stand) }
        ensures value { self.new ≡ placed self.old (standing stand) }
        ensures answer { result ≡ More }
    {
        self.first = false;
        self.stand = stand;
        Turn::More
    }

    // Makes a turn and stands there, or ends where the turns reach the budget.
    fn turn(&mut self, start: Start, stand: Stand) -> Turn
        requires tags { AreTags self.old.pool (standing stand) }
        requires way { IsOnWay (standing stand) }
        requires below { self.old.turns < budget self.old.pool }
        ensures value { self.new ≡ turned self.old start (standing stand) }
        ensures answer { Answers self.new result }
    {
        self.first = false;
        self.start = start;
        self.turns += 1;
        if self.turns < self.pool.total() + 2 {
            self.stand = stand;
            Turn::More
        } else {
            self.stand = Stand::Ended;
            Turn::Behind { turns: self.turns }
        }
    }

    // Goes on by a shortcut that was loaded: at its tag, or at the root where it is empty.
    fn cut(&mut self, word: u64) -> Turn
        requires number { IsShown self.old.pool (ShortOf self.old.slot) word }
        ensures value { self.new ≡ shortened self.old (root_of word) }
        ensures answer { Answers self.new result }
    {
        match root_decode(word) {
            Some(Some(tag)) => self.place(Stand::AtTag(tag)),
            Some(None) => {
                self.start = Start::FromRoot;
                self.place(Stand::AtRoot)
            }
            None => unreachable!(),
        }
    }

    // Goes on by a root that was loaded.
    fn lead(&mut self, word: u64) -> Turn
        requires number { IsShown self.old.pool (RootOf self.old.slot) word }
        requires bound { (t : ℕ) × (root_of word ≡ Some t) }
        ensures value { self.new ≡ rooted self.old (root_of word) }
        ensures answer { Answers self.new result }
    {
        // A bound slot's root leads to a tag.
        let tag = root_decode(word).unwrap().unwrap();
        self.place(Stand::AtTag(tag))
    }

    // Goes on by a next word of the tag.
    fn follow(&mut self, tag: Tag, word: u64) -> Turn
        requires tag { InRange self.old.pool (tag_number tag) }
        requires number { IsShown self.old.pool (NextOf (buffer_at (home (tag_number tag)))) word }
        requires below { self.old.turns < budget self.old.pool }
        ensures value { self.new ≡ followed self.old (tag_number tag) (next_of word) }
        ensures answer { Answers self.new result }
    {
        match NextWord::decode(word) {
            Some(next) if next.own == tag.generation => self.advance(tag, next.link),
            Some(_) => {
                let start = self.start.next();
                self.turn(start, start.stand())
            }
            None => unreachable!(),
        }
    }

    // Goes on by the link of the tag's next word at the tag's generation.
    fn advance(&mut self, tag: Tag, link: Option<Tag>) -> Turn
        requires tag { InRange self.old.pool (tag_number tag) }
        requires link { IfSome link (λ to. InRange self.old.pool (tag_number to)) }
        requires below { self.old.turns < budget self.old.pool }
        ensures value { self.new ≡ hops self.old (tag_number tag) (number_of link) }
        ensures answer { Answers self.new result }
    {
        match link {
            Some(to) => {
                let start = self.start;
                self.turn(start, Stand::AtLink { from: tag, to })
            }
            None => {
                self.first = false;
                self.stand = Stand::OnTail(tag);
                Turn::AtTail(tag)
            }
        }
    }
}

// Makes the access that the walk asks for, as the step that M names.
fn access<P: Port, M: StepName>(walk: &Walk, port: &mut P) -> Result<u64, Failed>
    requires name { (M.step ≡ walk_step walk.now) × (M.first ≡ walk.now.first) }
    requires way { IsOnWay walk.now.stand }
    requires pool { P.pool port.old ≡ walk.now.pool }
    requires holds { Holds walk.now (P.view port.old) }
    ensures ends { MatchResult result (λ x. P.made port.old (walk_step walk.now) walk.now.first x port.new) (λ e. P.failed port.old port.new) }
{
    perform::<P, M>(port, walk.next())
}
