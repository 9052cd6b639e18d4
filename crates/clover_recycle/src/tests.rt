// The accesses of one recycling, word for word, with numbers worked out by hand.
ghost use Rattle.std.specs.Prelude.{◌≡◌, ◌<◌};
ghost use Rattle.clover_words.specs.Tag.{tag_number, age};
ghost use Rattle.clover_recycle.specs.Recycling.{goes_on, MayFind};

use crate::{RecycleTask, RecycleTurn};
use clover_port::Op;
use clover_words::{Buffer, Side, Tag, Word};
use std::process::Abort;
use std::test::Fail;

// The tag of a buffer of node 0 at generation 0.
fn tag(index: u32) -> Tag
    requires { index < 65536 }
    ensures { result ≡ record { node = 0; index = index; generation = 0 } }
{
    Tag {
        node: 0,
        index,
        generation: 0,
    }
}

// The link of generation 0 to the new tag, which is also its spelling as a root, and generation 1 without a link.
const LINK: u64 = 0x0000_0400_0000_0000;

const NEXT: u64 = 0x0000_0800_0000_0000;

// An access that was asked for.
#[derive(Clone, Copy, Debug, PartialEq, Eq)]
enum Asked {
    Load(Word),
    Store(Word, Side, u64),
    Exchange(Word, u64, u64),
    Raise(Word, u64),
}

fn shape_of(op: Op) -> Asked {
    match op {
        Op::Load(word) => Asked::Load(word),
        Op::Store { word, side, value } => Asked::Store(word, side, value),
        Op::Exchange {
            word,
            expected,
            new,
        } => Asked::Exchange(word, expected, new),
        Op::Raise { word, value } => Asked::Raise(word, value),
    }
}

// Asks for the next access, and goes on by the number.
fn goes(task: &mut RecycleTask, found: u64) -> (Asked, RecycleTurn)
    requires serves { age (tag_number task.old.root) < 1048575 }
    requires found { MayFind task.old found }
    ensures value { task.new ≡ goes_on task.old found }
    ensures serves { age (tag_number task.new.root) < 1048575 }
{
    let op = task.next();
    let turn = task.on(found);
    (shape_of(op), turn)
}

#[test]
fn six_accesses_of_a_recycling(rt: HostRuntime) -> Result<(), Fail> {
    let next = Word::Next(Buffer { node: 0, index: 2 });
    let root = Word::Root(3);
    let mut task = RecycleTask::make(3, tag(2));
    let (load, turn) = goes(&mut task, LINK);
    assert_eq!(rt; load, Asked::Load(next));
    assert!(rt; matches!(turn, RecycleTurn::More));
    let (raise, turn) = goes(&mut task, 0);
    assert_eq!(rt; raise, Asked::Raise(next, LINK));
    assert!(rt; matches!(turn, RecycleTurn::More));
    let (store, turn) = goes(&mut task, 0);
    assert_eq!(rt; store, Asked::Store(root, Side::Current, LINK));
    assert!(rt; matches!(turn, RecycleTurn::More));
    let (flush, turn) = goes(&mut task, 0);
    assert_eq!(rt; flush, Asked::Store(root, Side::Flushed, LINK));
    assert!(rt; matches!(turn, RecycleTurn::More));
    let (pass, turn) = goes(&mut task, LINK);
    assert_eq!(rt; pass, Asked::Exchange(next, LINK, NEXT));
    assert!(rt; matches!(turn, RecycleTurn::More));
    let (free, turn) = goes(&mut task, LINK);
    assert_eq!(rt; free, Asked::Raise(next, NEXT));
    assert!(rt;
        matches!(turn, RecycleTurn::Recycled { old, root } if old.index == 2 && root.index == 0)
    );
    Ok(())
}

#[test]
fn a_version_without_a_link_stays_the_root(rt: HostRuntime) -> Result<(), Fail> {
    let mut task = RecycleTask::make(3, tag(2));
    let (_, turn) = goes(&mut task, 0);
    assert!(rt; matches!(turn, RecycleTurn::Unlinked));
    Ok(())
}
