// Answers that were worked out by hand, from the one set last and from the list, and the law that callers derive from
// the clauses.
ghost use Rattle.std.specs.Prelude.{◌≡◌, Some};

use super::*;
use std::test::Fail;

// What was set is found, whatever memory there is.
fn set_again(cursors: &mut NodeCursors, slot: u32, tag: Tag) -> Option<Tag>
    ensures { result ≡ Some tag }
{
    cursors.set(slot, tag);
    cursors.find(slot)
}

// Cursors may move to another thread.
fn sent<T: Send>(value: T) -> T {
    value
}

// One step: a tag that is set, or one that is asked for, by their numbers.
#[derive(Clone, Copy)]
enum Step {
    Set(u32, u64),
    Find(u32, Option<u64>),
}

fn set(cursors: &mut NodeCursors, slot: u32, number: u64) -> bool {
    match Tag::of_number(number) {
        Some(tag) => {
            cursors.set(slot, tag);
            true
        }
        None => false,
    }
}

fn find(cursors: &mut NodeCursors, slot: u32) -> Option<u64> {
    cursors.find(slot).map(Tag::number)
}

// Makes the step, and says whether it answered what was wanted.
fn answers(cursors: &mut NodeCursors, step: Step) -> bool {
    match step {
        Step::Set(slot, number) => set(cursors, slot, number),
        Step::Find(slot, number) => find(cursors, slot) == number,
    }
}

#[test]
fn each_slot_has_what_was_set_last(rt: HostRuntime) -> Result<(), Fail> {
    let mut cursors = sent(NodeCursors::make(rt.alloc())?);
    let steps = [
        Step::Find(7, None),
        Step::Set(7, 1),
        Step::Find(7, Some(1)),
        Step::Find(3, None),
        // Slot 7's cursor comes from the list once slot 3's is the one set last.
        Step::Set(3, 2),
        Step::Find(7, Some(1)),
        Step::Find(3, Some(2)),
        Step::Set(3, 4),
        Step::Find(3, Some(4)),
        Step::Set(7, 5),
        Step::Find(3, Some(4)),
        Step::Find(7, Some(5)),
        Step::Find(0, None),
    ];
    for (i, step) in steps.iter().enumerate() {
        assert!(rt; answers(&mut cursors, *step), "answer {i}");
    }
    let tag = Tag::of_number(9).ok_or("a tag")?;
    assert_eq!(rt; set_again(&mut cursors, 1, tag), Some(tag));
    Ok(())
}

#[test]
fn the_one_set_last_answers_without_the_list(rt: HostRuntime) -> Result<(), Fail> {
    let mut cursors = NodeCursors::make(rt.alloc())?;
    for slot in 0..64 {
        assert!(rt; set(&mut cursors, slot, 100 + u64::from(slot)));
    }
    // Each other slot is asked for, so that the pair of slot 63 is the least recent.
    for slot in 0..63 {
        assert_eq!(rt; find(&mut cursors, slot), Some(100 + u64::from(slot)));
    }
    // Its cursor is the one set last, so its pair stays where it is, and a new slot's takes its place.
    assert_eq!(rt; find(&mut cursors, 63), Some(163));
    assert!(rt; set(&mut cursors, 64, 164));
    assert_eq!(rt; find(&mut cursors, 63), None);
    assert_eq!(rt; find(&mut cursors, 64), Some(164));
    assert_eq!(rt; find(&mut cursors, 0), Some(100));
    Ok(())
}
