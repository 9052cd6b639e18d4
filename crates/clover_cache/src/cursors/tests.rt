// The order of the pairs over calls that were worked out by hand, a full list, and the law that callers derive
// from the clauses.
ghost use Rattle.std.specs.Prelude.{◌≡◌, IfSome};

use super::*;
use std::test::Fail;

// What was kept is found.
fn kept_again(cursors: &mut Cursors, slot: u32, tag: Tag) -> Option<Tag>
    ensures { IfSome result (λ found. found ≡ tag) }
{
    if !cursors.keep(slot, tag) {
        return None;
    }
    cursors.find(slot)
}

// Cursors may move to another thread.
fn sent<T: Send>(value: T) -> T {
    value
}

// One step: a tag that is kept, or one that is asked for, by their numbers.
#[derive(Clone, Copy)]
enum Step {
    Keep(u32, u64),
    Find(u32, Option<u64>),
}

fn keep(cursors: &mut Cursors, slot: u32, number: u64) -> bool {
    match Tag::of_number(number) {
        Some(tag) => cursors.keep(slot, tag),
        None => false,
    }
}

fn find(cursors: &mut Cursors, slot: u32) -> Option<u64> {
    cursors.find(slot).map(Tag::number)
}

// Makes the step, and says whether it answered what was wanted.
fn answers(cursors: &mut Cursors, step: Step) -> bool {
    match step {
        Step::Keep(slot, number) => keep(cursors, slot, number),
        Step::Find(slot, number) => find(cursors, slot) == number,
    }
}

// The pairs of slot and tag's number, most recent first.
fn pairs(alloc: Global, cursors: &Cursors) -> Result<Vec<(u32, u64)>, Fail> {
    let mut pairs = Vec::new(alloc);
    for (slot, tag) in cursors.cache.iter() {
        pairs.push((*slot, tag.number()))?;
    }
    Ok(pairs)
}

#[test]
fn the_slot_used_last_stands_first(rt: HostRuntime) -> Result<(), Fail> {
    let mut cursors = sent(Cursors::make(rt.alloc())?);
    let steps: [(Step, &[(u32, u64)]); 12] = [
        (Step::Keep(7, 1), &[(7, 1)]),
        (Step::Keep(3, 2), &[(3, 2), (7, 1)]),
        (Step::Keep(5, 3), &[(5, 3), (3, 2), (7, 1)]),
        (Step::Find(7, Some(1)), &[(7, 1), (5, 3), (3, 2)]),
        (Step::Find(9, None), &[(7, 1), (5, 3), (3, 2)]),
        (Step::Keep(3, 4), &[(3, 4), (7, 1), (5, 3)]),
        (Step::Find(3, Some(4)), &[(3, 4), (7, 1), (5, 3)]),
        (Step::Keep(3, 2), &[(3, 2), (7, 1), (5, 3)]),
        (Step::Keep(0, 5), &[(0, 5), (3, 2), (7, 1), (5, 3)]),
        (Step::Find(5, Some(3)), &[(5, 3), (0, 5), (3, 2), (7, 1)]),
        (Step::Keep(7, 1), &[(7, 1), (5, 3), (0, 5), (3, 2)]),
        (Step::Find(0, Some(5)), &[(0, 5), (7, 1), (5, 3), (3, 2)]),
    ];
    for (i, (step, order)) in steps.iter().enumerate() {
        assert!(rt; answers(&mut cursors, *step), "answer {i}");
        let pairs = pairs(rt.alloc(), &cursors)?;
        assert!(rt; pairs.as_slice() == *order, "order {i}");
    }
    Ok(())
}

#[test]
fn a_full_list_loses_its_last(rt: HostRuntime) -> Result<(), Fail> {
    let mut cursors = Cursors::make(rt.alloc())?;
    for slot in 0..64 {
        assert!(rt; keep(&mut cursors, slot, 100 + u64::from(slot)));
    }
    assert_eq!(rt; find(&mut cursors, 0), Some(100));
    // A slot that has a cursor takes no other slot's place, and a new one takes that of the last, slot 1.
    assert!(rt; keep(&mut cursors, 2, 7));
    assert!(rt; keep(&mut cursors, 64, 164));
    assert_eq!(rt; pairs(rt.alloc(), &cursors)?.len(), 64);
    assert_eq!(rt; find(&mut cursors, 1), None);
    for slot in 3..65 {
        assert_eq!(rt; find(&mut cursors, slot), Some(100 + u64::from(slot)));
    }
    assert_eq!(rt; find(&mut cursors, 2), Some(7));
    assert_eq!(rt; find(&mut cursors, 0), Some(100));
    let tag = Tag::of_number(9).ok_or("a tag")?;
    assert_eq!(rt; kept_again(&mut cursors, 1, tag), Some(tag));
    Ok(())
}
