//! Tests of what no clause can say: that the printed lines are those of the format that is written down, and that
//! each call succeeds where memory is ample.

use crate::{Note, push_note};
use clover_alloc::Batch;
use clover_event::CallRefusal;
use clover_map::Reply;
use clover_words::Tag;
use std::test::Fail;

const OLD: Tag = Tag {
    node: 1,
    index: 3,
    generation: 2,
};

ghost use Rattle.std.specs.Prelude.{◌≤◌};

// A batch of this tag alone, or twice.
fn batch_of(count: u32) -> Batch
    requires { count ≤ 2 }
{
    let mut batch = Batch::empty();
    batch.tags[0] = OLD;
    batch.tags[1] = OLD;
    batch.count = count;
    batch
}

#[test]
fn prints_notes(rt: HostRuntime) -> Result<(), Fail> {
    let cases: [(Note, &[u8]); 14] = [
        (Note::Quiet, b""),
        (Note::Waits, b""),
        (
            Note::Answered {
                client: 2,
                reply: Reply::Stored { tag: 1_048_576 },
            },
            b"2 stored 0.1.0\n",
        ),
        (
            Note::Refused {
                client: 9,
                refusal: CallRefusal::Behind { turns: 6 },
            },
            b"9 behind 6\n",
        ),
        (
            Note::Full {
                client: 1,
                bound: 3,
                worn: 0,
                out: 12,
            },
            b"1 full 3 0 12\n",
        ),
        (Note::NoSlot { client: 16 }, b"16 noslot\n"),
        (
            Note::Granted {
                client: 2,
                names: 5,
            },
            b"g 2 5 1.3.2 1.3.2\n",
        ),
        (Note::Recycled { old: OLD }, b"0 recycled 1.3.2\n"),
        (Note::Unlinked, b"0 unlinked\n"),
        (Note::Unbound, b"0 unbound\n"),
        (Note::Swept { count: 7 }, b"0 swept 7\n"),
        (Note::Unreached, b"0 unreached\n"),
        (Note::Busy { actor: 4 }, b"4 busy\n"),
        (Note::Missing { actor: 3 }, b"3 none\n"),
    ];
    for (note, line) in cases {
        let mut out = Vec::new(rt.alloc());
        push_note(&mut out, true, &note, &batch_of(2))?;
        assert_eq!(rt; out.as_slice(), line);
    }
    Ok(())
}

#[test]
fn prints_no_grant_without_the_trace(rt: HostRuntime) -> Result<(), Fail> {
    let note = Note::Granted {
        client: 2,
        names: 5,
    };
    let mut out = Vec::new(rt.alloc());
    push_note(&mut out, false, &note, &batch_of(1))?;
    assert_eq!(rt; out.as_slice(), b"".as_slice());
    Ok(())
}

#[test]
fn prints_a_grant_of_bindings_alone(rt: HostRuntime) -> Result<(), Fail> {
    let note = Note::Granted {
        client: 2,
        names: 1,
    };
    let mut out = Vec::new(rt.alloc());
    push_note(&mut out, true, &note, &batch_of(0))?;
    assert_eq!(rt; out.as_slice(), b"g 2 1\n".as_slice());
    Ok(())
}
