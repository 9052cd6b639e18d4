//! Tests of what no clause can say: that each call succeeds where memory is ample, and that the
//! map's answers are those of tables written by hand.

use crate::{Bytes, BytesFault, Call, Entry, Key, KeyFault, Reply, TaggedMap, Value, legal};
use std::alloc::Global;
use std::process::Abort;
use std::test::Fail;

/// A call without its key and value. A swap has the tag that it expects.
#[derive(Clone, Copy, Debug)]
enum Ask {
    Get,
    Put,
    Delete,
    Swap(u64),
}

/// A reply with its tag, and without the value that is found.
#[derive(Clone, Copy, Debug)]
enum Answer {
    Stored(u64),
    Found(u64),
    FoundWithOtherFlags(u64),
    Absent,
    Deleted(u64),
    Differs(u64),
}

/// A call, the byte of its key, the byte of the value that is stored or found, and the reply.
type Row = (Ask, u8, u8, Answer);

fn value(alloc: Global, flags: u32, byte: u8) -> Result<Value, Fail> {
    let bytes = Bytes::of(alloc, &[byte])?;
    Ok(Value { flags, bytes })
}

fn call_of(alloc: Global, row: &Row) -> Result<Call, Fail> {
    let key = Key::of(&[row.1])?;
    match row.0 {
        Ask::Get => Ok(Call::Get { key }),
        Ask::Delete => Ok(Call::Delete { key }),
        Ask::Put => Ok(Call::Put {
            key,
            value: value(alloc, 7, row.2)?,
        }),
        Ask::Swap(expected) => Ok(Call::Swap {
            key,
            expected,
            value: value(alloc, 7, row.2)?,
        }),
    }
}

fn reply_of(alloc: Global, row: &Row) -> Result<Reply, Fail> {
    match row.3 {
        Answer::Stored(tag) => Ok(Reply::Stored { tag }),
        Answer::Absent => Ok(Reply::Absent),
        Answer::Deleted(tag) => Ok(Reply::Deleted { tag }),
        Answer::Differs(tag) => Ok(Reply::Differs { tag }),
        Answer::Found(tag) => Ok(Reply::Found {
            tag,
            value: value(alloc, 7, row.2)?,
        }),
        Answer::FoundWithOtherFlags(tag) => Ok(Reply::Found {
            tag,
            value: value(alloc, 8, row.2)?,
        }),
    }
}

fn history_of(alloc: Global, rows: &[Row]) -> Result<Vec<Entry>, Fail> {
    let mut history = Vec::new(alloc);
    for row in rows {
        let call = call_of(alloc, row)?;
        let reply = reply_of(alloc, row)?;
        history.push(Entry {
            client: 1,
            number: 1,
            call,
            reply,
        })?;
    }
    Ok(history)
}

/// Whether the rows are a run from the empty map, by `legal` and, but for the tags, by `apply`.
fn answers(alloc: Global, used: &[u64], rows: &[Row]) -> Result<(bool, bool), Fail> {
    let history = history_of(alloc, rows)?;
    let mut map = TaggedMap::make(alloc);
    let by_history = legal(alloc, &map, used, &history)?;
    let mut by_steps = true;
    for entry in &history {
        by_steps = map.apply(&entry.call, &entry.reply)? && by_steps;
    }
    Ok((by_history, by_steps))
}

/// The number of keys behind each row, by way of copies.
fn lengths_of(alloc: Global, rows: &[Row]) -> Result<Vec<u64>, Fail> {
    let mut lengths = Vec::new(alloc);
    let mut map = TaggedMap::make(alloc);
    for row in rows {
        let call = call_of(alloc, row)?.copy(alloc)?;
        let _ = map.apply(&call, &reply_of(alloc, row)?)?;
        map = map.copy(alloc)?;
        lengths.push(map.len())?;
    }
    Ok(lengths)
}

/// Asserts of each call which of the five replies the map may give to it behind one row.
fn assert_pairs(
    rt: &impl Abort,
    alloc: Global,
    before: Row,
    table: &[(Ask, [bool; 5])],
) -> Result<(), Fail> {
    let replies = [
        Answer::Stored(9),
        Answer::Found(5),
        Answer::Absent,
        Answer::Deleted(9),
        Answer::Differs(5),
    ];
    for (call, row) in table {
        for (reply, may) in replies.iter().zip(row) {
            let answers = answers(alloc, &[], &[before, (*call, b'k', b'1', *reply)])?;
            assert_eq!(rt; answers, (*may, *may), "{call:?}, {reply:?}");
        }
    }
    Ok(())
}

#[test]
fn each_pair_at_a_held_key(rt: HostRuntime) -> Result<(), Fail> {
    let table = [
        (Ask::Get, [false, true, false, false, false]),
        (Ask::Put, [true, false, false, false, false]),
        (Ask::Delete, [false, false, false, true, false]),
        (Ask::Swap(5), [true, false, false, false, false]),
        (Ask::Swap(4), [false, false, false, false, true]),
    ];
    let before = (Ask::Put, b'k', b'1', Answer::Stored(5));
    assert_pairs(&rt, rt.alloc(), before, &table)
}

#[test]
fn each_pair_at_an_absent_key(rt: HostRuntime) -> Result<(), Fail> {
    let table = [
        (Ask::Get, [false, false, true, false, false]),
        (Ask::Put, [true, false, false, false, false]),
        (Ask::Delete, [false, false, true, false, false]),
        (Ask::Swap(5), [false, false, true, false, false]),
        (Ask::Swap(4), [false, false, true, false, false]),
    ];
    let before = (Ask::Put, b'j', b'1', Answer::Stored(5));
    assert_pairs(&rt, rt.alloc(), before, &table)
}

#[test]
fn new_tags_are_fresh(rt: HostRuntime) -> Result<(), Fail> {
    for (used, second, third, may) in [
        ([7, 8, 9], 2, 3, true),
        ([7, 1, 9], 2, 3, false),
        ([2, 8, 9], 2, 3, false),
        ([7, 8, 3], 2, 3, false),
        ([7, 8, 9], 1, 3, false),
        ([7, 8, 9], 2, 1, false),
        ([7, 8, 9], 2, 2, false),
    ] {
        let rows = [
            (Ask::Put, b'k', b'1', Answer::Stored(1)),
            (Ask::Swap(1), b'k', b'2', Answer::Stored(second)),
            (Ask::Delete, b'k', b'0', Answer::Deleted(third)),
        ];
        let answers = answers(rt.alloc(), &used, &rows)?;
        assert_eq!(rt;
            answers,
            (may, true),
            "used {used:?}, then 1, {second}, {third}"
        );
    }
    Ok(())
}

#[test]
fn a_value_found_is_the_one_stored(rt: HostRuntime) -> Result<(), Fail> {
    for (byte, reply, may) in [
        (b'1', Answer::Found(5), true),
        (b'2', Answer::Found(5), false),
        (b'1', Answer::Found(6), false),
        (b'1', Answer::FoundWithOtherFlags(5), false),
    ] {
        let rows = [
            (Ask::Put, b'k', b'1', Answer::Stored(5)),
            (Ask::Get, b'k', byte, reply),
        ];
        let answers = answers(rt.alloc(), &[], &rows)?;
        assert_eq!(rt; answers, (may, may), "{byte}, {reply:?}");
    }
    Ok(())
}

static RUN: [Row; 9] = [
    (Ask::Get, b'k', b'0', Answer::Absent),
    (Ask::Put, b'j', b'4', Answer::Stored(4)),
    (Ask::Put, b'k', b'1', Answer::Stored(1)),
    (Ask::Swap(4), b'k', b'2', Answer::Differs(1)),
    (Ask::Swap(1), b'k', b'2', Answer::Stored(2)),
    (Ask::Get, b'k', b'2', Answer::Found(2)),
    (Ask::Delete, b'k', b'0', Answer::Deleted(3)),
    (Ask::Swap(3), b'k', b'3', Answer::Absent),
    (Ask::Get, b'j', b'4', Answer::Found(4)),
];

#[test]
fn a_run_over_two_keys(rt: HostRuntime) -> Result<(), Fail> {
    assert_eq!(rt; answers(rt.alloc(), &[], &RUN)?, (true, true));
    let lengths = lengths_of(rt.alloc(), &RUN)?;
    assert_eq!(rt; lengths.as_slice(), [0, 1, 2, 2, 2, 2, 1, 1, 1].as_slice());
    Ok(())
}

#[test]
fn keys_have_1_to_250_bytes(rt: HostRuntime) {
    let room = [b'k'; 251];
    for (bytes, fault) in [
        (&room[..0], Some(KeyFault::Length { length: 0 })),
        (&room[..1], None),
        (&room[..250], None),
        (&room[..], Some(KeyFault::Length { length: 251 })),
    ] {
        match Key::of(bytes) {
            Ok(key) => {
                assert_eq!(rt; fault, None);
                assert_eq!(rt; key.copy().bytes(), bytes);
            }
            Err(named) => assert_eq!(rt; fault, Some(named)),
        }
    }
}

#[test]
fn values_have_at_most_1024_bytes(rt: HostRuntime) -> Result<(), Fail> {
    let room = [b'v'; 1025];
    for bytes in [&room[..0], &room[..1], &room[..1024]] {
        let value = Value {
            flags: 7,
            bytes: Bytes::of(rt.alloc(), bytes)?,
        };
        let copy = value.copy(rt.alloc())?;
        assert!(rt; value.is_same(&copy));
        assert_eq!(rt; copy.bytes.copy(rt.alloc())?.items(), bytes);
    }
    let fault = Bytes::of(rt.alloc(), &room).err();
    assert_eq!(rt; fault, Some(BytesFault::Length { length: 1025 }));
    Ok(())
}
