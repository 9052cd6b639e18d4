// Printed texts.

use crate::{
    RunEntry, push_behind, push_busy, push_entry, push_hex, push_linked, push_none, push_number,
    push_reply, push_run_entry, push_tag, push_too_long, push_unreached, push_word,
};
use clover_map::{Bytes, Call, Entry, Key, Reply, Value};
use clover_words::{Buffer, Side, Word};
use std::alloc::Global;
use std::process::Abort;
use std::test::Fail;

fn value(alloc: Global, bytes: &[u8]) -> Result<Value, Fail> {
    let bytes = Bytes::of(alloc, bytes)?;
    Ok(Value { flags: 0, bytes })
}

fn assert_prints(
    rt: &impl Abort,
    alloc: Global,
    entry: &Entry,
    reply: &[u8],
    line: &[u8],
) -> Result<(), Fail> {
    let mut out = Vec::new(alloc);
    push_reply(&mut out, &entry.reply)?;
    assert_eq!(rt; out.as_slice(), reply);
    let mut out = Vec::new(alloc);
    push_entry(&mut out, entry)?;
    assert_eq!(rt; out.as_slice(), line);
    Ok(())
}

#[test]
fn prints_replies_and_entries(rt: HostRuntime) -> Result<(), Fail> {
    let alloc = rt.alloc();
    let put = Entry {
        client: 1,
        number: 1,
        call: Call::Put {
            key: Key::of(b"a")?,
            value: value(alloc, b"hello")?,
        },
        reply: Reply::Stored { tag: 0 },
    };
    assert_prints(
        &rt,
        alloc,
        &put,
        b"stored 0.0.0",
        b"h 1 1 1 put a =hello stored 0.0.0\n",
    )?;
    let get = Entry {
        client: 16,
        number: 18_446_744_073_709_551_615,
        call: Call::Get {
            key: Key::of(b"\x00 %~\x7f\xff")?,
        },
        reply: Reply::Found {
            tag: 4_398_046_511_103,
            value: value(alloc, b"")?,
        },
    };
    assert_prints(
        &rt,
        alloc,
        &get,
        b"found 63.65535.1048575 =",
        b"h 1 16 18446744073709551615 get %00%20%25~%7f%ff found 63.65535.1048575 =\n",
    )?;
    let swap = Entry {
        client: 2,
        number: 7,
        call: Call::Swap {
            key: Key::of(b"a")?,
            expected: 2_097_155,
            value: value(alloc, b"x y")?,
        },
        reply: Reply::Differs { tag: 1_048_576 },
    };
    assert_prints(
        &rt,
        alloc,
        &swap,
        b"differs 0.1.0",
        b"h 1 2 7 swap a 0.2.3 =x%20y differs 0.1.0\n",
    )
}

#[test]
fn prints_deletes(rt: HostRuntime) -> Result<(), Fail> {
    let alloc = rt.alloc();
    for (tag, printed, line) in [
        (
            Some(5),
            b"deleted 0.0.5".as_slice(),
            b"h 1 1 3 delete a deleted 0.0.5\n".as_slice(),
        ),
        (
            None,
            b"absent".as_slice(),
            b"h 1 1 3 delete a absent\n".as_slice(),
        ),
    ] {
        let reply = match tag {
            Some(tag) => Reply::Deleted { tag },
            None => Reply::Absent,
        };
        let entry = Entry {
            client: 1,
            number: 3,
            call: Call::Delete {
                key: Key::of(b"a")?,
            },
            reply,
        };
        assert_prints(&rt, alloc, &entry, printed, line)?;
    }
    Ok(())
}

#[test]
fn prints_the_names_of_words(rt: HostRuntime) -> Result<(), Fail> {
    let alloc = rt.alloc();
    let buffer = Buffer { node: 0, index: 2 };
    let far = Buffer {
        node: 4_294_967_295,
        index: 65_535,
    };
    let cases: [(Word, &[u8], &[u8]); 8] = [
        (Word::Next(buffer), b"N0.2", b"fN0.2"),
        (Word::Meta(buffer), b"M0.2", b"fM0.2"),
        (Word::Value(buffer, 7), b"V0.2.7", b"fV0.2.7"),
        (Word::Next(far), b"N4294967295.65535", b"fN4294967295.65535"),
        (Word::Root(0), b"R0", b"fR0"),
        (Word::Key(16_383, 31), b"K16383.31", b"fK16383.31"),
        (Word::Short(3), b"S3", b"fS3"),
        (Word::Count, b"C", b"fC"),
    ];
    for (word, current, flushed) in cases {
        let mut out = Vec::new(alloc);
        push_word(&mut out, word, Side::Current)?;
        assert_eq!(rt; out.as_slice(), current);
        let mut out = Vec::new(alloc);
        push_word(&mut out, word, Side::Flushed)?;
        assert_eq!(rt; out.as_slice(), flushed);
    }
    Ok(())
}

#[test]
fn prints_numbers(rt: HostRuntime) -> Result<(), Fail> {
    let alloc = rt.alloc();
    let cases: [(u64, &[u8], &[u8], &[u8]); 4] = [
        (0, b"0000000000000000", b"0", b"0.0.0"),
        (
            0x0000_0400_0020_0000,
            b"0000040000200000",
            b"4398048608256",
            b"64.2.0",
        ),
        (
            0x6865_6c6c_6f00_0000,
            b"68656c6c6f000000",
            b"7522537965566820352",
            b"109467334.50928.0",
        ),
        (
            0xffff_ffff_ffff_ffff,
            b"ffffffffffffffff",
            b"18446744073709551615",
            b"268435455.65535.1048575",
        ),
    ];
    for (number, hex, decimal, tag) in cases {
        let mut out = Vec::new(alloc);
        push_hex(&mut out, number)?;
        assert_eq!(rt; out.as_slice(), hex);
        let mut out = Vec::new(alloc);
        push_number(&mut out, number)?;
        assert_eq!(rt; out.as_slice(), decimal);
        let mut out = Vec::new(alloc);
        push_tag(&mut out, number)?;
        assert_eq!(rt; out.as_slice(), tag);
    }
    Ok(())
}

#[test]
fn prints_what_an_actor_is_told(rt: HostRuntime) -> Result<(), Fail> {
    let mut out = Vec::new(rt.alloc());
    push_unreached(&mut out, 1)?;
    push_linked(&mut out, 16, 2_097_155)?;
    push_behind(&mut out, 2, 6)?;
    push_too_long(&mut out, 1, 65_535, 16)?;
    push_busy(&mut out, 0)?;
    push_none(&mut out, 9)?;
    let want = b"1 unreached
16 linked 0.2.3
2 behind 6
1 toolong 65535 16
0 busy
9 none
";
    assert_eq!(rt; out.as_slice(), want.as_slice());
    Ok(())
}

#[test]
fn prints_an_entry_that_a_cut_took(rt: HostRuntime) -> Result<(), Fail> {
    let mut out = Vec::new(rt.alloc());
    let entry = RunEntry {
        run: 3,
        entry: Entry {
            client: 2,
            number: 1,
            call: Call::Delete {
                key: Key::of(b"a")?,
            },
            reply: Reply::Deleted { tag: 5 },
        },
        stands: false,
        told: false,
    };
    push_run_entry(&mut out, &entry)?;
    assert_eq!(rt;
        out.as_slice(),
        b"x 3 2 1 delete a deleted 0.0.5\n".as_slice()
    );
    Ok(())
}
