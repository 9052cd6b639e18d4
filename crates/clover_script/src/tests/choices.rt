// The choices of a cut, the further cuts behind one, and the names of words in them.

use crate::{Choice, choice_of, cut_of, push_choice, push_cut, word_of};
use clover_words::{Buffer, Word};
use std::test::Fail;

#[test]
fn reads_the_names_of_durable_words(rt: HostRuntime) {
    let buffer = Buffer { node: 0, index: 2 };
    let last = Buffer {
        node: 4_294_967_295,
        index: 4_294_967_295,
    };
    let cases: [(&[u8], Word); 9] = [
        (b"N0.2", Word::Next(buffer)),
        (b"M0.2", Word::Meta(buffer)),
        (b"V0.2.0", Word::Value(buffer, 0)),
        (b"R0", Word::Root(0)),
        (b"R4294967295", Word::Root(4_294_967_295)),
        (b"K3.31", Word::Key(3, 31)),
        (b"N4294967295.4294967295", Word::Next(last)),
        (
            b"V4294967295.4294967295.4294967295",
            Word::Value(last, 4_294_967_295),
        ),
        (
            b"K4294967295.4294967295",
            Word::Key(4_294_967_295, 4_294_967_295),
        ),
    ];
    for (text, want) in cases {
        assert_eq!(rt; word_of(text), Some(want));
    }
}

#[test]
fn reads_no_name_where_there_is_none(rt: HostRuntime) {
    let cases: [&[u8]; 30] = [
        b"",
        b"N",
        b"N0",
        b"N0.",
        b"N.0",
        b"N0.2.0",
        b"N0.2 ",
        b" N0.2",
        b"n0.2",
        b"N00.2",
        b"N0.02",
        b"N0.+2",
        b"N4294967296.0",
        b"N0.4294967296",
        b"N0.18446744073709551616",
        b"M0",
        b"V0.2",
        b"V0.2.",
        b"V0.2.1.0",
        b"V0.2.4294967296",
        b"R",
        b"R0.1",
        b"R4294967296",
        b"K0",
        b"K0.4294967296",
        // A shortcut, the count, and flushed copies.
        b"S0",
        b"C",
        b"fN0.2",
        b"fS0",
        b"fC",
    ];
    for text in cases {
        assert!(rt; word_of(text).is_none());
    }
}

/// Which copies the choice leaves, by a digit, and how many words it names.
fn shape(choice: &Choice) -> (u8, usize) {
    match choice {
        Choice::Old => (0, 0),
        Choice::New => (1, 0),
        Choice::Mix(_) => (2, 0),
        Choice::Pick(words) => (3, words.items().len()),
    }
}

#[test]
fn reads_and_prints_each_choice(rt: HostRuntime) -> Result<(), Fail> {
    let alloc = rt.alloc();
    let cases: [(&[u8], (u8, usize)); 8] = [
        (b"old", (0, 0)),
        (b"new", (1, 0)),
        (b"mix:0", (2, 0)),
        (b"mix:18446744073709551615", (2, 0)),
        (b"pick:R0", (3, 1)),
        // In any order, and more than once.
        (b"pick:N0.2,M0.2,V0.2.1", (3, 3)),
        (b"pick:R1,R0,R1", (3, 3)),
        (b"pick:V0.2.1,K0.31,N4294967295.0", (3, 3)),
    ];
    for (text, want) in cases {
        let Some(spelled) = choice_of(text) else {
            return Err("a choice".into());
        };
        let choice = spelled.decode(alloc)?;
        assert_eq!(rt; shape(&choice), want);
        let mut out = Vec::new(alloc);
        push_choice(&mut out, &choice)?;
        assert_eq!(rt; out.as_slice(), text);
    }
    Ok(())
}

#[test]
fn keeps_the_seed_and_the_words_in_order(rt: HostRuntime) -> Result<(), Fail> {
    let alloc = rt.alloc();
    let Some(spelled) = choice_of(b"mix:17") else {
        return Err("a choice".into());
    };
    let Choice::Mix(seed) = spelled.decode(alloc)? else {
        return Err("a seed".into());
    };
    assert_eq!(rt; seed, 17);
    let Some(spelled) = choice_of(b"pick:R1,K0.2") else {
        return Err("a choice".into());
    };
    let Choice::Pick(words) = spelled.decode(alloc)? else {
        return Err("words".into());
    };
    assert_eq!(rt; words.items(), [Word::Root(1), Word::Key(0, 2)].as_slice());
    Ok(())
}

#[test]
fn reads_no_choice_where_there_is_none(rt: HostRuntime) {
    let cases: [&[u8]; 26] = [
        b"",
        b"ol",
        b"olds",
        b"old ",
        b" old",
        b"Old",
        b"newer",
        b"mix",
        b"mix:",
        b"mix:01",
        b"mix:+1",
        b"mix:1,2",
        b"mix:18446744073709551616",
        b"pick",
        b"pick:",
        b"pick:,",
        b"pick:R0,",
        b"pick:,R0",
        b"pick:R0,,R1",
        b"pick:R0, R1",
        b"pick:R0 R1",
        b"pick:R0;R1",
        // Names of no durable word's current copy.
        b"pick:S0",
        b"pick:R0,C",
        b"pick:fR0",
        b"pick:R0,x",
    ];
    for text in cases {
        assert!(rt; choice_of(text).is_none());
    }
}

#[test]
fn reads_and_prints_further_cuts(rt: HostRuntime) -> Result<(), Fail> {
    let alloc = rt.alloc();
    let cases: [(&[u8], &[u64]); 6] = [
        (b"old", &[]),
        (b"pick:R0,R1", &[]),
        (b"new at 0 old", &[0]),
        (b"mix:3 at 2 mix:3 at 2 mix:4", &[2, 2]),
        (
            b"pick:R0 at 18446744073709551615 pick:R0,N0.0",
            &[18_446_744_073_709_551_615],
        ),
        (b"old at 1 new at 0 old at 7 pick:M0.0", &[1, 0, 7]),
    ];
    for (text, stores) in cases {
        let Some(spelled) = cut_of(text) else {
            return Err("a cut".into());
        };
        let (first, more) = spelled.decode(alloc)?;
        assert_eq!(rt; more.items().len(), stores.len());
        for (cut, want) in more.items().iter().zip(stores) {
            assert_eq!(rt; cut.0, *want);
        }
        let mut out = Vec::new(alloc);
        push_cut(&mut out, &first, more.items())?;
        assert_eq!(rt; out.as_slice(), text);
    }
    Ok(())
}

#[test]
fn reads_no_cut_where_there_is_none(rt: HostRuntime) {
    let cases: [&[u8]; 19] = [
        b"",
        b" ",
        b"old ",
        b" old",
        b"old at",
        b"old at ",
        b"old at 1",
        b"old at 1 ",
        b"old at old",
        b"old at 01 old",
        b"old at 18446744073709551616 old",
        b"old at 1 old ",
        b"old  at 1 old",
        b"old at  1 old",
        b"old at 1  old",
        b"old and 1 old",
        b"old at 1 old old",
        b"old at 1 old at 2",
        b"old at 1 pick:S0",
    ];
    for text in cases {
        assert!(rt; cut_of(text).is_none());
    }
}
