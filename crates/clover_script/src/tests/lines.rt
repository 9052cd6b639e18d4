// Lines behind the pool line, and the numbers in them.

use crate::number::number_of;
use crate::{
    Choice, Line, Task, first_line, is_of_cuts, line_of, push_call, push_choice, push_cut,
    push_number,
};
use clover_map::Call;
use std::alloc::Global;
use std::process::Abort;
use std::test::Fail;

#[test]
fn reads_numbers(rt: HostRuntime) {
    let cases: [(&[u8], Option<u64>); 10] = [
        (b"0", Some(0)),
        (b"17", Some(17)),
        (b"18446744073709551615", Some(18_446_744_073_709_551_615)),
        (b"18446744073709551616", None),
        (b"", None),
        (b"00", None),
        (b"017", None),
        (b"+1", None),
        (b"-1", None),
        (b"1x", None),
    ];
    for (text, want) in cases {
        assert_eq!(rt; number_of(text), want);
    }
}

fn with_letters(alloc: Global, front: &[u8], letters: u32) -> Result<Vec<u8>, Fail> {
    let mut line = front.to_vec(alloc)?;
    for _ in 0..letters {
        line.push(b'k')?;
    }
    Ok(line)
}

#[test]
fn cuts_the_first_line(rt: HostRuntime) {
    let cases: [(&[u8], &[u8], &[u8]); 4] = [
        (b"call 1 get a\nx", b"call 1 get a", b"x"),
        (b"x", b"x", b""),
        (b"x\n", b"x", b""),
        (b"\n\nx", b"", b"\nx"),
    ];
    for (text, line, rest) in cases {
        assert!(rt; !text.is_empty());
        let (first, after) = first_line(text);
        assert_eq!(rt; first, line);
        assert_eq!(rt; after, rest);
    }
}

/// Puts the parts of a line as it was read, each behind a name.
fn show(out: &mut Vec<u8>, line: &Line) -> Result<(), Fail> {
    match line {
        Line::Begin { actor, task } => show_task(out, b"begin", *actor, task)?,
        Line::Step { actor, times } => {
            show_number(out, b"step ", u64::from(*actor))?;
            show_number(out, b" times ", *times)?;
        }
        Line::Finish { actor } => show_number(out, b"finish ", u64::from(*actor))?,
        Line::Call { actor, task } => show_task(out, b"call", *actor, task)?,
        Line::Refuse { actor } => show_number(out, b"refuse ", u64::from(*actor))?,
        Line::Cut { choice, more } => {
            out.extend_from_slice(b"cut ")?;
            show_number(out, b"and ", more.items().len() as u64)?;
            out.extend_from_slice(b" more: ")?;
            push_cut(out, choice, more.items())?;
        }
        Line::Image { choice } => {
            out.extend_from_slice(b"image of ")?;
            push_choice(out, choice)?;
        }
    }
    Ok(())
}

fn show_task(out: &mut Vec<u8>, name: &[u8], actor: u32, task: &Task) -> Result<(), Fail> {
    out.extend_from_slice(name)?;
    show_number(out, b" ", u64::from(actor))?;
    out.push(b' ')?;
    match task {
        Task::Client { call, written } => {
            push_call(out, call)?;
            show_number(out, b" written ", u64::from(*written))?;
        }
        Task::Recycle(slot) => show_number(out, b"recycle ", u64::from(*slot))?,
        Task::Sweep => out.extend_from_slice(b"sweep")?,
    }
    Ok(())
}

fn show_number(out: &mut Vec<u8>, name: &[u8], number: u64) -> Result<(), Fail> {
    out.extend_from_slice(name)?;
    push_number(out, number)?;
    Ok(())
}

/// Asserts that the text is a line, which is shown so.
fn assert_reads(rt: &impl Abort, alloc: Global, text: &[u8], want: &[u8]) -> Result<(), Fail> {
    let Some(line) = line_of(alloc, text)? else {
        return Err("a line".into());
    };
    let mut out = Vec::new(alloc);
    show(&mut out, &line)?;
    assert_eq!(rt; out.as_slice(), want);
    Ok(())
}

#[test]
fn reads_each_line_of_a_client(rt: HostRuntime) -> Result<(), Fail> {
    let alloc = rt.alloc();
    let cases: [(&[u8], &[u8]); 16] = [
        (b"begin 1 get a", b"begin 1 get a written 0"),
        (b"begin 16 put %00 =", b"begin 16 put %00 = written 0"),
        (b"begin 2 put a =x%20y", b"begin 2 put a =x%20y written 3"),
        (b"call 3 delete key", b"call 3 delete key written 0"),
        (
            b"call 9 swap a 63.65535.1048575 ==",
            b"call 9 swap a 63.65535.1048575 == written 1",
        ),
        (b"call 9 swap a 0.0.0 =", b"call 9 swap a 0.0.0 = written 0"),
        (
            b"begin 1 swap put 1.2.3 =0.0.0",
            b"begin 1 swap put 1.2.3 =0.0.0 written 5",
        ),
        (b"call 1 get begin", b"call 1 get begin written 0"),
        (b"call 1 put get =get", b"call 1 put get =get written 3"),
        (b"step 1 1", b"step 1 times 1"),
        (b"step 16 1000000", b"step 16 times 1000000"),
        (b"step 10 10", b"step 10 times 10"),
        (b"finish 1", b"finish 1"),
        (b"finish 16", b"finish 16"),
        (b"refuse 1", b"refuse 1"),
        (b"refuse 16", b"refuse 16"),
    ];
    for (text, want) in cases {
        assert_reads(&rt, alloc, text, want)?;
    }
    Ok(())
}

#[test]
fn reads_each_line_of_the_recycler(rt: HostRuntime) -> Result<(), Fail> {
    let alloc = rt.alloc();
    let cases: [(&[u8], &[u8]); 9] = [
        (b"begin 0 recycle 0", b"begin 0 recycle 0"),
        (b"begin 0 recycle 16383", b"begin 0 recycle 16383"),
        (b"call 0 recycle 3", b"call 0 recycle 3"),
        (b"begin 0 sweep", b"begin 0 sweep"),
        (b"call 0 sweep", b"call 0 sweep"),
        (b"step 0 1", b"step 0 times 1"),
        (b"step 0 1000000", b"step 0 times 1000000"),
        (b"finish 0", b"finish 0"),
        (b"refuse 0", b"refuse 0"),
    ];
    for (text, want) in cases {
        assert_reads(&rt, alloc, text, want)?;
    }
    Ok(())
}

#[test]
fn reads_no_line_where_the_recycler_has_none(rt: HostRuntime) -> Result<(), Fail> {
    let alloc = rt.alloc();
    let cases: [&[u8]; 27] = [
        b"call 0 recycle 16384",
        b"begin 0 recycle 4294967299",
        b"begin 0 recycle 18446744073709551619",
        b"begin 0 recycle 03",
        b"begin 0 recycle 00",
        b"begin 0 recycle +3",
        b"begin 0 recycle a",
        b"begin 0 recycle",
        b"begin 0 recycle ",
        b"begin 0 recycle 3 ",
        b"begin 0 recycle  3",
        b"begin 0 recycle3",
        b"begin 0 sweep ",
        b"begin 0 sweep 3",
        b"begin 0 sweeps",
        b"begin 0 swee",
        b"begin 00 sweep",
        b"begin 0 ",
        b"begin 1 sweep",
        b"call 16 sweep",
        b"call 1 recycle 3",
        b"begin 0 get a",
        b"call 0 put a =x",
        b"call 0 delete a",
        b"begin 0 swap a 0.0.0 =x",
        b"step 0 0",
        b"finish 00",
    ];
    for text in cases {
        assert!(rt; line_of(alloc, text)?.is_none());
    }
    Ok(())
}

#[test]
fn reads_each_line_of_power_cuts(rt: HostRuntime) -> Result<(), Fail> {
    let alloc = rt.alloc();
    let cases: [(&[u8], &[u8]); 14] = [
        (b"cut old", b"cut and 0 more: old"),
        (b"cut new", b"cut and 0 more: new"),
        (b"cut mix:0", b"cut and 0 more: mix:0"),
        (b"cut pick:R0,N0.2,R0", b"cut and 0 more: pick:R0,N0.2,R0"),
        (b"cut old at 0 new", b"cut and 1 more: old at 0 new"),
        (
            b"cut old at 1 old at 1 old",
            b"cut and 2 more: old at 1 old at 1 old",
        ),
        (
            b"cut new at 7 pick:K0.31 at 0 mix:3 at 2 old",
            b"cut and 3 more: new at 7 pick:K0.31 at 0 mix:3 at 2 old",
        ),
        (
            b"cut mix:18446744073709551615 at 18446744073709551615 mix:18446744073709551615",
            b"cut and 1 more: mix:18446744073709551615 at 18446744073709551615 mix:18446744073709551615",
        ),
        (
            b"cut pick:V4294967295.4294967295.4294967295 at 1 pick:R4294967295",
            b"cut and 1 more: pick:V4294967295.4294967295.4294967295 at 1 pick:R4294967295",
        ),
        (b"image old", b"image of old"),
        (b"image new", b"image of new"),
        (b"image mix:10", b"image of mix:10"),
        (b"image pick:R0", b"image of pick:R0"),
        (
            b"image pick:M0.2,V0.2.1,K3.0",
            b"image of pick:M0.2,V0.2.1,K3.0",
        ),
    ];
    for (text, want) in cases {
        assert_reads(&rt, alloc, text, want)?;
        assert!(rt; is_of_cuts(text));
    }
    Ok(())
}

#[test]
fn keeps_the_parts_of_a_cut(rt: HostRuntime) -> Result<(), Fail> {
    let alloc = rt.alloc();
    let Some(Line::Cut { choice, more }) = line_of(alloc, b"cut mix:3 at 17 mix:4 at 0 new")? else {
        return Err("a cut".into());
    };
    let Choice::Mix(seed) = choice else {
        return Err("a seed".into());
    };
    assert_eq!(rt; seed, 3);
    let stores: [u64; 2] = [17, 0];
    assert_eq!(rt; more.items().len(), stores.len());
    for (cut, want) in more.items().iter().zip(&stores) {
        assert_eq!(rt; cut.0, *want);
    }
    Ok(())
}

/// Asserts that each text is no line.
fn assert_none(rt: &impl Abort, alloc: Global, cases: &[&[u8]]) -> Result<(), Fail> {
    for text in cases {
        assert!(rt; line_of(alloc, text)?.is_none());
        assert!(rt; !is_of_cuts(text));
    }
    Ok(())
}

#[test]
fn reads_no_line_of_a_bad_choice(rt: HostRuntime) -> Result<(), Fail> {
    let cases: [&[u8]; 36] = [
        // Nothing behind the first word, and other first words.
        b"cut",
        b"cut ",
        b"image",
        b"image ",
        b"Cut old",
        b" cut old",
        b"cutold",
        b"cuts old",
        b"imageold",
        b"images old",
        b"old",
        // Bad choices.
        b"cut olds",
        b"cut Old",
        b"cut  old",
        b"cut 1",
        b"cut mix",
        b"cut mix:",
        b"cut mix:01",
        b"cut mix:-1",
        b"cut mix:18446744073709551616",
        b"cut pick:",
        b"cut pick:R0,",
        b"cut pick:R0, R1",
        b"cut pick:S0",
        b"cut pick:C",
        b"cut pick:fR0",
        b"cut pick:R4294967296",
        b"image  old",
        b"image olds",
        b"image mix:18446744073709551616",
        b"image pick:fN0.0",
        // Something behind an image.
        b"image old ",
        b"image old new",
        b"image old at 1 old",
        b"image old\r",
        b"image 1",
    ];
    assert_none(&rt, rt.alloc(), &cases)
}

#[test]
fn reads_no_line_of_bad_further_cuts(rt: HostRuntime) -> Result<(), Fail> {
    let cases: [&[u8]; 19] = [
        // Something behind what is whole.
        b"cut old ",
        b"cut old new",
        b"cut old\r",
        b"cut old at 1 old ",
        b"cut old at 1 old new",
        // A word is left out, or another stands in its place.
        b"at 1 old",
        b"cut at 1 old",
        b"cut old at",
        b"cut old at 1",
        b"cut old at 1 ",
        b"cut old at old",
        b"cut old in 1 old",
        b"cut old at 1 old 2 old",
        b"cut old at 1 old at 2",
        b"cut old at 1 olds",
        // No number, or one out of range.
        b"cut old at 01 old",
        b"cut old at -1 old",
        b"cut old at 1x old",
        b"cut old at 18446744073709551616 old",
    ];
    assert_none(&rt, rt.alloc(), &cases)
}

#[test]
fn reads_no_line_where_there_is_none(rt: HostRuntime) -> Result<(), Fail> {
    let alloc = rt.alloc();
    let cases: [&[u8]; 50] = [
        b"",
        b"#",
        b"# finish 1",
        b"pool nodes=1 buffers=4 slots=2 words=2 wear=3 clients=1 batch=2",
        b"step 1 0",
        b"step 1 1000001",
        b"step 1 01",
        b"step 1 ",
        b"step 1",
        b"step 17 1",
        b"step 1 1 ",
        b"step  1 1",
        b"step 1  1",
        b"step 1 18446744073709551617",
        b" step 1 1",
        b"Step 1 1",
        b"finish",
        b"finish ",
        b"finish 17",
        b"finish 01",
        b"finish 1 ",
        b"finish 1 1",
        b"finish 4294967297",
        b"refuse 17",
        b"refuse 1 ",
        b"refuse a",
        b"begin 17 get a",
        b"begin 1",
        b"begin 1 ",
        b"begin 1 get",
        b"begin 1 get ",
        b"begin 1 get a ",
        b"begin 1 get  a",
        b"begin 1  get a",
        b"begin  1 get a",
        b"begin 1 get a =x",
        b"begin 1 get %41",
        b"begin 1 get %2F",
        b"begin 1 delete a b",
        b"begin 1 put a",
        b"begin 1 put a x",
        b"begin 1 put a  =x",
        b"begin 1 put  =x",
        b"call 1 swap a 64.0.0 =x",
        b"call 1 swap a 0.65536.0 =x",
        b"call 1 swap a 0.0.1048576 =x",
        b"call 1 swap a 0.0 =x",
        b"call 1 swap a 0.0.0.0 =x",
        b"call 1 swap a 00.0.0 =x",
        b"call 1 swap a =x",
    ];
    for text in cases {
        assert!(rt; line_of(alloc, text)?.is_none());
    }
    Ok(())
}

#[test]
fn reads_long_keys_and_values(rt: HostRuntime) -> Result<(), Fail> {
    let alloc = rt.alloc();
    let cases: [(&[u8], u32, bool); 6] = [
        (b"begin 2 delete ", 250, true),
        (b"begin 2 delete ", 251, false),
        (b"begin 2 put a =", 65_535, true),
        (b"begin 2 put a =", 65_536, false),
        (b"call 2 swap a 0.0.0 =", 65_535, true),
        (b"call 2 swap a 0.0.0 =", 65_536, false),
    ];
    for (front, letters, want) in cases {
        let text = with_letters(alloc, front, letters)?;
        assert_eq!(rt; line_of(alloc, &text)?.is_some(), want);
    }
    for (letters, kept) in [(1_024, 1_024), (1_025, 1_024), (65_535, 1_024)] {
        let text = with_letters(alloc, b"begin 2 swap a 0.0.0 =", letters)?;
        let Some(Line::Begin { actor: _, task }) = line_of(alloc, &text)? else {
            return Err("a begin".into());
        };
        let Task::Client { call, written } = task else {
            return Err("a call".into());
        };
        assert_eq!(rt; written, letters);
        let Call::Swap { value, .. } = call else {
            return Err("a swap".into());
        };
        assert_eq!(rt; value.bytes.items().len(), kept);
    }
    Ok(())
}
