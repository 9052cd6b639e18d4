// Whole scripts: what they set up, and which of their lines is refused.

use crate::{BadLine, Choice, Line, LineFault, check_lines, line_of};
use clover_words::Setup;
use std::alloc::Global;
use std::process::Abort;
use std::test::Fail;

/// The line that is refused, or 0 where the text is a script.
fn bad_line(checked: Result<Setup, BadLine>) -> u64 {
    match checked {
        Ok(_) => 0,
        Err(
            BadLine {
                line,
                fault: LineFault::Unbuilt,
            },
        ) => line,
    }
}

/// Eight buffers, two slots and two clients.
const POOL: &[u8] = b"pool nodes=1 buffers=8 slots=2 words=2 wear=3 clients=2 batch=2\n";

/// Asserts which line of these lines behind the pool line is refused, where 0 is none.
fn assert_refused(rt: &impl Abort, alloc: Global, others: &[u8], want: u64) -> Result<(), Fail> {
    let mut text = POOL.to_vec(alloc)?;
    text.extend_from_slice(others)?;
    assert!(rt; text.len() <= 16_777_216);
    assert_eq!(rt; bad_line(check_lines(&text)), want);
    Ok(())
}

#[test]
fn names_the_first_bad_line(rt: HostRuntime) -> Result<(), Fail> {
    let alloc = rt.alloc();
    let cases: [(&[u8], u64); 25] = [
        (b"", 0),
        (
            b"\n# a\ncall 1 put a =1\nbegin 2 get b\nstep 2 3\nrefuse 2\nfinish 2\n#",
            0,
        ),
        (b"call 1 put a =0123456789abcdefg\n", 0),
        (
            b"call 1 put a =1\ncall 1 delete a\nbegin 1 swap a 0.0.0 =1\ncall 1 get a\n",
            0,
        ),
        (
            b"begin 0 recycle 3\nstep 0 5\nfinish 0\nrefuse 0\ncall 0 sweep",
            0,
        ),
        (
            b"cut old\ncall 1 get a\n# a\nimage pick:R0,N0.2\ncut mix:3 at 2 new at 0 old\nimage new",
            0,
        ),
        // None of the forms.
        (b"jump 1\n", 2),
        (b"cut\n", 2),
        (b"cut old\ncut olds\n", 3),
        (b"image new\n\nimage new at 1 old\n", 4),
        (b"cut old at 18446744073709551616 old\n", 2),
        (b"cut new\r\n", 2),
        (b" \n", 2),
        (b"call 1 get a\r\n", 2),
        (b"call 01 get a\n", 2),
        (b"#\n\ncall 1 get a \n#\n", 4),
        (b"call 17 get a\n", 2),
        (b"step 1 0\n", 2),
        (b"call 0 sweep\ncall 1 sweep\n", 3),
        (b"begin 0 recycle 16383\nbegin 0 recycle 16384\n", 3),
        // A second pool line.
        (POOL, 2),
        (
            b"# a\npool nodes=1 buffers=8 slots=2 words=2 wear=3 clients=2 batch=2",
            3,
        ),
        // More keys than slots, more puts than buffers, and a client that the setup does not have.
        (b"call 1 get a\n\nbegin 2 get b\ncall 1 get c\n", 0),
        (
            b"call 1 put a =1\ncall 1 delete a\nbegin 1 swap a 0.0.0 =1\ncall 1 put a =1\n",
            0,
        ),
        (b"call 16 get a\nfinish 3\nbegin 3 delete a\n", 0),
    ];
    for (others, want) in cases {
        assert_refused(&rt, alloc, others, want)?;
    }
    Ok(())
}

#[test]
fn refuses_what_opens_no_script(rt: HostRuntime) -> Result<(), Fail> {
    let alloc = rt.alloc();
    let cases: [(&[u8], u64); 13] = [
        // No pool line at all.
        (b"", 1),
        (b"\n", 2),
        (b"# a\n\n# b", 4),
        // A line that says something before it.
        (b"call 1 get a\n", 1),
        (b"#\ncut old\n", 2),
        (b"image new\n", 1),
        (b"# a\ncall 0 sweep\n", 2),
        (b"\n#\nfinish 1\n", 3),
        // A line of no form before it.
        (b"# a\njump 1\n", 2),
        // A number out of range.
        (
            b"\npool nodes=17 buffers=8 slots=2 words=2 wear=3 clients=2 batch=2",
            2,
        ),
        // Fewer buffers than slots are enough.
        (
            b"\n\npool nodes=1 buffers=1 slots=2 words=2 wear=3 clients=1 batch=2\njump 1\n",
            4,
        ),
        (
            b"# a\n\npool nodes=1 buffers=8 slots=2 words=2 wear=3 clients=2 batch=2",
            0,
        ),
        (
            b"# a\n\npool nodes=1 buffers=8 slots=2 words=2 wear=3 clients=2 batch=2\n# b\njump 1\n",
            5,
        ),
    ];
    for (text, want) in cases {
        assert_eq!(rt; bad_line(check_lines(text)), want);
    }
    Ok(())
}

#[test]
fn reads_pool_lines(rt: HostRuntime) -> Result<(), Fail> {
    let alloc = rt.alloc();
    let cases: [(&[u8], u64); 17] = [
        (b"pool", 1),
        (
            b"pool nodes=16 buffers=4096 slots=16384 words=128 wear=1048575 clients=16 batch=64",
            0,
        ),
        (
            b"pool nodes=1 buffers=65536 slots=1 words=1 wear=1 clients=1 batch=1",
            0,
        ),
        (
            b"pool nodes=2 buffers=1 slots=2 words=1 wear=1 clients=1 batch=1",
            0,
        ),
        (
            b"pool nodes=1 buffers=1 slots=2 words=1 wear=1 clients=1 batch=1",
            0,
        ),
        (
            b"pool nodes=0 buffers=4 slots=2 words=2 wear=3 clients=1 batch=2",
            1,
        ),
        (
            b"pool nodes=17 buffers=4 slots=2 words=2 wear=3 clients=1 batch=2",
            1,
        ),
        (
            b"pool nodes=16 buffers=4097 slots=2 words=2 wear=3 clients=1 batch=2",
            1,
        ),
        (
            b"pool nodes=1 buffers=4 slots=2 words=129 wear=3 clients=1 batch=2",
            1,
        ),
        (
            b"pool nodes=1 buffers=4 slots=2 words=2 wear=1048576 clients=1 batch=2",
            1,
        ),
        (
            b"pool nodes=1 buffers=4 slots=2 words=2 wear=3 clients=17 batch=2",
            1,
        ),
        (
            b"pool nodes=1 buffers=4 slots=2 words=2 wear=3 clients=1 batch=65",
            1,
        ),
        (
            b"pool nodes=1 buffers=4 slots=2 words=02 wear=3 clients=1 batch=2",
            1,
        ),
        (
            b"pool nodes=1 buffers=+4 slots=2 words=2 wear=3 clients=1 batch=2",
            1,
        ),
        (
            b"pool nodes=1 slots=2 buffers=4 words=2 wear=3 clients=1 batch=2",
            1,
        ),
        (
            b"pool nodes=1 buffers=4 slots=2 words=2 wear=3 clients=1 batch=2 ",
            1,
        ),
        (
            b"pool  nodes=1 buffers=4 slots=2 words=2 wear=3 clients=1 batch=2",
            1,
        ),
    ];
    for (text, want) in cases {
        assert_eq!(rt; bad_line(check_lines(text)), want);
    }
    Ok(())
}

#[test]
fn reads_coded_texts(rt: HostRuntime) -> Result<(), Fail> {
    let alloc = rt.alloc();
    let cases: [(&[u8], u64); 17] = [
        (b"call 1 get %20", 0),
        (b"call 1 get %25", 0),
        (b"call 1 get %7f", 0),
        (b"call 1 get !~", 0),
        (b"call 1 get %00%ff", 0),
        (b"call 1 get %41", 2),
        (b"call 1 get %2f", 2),
        (b"call 1 get %0A", 2),
        (b"call 1 get %", 2),
        (b"call 1 get %2", 2),
        (b"call 1 get %2g", 2),
        (b"call 1 get \x7f", 2),
        (b"call 1 put a =", 0),
        (b"call 1 put a ==%00", 0),
        (b"call 1 put a", 2),
        (b"call 1 put a hello", 2),
        (b"call 1 put a =b c", 2),
    ];
    for (others, want) in cases {
        assert_refused(&rt, alloc, others, want)?;
    }
    Ok(())
}

#[test]
fn sets_up_the_pool(rt: HostRuntime) -> Result<(), Fail> {
    let text = b"pool nodes=1 buffers=4 slots=2 words=3 wear=5 clients=6 batch=7\ncall 1 get b\n";
    let Ok(setup) = check_lines(text) else {
        return Err("a script".into());
    };
    assert_eq!(rt;
        (setup.pool.nodes, setup.pool.buffers, setup.pool.slots),
        (1, 4, 2)
    );
    assert_eq!(rt; (setup.pool.words, setup.pool.wear), (3, 5));
    assert_eq!(rt; (setup.clients, setup.batch), (6, 7));
    Ok(())
}

/// A line of `copies` copies of a text behind a front.
fn with_copies(alloc: Global, front: &[u8], copy: &[u8], copies: u32) -> Result<Vec<u8>, Fail> {
    let mut line = front.to_vec(alloc)?;
    for _ in 0..copies {
        line.extend_from_slice(copy)?;
    }
    Ok(line)
}

#[test]
fn keeps_long_lines_of_power_cuts(rt: HostRuntime) -> Result<(), Fail> {
    let alloc = rt.alloc();
    let text = with_copies(alloc, b"cut pick:R0", b",N0.2", 100_000)?;
    let Some(Line::Cut { choice, more }) = line_of(alloc, &text)? else {
        return Err("a cut".into());
    };
    let Choice::Pick(words) = choice else {
        return Err("words".into());
    };
    assert_eq!(rt; (words.items().len(), more.items().len()), (100_001, 0));
    let text = with_copies(alloc, b"cut old", b" at 2 pick:R0,R1", 100_000)?;
    let Some(Line::Cut { choice: _, more }) = line_of(alloc, &text)? else {
        return Err("a cut".into());
    };
    assert_eq!(rt; more.items().len(), 100_000);
    Ok(())
}

#[test]
fn reads_long_lines_of_power_cuts(rt: HostRuntime) -> Result<(), Fail> {
    let alloc = rt.alloc();
    let cases: [(&[u8], &[u8], &[u8], u64); 5] = [
        (b"cut pick:R10", b",R1", b"", 0),
        // The last name is none.
        (b"cut pick:R10", b",R1", b",S1", 2),
        (b"cut mix:1", b" at 1 old", b"", 0),
        // The last further cut has no choice.
        (b"cut mix:1", b" at 1 old", b" at 12345", 2),
        (b"image pick:R100", b",R1", b"", 0),
    ];
    for (front, copy, end, want) in cases {
        let mut line = with_copies(alloc, front, copy, 50_000)?;
        line.extend_from_slice(end)?;
        assert_refused(&rt, alloc, &line, want)?;
    }
    Ok(())
}
