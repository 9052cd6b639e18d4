// Sources and sinks that fail at each of their calls.

use crate::support::{PRINTED, SCRIPT, bulk, run};
use std::test::Fail;

// the first of the two pieces in which that is put
const ANSWERS: &[u8] = b"1 stored 0.0.0\n1 found 0.0.0 =hello\n";

const UNBUILT: &[u8] = b"pool nodes=1 buffers=4 slots=2 words=2 wear=3 clients=1 batch=2\njump 1\n";

// A text, the numbers of the source's calls that fail, the sink's room, the numbers of its calls that fail; the status
// and what is put.
type Case = (
    &'static [u8],
    &'static [u64],
    usize,
    &'static [u64],
    u8,
    &'static [u8],
);

const CASES: [Case; 13] = [
    // the take that gives the text, and the one that finds its end; no third one is made
    (SCRIPT, &[1], 4096, &[], 2, b"error read\n"),
    (SCRIPT, &[2], 4096, &[], 2, b"error read\n"),
    (SCRIPT, &[3], 4096, &[], 0, PRINTED),
    // the first and the second piece of the output, by the list and for want of room
    (SCRIPT, &[], 4096, &[1], 3, b""),
    (SCRIPT, &[], 10, &[], 3, b""),
    (SCRIPT, &[], 45, &[], 3, ANSWERS),
    (SCRIPT, &[], 4096, &[2], 3, ANSWERS),
    (SCRIPT, &[], 4096, &[3], 0, PRINTED),
    // a failing write of a refusal leaves its status, and a front of its line
    (SCRIPT, &[1], 4096, &[1], 2, b""),
    (UNBUILT, &[], 4096, &[1], 1, b""),
    (UNBUILT, &[], 4096, &[2], 1, b"error badline "),
    (UNBUILT, &[], 4096, &[3], 1, b"error badline 2"),
    (UNBUILT, &[], 4096, &[4], 1, b"error badline 2 unbuilt\n"),
];

#[test]
fn each_failing_call_has_its_status(rt: HostRuntime) -> Result<(), Fail> {
    let alloc = rt.alloc();
    for (text, failing_takes, room, failing_puts, status, printed) in CASES {
        let input = bulk(alloc, text)?;
        let (ended, sink) = run(alloc, &["replay"], input, failing_takes, room, failing_puts)?;
        assert_eq!(rt; ended, status);
        assert_eq!(rt; sink.bytes(), printed);
    }
    Ok(())
}
