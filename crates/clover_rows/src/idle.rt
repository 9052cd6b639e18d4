// A script of idle lines: a client that has no task makes none of the steps that it is asked for, however many, so such
// a script is answered as soon as it is read.

use crate::support::run;
use crate::text::Text;
use std::test::Fail;

const LINES: u64 = 2_000;

#[test]
fn a_script_of_idle_lines_is_answered_at_once(rt: HostRuntime) -> Result<(), Fail> {
    let alloc = rt.alloc();
    let mut text = Text::make(alloc);
    text.say("pool nodes=1 buffers=4 slots=2 words=2 wear=3 clients=1 batch=2\n")?;
    for _ in 0..LINES {
        text.say("step 1 1000000\n")?;
    }
    let (status, sink) = run(alloc, &["replay"], text.input(alloc)?, &[], 1_024, &[])?;
    assert_eq!(rt; status, 0);
    assert_eq!(rt; sink.bytes(), b"history\naccesses 0\nend\n".as_slice());
    Ok(())
}
