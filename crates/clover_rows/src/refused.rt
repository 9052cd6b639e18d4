// A put whose accesses are refused, each in turn: before its exchange nothing has happened, after it the put stands.

use crate::support::run;
use crate::text::Text;
use std::alloc::Global;
use std::test::Fail;

// The first put makes eighteen accesses: the load of the count, seven for the binding, and ten of its own. The second
// makes eight: two stores, two flushes, the next word of the tail at which its client's cursor is, the
// exchange, the raise, and the store of the shortcut.
const EXCHANGE: u64 = 5;

fn script_of(alloc: Global, made: u64) -> Result<Text, Fail> {
    let mut text = Text::make(alloc);
    text.say(
        "pool nodes=1 buffers=4 slots=1 words=1 wear=3 clients=1 batch=2\n\
         call 1 put a =1\n\
         begin 1 put a =2\n",
    )?;
    if made > 0 {
        text.say("step 1 ")?;
        text.number(made)?;
        text.say("\n")?;
    }
    text.say("refuse 1\nfinish 1\ncall 1 get a\n")?;
    Ok(text)
}

fn printed_of(alloc: Global, made: u64) -> Result<Text, Fail> {
    let mut text = Text::make(alloc);
    let accesses = made.saturating_add(18);
    if made > EXCHANGE {
        text.say(
            "1 stored 0.0.0\n\
             1 linked 0.1.0\n\
             1 found 0.1.0 =2\n\
             history\n\
             h 1 1 1 put a =1 stored 0.0.0\n\
             h 1 1 2 put a =2 stored 0.1.0\n\
             h 1 1 3 get a found 0.1.0 =2\n\
             accesses ",
        )?;
        text.number(accesses.saturating_add(6))?;
    } else {
        text.say(
            "1 stored 0.0.0\n\
             1 unreached\n\
             1 found 0.0.0 =1\n\
             history\n\
             h 1 1 1 put a =1 stored 0.0.0\n\
             h 1 1 2 get a found 0.0.0 =1\n\
             accesses ",
        )?;
        text.number(accesses.saturating_add(4))?;
    }
    text.say("\nend\n")?;
    Ok(text)
}

#[test]
fn each_access_of_a_put_is_refused_in_turn(rt: HostRuntime) -> Result<(), Fail> {
    let alloc = rt.alloc();
    for made in 0..8u64 {
        let script = script_of(alloc, made)?;
        let printed = printed_of(alloc, made)?;
        let input = script.input(alloc)?;
        let (status, sink) = run(alloc, &["replay"], input, &[], 65_536, &[])?;
        assert_eq!(rt; status, 0);
        assert_eq!(rt; sink.bytes(), printed.bytes());
    }
    Ok(())
}
