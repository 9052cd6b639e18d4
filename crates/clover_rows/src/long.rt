// One long session: more puts than a thousand, on more keys than a node has cursors, with more accesses than five
// thousand. Each answer, the history and the number of accesses are told beforehand.

use crate::support::run;
use crate::text::Text;
use std::alloc::Global;
use std::test::Fail;

const KEYS: u64 = 70;

const ROUNDS: u64 = 16;

// Of each key the first put loads the count, and the server binds the key in seven accesses, with a tombstone in the
// buffer behind the put's own. A put of one word alone: four stores and flushes, three accesses at the tail, and the load that shows it. Before
// that it loads the slot's shortcut, since seventy keys leave no cursor; of a key without a value that is empty, and
// it loads the root.
const ACCESSES: u64 = KEYS * ROUNDS * 9 + KEYS + KEYS * 8;

// The buffer of a put, of those in the order in which they were made.
fn buffer_of(put: u64) -> u64 {
    if put < KEYS {
        put.saturating_mul(2)
    } else {
        put.saturating_add(KEYS)
    }
}

fn say_put(text: &mut Text, key: u64) -> Result<(), Fail> {
    text.say("put k")?;
    text.number(key)?;
    text.say(" =v")
}

fn script_of(alloc: Global) -> Result<Text, Fail> {
    let mut text = Text::make(alloc);
    text.say("pool nodes=1 buffers=1200 slots=70 words=1 wear=2 clients=1 batch=1\n")?;
    for _ in 0..ROUNDS {
        for key in 0..KEYS {
            text.say("call 1 ")?;
            say_put(&mut text, key)?;
            text.say("\n")?;
        }
    }
    Ok(text)
}

fn answers_of(alloc: Global) -> Result<Text, Fail> {
    let mut text = Text::make(alloc);
    for put in 0..KEYS * ROUNDS {
        text.say("1 stored ")?;
        text.tag(buffer_of(put))?;
        text.say("\n")?;
    }
    Ok(text)
}

fn ending_of(alloc: Global) -> Result<Text, Fail> {
    let mut text = Text::make(alloc);
    text.say("history\n")?;
    for put in 0..KEYS * ROUNDS {
        text.say("h 1 1 ")?;
        text.number(put + 1)?;
        text.say(" ")?;
        say_put(&mut text, put % KEYS)?;
        text.say(" stored ")?;
        text.tag(buffer_of(put))?;
        text.say("\n")?;
    }
    text.say("accesses ")?;
    text.number(ACCESSES)?;
    text.say("\nend\n")?;
    Ok(text)
}

#[test]
fn a_long_session_is_answered_to_its_end(rt: HostRuntime) -> Result<(), Fail> {
    let alloc = rt.alloc();
    let input = script_of(alloc)?.input(alloc)?;
    let (status, sink) = run(alloc, &["replay"], input, &[], 1_048_576, &[])?;
    assert_eq!(rt; status, 0);
    let answers = answers_of(alloc)?;
    let ending = ending_of(alloc)?;
    assert!(rt; sink.bytes().starts_with(answers.bytes()));
    assert!(rt; sink.bytes().ends_with(ending.bytes()));
    assert_eq!(rt;
        sink.bytes().len(),
        answers.bytes().len() + ending.bytes().len()
    );
    Ok(())
}

#[test]
fn its_trace_goes_out_in_several_pieces(rt: HostRuntime) -> Result<(), Fail> {
    let alloc = rt.alloc();
    let input = script_of(alloc)?.input(alloc)?;
    let (status, sink) = run(alloc, &["replay", "--trace"], input, &[], 1_048_576, &[])?;
    assert_eq!(rt; status, 0);
    assert!(rt; sink.bytes().len() > 200_000);
    assert!(rt; sink.bytes().ends_with(ending_of(alloc)?.bytes()));
    Ok(())
}
