// Four calls of one key that overlap: two puts, a swap and a get. Each is brought to just before the access that
// decides it where nothing stands in its way; then they are finished in every order.

use crate::support::run;
use crate::text::Text;
use std::alloc::Global;
use std::test::Fail;

// The clients are 1 to 4: put, put, swap, get. A client's own buffer is the next one of its stock; buffer 2 holds the
// tombstone. Client 2 is handed a batch with the key's name, which is a step more; clients 3 and 4 load
// the count and are handed the name, and client 3 then a batch.
const CALLS: [&str; 4] = ["put a =p", "put a =q", "swap a 0.0.0 =s", "get a"];

const STEPS: [&str; 4] = ["5", "7", "10", "6"];

const OWN: [u64; 4] = [1, 3, 5, 0];

const VALUES: [&str; 4] = ["p", "q", "s", ""];

const NUMBERS: [&str; 4] = ["1 1 2 ", "1 2 1 ", "1 3 1 ", "1 4 1 "];

const NAMES: [&str; 4] = ["1", "2", "3", "4"];

const ORDERS: [[usize; 4]; 24] = [
    [0, 1, 2, 3],
    [0, 1, 3, 2],
    [0, 2, 1, 3],
    [0, 2, 3, 1],
    [0, 3, 1, 2],
    [0, 3, 2, 1],
    [1, 0, 2, 3],
    [1, 0, 3, 2],
    [1, 2, 0, 3],
    [1, 2, 3, 0],
    [1, 3, 0, 2],
    [1, 3, 2, 0],
    [2, 0, 1, 3],
    [2, 0, 3, 1],
    [2, 1, 0, 3],
    [2, 1, 3, 0],
    [2, 3, 0, 1],
    [2, 3, 1, 0],
    [3, 0, 1, 2],
    [3, 0, 2, 1],
    [3, 1, 0, 2],
    [3, 1, 2, 0],
    [3, 2, 0, 1],
    [3, 2, 1, 0],
];

fn script_of(alloc: Global, order: &[usize; 4]) -> Result<Text, Fail> {
    let mut text = Text::make(alloc);
    text.say(
        "pool nodes=1 buffers=32 slots=1 words=1 wear=9 clients=4 batch=2\n\
         call 1 put a =0\n",
    )?;
    for call in 0..4usize {
        text.say("begin ")?;
        text.say(NAMES[call])?;
        text.say(" ")?;
        text.say(CALLS[call])?;
        text.say("\nstep ")?;
        text.say(NAMES[call])?;
        text.say(" ")?;
        text.say(STEPS[call])?;
        text.say("\n")?;
    }
    for call in order {
        text.say("finish ")?;
        text.say(NAMES[*call % 4])?;
        text.say("\n")?;
    }
    Ok(text)
}

// What the key has: which call's value, or the first put's.
#[derive(Clone, Copy)]
struct Kept {
    tag: u64,
    value: &'static str,
}

fn say_reply(text: &mut Text, call: usize, kept: &mut Kept) -> Result<(), Fail> {
    if call == 3 {
        text.say("found ")?;
        text.tag(kept.tag)?;
        text.say(" =")?;
        return text.say(kept.value);
    }
    if call == 2 && kept.tag != 0 {
        text.say("differs ")?;
        return text.tag(kept.tag);
    }
    *kept = Kept {
        tag: OWN[call % 4],
        value: VALUES[call % 4],
    };
    text.say("stored ")?;
    text.tag(kept.tag)
}

const FIRST: Kept = Kept { tag: 0, value: "0" };

fn printed_of(alloc: Global, order: &[usize; 4]) -> Result<Text, Fail> {
    let mut text = Text::make(alloc);
    text.say("1 stored 0.0.0\n")?;
    let mut kept = FIRST;
    for call in order {
        text.say(NAMES[*call % 4])?;
        text.say(" ")?;
        say_reply(&mut text, *call, &mut kept)?;
        text.say("\n")?;
    }
    text.say("history\nh 1 1 1 put a =0 stored 0.0.0\n")?;
    let mut kept = FIRST;
    for call in order {
        text.say("h ")?;
        text.say(NUMBERS[*call % 4])?;
        text.say(CALLS[*call % 4])?;
        text.say(" ")?;
        say_reply(&mut text, *call, &mut kept)?;
        text.say("\n")?;
    }
    Ok(text)
}

#[test]
fn calls_that_overlap_stand_in_the_order_of_their_deciding_accesses(
    rt: HostRuntime,
) -> Result<(), Fail> {
    let alloc = rt.alloc();
    for order in &ORDERS {
        let script = script_of(alloc, order)?;
        let printed = printed_of(alloc, order)?;
        let input = script.input(alloc)?;
        let (status, sink) = run(alloc, &["replay"], input, &[], 65_536, &[])?;
        assert_eq!(rt; status, 0);
        // The number of accesses stands behind it.
        assert!(rt; sink.bytes().starts_with(printed.bytes()));
    }
    Ok(())
}
