// Worked sessions of the program, with the text that each must print and its status.

use crate::support::{bulk, run};
use crate::text::{Session, Text, texts};
use std::test::Fail;

const ONE_CLIENT: &str = "pool nodes=1 buffers=4 slots=2 words=2 wear=3 clients=1 batch=2\n";

const TWO_CLIENTS: &str = "pool nodes=1 buffers=8 slots=2 words=1 wear=9 clients=2 batch=2\n";

const SESSIONS: [Session; 21] = [
    // a pool line alone
    (ONE_CLIENT, "", "", "", 0),
    // a put and a get of one key
    (
        ONE_CLIENT,
        "call 1 put a =hello\n\
         call 1 get a\n",
        "1 stored 0.0.0\n\
         1 found 0.0.0 =hello\n",
        "h 1 1 1 put a =hello stored 0.0.0\n\
         h 1 1 2 get a found 0.0.0 =hello\n",
        22,
    ),
    // a key that was never put, and a last line without its end
    (
        ONE_CLIENT,
        "call 1 get a",
        "1 absent\n",
        "h 1 1 1 get a absent\n",
        1,
    ),
    // an empty value, then one of exactly the room; bytes that stand for themselves and others
    (
        ONE_CLIENT,
        "call 1 put %20 =\n\
         call 1 get %20\n\
         call 1 put %20 =0123456789abcde%00\n\
         call 1 get %20\n",
        "1 stored 0.0.0\n\
         1 found 0.0.0 =\n\
         1 stored 0.1.0\n\
         1 found 0.1.0 =0123456789abcde%00\n",
        "h 1 1 1 put %20 = stored 0.0.0\n\
         h 1 1 2 get %20 found 0.0.0 =\n\
         h 1 1 3 put %20 =0123456789abcde%00 stored 0.1.0\n\
         h 1 1 4 get %20 found 0.1.0 =0123456789abcde%00\n",
        34,
    ),
    // buffers over two memory nodes: each batch is of the node that has the most free ones
    (
        "pool nodes=2 buffers=3 slots=1 words=1 wear=1 clients=2 batch=1\n",
        "call 1 put k =1\n\
         call 1 put k =2\n\
         call 1 put k =3\n\
         call 1 get k\n",
        "1 stored 0.0.0\n\
         1 stored 0.1.0\n\
         1 stored 1.1.0\n\
         1 found 1.1.0 =3\n",
        "h 1 1 1 put k =1 stored 0.0.0\n\
         h 1 1 2 put k =2 stored 0.1.0\n\
         h 1 1 3 put k =3 stored 1.1.0\n\
         h 1 1 4 get k found 1.1.0 =3\n",
        38,
    ),
    // a value one byte longer than the room: the call is refused, and nothing is stored
    (
        ONE_CLIENT,
        "call 1 put a =0123456789abcdefg\n",
        "1 toolong 17 16\n",
        "",
        0,
    ),
    // a put of one client under way while another one's is made whole
    (
        TWO_CLIENTS,
        "call 1 put a =x\n\
         begin 1 put a =p\n\
         step 1 5\n\
         call 2 put a =q\n\
         finish 1\n",
        "1 stored 0.0.0\n\
         2 stored 0.3.0\n\
         1 stored 0.1.0\n",
        "h 1 1 1 put a =x stored 0.0.0\n\
         h 1 2 1 put a =q stored 0.3.0\n\
         h 1 1 2 put a =p stored 0.1.0\n",
        38,
    ),
    // a swap that finds its tag and one that does not; a delete; the buffer of a swap that committed nothing is used again
    (
        "pool nodes=1 buffers=6 slots=1 words=1 wear=9 clients=1 batch=2\n",
        "call 1 put a =1\n\
         call 1 swap a 0.0.0 =2\n\
         call 1 swap a 0.0.0 =3\n\
         call 1 delete a\n\
         call 1 get a\n",
        "1 stored 0.0.0\n\
         1 stored 0.1.0\n\
         1 differs 0.1.0\n\
         1 deleted 0.3.0\n\
         1 absent\n",
        "h 1 1 1 put a =1 stored 0.0.0\n\
         h 1 1 2 swap a 0.0.0 =2 stored 0.1.0\n\
         h 1 1 3 swap a 0.0.0 =3 differs 0.1.0\n\
         h 1 1 4 delete a deleted 0.3.0\n\
         h 1 1 5 get a absent\n",
        44,
    ),
    // another client's get
    (
        TWO_CLIENTS,
        "call 1 put a =x\n\
         call 2 get a\n",
        "1 stored 0.0.0\n\
         2 found 0.0.0 =x\n",
        "h 1 1 1 put a =x stored 0.0.0\n\
         h 1 2 1 get a found 0.0.0 =x\n",
        24,
    ),
    // the raise behind an exchange is refused: the put stands, and the client's cursor stays where it was
    (
        "pool nodes=1 buffers=4 slots=1 words=1 wear=3 clients=1 batch=2\n",
        "call 1 put a =1\n\
         begin 1 put a =2\n\
         step 1 6\n\
         refuse 1\n\
         finish 1\n\
         call 1 get a\n",
        "1 stored 0.0.0\n\
         1 linked 0.1.0\n\
         1 found 0.1.0 =2\n",
        "h 1 1 1 put a =1 stored 0.0.0\n\
         h 1 1 2 put a =2 stored 0.1.0\n\
         h 1 1 3 get a found 0.1.0 =2\n",
        30,
    ),
    // the store of the shortcut is refused: the put stands, and another client finds it behind the older shortcut
    (
        "pool nodes=1 buffers=8 slots=1 words=1 wear=3 clients=2 batch=2\n",
        "call 1 put a =1\n\
         begin 1 put a =2\n\
         step 1 7\n\
         refuse 1\n\
         finish 1\n\
         call 2 get a\n",
        "1 stored 0.0.0\n\
         1 linked 0.1.0\n\
         2 found 0.1.0 =2\n",
        "h 1 1 1 put a =1 stored 0.0.0\n\
         h 1 1 2 put a =2 stored 0.1.0\n\
         h 1 2 1 get a found 0.1.0 =2\n",
        33,
    ),
    // another client's get from the shortcut, and one from its own cursor
    (
        TWO_CLIENTS,
        "call 1 put a =x\n\
         call 2 get a\n\
         call 2 get a\n",
        "1 stored 0.0.0\n\
         2 found 0.0.0 =x\n\
         2 found 0.0.0 =x\n",
        "h 1 1 1 put a =x stored 0.0.0\n\
         h 1 2 1 get a found 0.0.0 =x\n\
         h 1 2 2 get a found 0.0.0 =x\n",
        28,
    ),
    // cursors of two keys
    (
        "pool nodes=1 buffers=8 slots=2 words=1 wear=9 clients=1 batch=2\n",
        "call 1 put a =1\n\
         call 1 put b =2\n\
         call 1 get a\n\
         call 1 get b\n",
        "1 stored 0.0.0\n\
         1 stored 0.1.0\n\
         1 found 0.0.0 =1\n\
         1 found 0.1.0 =2\n",
        "h 1 1 1 put a =1 stored 0.0.0\n\
         h 1 1 2 put b =2 stored 0.1.0\n\
         h 1 1 3 get a found 0.0.0 =1\n\
         h 1 1 4 get b found 0.1.0 =2\n",
        44,
    ),
    // lines that are passed over; a client that is busy, one that there is not, a value that is too long, a refused access, steps with nothing to do
    (
        TWO_CLIENTS,
        "# two clients\n\
         \n\
         begin 1 put a =x\n\
         begin 1 get a\n\
         begin 3 get a\n\
         step 3 4\n\
         finish 2\n\
         call 2 put a =123456789\n\
         refuse 2\n\
         call 2 get a\n\
         finish 1\n\
         call 2 get a\n",
        "1 busy\n\
         3 none\n\
         2 toolong 9 8\n\
         2 unreached\n\
         1 stored 0.0.0\n\
         2 found 0.0.0 =x\n",
        "h 1 1 1 put a =x stored 0.0.0\n\
         h 1 2 1 get a found 0.0.0 =x\n",
        24,
    ),
    // a refused access of a client that is not there comes to nothing, and several refusals are one
    (
        TWO_CLIENTS,
        "refuse 3\n\
         refuse 1\n\
         refuse 1\n\
         step 1 2\n\
         call 1 get a\n\
         call 1 get a\n",
        "1 unreached\n\
         1 absent\n",
        "h 1 1 1 get a absent\n",
        1,
    ),
    // two keys and one slot: the second key's put has no slot, and a get of it is absent by the count
    (
        "pool nodes=1 buffers=4 slots=1 words=1 wear=3 clients=1 batch=1\n",
        "call 1 put a =1\n\
         call 1 put b =2\n\
         call 1 get b\n\
         call 1 get a\n",
        "1 stored 0.0.0\n\
         1 noslot\n\
         1 absent\n\
         1 found 0.0.0 =1\n",
        "h 1 1 1 put a =1 stored 0.0.0\n\
         h 1 1 2 get b absent\n\
         h 1 1 3 get a found 0.0.0 =1\n",
        24,
    ),
    // a pool with one buffer for a version, and one for a tombstone: the second put frees the tombstone's, which
    // is worn, and is full
    (
        "pool nodes=1 buffers=2 slots=1 words=1 wear=1 clients=1 batch=1\n",
        "call 1 put a =1\n\
         call 1 put a =2\n",
        "1 stored 0.0.0\n\
         1 full 1 1 0\n",
        "h 1 1 1 put a =1 stored 0.0.0\n",
        25,
    ),
    // a pool with no buffer for a binding: nothing is bound, so it is full without an access, and the refusal
    // asked for stays
    (
        "pool nodes=1 buffers=1 slots=1 words=1 wear=3 clients=2 batch=1\n",
        "call 1 put a =x\n\
         refuse 2\n\
         call 2 put a =x\n\
         call 2 get a\n",
        "1 full 0 0 1\n\
         2 full 0 0 1\n\
         2 unreached\n",
        "",
        1,
    ),
    // a client that waits for the server, which another one holds; then each binds its key
    (
        "pool nodes=1 buffers=8 slots=2 words=1 wear=3 clients=2 batch=1\n",
        "begin 1 put a =1\n\
         step 1 4\n\
         begin 2 put b =2\n\
         step 2 1000000\n\
         finish 2\n\
         finish 1\n\
         finish 2\n",
        "1 stored 0.0.0\n\
         2 stored 0.2.0\n",
        "h 1 1 1 put a =1 stored 0.0.0\n\
         h 1 2 1 put b =2 stored 0.2.0\n",
        36,
    ),
    // an access of the server is refused: the put is unreached, and the next one that wants something finishes
    // the binding
    (
        "pool nodes=1 buffers=8 slots=2 words=1 wear=3 clients=2 batch=1\n",
        "begin 1 put a =1\n\
         step 1 4\n\
         refuse 1\n\
         finish 1\n\
         call 2 put a =2\n\
         call 1 get a\n",
        "1 unreached\n\
         2 stored 0.2.0\n\
         1 found 0.2.0 =2\n",
        "h 1 2 1 put a =2 stored 0.2.0\n\
         h 1 1 1 get a found 0.2.0 =2\n",
        24,
    ),
    // recycled versions: a batch of two is made free, and a cursor of a recycled version is left behind
    (
        "pool nodes=1 buffers=4 slots=1 words=1 wear=9 clients=2 batch=1\n",
        "call 1 put a =1\n\
         call 2 get a\n\
         call 1 put a =2\n\
         call 1 put a =3\n\
         call 1 put a =4\n\
         call 2 get a\n",
        "1 stored 0.0.0\n\
         2 found 0.0.0 =1\n\
         1 stored 0.2.0\n\
         1 stored 0.3.0\n\
         1 stored 0.1.1\n\
         2 found 0.1.1 =4\n",
        "h 1 1 1 put a =1 stored 0.0.0\n\
         h 1 2 1 get a found 0.0.0 =1\n\
         h 1 1 2 put a =2 stored 0.2.0\n\
         h 1 1 3 put a =3 stored 0.3.0\n\
         h 1 1 4 put a =4 stored 0.1.1\n\
         h 1 2 2 get a found 0.1.1 =4\n",
        64,
    ),
];

#[test]
fn sessions_are_printed_byte_for_byte(rt: HostRuntime) -> Result<(), Fail> {
    let alloc = rt.alloc();
    for session in SESSIONS {
        let (script, printed) = texts(alloc, session)?;
        let (status, sink) = run(alloc, &["replay"], script.input(alloc)?, &[], 4096, &[])?;
        assert_eq!(rt; status, 0, "{}", session.1);
        assert_eq!(rt; sink.bytes(), printed.bytes(), "{}", session.1);
    }
    Ok(())
}

// The front and the rest of a text, and the number of its first line that is not built.
const REFUSED: [(&str, &str, u64); 6] = [
    // a number out of range
    (
        "pool nodes=17 buffers=4 slots=2 words=2 wear=3 clients=1 batch=2\n",
        "",
        1,
    ),
    // a line of none of the forms
    (ONE_CLIENT, "jump 1\n", 2),
    // no line at all
    ("", "", 1),
    // a second pool line
    (
        ONE_CLIENT,
        "call 1 get a\n\
         pool nodes=1 buffers=4 slots=2 words=2 wear=3 clients=1 batch=2\n",
        3,
    ),
    // only lines that are passed over, and no pool line
    (
        "",
        "# no pool\n\
         \n",
        3,
    ),
    // a call before the pool line
    (
        "",
        "call 1 get a\n\
         pool nodes=1 buffers=8 slots=2 words=1 wear=9 clients=2 batch=2\n",
        1,
    ),
];

#[test]
fn the_first_line_that_is_not_built_is_named(rt: HostRuntime) -> Result<(), Fail> {
    let alloc = rt.alloc();
    for (pool, lines, line) in REFUSED {
        let mut script = Text::make(alloc);
        script.say(pool)?;
        script.say(lines)?;
        let mut printed = Text::make(alloc);
        printed.say("error badline ")?;
        printed.number(line)?;
        printed.say(" unbuilt\n")?;
        let (status, sink) = run(alloc, &["replay"], script.input(alloc)?, &[], 4096, &[])?;
        assert_eq!(rt; status, 1, "{}", lines);
        assert_eq!(rt; sink.bytes(), printed.bytes(), "{}", lines);
    }
    Ok(())
}

const TRACED: &[u8] = b"pool nodes=1 buffers=4 slots=2 words=2 wear=3 clients=1 batch=2\n\
                        call 1 put a =hello\n\
                        refuse 1\n\
                        call 1 get a\n\
                        call 1 get a\n";

const TRACE: &[u8] = b"g 1 0 0.0.0 0.1.0\n\
                       a 1 load C = 0000000000000000\n\
                       a s store M0.2 0002000000000000\n\
                       a s store fM0.2 0002000000000000\n\
                       a s store K0.0 0161000000000000\n\
                       a s store fK0.0 0161000000000000\n\
                       a s store R0 0000040000200000\n\
                       a s store fR0 0000040000200000\n\
                       a s store C 0000000000000001\n\
                       g 1 1\n\
                       a 1 store M0.0 0001000000000005\n\
                       a 1 store V0.0.0 68656c6c6f000000\n\
                       a 1 store fM0.0 0001000000000005\n\
                       a 1 store fV0.0.0 68656c6c6f000000\n\
                       a 1 load S0 = 0000000000000000\n\
                       a 1 load R0 = 0000040000200000\n\
                       a 1 load N0.2 = 0000000000000000\n\
                       a 1 exchange N0.2 0000000000000000 0000040000000000 = 0000000000000000\n\
                       a 1 raise fN0.2 0000040000000000 = 0000000000000000\n\
                       a 1 store S0 0000040000000000\n\
                       1 stored 0.0.0\n\
                       a 1 load N0.0 refused\n\
                       1 unreached\n\
                       a 1 load N0.0 = 0000000000000000\n\
                       a 1 load M0.0 = 0001000000000005\n\
                       a 1 load V0.0.0 = 68656c6c6f000000\n\
                       a 1 load N0.0 = 0000000000000000\n\
                       1 found 0.0.0 =hello\n\
                       history\n\
                       h 1 1 1 put a =hello stored 0.0.0\n\
                       h 1 1 2 get a found 0.0.0 =hello\n\
                       accesses 22\n\
                       end\n";

#[test]
fn the_trace_has_each_access(rt: HostRuntime) -> Result<(), Fail> {
    let alloc = rt.alloc();
    let text = bulk(alloc, TRACED)?;
    let (status, sink) = run(alloc, &["replay", "--trace"], text, &[], 4096, &[])?;
    assert_eq!(rt; status, 0);
    assert_eq!(rt; sink.bytes(), TRACE);
    Ok(())
}

#[test]
fn words_of_no_command_are_refused(rt: HostRuntime) -> Result<(), Fail> {
    let alloc = rt.alloc();
    let lists: [&[&str]; 8] = [
        &[],
        &[""],
        &["--trace", "replay"],
        &["replay", "--trace", "--trace"],
        &["replay", "--json"],
        &["replay", "replay"],
        &["Replay"],
        &["--help"],
    ];
    for words in lists {
        let (status, sink) = run(alloc, words, bulk(alloc, b"")?, &[], 100, &[])?;
        assert_eq!(rt; status, 6);
        assert_eq!(rt; sink.bytes(), b"error badwords\n".as_slice());
    }
    Ok(())
}

#[test]
fn the_limit_of_the_input(rt: HostRuntime) -> Result<(), Fail> {
    let alloc = rt.alloc();
    for (length, printed) in [
        (16_777_216u32, b"error badline 2 unbuilt\n".as_slice()),
        (16_777_217, b"error toomuch\n".as_slice()),
    ] {
        let mut text = bulk(alloc, b"")?;
        for _ in 0..length {
            text.push(b'#')?;
        }
        let (status, sink) = run(alloc, &["replay"], text, &[], 100, &[])?;
        assert_eq!(rt; status, 1);
        assert_eq!(rt; sink.bytes(), printed);
    }
    Ok(())
}
