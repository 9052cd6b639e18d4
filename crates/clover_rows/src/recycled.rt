// Worked sessions with the recycler: buffers that are used again under cursors, shortcuts, roots, copies and links that
// are stale by then.

use crate::support::run;
use crate::text::{Session, texts};
use std::test::Fail;

const SESSIONS: [Session; 12] = [
    // a version filled under another key while a get copies it: the get finds its tail linked, walks on, and answers
    // the new value
    (
        "pool nodes=1 buffers=6 slots=2 words=2 wear=9 clients=2 batch=1\n",
        "call 1 put a =oldoldoldold\n\
         call 2 get a\n\
         begin 2 get a\n\
         step 2 3\n\
         call 1 put a =new\n\
         call 0 sweep\n\
         call 1 put b =zzzzzzzzzzzz\n\
         finish 2\n",
        "1 stored 0.0.0\n\
         2 found 0.0.0 =oldoldoldold\n\
         1 stored 0.2.0\n\
         0 swept 2\n\
         1 stored 0.0.1\n\
         2 found 0.2.0 =new\n",
        "h 1 1 1 put a =oldoldoldold stored 0.0.0\n\
         h 1 2 1 get a found 0.0.0 =oldoldoldold\n\
         h 1 1 2 put a =new stored 0.2.0\n\
         h 1 1 3 put b =zzzzzzzzzzzz stored 0.0.1\n\
         h 1 2 2 get a found 0.2.0 =new\n",
        78,
    ),
    // the tail recycled before a put's exchange, which writes nothing: the put walks on
    (
        "pool nodes=1 buffers=6 slots=2 words=1 wear=9 clients=2 batch=2\n",
        "call 1 put a =x\n\
         begin 1 put a =p\n\
         step 1 5\n\
         call 2 put a =q\n\
         call 0 sweep\n\
         call 2 put b =r\n\
         finish 1\n\
         call 2 get b\n",
        "1 stored 0.0.0\n\
         2 stored 0.3.0\n\
         0 swept 2\n\
         2 stored 0.4.0\n\
         1 stored 0.1.0\n\
         2 found 0.4.0 =r\n",
        "h 1 1 1 put a =x stored 0.0.0\n\
         h 1 2 1 put a =q stored 0.3.0\n\
         h 1 2 2 put b =r stored 0.4.0\n\
         h 1 1 2 put a =p stored 0.1.0\n\
         h 1 2 3 get b found 0.4.0 =r\n",
        73,
    ),
    // a walk chased by puts and sweeps, which gives up once its turns reach the buffers and two
    (
        "pool nodes=1 buffers=4 slots=1 words=1 wear=50 clients=2 batch=1\n",
        "call 1 put a =v\n\
         begin 2 get a\n\
         step 2 3\n\
         call 1 put a =v\n\
         call 0 sweep\n\
         step 2 2\n\
         call 1 put a =v\n\
         call 0 sweep\n\
         step 2 2\n\
         call 1 put a =v\n\
         call 0 sweep\n\
         step 2 2\n\
         call 1 put a =v\n\
         call 0 sweep\n\
         step 2 2\n\
         call 1 put a =v\n\
         call 0 sweep\n\
         step 2 2\n\
         call 1 put a =v\n\
         call 0 sweep\n\
         step 2 2\n\
         call 2 get a\n",
        "1 stored 0.0.0\n\
         1 stored 0.2.0\n\
         0 swept 2\n\
         1 stored 0.0.1\n\
         0 swept 1\n\
         1 stored 0.1.1\n\
         0 swept 1\n\
         1 stored 0.0.2\n\
         0 swept 1\n\
         1 stored 0.1.2\n\
         0 swept 1\n\
         1 stored 0.0.3\n\
         0 swept 1\n\
         2 behind 6\n\
         2 found 0.0.3 =v\n",
        "h 1 1 1 put a =v stored 0.0.0\n\
         h 1 1 2 put a =v stored 0.2.0\n\
         h 1 1 3 put a =v stored 0.0.1\n\
         h 1 1 4 put a =v stored 0.1.1\n\
         h 1 1 5 put a =v stored 0.0.2\n\
         h 1 1 6 put a =v stored 0.1.2\n\
         h 1 1 7 put a =v stored 0.0.3\n\
         h 1 2 1 get a found 0.0.3 =v\n",
        132,
    ),
    // a sweep waits while a client holds the server
    (
        "pool nodes=1 buffers=4 slots=1 words=1 wear=3 clients=1 batch=2\n",
        "begin 1 put a =1\n\
         step 1 3\n\
         call 0 sweep\n\
         finish 1\n\
         finish 0\n",
        "1 stored 0.0.0\n\
         0 swept 1\n",
        "h 1 1 1 put a =1 stored 0.0.0\n",
        25,
    ),
    // a cursor of generation 0 once its buffer is at its last generation, and once it is worn
    (
        "pool nodes=1 buffers=4 slots=1 words=1 wear=2 clients=3 batch=1\n",
        "call 1 put a =v\n\
         call 2 get a\n\
         call 3 get a\n\
         call 1 put a =w\n\
         call 0 sweep\n\
         call 1 put a =x\n\
         call 2 get a\n\
         call 0 sweep\n\
         call 1 put a =y\n\
         call 0 sweep\n\
         call 3 get a\n\
         call 1 put a =z\n",
        "1 stored 0.0.0\n\
         2 found 0.0.0 =v\n\
         3 found 0.0.0 =v\n\
         1 stored 0.2.0\n\
         0 swept 2\n\
         1 stored 0.0.1\n\
         2 found 0.0.1 =x\n\
         0 swept 1\n\
         1 stored 0.1.1\n\
         0 swept 1\n\
         3 found 0.1.1 =y\n\
         1 stored 0.2.1\n",
        "h 1 1 1 put a =v stored 0.0.0\n\
         h 1 2 1 get a found 0.0.0 =v\n\
         h 1 3 1 get a found 0.0.0 =v\n\
         h 1 1 2 put a =w stored 0.2.0\n\
         h 1 1 3 put a =x stored 0.0.1\n\
         h 1 2 2 get a found 0.0.1 =x\n\
         h 1 1 4 put a =y stored 0.1.1\n\
         h 1 3 2 get a found 0.1.1 =y\n\
         h 1 1 5 put a =z stored 0.2.1\n",
        101,
    ),
    // a walk made stale at its cursor, at the shortcut and at the root
    (
        "pool nodes=1 buffers=6 slots=1 words=1 wear=9 clients=2 batch=1\n",
        "call 1 put a =0\n\
         call 2 get a\n\
         call 1 put a =1\n\
         call 0 sweep\n\
         begin 2 get a\n\
         step 2 2\n\
         call 1 put a =2\n\
         call 0 sweep\n\
         step 2 2\n\
         call 1 put a =3\n\
         call 0 sweep\n\
         step 2 1\n\
         finish 2\n",
        "1 stored 0.0.0\n\
         2 found 0.0.0 =0\n\
         1 stored 0.2.0\n\
         0 swept 2\n\
         1 stored 0.0.1\n\
         0 swept 1\n\
         1 stored 0.1.1\n\
         0 swept 1\n\
         2 found 0.1.1 =3\n",
        "h 1 1 1 put a =0 stored 0.0.0\n\
         h 1 2 1 get a found 0.0.0 =0\n\
         h 1 1 2 put a =1 stored 0.2.0\n\
         h 1 1 3 put a =2 stored 0.0.1\n\
         h 1 1 4 put a =3 stored 0.1.1\n\
         h 1 2 2 get a found 0.1.1 =3\n",
        85,
    ),
    // what the recycler is answered: a slot that is not bound, one with nothing to recycle, one that has, a task
    // beside another, a refused access, and no task
    (
        "pool nodes=1 buffers=6 slots=2 words=1 wear=9 clients=1 batch=2\n",
        "call 0 sweep\n\
         call 0 recycle 0\n\
         call 1 put a =1\n\
         call 0 recycle 0\n\
         call 0 recycle 0\n\
         begin 0 sweep\n\
         begin 0 recycle 9\n\
         step 0 1\n\
         refuse 0\n\
         step 0 1\n\
         finish 0\n\
         step 0 5\n\
         refuse 0\n\
         call 0 recycle 0\n\
         call 0 recycle 0\n",
        "0 swept 0\n\
         0 unbound\n\
         1 stored 0.0.0\n\
         0 recycled 0.2.0\n\
         0 unlinked\n\
         0 busy\n\
         0 swept 0\n\
         0 unreached\n\
         0 unlinked\n",
        "h 1 1 1 put a =1 stored 0.0.0\n",
        28,
    ),
    // a recycling whose access was refused is finished by the next step of the server, and told by nobody
    (
        "pool nodes=1 buffers=4 slots=1 words=1 wear=9 clients=2 batch=1\n",
        "call 1 put a =1\n\
         begin 0 recycle 0\n\
         step 0 2\n\
         refuse 0\n\
         step 0 1\n\
         call 2 put a =2\n\
         call 0 sweep\n\
         call 2 get a\n",
        "1 stored 0.0.0\n\
         0 unreached\n\
         2 stored 0.1.1\n\
         0 swept 1\n\
         2 found 0.1.1 =2\n",
        "h 1 1 1 put a =1 stored 0.0.0\n\
         h 1 2 1 put a =2 stored 0.1.1\n\
         h 1 2 2 get a found 0.1.1 =2\n",
        44,
    ),
    // a sweep that ends another one's recycling counts it
    (
        "pool nodes=1 buffers=4 slots=1 words=1 wear=9 clients=1 batch=1\n",
        "call 1 put a =1\n\
         begin 0 recycle 0\n\
         step 0 5\n\
         refuse 0\n\
         step 0 1\n\
         call 0 sweep\n\
         call 0 sweep\n",
        "1 stored 0.0.0\n\
         0 unreached\n\
         0 swept 1\n\
         0 swept 0\n",
        "h 1 1 1 put a =1 stored 0.0.0\n",
        26,
    ),
    // a refusal stays over events that make no access
    (
        "pool nodes=1 buffers=4 slots=1 words=1 wear=3 clients=2 batch=1\n",
        "refuse 0\n\
         call 0 sweep\n\
         call 1 put a =x\n\
         call 0 sweep\n\
         call 0 sweep\n",
        "0 swept 0\n\
         1 stored 0.0.0\n\
         0 unreached\n\
         0 swept 1\n",
        "h 1 1 1 put a =x stored 0.0.0\n",
        25,
    ),
    // a refusal stays over the event that finds no slot
    (
        "pool nodes=1 buffers=4 slots=1 words=1 wear=3 clients=2 batch=2\n",
        "call 1 put a =x\n\
         begin 1 put b =y\n\
         step 1 1\n\
         refuse 1\n\
         finish 1\n\
         call 1 get a\n",
        "1 stored 0.0.0\n\
         1 noslot\n\
         1 unreached\n",
        "h 1 1 1 put a =x stored 0.0.0\n",
        19,
    ),
    // a worn pool: each buffer serves its generations, and then no put finds one
    (
        "pool nodes=1 buffers=3 slots=1 words=1 wear=1 clients=1 batch=1\n",
        "call 1 put a =1\n\
         call 0 sweep\n\
         call 1 put a =2\n\
         call 0 sweep\n\
         call 1 put a =3\n\
         call 1 get a\n",
        "1 stored 0.0.0\n\
         0 swept 1\n\
         1 stored 0.2.0\n\
         0 swept 1\n\
         1 full 1 2 0\n\
         1 found 0.2.0 =2\n",
        "h 1 1 1 put a =1 stored 0.0.0\n\
         h 1 1 2 put a =2 stored 0.2.0\n\
         h 1 1 3 get a found 0.2.0 =2\n",
        45,
    ),
];

#[test]
fn sessions_with_the_recycler_are_printed_byte_for_byte(rt: HostRuntime) -> Result<(), Fail> {
    let alloc = rt.alloc();
    for session in SESSIONS {
        let (script, printed) = texts(alloc, session)?;
        let (status, sink) = run(alloc, &["replay"], script.input(alloc)?, &[], 4096, &[])?;
        assert_eq!(rt; status, 0, "{}", session.1);
        assert_eq!(rt; sink.bytes(), printed.bytes(), "{}", session.1);
    }
    Ok(())
}
