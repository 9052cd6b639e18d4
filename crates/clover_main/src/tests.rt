// Images and accesses that go through a chunk, byte for byte, and into a sink that fails.
use super::*;
use clover_image::Image;
use clover_rule::{Access, Act, Actor};
use clover_words::{Buffer, Pool, Side, Word};
use std::alloc::Global;
use std::process::Abort;
use std::test::Fail;

const FIRST: Buffer = Buffer { node: 0, index: 0 };

const THIRD: Buffer = Buffer { node: 0, index: 2 };

// The words of a pool in which `hello` was put under `a`: its version, and the tombstone before it on the slot's chain.
const LINES: [(Word, u64); 6] = [
    (Word::Key(0, 0), 0x0161_0000_0000_0000),
    (Word::Root(0), 0x0000_0400_0020_0000),
    (Word::Meta(FIRST), 0x0001_0000_0000_0005),
    (Word::Value(FIRST, 0), 0x6865_6c6c_6f00_0000),
    (Word::Next(THIRD), 0x0000_0400_0000_0000),
    (Word::Meta(THIRD), 0x0002_0000_0000_0000),
];

const PRINTED: &[u8] = b"clover image 1
pool nodes=1 buffers=4 slots=2 words=2 wear=3
M0.0 0001000000000005
V0.0.0 68656c6c6f000000
N0.2 0000040000000000
M0.2 0002000000000000
R0 0000040000200000
K0.0 0161000000000000
end
";

// The image of the wide pool in which each word is 0.
const BLANK: &[u8] =
    b"clover image 1\npool nodes=2 buffers=100 slots=30 words=128 wear=1048575\nend\n";

fn small_pool() -> Pool {
    Pool {
        nodes: 1,
        buffers: 4,
        slots: 2,
        words: 2,
        wear: 3,
    }
}

// A pool whose image, with a line for each word, is several chunks long.
fn wide_pool() -> Pool {
    Pool {
        nodes: 2,
        buffers: 100,
        slots: 30,
        words: 128,
        wear: 1_048_575,
    }
}

// A sink of which the call with this number fails.
fn sink(alloc: Global, room: usize, failing: u64) -> Result<MemorySink, Fail> {
    let mut list = NumberList::make(alloc);
    list.push(failing)?;
    Ok(MemorySink::make(alloc, room, list)?)
}

#[test]
fn prints_an_image(rt: HostRuntime) -> Result<(), Fail> {
    let alloc = rt.alloc();
    let mut image = Image::blank(alloc, small_pool())?;
    for (word, value) in LINES {
        assert!(rt; image.set(word, value));
    }
    let mut sink = sink(alloc, 4096, 0)?;
    assert!(rt; put_image(&image, &mut sink).is_ok());
    assert_eq!(rt; sink.bytes(), PRINTED);
    Ok(())
}

#[test]
fn prints_no_line_of_a_zero(rt: HostRuntime) -> Result<(), Fail> {
    let alloc = rt.alloc();
    let image = Image::blank(alloc, wide_pool())?;
    let mut sink = sink(alloc, 4096, 2)?;
    assert!(rt; put_image(&image, &mut sink).is_ok());
    assert_eq!(rt; sink.bytes(), BLANK);
    Ok(())
}

// The image of a pool in which each value word is 1.
fn full_image(alloc: Global) -> Result<Image, Fail> {
    let mut image = Image::blank(alloc, wide_pool())?;
    for node in 0..2u32 {
        for index in 0..100u32 {
            for number in 0..128u32 {
                let _ = image.set(Word::Value(Buffer { node, index }, number), 1);
            }
        }
    }
    Ok(image)
}

#[test]
fn a_front_is_left_where_a_write_fails(rt: HostRuntime) -> Result<(), Fail> {
    let alloc = rt.alloc();
    let image = full_image(alloc)?;
    let mut whole = sink(alloc, 1_000_000, 0)?;
    assert!(rt; put_image(&image, &mut whole).is_ok());
    // 25,600 lines, of which most are longer than 25 bytes, in parts of 8 KB.
    assert!(rt; whole.bytes().len() > 640_000);
    assert!(rt;
        whole
            .bytes()
            .ends_with(b"V1.99.127 0000000000000001\nend\n")
    );
    let mut before = 0;
    for failing in 1..20u64 {
        let mut cut = sink(alloc, 1_000_000, failing)?;
        assert!(rt; put_image(&image, &mut cut).is_err());
        assert!(rt; whole.bytes().starts_with(cut.bytes()));
        assert!(rt; failing == 1 || cut.bytes().len().saturating_sub(before) > 8_000);
        before = cut.bytes().len();
    }
    Ok(())
}

const ACCESSES: [Access; 7] = [
    Access {
        actor: Actor::Client(1),
        act: Act::Load {
            word: Word::Count,
            got: 0,
        },
        refused: false,
    },
    Access {
        actor: Actor::Server,
        act: Act::Store {
            word: Word::Meta(THIRD),
            side: Side::Flushed,
            value: 0x0002_0000_0000_0000,
        },
        refused: false,
    },
    Access {
        actor: Actor::Client(1),
        act: Act::Exchange {
            word: Word::Next(THIRD),
            expected: 0,
            new: 0x0000_0400_0000_0000,
            old: 0,
        },
        refused: false,
    },
    Access {
        actor: Actor::Client(1),
        act: Act::Raise {
            word: Word::Next(THIRD),
            value: 0x0000_0400_0000_0000,
            old: 0,
        },
        refused: false,
    },
    Access {
        actor: Actor::Client(1),
        act: Act::Store {
            word: Word::Short(0),
            side: Side::Current,
            value: 0x0000_0400_0000_0000,
        },
        refused: false,
    },
    Access {
        actor: Actor::Client(1),
        act: Act::Load {
            word: Word::Value(FIRST, 0),
            got: 0x6865_6c6c_6f00_0000,
        },
        refused: false,
    },
    Access {
        actor: Actor::Restart,
        act: Act::Store {
            word: Word::Key(1, 31),
            side: Side::Flushed,
            value: u64::MAX,
        },
        refused: true,
    },
];

const SHOWN: &[u8] = b"a 1 load C = 0000000000000000
a s store fM0.2 0002000000000000
a 1 exchange N0.2 0000000000000000 0000040000000000 = 0000000000000000
a 1 raise fN0.2 0000040000000000 = 0000000000000000
a 1 store S0 0000040000000000
a 1 load V0.0.0 = 68656c6c6f000000
a r store fK1.31 ffffffffffffffff refused
cut keys 1 free 2 worn 0 missing 1
";

#[test]
fn prints_accesses_and_numbers(rt: HostRuntime) -> Result<(), Fail> {
    let mut sink = sink(rt.alloc(), 4096, 0)?;
    let mut chunk = Chunk::new();
    assert!(rt; put_accesses(&ACCESSES, &mut chunk, &mut sink).is_ok());
    assert!(rt; put_numbers_line(1, 2, 0, 1, &mut chunk, &mut sink).is_ok());
    // Nothing went to the sink yet.
    assert!(rt; sink.bytes().is_empty());
    assert!(rt; chunk.flush(&mut sink).is_ok());
    assert_eq!(rt; sink.bytes(), SHOWN);
    Ok(())
}
