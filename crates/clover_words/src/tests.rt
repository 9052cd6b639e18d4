// Words and addresses that were worked out by hand, and the laws that callers derive from the clauses.
ghost use Rattle.std.specs.Prelude.{◌≡◌, ◌≤◌, length, take, IfSome, Some};
ghost use Rattle.clover_words.specs.Place.{IsWithin, HasSide};

use super::*;
use std::process::Abort;

// What is written and read again is the same, both ways.
fn tag_again(tag: Tag) -> Option<Tag>
    ensures { result ≡ Some tag }
{
    Tag::of_number(tag.number())
}

fn next_again(next: NextWord) -> Option<NextWord>
    ensures { result ≡ Some next }
{
    NextWord::decode(next.encode())
}

fn root_again(root: Option<Tag>) -> Option<Option<Tag>>
    ensures { result ≡ Some root }
{
    root_decode(root_encode(root))
}

fn meta_again(meta: Meta) -> Option<Meta>
    ensures { result ≡ Some meta }
{
    Meta::decode(meta.encode())
}

fn next_word_again(word: u64) -> Option<u64>
    ensures { IfSome result (λ again. again ≡ word) }
{
    Some(NextWord::decode(word)?.encode())
}

fn root_word_again(word: u64) -> Option<u64>
    ensures { IfSome result (λ again. again ≡ word) }
{
    Some(root_encode(root_decode(word)?))
}

fn meta_word_again(word: u64) -> Option<u64>
    ensures { IfSome result (λ again. again ≡ word) }
{
    Some(Meta::decode(word)?.encode())
}

fn place_again(pool: &Pool, word: Word, side: Side) -> Option<(Word, Side)>
    requires within { IsWithin pool.now word }
    requires side { HasSide word side }
    ensures { result ≡ Some (word, side) }
{
    pool.word_at(pool.address(word, side)?)
}

fn address_again(pool: &Pool, address: u64) -> Option<u64>
    ensures { IfSome result (λ again. again ≡ address) }
{
    let (word, side) = pool.word_at(address)?;
    pool.address(word, side)
}

// A root, the number of its tag, and the tag's node, index and generation.
const ROOTS: [(u64, u64, u32, u32, u32); 4] = [
    (0x0400_0000_0000, 0, 0, 0, 0),
    (0x0400_0020_0000, 0x0020_0000, 0, 2, 0),
    (0x0410_0020_0004, 0x10_0020_0004, 1, 2, 4),
    (0x07ff_ffff_ffff, 0x3ff_ffff_ffff, 63, 65_535, 1_048_575),
];

fn is_root(root: u64, number: u64, node: u32, index: u32, generation: u32) -> bool {
    match Tag::of_number(number) {
        Some(tag) => {
            tag.node == node
                && tag.index == index
                && tag.generation == generation
                && tag.number() == number
                && root_encode(Some(tag)) == root
                && tag_again(tag) == Some(tag)
                && root_again(Some(tag)) == Some(Some(tag))
                && root_word_again(root) == Some(root)
        }
        None => false,
    }
}

#[test]
fn tags_and_roots(rt: HostRuntime) {
    for (root, number, node, index, generation) in ROOTS {
        assert!(rt;
            is_root(root, number, node, index, generation),
            "root {root}"
        );
    }
    assert!(rt; Tag::of_number(1 << 42).is_none());
    assert!(rt; root_encode(None) == 0 && root_decode(0) == Some(None));
    for word in [1, (1 << 42) - 1, 1 << 43, u64::MAX] {
        assert!(rt; root_decode(word).is_none(), "root {word}");
    }
}

// A next word, its own generation, and the number of the tag that it is linked to.
const NEXT_WORDS: [(u64, u32, Option<u64>); 6] = [
    (0, 0, None),
    (0x0000_0400_0000_0000, 0, Some(0)),
    (0x0000_0800_0000_0000, 1, None),
    (0x0000_1c10_0020_0004, 3, Some(0x10_0020_0004)),
    (0x7fff_f800_0000_0000, 1_048_575, None),
    (0x7fff_ffff_ffff_ffff, 1_048_575, Some(0x3ff_ffff_ffff)),
];

fn is_next(word: u64, own: u32, target: Option<u64>) -> bool {
    match NextWord::decode(word) {
        Some(next) => {
            let link = match target {
                Some(number) => Tag::of_number(number),
                None => None,
            };
            next.own == own
                && next.link == link
                && next.encode() == word
                && next_again(next) == Some(next)
                && next_word_again(word) == Some(word)
        }
        None => false,
    }
}

#[test]
fn next_words(rt: HostRuntime) {
    for (word, own, target) in NEXT_WORDS {
        assert!(rt; is_next(word, own, target), "next {word}");
    }
    for word in [1, 0x0000_0bff_ffff_ffff, 1 << 63, u64::MAX] {
        assert!(rt; NextWord::decode(word).is_none(), "next {word}");
    }
}

// A meta word, its kind, flags and length.
const META_WORDS: [(u64, Kind, u32, u32); 4] = [
    (0x0002_0000_0000_0000, Kind::Tombstone, 0, 0),
    (0x0001_0000_0000_0000, Kind::Value, 0, 0),
    (0x0001_0000_0000_0005, Kind::Value, 0, 5),
    (0x0001_dead_beef_0400, Kind::Value, 0xdead_beef, 1024),
];

const NOT_META_WORDS: [u64; 6] = [
    0,
    0x0001_0000_0000_0401,
    0x0002_0000_0000_0001,
    0x0002_0000_0001_0000,
    0x0003_0000_0000_0000,
    0x0101_0000_0000_0005,
];

fn is_meta(word: u64, kind: Kind, flags: u32, length: u32) -> bool {
    match Meta::decode(word) {
        Some(meta) => {
            meta.kind == kind
                && meta.flags == flags
                && meta.length == length
                && meta.encode() == word
                && meta_again(meta) == Some(meta)
                && meta_word_again(word) == Some(word)
        }
        None => false,
    }
}

#[test]
fn meta_words(rt: HostRuntime) {
    for (word, kind, flags, length) in META_WORDS {
        assert!(rt; is_meta(word, kind, flags, length), "meta {word}");
    }
    for word in NOT_META_WORDS {
        assert!(rt; Meta::decode(word).is_none(), "meta {word}");
    }
}

// What a caller does that keeps a value in words.
fn copy_by_words(bytes: &[u8], into: &mut ValueBuf)
    requires { length bytes.now ≤ 1024 }
    ensures { take (length bytes.now) into.new.bytes ≡ bytes.now }
{
    let words = bytes.len().div_ceil(8) as u32;
    for k in 0..words {
        unpack(pack(bytes, k), k, into);
    }
    value_from_words();
}

// Some bytes, a number of a word, and the word.
const PACKED: [(&[u8], u32, u64); 6] = [
    (b"hello", 0, 0x6865_6c6c_6f00_0000),
    (b"hello", 1, 0),
    (b"hello", u32::MAX, 0),
    (b"\x01a", 0, 0x0161_0000_0000_0000),
    (b"12345678\xff", 0, 0x3132_3334_3536_3738),
    (b"12345678\xff", 1, 0xff00_0000_0000_0000),
];

#[test]
fn bytes_in_words(rt: HostRuntime) {
    for (bytes, k, word) in PACKED {
        assert!(rt; pack(bytes, k) == word, "word {k} is {word}");
    }
    let mut value = ValueBuf::new();
    for k in 0..128 {
        unpack(0x0101_0101_0101_0101, k, &mut value);
    }
    copy_by_words(b"a long value!", &mut value);
    unpack(0x6162_6364_6566_6768, 127, &mut value);
    assert!(rt; &value.bytes[..17] == b"a long value!\0\0\0\x01".as_slice());
    assert!(rt; &value.bytes[1015..] == b"\x01abcdefgh".as_slice());
    assert!(rt; value.value().is_empty());
    value.length = 6;
    assert!(rt; value.value() == b"a long".as_slice());
}

// A word, where its current copy stands, and where its flushed copy does.
type Place = (Word, u64, Option<u64>);

const FIRST: Buffer = Buffer { node: 0, index: 0 };

const LAST: Buffer = Buffer {
    node: 15,
    index: 4095,
};

const SMALLEST_PLACES: [Place; 8] = [
    (Word::Next(FIRST), 0, Some(36)),
    (Word::Meta(FIRST), 1, Some(37)),
    (Word::Value(FIRST, 0), 2, Some(38)),
    (Word::Root(0), 3, Some(39)),
    (Word::Key(0, 0), 4, Some(40)),
    (Word::Key(0, 31), 35, Some(71)),
    (Word::Short(0), 72, None),
    (Word::Count, 73, None),
];

const LARGEST_PLACES: [Place; 10] = [
    (Word::Next(FIRST), 0, Some(9_060_352)),
    (Word::Next(LAST), 8_519_550, Some(17_579_902)),
    (Word::Meta(LAST), 8_519_551, Some(17_579_903)),
    (Word::Value(LAST, 127), 8_519_679, Some(17_580_031)),
    (Word::Root(0), 8_519_680, Some(17_580_032)),
    (Word::Root(16_383), 9_060_319, Some(18_120_671)),
    (Word::Key(16_383, 31), 9_060_351, Some(18_120_703)),
    (Word::Short(0), 18_120_704, None),
    (Word::Short(16_383), 18_137_087, None),
    (Word::Count, 18_137_088, None),
];

const NOT_IN_LARGEST: [Word; 7] = [
    Word::Next(Buffer { node: 16, index: 0 }),
    Word::Meta(Buffer {
        node: 0,
        index: 4096,
    }),
    Word::Value(FIRST, 128),
    Word::Root(16_384),
    Word::Key(0, 32),
    Word::Key(16_384, 0),
    Word::Short(16_384),
];

fn stands(pool: &Pool, word: Word, current: u64, flushed: Option<u64>) -> bool {
    let back = match flushed {
        Some(address) => pool.word_at(address) == Some((word, Side::Flushed)),
        None => true,
    };
    back && pool.address(word, Side::Current) == Some(current)
        && pool.address(word, Side::Flushed) == flushed
        && pool.word_at(current) == Some((word, Side::Current))
        && address_again(pool, current) == Some(current)
}

fn ends(pool: &Pool, words: u64) -> bool {
    pool.len() == words
        && pool.word_at(words).is_none()
        && pool.word_at(u64::MAX).is_none()
        && place_again(pool, Word::Count, Side::Current) == Some((Word::Count, Side::Current))
}

fn pool(rt: &impl Abort, numbers: [u64; 5]) -> Pool {
    let [nodes, buffers, slots, words, wear] = numbers;
    Pool::check(nodes, buffers, slots, words, wear).expect(rt, "the numbers are in their ranges")
}

#[test]
fn addresses(rt: HostRuntime) {
    let smallest = pool(&rt, [1, 1, 1, 1, 1]);
    for (word, current, flushed) in SMALLEST_PLACES {
        assert!(rt;
            stands(&smallest, word, current, flushed),
            "{word:?} at {current}"
        );
    }
    assert!(rt; ends(&smallest, 74));
    let largest = pool(&rt, [16, 4096, 16_384, 128, 1_048_575]);
    for (word, current, flushed) in LARGEST_PLACES {
        assert!(rt;
            stands(&largest, word, current, flushed),
            "{word:?} at {current}"
        );
    }
    assert!(rt; ends(&largest, 18_137_089));
    for word in NOT_IN_LARGEST {
        assert!(rt; largest.address(word, Side::Current).is_none(), "{word:?}");
    }
}

// Numbers of a pool (nodes, buffers, slots, words, wear), and the first that is out of its range.
const BAD_POOLS: [([u64; 5], PoolField, u64); 12] = [
    ([0, 0, 0, 0, 0], PoolField::Nodes, 0),
    ([17, 0, 0, 0, 0], PoolField::Nodes, 17),
    ([1, 0, 0, 0, 0], PoolField::Buffers, 0),
    ([1, 65_537, 0, 0, 0], PoolField::Buffers, 65_537),
    ([16, 4097, 0, 0, 0], PoolField::Buffers, 4097),
    ([1, u64::MAX, 0, 0, 0], PoolField::Buffers, u64::MAX),
    ([1, 65_536, 0, 0, 0], PoolField::Slots, 0),
    ([1, 1, 16_385, 0, 0], PoolField::Slots, 16_385),
    ([1, 1, 1, 0, 0], PoolField::Words, 0),
    ([1, 1, 1, 129, 0], PoolField::Words, 129),
    ([1, 1, 1, 1, 0], PoolField::Wear, 0),
    ([1, 1, 1, 1, 1_048_576], PoolField::Wear, 1_048_576),
];

// The clients and the batch of a setup, and the first that is out of its range.
const BAD_SETUPS: [(u64, u64, PoolField, u64); 4] = [
    (0, 0, PoolField::Clients, 0),
    (17, 0, PoolField::Clients, 17),
    (1, 0, PoolField::Batch, 0),
    (16, 65, PoolField::Batch, 65),
];

fn refuses_pool(numbers: [u64; 5], field: PoolField, number: u64) -> bool {
    let [nodes, buffers, slots, words, wear] = numbers;
    Pool::check(nodes, buffers, slots, words, wear) == Err(PoolFault { field, number })
}

fn refuses_setup(pool: Pool, clients: u64, batch: u64, field: PoolField, number: u64) -> bool {
    Setup::check(pool, clients, batch) == Err(PoolFault { field, number })
}

#[test]
fn first_number_out_of_range(rt: HostRuntime) {
    for (numbers, field, number) in BAD_POOLS {
        assert!(rt; refuses_pool(numbers, field, number), "{field:?} {number}");
    }
    let pool = pool(&rt, [1, 1, 1, 1, 1]);
    for (clients, batch, field, number) in BAD_SETUPS {
        assert!(rt;
            refuses_setup(pool, clients, batch, field, number),
            "{field:?} {number}"
        );
    }
    let setup = Setup::check(pool, 16, 64).expect(&rt, "the numbers are in their ranges");
    assert!(rt; setup.clients == 16 && setup.batch == 64);
}
