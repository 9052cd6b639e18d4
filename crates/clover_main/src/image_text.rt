// The printed text of an image. It may be hundreds of millions of bytes, and goes through a chunk.
ghost use Rattle.std.specs.Prelude.{◌≡◌, ◌<◌, ◌++◌, codes, OnOk, OnErr};
ghost use Rattle.std.specs.Io.KnownBytes.{Appends};
ghost use Rattle.clover_words.specs.Place.{durable_words};
ghost use Rattle.clover_image.specs.Text.{word_there, word_line, word_lines, pool_text, image_text};
ghost use Rattle.clover_main.specs.Causes.{AppendsFront, HasCause};
ghost use Rattle.clover_main.specs.Running.{Says};

use crate::chunk::Chunk;
use crate::io::{Failed, Sink};
use crate::word_text::{hex_digits, put_word};
use clover_image::Image;
use clover_words::{Pool, Side, Word};
use itoa::Buffer;

/// Puts the text of an image into the sink. It takes no memory.
pub fn put_image<K: Sink>(image: &Image, sink: &mut K) -> Result<(), Failed>
    ensures ok { OnOk result (Appends (K.taken sink.old) (K.taken sink.new) (image_text image.now.pool image.now.words)) }
    ensures err { OnErr result (AppendsFront (K.taken sink.old) (K.taken sink.new) (image_text image.now.pool image.now.words)) }
    ensures cause { HasCause (K.faults sink.old) (K.faults sink.new) result }
{
    let mut chunk = Chunk::new();
    put_image_text(image, &mut chunk, sink)?;
    chunk.flush(sink)
}

/// Puts the text of an image: two lines, one for each word that is not 0, and one at the end.
pub fn put_image_text<K: Sink>(image: &Image, chunk: &mut Chunk, sink: &mut K) -> Result<(), Failed>
    ensures ok { OnOk result (Says (K.taken sink.old) (K.taken sink.new) chunk.old chunk.new (image_text image.now.pool image.now.words)) }
    ensures err { OnErr result (AppendsFront (K.taken sink.old) (K.taken sink.new) (chunk.old ++ (image_text image.now.pool image.now.words))) }
    ensures cause { HasCause (K.faults sink.old) (K.faults sink.new) result }
{
    put_head(&image.pool(), chunk, sink)?;
    put_body(image, chunk, sink)
}

// Puts what stands behind the head.
fn put_body<K: Sink>(image: &Image, chunk: &mut Chunk, sink: &mut K) -> Result<(), Failed>
    ensures ok { OnOk result (Says (K.taken sink.old) (K.taken sink.new) chunk.old chunk.new (word_lines image.now.pool 0 image.now.words ++ codes "end\n")) }
    ensures err { OnErr result (AppendsFront (K.taken sink.old) (K.taken sink.new) (chunk.old ++ (word_lines image.now.pool 0 image.now.words ++ codes "end\n"))) }
    ensures cause { HasCause (K.faults sink.old) (K.faults sink.new) result }
{
    put_words(image, chunk, sink)?;
    chunk.add(b"end\n", sink)
}

// Puts the two lines at the head.
fn put_head<K: Sink>(pool: &Pool, chunk: &mut Chunk, sink: &mut K) -> Result<(), Failed>
    ensures ok { OnOk result (Says (K.taken sink.old) (K.taken sink.new) chunk.old chunk.new (codes "clover image 1\n" ++ pool_text pool.now)) }
    ensures err { OnErr result (AppendsFront (K.taken sink.old) (K.taken sink.new) (chunk.old ++ (codes "clover image 1\n" ++ pool_text pool.now))) }
    ensures cause { HasCause (K.faults sink.old) (K.faults sink.new) result }
{
    let mut nodes = Buffer::new();
    let mut buffers = Buffer::new();
    let mut slots = Buffer::new();
    let mut words = Buffer::new();
    let mut wear = Buffer::new();
    let pieces: [&[u8]; 11] = [
        b"clover image 1\npool nodes=",
        nodes.format(pool.nodes).as_bytes(),
        b" buffers=",
        buffers.format(pool.buffers).as_bytes(),
        b" slots=",
        slots.format(pool.slots).as_bytes(),
        b" words=",
        words.format(pool.words).as_bytes(),
        b" wear=",
        wear.format(pool.wear).as_bytes(),
        b"\n",
    ];
    chunk.add_all(&pieces, sink)
}

// Puts the lines of all words.
fn put_words<K: Sink>(image: &Image, chunk: &mut Chunk, sink: &mut K) -> Result<(), Failed>
    ensures ok { OnOk result (Says (K.taken sink.old) (K.taken sink.new) chunk.old chunk.new (word_lines image.now.pool 0 image.now.words)) }
    ensures err { OnErr result (AppendsFront (K.taken sink.old) (K.taken sink.new) (chunk.old ++ (word_lines image.now.pool 0 image.now.words))) }
    ensures cause { HasCause (K.faults sink.old) (K.faults sink.new) result }
{
    let pool = image.pool();
    let mut address = 0;
    for number in image.words() {
        put_number(&pool, address, *number, chunk, sink)?;
        address += 1;
    }
    Ok(())
}

// Puts the line of the word at an address, if it has one.
#[inline(always)]
fn put_number<K: Sink>(
    pool: &Pool,
    address: u64,
    number: u64,
    chunk: &mut Chunk,
    sink: &mut K,
) -> Result<(), Failed>
    requires { address < durable_words pool.now }
    ensures ok { OnOk result (Says (K.taken sink.old) (K.taken sink.new) chunk.old chunk.new (word_line (word_there pool.now address) number)) }
    ensures err { OnErr result (AppendsFront (K.taken sink.old) (K.taken sink.new) (chunk.old ++ (word_line (word_there pool.now address) number))) }
    ensures cause { HasCause (K.faults sink.old) (K.faults sink.new) result }
{
    // Most words are 0, and have no line.
    if number == 0 {
        return Ok(());
    }
    put_line(word_there(pool, address), number, chunk, sink)
}

// Puts the line of a word, which is not 0.
fn put_line<K: Sink>(word: Word, number: u64, chunk: &mut Chunk, sink: &mut K) -> Result<(), Failed>
    requires { 0 < number }
    ensures ok { OnOk result (Says (K.taken sink.old) (K.taken sink.new) chunk.old chunk.new (word_line word number)) }
    ensures err { OnErr result (AppendsFront (K.taken sink.old) (K.taken sink.new) (chunk.old ++ (word_line word number))) }
    ensures cause { HasCause (K.faults sink.old) (K.faults sink.new) result }
{
    put_word(b"", word, Side::Current, chunk, sink)?;
    chunk.add_all(&[b" ", &hex_digits(number), b"\n"], sink)
}

// The durable word whose current copy stands at an address.
fn word_there(pool: &Pool, address: u64) -> Word
    requires { address < durable_words pool.now }
    ensures { result ≡ word_there pool.now address }
{
    match pool.word_at(address) {
        Some((word, _)) => word,
        None => unreachable!(),
    }
}
