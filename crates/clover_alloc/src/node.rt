// The books of one memory node: a line for each of its buffers, and an index of those that are free, one bit each.
// The lowest of them is found by words: from the first word that may have a bit to the next one that has.
ghost use Rattle.std.specs.Prelude.{◌≡◌, ◌≢◌, ℕ, ◌<◌, ◌≤◌, length, slice_set, replicate, IfOk};
ghost use Rattle.clover_alloc.specs.Lines.{line, count_in};
ghost use Rattle.clover_alloc.specs.Kept.{line_at};
ghost use Rattle.clover_alloc.specs.declared.line.Place.TheVariants.{Free, Worn};

use crate::bits::{WORD, with_bit};
use crate::line::{Line, Place};
use clover_list::OutOfMemory;
use std::alloc::Global;
use std::marker::Model;

/// The lines of one memory node's buffers, by index.
#[derive(Drop)]
pub struct NodeBooks {
    lines: Vec<Line>,
    words: Vec<u64>,
    free: u32,
    low: usize,
}

impl Model for NodeBooks {
    ghost use Rattle.std.specs.Prelude.{List};
    ghost use Rattle.clover_alloc.specs.declared.line.Line.{Line};
    ghost use Rattle.clover_alloc.specs.Kept.{IsIndexed};

    ghost Value = { List Line };

    ghost view = { λ n. n.lines.items };

    ghost invariant = { λ n. IsIndexed n.lines.items n.words.items n.free n.low };
}

impl NodeBooks {
    /// So many buffers, all free at generation 0. `OutOfMemory` for want of memory: this call takes all of it.
    pub fn make(alloc: Global, buffers: u32) -> Result<NodeBooks, OutOfMemory>
        requires { buffers ≤ 65536 }
        ensures { IfOk result (λ n. n ≡ replicate buffers (line 0 Free)) }
    {
        let mut node = NodeBooks::worn(alloc, buffers as usize)?;
        for index in 0..buffers {
            node.set(
                index,
                Line {
                    generation: 0,
                    place: Place::Free,
                },
            );
        }
        Ok(node)
    }

    // So many buffers that all are worn.
    fn worn(alloc: Global, buffers: usize) -> Result<NodeBooks, OutOfMemory>
        requires { buffers ≤ 65536 }
        ensures { IfOk result (λ n. n ≡ replicate buffers (line 0 Worn)) }
    {
        let none = Line {
            generation: 0,
            place: Place::Worn,
        };
        Ok(NodeBooks {
            lines: vec![in alloc; none; buffers]?,
            words: vec![in alloc; 0; buffers.div_ceil(WORD)]?,
            free: 0,
            low: 0,
        })
    }

    /// How many buffers are free.
    pub fn free(&self) -> u32
        ensures value { result ≡ count_in Free self.now }
        ensures most { result ≤ length self.now }
    {
        self.free
    }

    /// The line of a buffer.
    pub fn line(&self, index: u32) -> Line
        requires { index < length self.now }
        ensures { result ≡ line_at self.now index }
    {
        self.lines[index as usize]
    }

    /// Gives a buffer another line.
    pub fn set(&mut self, index: u32, line: Line)
        requires { index < length self.old }
        ensures { self.new ≡ slice_set self.old index line }
    {
        let at = index as usize;
        let was_free = self.lines[at].is_free();
        let is_free = line.is_free();
        let word = with_bit(self.words[at / WORD], at % WORD, is_free);
        self.lines[at] = line;
        self.words[at / WORD] = word;
        self.free = self.free - u32::from(was_free) + u32::from(is_free);
        if is_free {
            self.low = self.low.min(at / WORD);
        }
    }

    /// The lowest free buffer. Only where the search will begin is noted, so the lines stay.
    pub fn first_free(&mut self) -> u32
        requires { 0 < count_in Free self.old }
        ensures same { self.new ≡ self.old }
        ensures free { (line_at self.old result).place ≡ Free }
        ensures first { (k : ℕ) → k < result → (line_at self.old k).place ≢ Free }
    {
        while self.words[self.low] == 0 {
            self.low += 1;
        }
        (self.low * WORD) as u32 + self.words[self.low].trailing_zeros()
    }
}
