// A list of numbers that begins with zeros, and takes the room for them without writing it. The numbers stand in banks
// of equal size. A bank is written from its front on, as far as the last of its numbers that was ever set: those behind
// it are 0, and their room was not touched. So a large pool of which little is used takes little time to make.
ghost use Rattle.std.specs.Prelude.{◌≡◌, ◌≢◌, ◌<◌, ◌≤◌, ℕ, List, [], length, replicate, slice_index, slice_set, IfOk};

use clover_list::OutOfMemory;
use std::alloc::Global;
use std::marker::Model;

// How many numbers a bank has: so many that the system gives the room of each on its own, and so few that what is
// written in front of a number is soon written.
const BANK: usize = 32_768;

// A bank, up to its last number that was set. It has the room for all.
#[derive(Drop)]
struct Bank {
    front: Vec<u64>,
}

impl Model for Bank {
    ghost use Rattle.std.specs.Prelude.{◌≤◌, List, ℕ, vec_capacity};

    ghost Value = { List ℕ };

    ghost view = { λ b. b.front.items };

    ghost invariant = { λ b. 32768 ≤ vec_capacity b.front };
}

impl Bank {
    // A bank of zeros.
    fn make(alloc: Global) -> Result<Bank, OutOfMemory>
        ensures { IfOk result (λ bank. bank ≡ []) }
    {
        Ok(Bank {
            front: Vec::with_capacity(alloc, BANK)?,
        })
    }

    // The number at a place of the bank.
    fn get(&self, at: usize) -> u64
        ensures { result ≡ slice_index self.now at }
    {
        match self.front.get(at) {
            Some(number) => *number,
            None => 0,
        }
    }

    // Writes zeros as far as a place of the bank.
    fn reach(&mut self, at: usize)
        requires { at < 32768 }
        ensures reached { at < length self.new }
        ensures same { (i : ℕ) → slice_index self.new i ≡ slice_index self.old i }
    {
        if at < self.front.len() {
            return;
        }
        match self.front.resize(at + 1, 0) {
            Ok(()) => {}
            Err(_) => unreachable!(),
        }
    }

    // Sets the number at a place of the bank.
    fn set(&mut self, at: usize, number: u64)
        requires { at < 32768 }
        ensures set { slice_index self.new at ≡ number }
        ensures others { (i : ℕ) → i ≢ at → slice_index self.new i ≡ slice_index self.old i }
    {
        self.reach(at);
        self.front[at] = number;
    }
}

// So many banks of zeros.
fn banks_of(alloc: Global, count: usize) -> Result<Vec<Bank>, OutOfMemory>
    ensures { IfOk result (λ banks. banks.items ≡ replicate count []) }
{
    let mut banks = Vec::new(alloc);
    banks.reserve(count)?;
    for _ in 0..count {
        banks.push(Bank::make(alloc)?)?;
    }
    Ok(banks)
}

/// So many numbers, at first all 0. Contracts see them as a list.
#[derive(Drop)]
pub struct Blank {
    banks: Vec<Bank>,
    size: usize,
}

impl Model for Blank {
    ghost use Rattle.std.specs.Prelude.{List, ℕ, ◌*◌, ◌≤◌, length};
    ghost use Rattle.clover_plain.specs.Blank.{numbers_of};

    ghost Value = { List ℕ };

    ghost view = { λ b. numbers_of b.banks.items b.size };

    ghost invariant = { λ b. b.size ≤ 32768 * length b.banks.items };
}

impl Blank {
    /// So many zeros. It takes the room of all, and writes none of it. `OutOfMemory` for want of memory: no other call
    /// takes any.
    pub fn make(alloc: Global, size: usize) -> Result<Blank, OutOfMemory>
        ensures { IfOk result (λ blank. blank ≡ replicate size 0) }
    {
        let banks = banks_of(alloc, size.div_ceil(BANK))?;
        Ok(Blank { banks, size })
    }

    /// How many numbers there are.
    pub fn len(&self) -> usize
        ensures { result ≡ length self.now }
    {
        self.size
    }

    /// The number at a place.
    pub fn get(&self, at: usize) -> u64
        requires { at < length self.now }
        ensures { result ≡ slice_index self.now at }
    {
        self.banks[at / BANK].get(at % BANK)
    }

    /// Sets the number at a place. It takes no memory.
    pub fn set(&mut self, at: usize, number: u64)
        requires { at < length self.old }
        ensures { self.new ≡ slice_set self.old at number }
    {
        self.banks[at / BANK].set(at % BANK, number);
    }
}
