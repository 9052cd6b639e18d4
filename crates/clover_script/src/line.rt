// What a line of a script says. These types are data alone: reading and printing stand beside them.

use crate::choice::{Choice, CutList};
use clover_map::Call;

/// The numbers of a pool line, in its order, none of them checked.
#[derive(Clone, Copy, Debug, PartialEq, Eq)]
pub struct PoolLine {
    pub nodes: u64,
    pub buffers: u64,
    pub slots: u64,
    pub words: u64,
    pub wear: u64,
    pub clients: u64,
    pub batch: u64,
}

/// What an actor is asked to do: a client a call, and the recycler to take old versions off.
#[derive(Drop)]
pub enum Task {
    /// A client's call, and the length in bytes of its value as it is written (0 for a call without one). The call keeps
    /// at most the first 1,024 bytes of the value.
    Client { call: Call, written: u32 },
    /// The root version of this slot, 0 to 16,383, is taken off where a version stands behind it.
    Recycle(u32),
    /// The same for each bound slot, until no version stands behind any root version.
    Sweep,
}

/// A line behind the pool line, as the reader keeps it. An actor is a client's number, 1 to 16, or 0, which is the
/// recycler. A task is one of its actor's.
#[derive(Drop)]
pub enum Line {
    /// The actor begins a task.
    Begin { actor: u32, task: Task },
    /// The actor makes this many steps, 1 to 1,000,000.
    Step { actor: u32, times: u64 },
    /// The actor makes steps until it has no task.
    Finish { actor: u32 },
    /// The actor begins a task and finishes it.
    Call { actor: u32, task: Task },
    /// The actor's next access is refused.
    Refuse { actor: u32 },
    /// The power fails, and again in each restart but the last: after how many stores of it, and with which choice.
    Cut { choice: Choice, more: CutList },
    /// The image that a cut of this choice would leave is shown.
    Image { choice: Choice },
}

/// What is wrong with a line: it is none of those that are built so far.
#[derive(Clone, Copy, Debug, PartialEq, Eq)]
pub enum LineFault {
    Unbuilt,
}
