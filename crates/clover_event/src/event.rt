// What happens in a run, and what it comes to. These types are data alone.
use clover_map::Reply;
use clover_script::Task;

/// One event of a run. Actors are the clients, counted from 1.
#[derive(Drop)]
pub enum Event {
    /// The actor begins a task.
    Begin { actor: u32, task: Task },
    /// The actor's task makes its next access.
    Step { actor: u32 },
    /// The actor's next access is to be refused.
    Refuse { actor: u32 },
}

/// Why a client's call ended without an answer.
#[derive(Drop)]
pub enum CallRefusal {
    /// An access was refused before the call had changed anything that others see.
    Unreached,
    /// An access was refused after the call had linked its version, which has this tag's number.
    Linked { tag: u64 },
    /// The call was shown so many links and passed tags that it gives up.
    Behind { turns: u64 },
    /// The value has more bytes than a buffer has room for.
    TooLong { length: u64, room: u64 },
}

/// What an event came to.
#[derive(Drop)]
pub enum Note {
    /// Nothing that is printed.
    Quiet,
    /// A client's call was answered.
    Answered { client: u32, reply: Reply },
    /// A client's call ended without an answer.
    Refused { client: u32, refusal: CallRefusal },
    /// The actor has a task already.
    Busy { actor: u32 },
    /// There is no such actor.
    Missing { actor: u32 },
}
