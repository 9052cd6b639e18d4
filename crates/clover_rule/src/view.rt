// What an actor knows. No value of these types is made where the store runs: a seat or a port has one as its
// meaning alone. Tags, buffers and next words are numbers here: a tag is its number, and a buffer is the
// number of its tags without their generations.
use crate::access::Act;
use clover_map::{Entry, Key, TaggedMap};
use clover_words::Pool;
use std::collections::LinkedList;

/// What a seat is for.
pub enum Role {
    /// The compute node of this client.
    Client { number: u32 },
    /// The metadata server.
    Serving,
    /// A batch of buffers, or a refusal, on its way from the server to a client.
    Granting,
    /// What a client lets another actor know.
    Noting,
    /// What is left of a seat that another one took in.
    Joined,
    /// What steps alone after a power cut.
    Restarting,
}

/// A link of a slot's chain, from one tag to the next.
pub struct Link {
    pub slot: u64,
    pub from: u64,
    pub to: u64,
}

/// A content word of the version of a tag: the meta word at place 0, value word `k` at place `k + 1`.
pub struct Content {
    pub tag: u64,
    pub place: u64,
    pub word: u64,
}

/// A next word as it was loaded or written: the generation of its buffer, and its link.
pub struct Shown {
    pub buffer: u64,
    pub own: u64,
    pub link: Option<u64>,
}

/// What the server's books say of a buffer.
pub enum BufferState {
    /// It may be handed out.
    Free,
    /// It served all its generations.
    Worn,
    /// It is a slot's root version.
    Bound,
    /// It was handed out: it stands in a stock or behind a root.
    Out,
}

/// A line of the server's books: the generation and the state of a buffer. The first line of a buffer holds.
pub struct BookLine {
    pub buffer: u64,
    pub generation: u64,
    pub state: BufferState,
}

/// The server's answer to a client that it can give nothing.
pub enum GrantRefusal {
    /// No buffer is free: how many are bound, worn and out.
    Full { bound: u64, worn: u64, out: u64 },
    /// Every slot is bound.
    NoSlot,
}

/// A binding that the server makes: the key takes the slot, and the tag is its first version, a tombstone.
pub struct NewBinding {
    pub slot: u64,
    pub key: Key,
    pub tag: u64,
}

/// A recycling that the server makes: a slot's root version, and the one behind it, which becomes the root.
pub struct Recycling {
    pub slot: u64,
    pub root: u64,
    pub next: u64,
}

/// What the server has begun and not ended.
pub enum ServerTask {
    /// Nothing.
    Idle,
    /// A binding of which so many stores were made, none of them the root's.
    Storing { binding: NewBinding, stored: u64 },
    /// A binding whose root is stored.
    Rooted { binding: NewBinding },
    /// A binding whose root is flushed, and which waits for the count.
    Waiting { binding: NewBinding },
    /// A recycling that loaded the link from the root version to the next one.
    Loaded { recycling: Recycling },
    /// A recycling whose link is flushed.
    Raised { recycling: Recycling },
    /// A recycling whose new root is stored.
    Led { recycling: Recycling },
    /// A recycling whose new root is flushed.
    Both { recycling: Recycling },
    /// A recycling whose old root version has its next generation.
    Exchanged { recycling: Recycling },
}

/// A store that a restart makes: it clears the root of a slot whose chain ends in a tombstone, lifts a buffer
/// that stands on no chain to its next generation, and sets the count.
pub enum RestartStore {
    ClearRoot { slot: u64 },
    ClearFlushedRoot { slot: u64 },
    Lift { buffer: u64, generation: u64 },
    LiftFlushed { buffer: u64, generation: u64 },
    SetCount { count: u64 },
}

/// What one actor knows, the server's own part aside.
pub struct Pass {
    /// The pool's numbers.
    pub pool: Pool,
    /// The map with which the run began.
    pub map: TaggedMap,
    /// The tags that were used before the run.
    pub used: LinkedList<u64>,
    pub role: Role,
    /// The tags that it may commit, the next one first.
    pub stock: LinkedList<u64>,
    /// Slots and tags known to be durable there.
    pub durable: LinkedList<(u64, u64)>,
    /// The links that it hopped over or wrote.
    pub links: LinkedList<Link>,
    /// The next words that it loaded or wrote.
    pub words: LinkedList<Shown>,
    /// The content words that it stored in the buffers of its stock.
    pub written: LinkedList<Content>,
    /// Those of them whose flushed copy it stored.
    pub flushed: LinkedList<Content>,
    /// The content words that it loaded, each with its slot.
    pub copied: LinkedList<(u64, Content)>,
    /// Its copy of the bindings, from the first one on.
    pub names: LinkedList<(u64, Key)>,
    /// The greatest count that it loaded.
    pub most: u64,
    /// The entries of its own calls.
    pub calls: LinkedList<Entry>,
    /// The history of all calls, as far as it knows it.
    pub history: LinkedList<Entry>,
    /// The accesses of the present call.
    pub since: LinkedList<Act>,
    /// The turns of the present call.
    pub turns: u64,
    /// The turns of all its calls.
    pub all_turns: u64,
    /// The number of its accesses.
    pub made: u64,
    /// The refusals that it got from the server.
    pub refusals: LinkedList<GrantRefusal>,
    /// The names on their way to a client, and the position at which they begin.
    pub from: u64,
    pub added: LinkedList<(u64, Key)>,
}

/// What the server alone knows; that of any other seat is empty.
pub struct Server {
    /// The books.
    pub books: LinkedList<BookLine>,
    /// The bindings, also the one that waits for the count.
    pub directory: LinkedList<(u64, Key)>,
    /// The root version of each slot; the first pair of a slot holds.
    pub roots: LinkedList<(u64, u64)>,
    pub task: ServerTask,
    /// The slots whose root version was read unlinked since the last split or hand-over.
    pub unlinked: LinkedList<u64>,
    /// The numbers of the clients that were made.
    pub clients: LinkedList<u32>,
    /// The passes that were joined, each with the position that its seat had.
    pub joined: LinkedList<(u64, Pass)>,
}

/// What an actor knows.
pub struct View {
    pub pass: Pass,
    pub server: Server,
    /// The stores that a restart has still to make, the next one first; a pool that runs has none.
    pub plan: LinkedList<RestartStore>,
}
