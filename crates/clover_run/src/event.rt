// What an event of a run comes to, where a metadata server hands out the space. The type is data alone.
use clover_event::CallRefusal;
use clover_map::Reply;
use clover_words::Tag;

/// What an event came to.
#[derive(Drop)]
pub enum Note {
    /// Nothing that is printed.
    Quiet,
    /// The actor needs the server, which another one holds.
    Waits,
    /// A client's call was answered.
    Answered {
        client: u32,
        reply: Reply,
    },
    /// A client's call ended without an answer.
    Refused {
        client: u32,
        refusal: CallRefusal,
    },
    /// A client's call ended since no buffer is free: so many are bound, worn, and handed out.
    Full {
        client: u32,
        bound: u32,
        worn: u32,
        out: u32,
    },
    /// A client's call ended since its key is not bound, and every slot is.
    NoSlot {
        client: u32,
    },
    /// The server handed a client a batch of buffers, and so many bindings that it did not know; its call starts anew.
    /// The batch stands on the server's side, so that a note is small: each event moves one.
    Granted {
        client: u32,
        names: u32,
    },
    /// The recycler has taken the slot's root version off, which had this tag, and given its buffer back.
    Recycled {
        old: Tag,
    },
    /// No version stands behind the slot's root version: there is nothing to recycle.
    Unlinked,
    /// The slot that the recycler was asked for is not bound.
    Unbound,
    /// The recycler's sweep has read the root version of each bound slot unlinked; so many recyclings ended in its events.
    Swept {
        count: u64,
    },
    /// An access for the recycler was refused.
    Unreached,
    /// The actor has a task already.
    Busy {
        actor: u32,
    },
    /// There is no such actor.
    Missing {
        actor: u32,
    },
}
