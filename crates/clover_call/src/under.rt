// What a caller has under way.
use clover_get::GetCall;
use clover_put::PutCall;

/// What a caller has under way: one call at most.
#[derive(Drop)]
pub enum Underway {
    /// No call.
    Nothing,
    /// A get.
    Get(GetCall),
    /// A call that writes: a put, a delete or a swap.
    Write(PutCall),
}

/// The kind of what a caller has under way, without the call.
#[derive(Clone, Copy)]
pub(crate) enum Kind {
    /// No call.
    Nothing,
    /// A get.
    Get,
    /// A call that writes.
    Write,
}
