// What a call wants of the metadata server before it can go on.

/// What a call wants of the metadata server.
#[derive(Clone, Copy, Debug, PartialEq, Eq)]
pub enum Want {
    /// Nothing: its next access is its own.
    Nothing,
    /// A batch of buffers, for its client's stock is empty.
    Stock,
    /// The bindings that its client does not know; of a put, the binding of its key.
    Names,
}
