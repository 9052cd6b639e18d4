// What a call whose key is not in the copy of the bindings loads the count for.

/// What the next access loads the count of bindings for, where it does.
#[derive(Clone, Copy)]
pub enum Counting {
    /// It does not load it.
    No,
    /// For a put, whose key has to be bound: to tell how many names the node lacks.
    Names,
    /// For any other call, which may end by it: where there is no binding that the node does not know, its key has
    /// none.
    Absence,
}
