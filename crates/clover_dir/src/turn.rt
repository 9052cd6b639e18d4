// What a step of a binding answers.

/// What a step of a binding came to.
#[derive(Drop)]
pub enum BindTurn {
    /// The binding goes on by a further step.
    More,
    /// The key is bound: the slot's key words, its root and its tombstone are flushed, and the binding is the
    /// directory's last. The task is over.
    Bound,
    /// The access was refused. The task stands where it stood.
    Unreached,
}
