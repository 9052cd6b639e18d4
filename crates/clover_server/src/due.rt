// What is due of a want for which a buffer must be free.

/// What a want finds where it looks for free buffers.
#[derive(Clone, Copy)]
pub enum Room {
    /// Too few are free, and the sweep has a binding left: this slot's root version is to be recycled.
    Swept { slot: u32 },
    /// None is free, and the sweep has no binding left.
    Full,
    /// A buffer is free.
    Free,
}
