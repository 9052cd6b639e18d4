// A binding: the pair of a slot and the key whose home it is.
use clover_map::Key;

/// A slot and its key.
#[derive(Drop)]
pub struct Binding {
    pub slot: u32,
    pub key: Key,
}
