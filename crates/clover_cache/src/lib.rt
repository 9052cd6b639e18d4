//! The cursors of one compute node: for each of at most 64 slots the version at which the node's last call on
//! it ended, most recent first; and with them the one that was set last, which is there however little memory
//! there is. This crate stands on the kit's LRU cache and does no input or output; what a cursor is good for is
//! said by the walk that begins at it.
#![tactic(auto)]

mod cursors;
mod node;

pub use cursors::Cursors;
pub use node::NodeCursors;
