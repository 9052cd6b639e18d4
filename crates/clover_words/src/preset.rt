// The preset pool: as long as no metadata server hands out space, it is fixed which buffer holds the
// tombstone of a slot and which client has a buffer.
ghost use Rattle.std.specs.Prelude.{◌≡◌, ◌<◌, ◌≤◌, IfSome, IfNone};
ghost use Rattle.clover_words.specs.Place.{buffer_of};
ghost use Rattle.clover_words.specs.Preset.{buffers_total, tombstone_number, dealt_number, HasDealt};

use crate::setup::Setup;
use crate::word::Buffer;

/// The buffer for a put of a client, puts counted from 0 and clients from 1. None exactly where the
/// client's stock has no such buffer; a client beyond the setup's number has none at all.
pub fn dealt(setup: &Setup, client: u32, put: u32) -> Option<Buffer>
    requires { 1 ≤ client }
    ensures some { IfSome result (λ buffer. HasDealt setup.now client put × (buffer ≡ buffer_of setup.now.pool (dealt_number setup.now client put))) }
    ensures none { IfNone result (HasDealt setup.now client put → ⊥) }
{
    if client > setup.clients {
        return None;
    }
    let number = u64::from(put) * u64::from(setup.clients) + u64::from(client - 1);
    if number + u64::from(setup.pool.slots) < setup.pool.total() {
        Some(setup.pool.buffer(number))
    } else {
        None
    }
}

/// The buffer that holds the tombstone of a slot.
pub fn tombstone(setup: &Setup, slot: u32) -> Buffer
    requires { slot < buffers_total setup.now.pool }
    ensures { result ≡ buffer_of setup.now.pool (tombstone_number setup.now.pool slot) }
{
    setup.pool.buffer(setup.pool.total() - 1 - u64::from(slot))
}
