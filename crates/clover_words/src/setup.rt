// A pool with the number of its clients and the size of a batch.
ghost use Rattle.std.specs.Prelude.{◌≡◌, ◌≤◌, ◌↔◌, Some, None, IfOk, IfErr, IsOk};

use crate::pool::{Pool, PoolFault, PoolField};
use crate::range::from_one_to;

/// A pool and who works on it.
#[derive(Clone, Copy, Debug, PartialEq, Eq)]
pub struct Setup {
    /// The shape of the pool.
    pub pool: Pool,
    /// How many compute nodes use it, each the home of one client: 1..=16.
    pub clients: u32,
    /// How many buffers the metadata server hands out at once: 1..=64.
    pub batch: u32,
    ghost some_client: { 1 ≤ clients },
    ghost clients_fit: { clients ≤ 16 },
    ghost some_batch: { 1 ≤ batch },
    ghost batch_fits: { batch ≤ 64 },
}

impl Setup {
    ghost use Rattle.clover_words.specs.Range.{first_setup_fault};

    /// The setup of these numbers.
    ///
    /// The error, exactly where a number is out of its range, names the first such: clients, then batch.
    pub fn check(pool: Pool, clients: u64, batch: u64) -> Result<Setup, PoolFault>
        ensures ok { IfOk result (λ setup. (setup.pool ≡ pool) × (setup.clients ≡ clients) × (setup.batch ≡ batch)) }
        ensures err { IfErr result (λ fault. first_setup_fault clients batch ≡ Some fault) }
        ensures when { IsOk result ↔ (first_setup_fault clients batch ≡ None) }
    {
        Ok(Setup {
            pool,
            clients: from_one_to(16, PoolField::Clients, clients)?,
            batch: from_one_to(64, PoolField::Batch, batch)?,
        })
    }
}
