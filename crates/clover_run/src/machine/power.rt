// How a machine loses its power, and how one begins over the pool behind it.
ghost use Rattle.std.specs.Prelude.{◌≡◌, ℕ, List, [], IfOk, true, false};
ghost use Rattle.clover_alloc.specs.Ledger.{IsLedger};
ghost use Rattle.clover_plain.specs.Plain.{restart_view};
ghost use Rattle.clover_plain.specs.Reopening.{AreOfWords};
ghost use Rattle.clover_rule.specs.Cut.{IsCut};
ghost use Rattle.clover_run.specs.Machine.{IsAt};
ghost use Rattle.clover_run.specs.Power.{LosesPower, MayLeave, Reopens};
ghost use Rattle.clover_run.specs.Record.{Record};
ghost use Rattle.clover_run.specs.Run.{Opening};

use super::{Machine, first_clients, new_side};
use crate::laws::new_side_law;
use crate::recycler::Recycler;
use clover_alloc::Books;
use clover_dir::Directory;
use clover_list::OutOfMemory;
use clover_map::Entry;
use clover_plain::PlainPool;
use clover_words::Setup;
use std::alloc::Global;

impl Machine {
    /// What a power cut may leave now. This is for proofs, and does nothing.
    pub fn may_lose(&self)
        ensures { (o : Opening) (rs : List Record) → IsAt o self.now rs → (image : List ℕ) → IsCut self.now.setup.pool self.now.pool.words image → MayLeave o rs image }
    {
        self.pool.stands();
    }

    /// The power fails: `kept` has a number for each durable word, in ascending order, the word's current or its flushed
    /// copy. What clients, recycler and server knew is gone. The pool is handed out, down as its restart finds it, with
    /// the history of the run. It takes no memory.
    pub fn lose_power(self, kept: &[u64]) -> (PlainPool, Vec<Entry>)
        requires cut { IsCut self.setup.pool self.pool.words kept.now }
        ensures lost { (o : Opening) (rs : List Record) → IsAt o self rs → LosesPower o rs kept.now result.0 result.1.items }
        ensures traced { result.0.traced ≡ self.pool.traced }
    {
        let mut pool = self.pool;
        pool.stands();
        let entries = pool.take_entries();
        pool.power_cut(kept);
        (pool, entries)
    }

    /// The machine of the next run over a pool that is down, once restart has made all its stores; books and directory
    /// are those of the words that they left. Nothing has happened yet. `OutOfMemory` for want of memory.
    pub fn reopen(
        alloc: Global,
        setup: Setup,
        pool: PlainPool,
        books: Books,
        directory: Directory,
    ) -> Result<Machine, OutOfMemory>
        requires setup { pool.setup ≡ setup }
        requires down { pool.opened ≡ false }
        requires done { (restart_view pool).plan ≡ [] }
        requires whole { pool.whole ≡ true }
        requires books { IsLedger books × (books.pool ≡ setup.pool) }
        requires directory { directory.pool ≡ setup.pool }
        requires agree { AreOfWords setup.pool pool.words books directory }
        ensures at { IfOk result (λ m. (o : Opening) → Reopens pool books directory o → IsAt o m []) }
        ensures parts { IfOk result (λ m. (m.setup ≡ setup) × (m.pool.traced ≡ pool.traced)) }
    {
        new_side_law();
        let clients = first_clients(alloc, setup)?;
        let mut pool = pool;
        pool.open_run(&books, &directory);
        pool.stands();
        Ok(Machine {
            setup,
            pool,
            served: new_side(setup, books, directory),
            recycler: Recycler::idle(),
            clients,
        })
    }
}
