// A restart, which makes one store a step.
ghost use Rattle.std.specs.Prelude.{◌≡◌, ◌≢◌, ℕ, [], false, Ok, IfOk, OnErr};
ghost use Rattle.clover_rule.specs.Steps.{Restart as Step};
ghost use Rattle.clover_rule.specs.Cut.{IsSound};
ghost use Rattle.clover_rule.specs.Sound.{Sound};
ghost use Rattle.clover_restart.specs.Begun.{IsNextRun, IsRestartOf};
ghost use Rattle.clover_restart.specs.Reading.{decoded};
ghost use Rattle.clover_restart.specs.Going.{RestartHolds, OnStored, OnEnd, Stored};

use crate::buffers::read_buffers;
use crate::slots::read_slots;
use crate::store::{Store, make_store};
use clover_alloc::Books;
use clover_dir::Directory;
use clover_image::Image;
use clover_list::OutOfMemory;
use clover_port::{Failed, Port};
use clover_words::Pool;
use std::alloc::Global;
use std::marker::{Brand, Model};

/// A restart of a pool behind a power cut.
///
/// Its stores are, in this order: for each slot whose chain ends in a tombstone, in ascending order, 0 to the root and
/// to its flushed copy; for each buffer on no chain that is kept, unless it is worn, in ascending order, the next
/// generation, unlinked, to its next word and to the flushed copy; and the number of bindings to the count. At any stop
/// between two of them the pool can be cut again, and is restarted anew.
#[derive(Drop)]
pub struct Restart {
    pool: Pool,
    stores: Vec<Store>,
    // How many of the stores were made.
    made: usize,
    // Those of the next run.
    books: Books,
    directory: Directory,
}

impl Model for Restart {
    ghost use Rattle.clover_restart.specs.Restart.{RestartState};

    ghost Value = { RestartState };

    ghost use Rattle.clover_restart.specs.Kept.{restart_in, IsRestartKept};

    ghost view = { restart_in };

    ghost invariant = { IsRestartKept };
}

impl Restart {
    /// The restart of an image that is known to be sound, as each image of a cut is. `OutOfMemory` for want of memory:
    /// all of it is taken here.
    ///
    /// It reads each slot, each chain and each buffer's next word once, and no content but the meta word of each
    /// chain's last version.
    pub fn of_sound(alloc: Global, image: &Image) -> Result<Restart, OutOfMemory>
        requires { IsSound image.now.pool image.now.words }
        ensures pool { IfOk result (λ restart. restart.pool ≡ image.now.pool) }
        ensures next { IfOk result (λ restart. IsNextRun image.now.pool restart.books restart.directory) }
        ensures restarts { IfOk result (λ restart. (sound : Sound image.now.pool (decoded image.now)) → IsRestartOf image.now.pool (decoded image.now) sound restart) }
    {
        let pool = image.pool();
        let mut slots = read_slots(alloc, image)?;
        let mut books = Books::make(alloc, pool)?;
        read_buffers(image, &slots.marks, &mut slots.stores, &mut books)?;
        slots.directory.stands();
        let count = slots.directory.list().len() as u32;
        slots.stores.push(Store::Count(count))?;
        Ok(Restart {
            pool,
            stores: slots.stores,
            made: 0,
            books,
            directory: slots.directory,
        })
    }

    /// Makes the restart's next store. The port is restart's, and what its view has still to store is what is left of
    /// this restart.
    ///
    /// True where the store was made; false, without an access, exactly where all stores are made. `Failed` only where
    /// the access was refused: nothing has changed then.
    pub fn step<P: Port>(&mut self, port: &mut P) -> Result<bool, Failed>
        requires holds { RestartHolds (P.pool port.old) self.old (P.view port.old) }
        ensures stored { OnStored result (Stored (P.pool port.old) self.old (λ x. (y : ℕ) × P.made port.old (Step x) false y port.new) self.new (P.view port.new)) }
        ensures end { OnEnd result ((self.old.rest ≡ []) × (self.new ≡ self.old) × (port.new ≡ port.old)) }
        ensures refused { OnErr result ((self.old.rest ≢ []) × (self.new ≡ self.old) × P.failed port.old port.new) }
    {
        if self.made >= self.stores.len() {
            return Ok(false);
        }
        let store = self.stores[self.made];
        make_store::<P, Brand>(&store, port)?;
        self.made += 1;
        Ok(true)
    }

    /// How many stores this restart makes in all.
    pub fn stores(&self) -> u64
        ensures { result ≡ self.now.stores }
    {
        self.stores.len() as u64
    }

    /// The books and the directory of the next run, once all stores are made. They were built with the restart, so this
    /// takes no memory, and there is no want of it.
    pub fn finish(self, _alloc: Global) -> Result<(Books, Directory), OutOfMemory>
        requires { self.rest ≡ [] }
        ensures { result ≡ Ok (self.books, self.directory) }
    {
        Ok((self.books, self.directory))
    }
}
