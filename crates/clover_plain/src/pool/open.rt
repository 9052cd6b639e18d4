// How the next run begins, once restart has made its stores.
ghost use Rattle.std.specs.Prelude.{◌≡◌, ◌<◌, ◌+◌, ℕ, [], length, true, false};
ghost use Rattle.clover_plain.specs.Plain.{history, resting_view, restart_view, view_at};
ghost use Rattle.clover_plain.specs.Reopening.{AreOfWords, serving_view};

use crate::pool::PlainPool;
use crate::seats::serve_view;
use clover_alloc::Books;
use clover_dir::Directory;
use std::marker::Brand;

impl PlainPool {
    /// The next run begins: restart has made all its stores, and books and directory are those of the words. There is
    /// no entry, and the accesses go on. The metadata server has these books and bindings, and nothing unfinished; the
    /// clients know nothing. The run's first map is the one for which the words stand, and its used tags are those
    /// that any run before it used. It takes no memory.
    pub fn open_run(&mut self, books: &Books, directory: &Directory)
        requires down { self.old.opened ≡ false }
        requires done { (restart_view self.old).plan ≡ [] }
        requires agree { AreOfWords self.old.setup.pool self.old.words books.now directory.now }
        ensures opened { self.new.opened ≡ true }
        ensures history { (history self.new ≡ []) × (self.new.entries ≡ []) }
        ensures seats { length self.new.views ≡ self.old.setup.clients + 1 }
        ensures clients { (i : ℕ) → i < self.old.setup.clients → view_at self.new i ≡ resting_view self.old i }
        ensures server { view_at self.new self.old.setup.clients ≡ serving_view self.old books.now directory.now }
        ensures run { (self.new.first ≡ self.old.first) × (self.new.used ≡ self.old.used) }
        ensures words { (self.new.words ≡ self.old.words) × (self.new.start ≡ self.old.start) }
        ensures accesses { (self.new.accesses ≡ self.old.accesses) × (self.new.made ≡ self.old.made) × (self.new.whole ≡ self.old.whole) }
        ensures same { (self.new.setup ≡ self.old.setup) × (self.new.traced ≡ self.old.traced) × (self.new.access_room ≡ self.old.access_room) × (self.new.entry_room ≡ self.old.entry_room) }
    {
        let server = self.setup.clients as usize;
        self.seats.truncate(server + 1);
        serve_view::<Brand>(
            &self.setup,
            &self.knowing,
            &mut self.seats,
            server,
            books,
            directory,
        );
        self.opened = true;
    }
}
