// The recycler of the machine, which is actor 0: it asks the server to take old versions off.
ghost use Rattle.std.specs.Prelude.{◌≡◌, ◌≢◌, ◌↔◌, false, IsTrue, None};

/// What the recycler is asked to do.
#[derive(Clone, Copy)]
pub enum Chore {
    /// The root version of this slot is taken off where a version stands behind it.
    OfSlot(u32),
    /// The same for each bound slot, until no version stands behind any root version.
    OfAll,
}

/// The recycler: its task, and whether its next access is refused.
#[derive(Drop)]
pub struct Recycler {
    pub chore: Option<Chore>,
    pub refusing: bool,
}

impl Recycler {
    /// A recycler that has done nothing.
    pub(crate) fn idle() -> Recycler
        ensures { (result.chore ≡ None) × (result.refusing ≡ false) }
    {
        Recycler {
            chore: None,
            refusing: false,
        }
    }

    /// Whether it has a task.
    pub(crate) fn is_busy(&self) -> bool
        ensures { IsTrue result ↔ (self.now.chore ≢ None) }
    {
        self.chore.is_some()
    }
}
