// The buffers that are handed out at once.
ghost use Rattle.std.specs.Prelude.{◌≡◌, ◌+◌, ◌<◌, ◌≤◌, ◌++◌, ◌∷◌, []};

use clover_words::Tag;

/// At most 64 tags, in the order in which they were taken.
#[derive(Clone, Copy, Debug, PartialEq, Eq)]
pub struct Batch {
    /// The tags, and behind them anything.
    pub tags: [Tag; 64],
    /// How many tags there are.
    pub count: u32,
    ghost few: { count ≤ 64 },
}

impl Batch {
    ghost use Rattle.clover_alloc.specs.Batch.{tags_of};

    /// No tags.
    pub fn empty() -> Batch
        ensures value { tags_of result ≡ [] }
        ensures count { result.count ≡ 0 }
    {
        let nothing = Tag {
            node: 0,
            index: 0,
            generation: 0,
        };
        Batch {
            tags: [nothing; 64],
            count: 0,
        }
    }

    // Puts a tag at the end.
    pub(crate) fn push(&mut self, tag: Tag)
        requires { self.old.count < 64 }
        ensures value { tags_of self.new ≡ tags_of self.old ++ tag ∷ [] }
        ensures count { self.new.count ≡ self.old.count + 1 }
    {
        self.tags[self.count as usize] = tag;
        self.count += 1;
    }

    /// The tags, in the order in which they were taken.
    pub fn items(&self) -> &[Tag]
        ensures { result.now ≡ tags_of self.now }
    {
        &self.tags[..self.count as usize]
    }
}
