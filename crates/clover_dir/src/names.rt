// A list of bindings that is looked up by key. Beside the list stands its index: the positions in the order of the keys,
// each with the first eight bytes of its key, so that a look-up compares numbers and hardly touches a key.
ghost use Rattle.std.specs.Prelude.{◌≡◌, ◌<◌, ◌↔◌, ℕ, List, [], ◌∷◌, ◌++◌, length, Some, IsNone, IfSome, IfOk, IfErr};
ghost use Rattle.std.specs.declared.cmp.Ordering.{Ordering};
ghost use Rattle.clover_rule.specs.Lists.{Within};
ghost use Rattle.clover_dir.specs.Bindings.{pairs_of};
ghost use Rattle.clover_dir.specs.Index.{IsIndex, IsPlaceOf, IsGapFor, compared, head_of};
ghost use Rattle.clover_dir.specs.Names.{IsNameList, IsNew};

use crate::binding::Binding;
use clover_list::OutOfMemory;
use clover_map::Key;
use clover_words::pack;
use std::alloc::Global;
use std::cmp::Ordering;
use std::marker::Model;

/// Bindings of different keys, in the order in which they were pushed. A look-up by key takes as many comparisons as a
/// search by halves.
#[derive(Drop)]
pub struct Names {
    list: Vec<Binding>,
    // The head of each key with its binding's position in the list, in the order of the keys: by head, then by bytes.
    order: Vec<(u64, u32)>,
    most: u32,
}

impl Model for Names {
    ghost use Rattle.clover_dir.specs.Names.{NameList};

    ghost Value = { NameList };

    ghost use Rattle.clover_dir.specs.Kept.{names_in, AreNamesKept};

    ghost view = { names_in };

    ghost invariant = { AreNamesKept };
}

impl Names {
    /// No bindings, with room for so many. `OutOfMemory` for want of memory: this is the only call that takes any, and
    /// it writes none of it.
    pub fn make(alloc: Global, most: u32) -> Result<Names, OutOfMemory>
        ensures { IfOk result (λ names. (names.list ≡ []) × (names.most ≡ most)) }
    {
        Ok(Names {
            list: Vec::with_capacity(alloc, most as usize)?,
            order: Vec::with_capacity(alloc, most as usize)?,
            most,
        })
    }

    /// How many bindings there are.
    pub fn len(&self) -> usize
        ensures length { result ≡ length self.now.list }
        ensures valid { IsNameList self.now }
    {
        self.list.len()
    }

    /// The bindings, in the order in which they were pushed.
    pub fn list(&self) -> &[Binding]
        ensures pairs { pairs_of result.now ≡ self.now.list }
        ensures valid { IsNameList self.now }
    {
        &self.list
    }

    /// The slot of the key. None exactly where no binding has the key.
    pub fn find(&self, key: &Key) -> Option<u32>
        ensures found { IfSome result (λ slot. Within (slot, key.now) self.now.list) }
        ensures only { (slot : ℕ) → Within (slot, key.now) self.now.list → result ≡ Some slot }
        ensures none { IsNone result ↔ IsNew key.now self.now.list }
    {
        match search(&self.list, &self.order, key) {
            Ok(place) => {
                let (_, position) = self.order[place];
                Some(self.list[position as usize].slot)
            }
            Err(_) => None,
        }
    }

    /// Puts a binding at the end. It takes no memory.
    pub fn push(&mut self, slot: u32, key: Key)
        requires room { length self.old.list < self.old.most }
        requires new { IsNew key self.old.list }
        ensures list { self.new ≡ record self.old { list = self.old.list ++ (slot, key) ∷ [] } }
    {
        let place = match search(&self.list, &self.order, &key) {
            Ok(place) | Err(place) => place,
        };
        let entry = (head(&key), self.list.len() as u32);
        match self.order.insert(place, entry) {
            Ok(()) => {}
            Err(_) => unreachable!(),
        }
        match self.list.push(Binding { slot, key }) {
            Ok(()) => {}
            Err(_) => unreachable!(),
        }
    }
}

// The first eight bytes of a key as a number, the first byte highest, zeros past the end.
fn head(key: &Key) -> u64
    ensures { result ≡ head_of key.now }
{
    pack(key.bytes(), 0)
}

// How the key of an entry of the index compares with a key whose head is given.
fn compare(list: &[Binding], entry: &(u64, u32), head: u64, key: &Key) -> Ordering
    requires { head ≡ head_of key.now }
    ensures { result ≡ compared list.now key.now entry.now }
{
    match entry.0.cmp(&head) {
        Ordering::Equal => match list.get(entry.1 as usize) {
            Some(binding) => binding.key.cmp(key),
            None => Ordering::Greater,
        },
        unequal => unequal,
    }
}

// The place of the key in the index, or the one where it would go.
fn search(list: &[Binding], order: &[(u64, u32)], key: &Key) -> Result<usize, usize>
    requires { IsIndex list.now order.now }
    ensures found { IfOk result (IsPlaceOf list.now order.now key.now) }
    ensures absent { IfErr result (IsGapFor list.now order.now key.now) }
{
    let head = head(key);
    order.binary_search_by(|entry| compare(list, entry, head, key))
}
