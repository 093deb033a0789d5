// A list whose items are found by their pairs.
ghost use Rattle.std.specs.Prelude.{◌≡◌, ◌+◌, ◌<◌, ◌≤◌, ◌↔◌, ◌++◌, ◌∷◌, [], IsTrue, IfOk, OnErr, OnOk, is_some, length, option_copied, position, slice_get};
ghost use Rattle.std.specs.List.{find, list_any};
ghost use Rattle.pair_list.specs.Places.{has_pair, is_of, noted};

use crate::place::{AtPair, PairPlace};
use crate::{Paired, Room};
use payload_records::Copied;
use row_tree::{Iter, Ordered, Spare, Tree};
use std::alloc::{AllocError, Global};
use std::marker::Model;

/// A list whose items have pairs, which contracts see as the list of its items. An item is put last, and none goes; the first item of
/// a pair is found in about as many steps as the number of items has binary digits.
pub struct PairList<T: Paired> {
    items: Tree<T>,
    places: Ordered<PairPlace>,
}

impl<T: Paired + Drop> Drop for PairList<T> {
    fn drop(self) {
        let Self {
            items: _,
            places: _,
        } = self;
    }
}

impl<T: Paired> Model for PairList<T> {
    ghost use Rattle.std.specs.Prelude.{List as Sequence, ◌≤◌, length};
    ghost use Rattle.std.specs.Coded.{coded_list};
    ghost use Rattle.pair_list.specs.Places.{Tells};

    ghost Value = { Sequence T };

    ghost coded = { coded_list T.code };

    ghost view = { λ l. l.items };

    ghost invariant = { λ l. Tells T.pair_of l.places l.items × (length l.places ≤ length l.items) };
}

impl<T: Paired> PairList<T> {
    /// No items. It takes no memory.
    pub fn new() -> PairList<T>
        ensures { result ≡ [] }
    {
        PairList {
            items: Tree::new(),
            places: Ordered::new(),
        }
    }

    /// How many items there are. It takes no memory.
    pub fn len(&self) -> usize
        ensures { result ≡ length self.now }
    {
        self.items.len()
    }

    /// Whether there are no items. It takes no memory.
    pub fn is_empty(&self) -> bool
        ensures { IsTrue result ↔ (self.now ≡ []) }
    {
        self.items.is_empty()
    }

    /// The item at an index that counts from 0, or None past the end. It takes no memory.
    pub fn get(&self, at: usize) -> Option<&T>
        ensures { option_copied result ≡ slice_get self.now at }
    {
        self.items.get(at)
    }

    /// The items from the first to the last. It takes no memory.
    pub fn iter(&self) -> Iter<'_, T>
        ensures { result ≡ self.now }
    {
        self.items.iter()
    }

    /// Where the first item of a pair stands, or None where no item has it. It does not go over the items, and takes no memory.
    pub fn position(&self, first: u64, second: u64) -> Option<usize>
        ensures { result ≡ position (λ item. has_pair first second (T.pair_of item)) self.now }
    {
        let place = self.places.find_at(&AtPair { first, second })?;
        Some(place.at)
    }

    /// Whether an item has the pair. It does not go over the items, and takes no memory.
    pub fn has(&self, first: u64, second: u64) -> bool
        ensures { result ≡ list_any (λ item. has_pair first second (T.pair_of item)) self.now }
    {
        self.position(first, second).is_some()
    }
}

impl<T: Paired + Drop> PairList<T> {
    /// Puts an item last. It takes no memory.
    pub fn push(&mut self, item: T, room: Room<T>)
        requires { length self.old < usize.MAX }
        ensures { self.new ≡ self.old ++ item ∷ [] }
    {
        let (first, second) = item.pair();
        let at = self.items.len();
        let place = PairPlace { first, second, at };
        note(&mut self.places, place, room.place);
        self.items.push(item, room.item);
    }

    /// Puts an item last, in memory that it takes. At want of memory the list is as before.
    pub fn append(&mut self, alloc: Global, item: T) -> Result<(), AllocError>
        ensures ok { OnOk result (self.new ≡ self.old ++ item ∷ []) }
        ensures err { OnErr result (self.new ≡ self.old) }
    {
        if self.len() == usize::MAX {
            return Err(AllocError);
        }
        let room = Room::new(alloc)?;
        self.push(item, room);
        Ok(())
    }

    /// A list of copies of the items.
    pub fn copied(&self, alloc: Global) -> Result<PairList<T>, AllocError>
    where
        T: Copied,
        ensures { IfOk result (λ copy. copy ≡ self.now) }
    {
        let mut copy = PairList::new();
        for item in self {
            copy.append(alloc, item.copied()?)?;
        }
        Ok(copy)
    }
}

impl<'a, T: Paired> IntoIterator for &'a PairList<T> {
    type Item = &'a T;

    type IntoIter = Iter<'a, T>;

    ghost into_iter_gives = { λ l i. i ≡ l.now };

    fn into_iter(self) -> Iter<'a, T> {
        self.iter()
    }
}

// Whether the place of a pair is told.
fn is_told(places: &Ordered<PairPlace>, first: u64, second: u64) -> bool
    ensures { result ≡ is_some (find (is_of first second) places.now) }
{
    places.find_at(&AtPair { first, second }).is_some()
}

// Keeps where an item stands, where none of its pair stands before it.
fn note(places: &mut Ordered<PairPlace>, place: PairPlace, spare: Spare<PairPlace>)
    requires { length places.old < usize.MAX }
    ensures places { places.new ≡ noted place places.old }
    ensures len { length places.new ≤ length places.old + 1 }
{
    if is_told(places, place.first, place.second) {
        return;
    }
    places.put(place, spare);
}
