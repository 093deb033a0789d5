// A list whose items are found by their names.
ghost use Rattle.std.specs.Prelude.{◌≡◌, ◌<◌, ◌≤◌, ◌↔◌, ◌++◌, ◌∷◌, [], List as Sequence, ℕ, IsTrue, IfOk, IfSome, OnErr, OnOk, filter, find, length, option_copied, position, remove, slice_get, Some};
ghost use Rattle.std.specs.Str.{bytes_eq};
ghost use Rattle.row_tree.specs.Edits.{edit_at};

use crate::index::NameIndex;
use crate::room::NameRoom;
use crate::{Named, Of, Room, Sought};
use payload_records::{Copied, Name};
use row_tree::{Edit, Iter, Tree};
use std::alloc::{AllocError, Global};
use std::marker::Model;

/// How many items are gone over one by one rather than looked up, which costs less where they are few.
const FEW: usize = 8;

/// A list whose items have names, which contracts see as the list of its items. An item is found by its name, put last, changed
/// and taken out in about as many steps as the number of items has binary digits.
pub struct NamedList<T: Named> {
    items: Tree<T>,
    index: Option<NameIndex>,
}

impl<T: Named + Drop> Drop for NamedList<T> {
    fn drop(self) {
        let Self { items: _, index: _ } = self;
    }
}

impl<T: Named> Model for NamedList<T> {
    ghost use Rattle.std.specs.Prelude.{List as Sequence, ◌≡◌, IfSome, map};
    ghost use Rattle.std.specs.Coded.{coded_list};

    ghost Value = { Sequence T };

    ghost coded = { coded_list T.code };

    ghost view = { λ l. l.items };

    ghost invariant = { λ l. IfSome l.index (λ names. names ≡ map T.name_of l.items) };
}

impl<T: Named> NamedList<T> {
    /// No items. It takes no memory.
    pub fn new() -> NamedList<T>
        ensures { result ≡ [] }
    {
        NamedList {
            items: Tree::new(),
            index: Some(NameIndex::new()),
        }
    }

    /// How many items there are. It takes no memory.
    pub fn len(&self) -> usize
        ensures { result ≡ length self.now }
    {
        self.items.len()
    }

    /// Whether there are no items. It takes no memory.
    pub fn is_empty(&self) -> bool
        ensures { IsTrue result ↔ (self.now ≡ []) }
    {
        self.items.is_empty()
    }

    /// The item at an index that counts from 0, or None past the end. It takes no memory.
    pub fn get(&self, at: usize) -> Option<&T>
        ensures { option_copied result ≡ slice_get self.now at }
    {
        self.items.get(at)
    }

    /// The items from the first to the last. It takes no memory.
    pub fn iter(&self) -> Iter<'_, T>
        ensures { result ≡ self.now }
    {
        self.items.iter()
    }

    /// The item of the name that has this number among those of the name, from 0. It takes no memory.
    pub(crate) fn nth_of(&self, name: &Name, number: usize) -> Option<&T>
        ensures { option_copied result
            ≡ slice_get (filter (λ item. bytes_eq (T.name_of item) name.now) self.now) number }
    {
        match &self.index {
            Some(index) => self.items.get(index.nth(name, number)?),
            None => nth_by_walk(&self.items, name, number),
        }
    }

    /// How many items have the name. It takes no memory.
    pub fn count_of(&self, name: &Name) -> usize
        ensures { result ≡ length (filter (λ item. bytes_eq (T.name_of item) name.now) self.now) }
    {
        match &self.index {
            Some(index) => index.count(name),
            None => {
                let _most = self.items.len();
                self.items
                    .iter()
                    .filter(|item| *item.name() == *name)
                    .count()
            }
        }
    }

    /// The first item that is sought, which goes over those of its name alone where there are many. It takes no memory.
    pub fn find<S: Sought<T>>(&self, sought: &S) -> Option<&T>
        ensures { option_copied result ≡ find (S.is sought.now) self.now }
    {
        if self.items.len() <= FEW {
            return found_by_walk(&self.items, sought);
        }
        first_among(self.of(sought.name()), sought)
    }

    /// Where the first item stands that is sought. It takes no memory.
    pub fn position<S: Sought<T>>(&self, sought: &S) -> Option<usize>
        ensures first { result ≡ position (S.is sought.now) self.now }
        ensures within { IfSome result (λ at. at < length self.now) }
    {
        match &self.index {
            Some(index) => {
                let name = sought.name();
                let _most = self.len();
                let number = place_among(self.of(name), sought)?;
                index.nth(name, number)
            }
            None => {
                let _most = self.items.len();
                self.items.iter().position(|item| sought.is(item))
            }
        }
    }
}

impl<T: Named + Drop> NamedList<T> {
    /// Puts an item last. It takes no memory.
    pub fn push(&mut self, item: T, room: Room<T>)
        requires { length self.old < usize.MAX }
        ensures { self.new ≡ self.old ++ item ∷ [] }
    {
        self.index = pushed(self.index.take(), item.name(), room.name);
        self.items.push(item, room.item);
    }

    /// Puts an item last, in memory that it takes. At want of memory the list is as before.
    pub fn append(&mut self, alloc: Global, item: T) -> Result<(), AllocError>
        ensures ok { OnOk result (self.new ≡ self.old ++ item ∷ []) }
        ensures err { OnErr result (self.new ≡ self.old) }
    {
        if self.len() == usize::MAX {
            return Err(AllocError);
        }
        let room = Room::new(alloc)?;
        self.push(item, room);
        Ok(())
    }

    /// Changes the item at an index, which keeps its name. It takes no memory.
    pub fn edit<E: Edit<T>>(&mut self, at: usize, edit: E)
        requires within { at < length self.old }
        requires name { IfSome (slice_get self.old at)
            (λ item. T.name_of (E.edited edit item) ≡ T.name_of item) }
        ensures { self.new ≡ edit_at self.old at (E.edited edit) }
    {
        self.items.edit(at, edit);
    }

    /// Takes the item at an index out. It takes no memory.
    pub fn remove(&mut self, at: usize) -> T
        requires { at < length self.old }
        ensures item { slice_get self.old at ≡ Some result }
        ensures rest { self.new ≡ remove self.old at }
    {
        self.index = without(self.index.take(), at);
        let (item, _spare) = self.items.remove(at);
        item
    }

    /// A list of copies of the items.
    pub fn copied(&self, alloc: Global) -> Result<NamedList<T>, AllocError>
    where
        T: Copied,
        ensures { IfOk result (λ copy. copy ≡ self.now) }
    {
        let mut copy = NamedList::new();
        for item in self {
            copy.append(alloc, item.copied()?)?;
        }
        Ok(copy)
    }
}

impl<'a, T: Named> IntoIterator for &'a NamedList<T> {
    type Item = &'a T;

    type IntoIter = Iter<'a, T>;

    ghost into_iter_gives = { λ l i. i ≡ l.now };

    fn into_iter(self) -> Iter<'a, T> {
        self.iter()
    }
}

// The first of the items that is sought.
fn first_among<'a, T: Named, S: Sought<T>>(items: Of<'a, '_, T>, sought: &S) -> Option<&'a T>
    ensures { option_copied result ≡ find (S.is sought.now) items.entry }
{
    let mut items = items;
    items.find(|item| sought.is(item))
}

// The first item that is sought, found by going over all.
fn found_by_walk<'a, T: Named, S: Sought<T>>(items: &'a Tree<T>, sought: &S) -> Option<&'a T>
    ensures { option_copied result ≡ find (S.is sought.now) items.now }
{
    for at in 0..items.len() {
        let item = items.get(at)?;
        if sought.is(item) {
            return Some(item);
        }
    }
    None
}

// Where the first of the items stands that is sought.
fn place_among<T: Named, S: Sought<T>>(items: Of<'_, '_, T>, sought: &S) -> Option<usize>
    requires { length items ≤ usize.MAX }
    ensures { result ≡ position (S.is sought.now) items.entry }
{
    let mut items = items;
    items.position(|item| sought.is(item))
}

// The item of the name that has this number among those of the name, found by going over all.
fn nth_by_walk<'a, T: Named>(items: &'a Tree<T>, name: &Name, number: usize) -> Option<&'a T>
    ensures { option_copied result
        ≡ slice_get (filter (λ item. bytes_eq (T.name_of item) name.now) items.now) number }
{
    let mut left = number;
    for item in items {
        if *item.name() == *name {
            if left == 0 {
                return Some(item);
            }
            left -= 1;
        }
    }
    None
}

// The index, where there is one, with one more name.
fn pushed(index: Option<NameIndex>, name: &Name, room: NameRoom) -> Option<NameIndex>
    ensures { (names : Sequence (Sequence ℕ)) → IfSome index (λ old. old ≡ names)
        → IfSome result (λ new. new ≡ names ++ name.now ∷ []) }
{
    index?.pushed(name, room)
}

// The index, where there is one, without the name at an index.
fn without(index: Option<NameIndex>, at: usize) -> Option<NameIndex>
    requires { IfSome index (λ names. at < length names) }
    ensures { (names : Sequence (Sequence ℕ)) → IfSome index (λ old. old ≡ names)
        → IfSome result (λ new. new ≡ remove names at) }
{
    let mut index = index?;
    index.remove(at);
    Some(index)
}
