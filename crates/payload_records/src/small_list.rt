// A list that mostly has one item or none, which contracts see as the list of its items.
ghost use Rattle.std.specs.Prelude.{◌≡◌, ◌↔◌, [], ◌∷◌, ◌++◌, length, slice_get, slice_set, option_copied, option_to_list, IsTrue, IfOk, IfErr, OnOk, OnErr};
ghost use Rattle.std.specs.Borrow.{LendsIf, sem};
ghost use Rattle.std.specs.Cmp.{on_equiv, on_per};
ghost use Rattle.std.specs.Cmp.Lexicographic.{pointwise, lists_equiv, lists_per};
ghost use Rattle.std.specs.Iterator.{YieldsFirstRef, item_count};
ghost use Rattle.std.specs.Option.{option_copied_mut};
ghost use Rattle.payload_records.specs.SmallList.{stored_items};
ghost use Rattle.payload_records.specs.contracts.small_list.SmallList.{the_row};

use crate::Copied;
use crate::list::copied_items;
use std::alloc::{AllocError, Global};
use std::marker::Model;
use std::mem;

#[derive(Debug, Drop)]
enum Items<T> {
    One(T),
    Many(Vec<T>),
}

/// A list of which one item lies in place, and more on the heap.
#[derive(Debug, Drop)]
pub struct SmallList<T> {
    items: Items<T>,
    alloc: Global,
}

impl<T> Model for SmallList<T> {
    ghost use Rattle.std.specs.Prelude.{List as Sequence};
    ghost use Rattle.std.specs.Coded.{coded_list};
    ghost use Rattle.payload_records.specs.SmallList.{stored_items};

    ghost Value = { Sequence T };

    ghost coded = { coded_list T.code };

    ghost view = { λ l. stored_items l.items };
}

/// The items of a small list from the first to the last, each lent.
#[derive(Drop)]
pub struct SmallIter<'a, T> {
    one: Option<&'a T>,
    rest: &'a [T],
}

impl<'a, T> Model for SmallIter<'a, T> {
    ghost use Rattle.std.specs.Prelude.{List as Sequence, ◌++◌, option_to_list, option_copied};

    ghost Value = { Sequence T };

    ghost view = { λ i. option_to_list (option_copied i.one) ++ i.rest.now };
}

impl<T> SmallList<T> {
    /// An empty list. It takes no memory.
    pub fn new(alloc: Global) -> SmallList<T>
        ensures { result ≡ [] }
    {
        SmallList {
            items: Items::Many(Vec::new(alloc)),
            alloc,
        }
    }

    /// The list of one item. It takes no memory.
    pub fn of_one(alloc: Global, item: T) -> SmallList<T>
        ensures { result ≡ item ∷ [] }
    {
        SmallList {
            items: Items::One(item),
            alloc,
        }
    }

    /// How many items there are.
    pub fn len(&self) -> usize
        ensures { result ≡ length self.now }
    {
        match &self.items {
            Items::One(_) => 1,
            Items::Many(items) => items.len(),
        }
    }

    /// Whether there is no item.
    pub fn is_empty(&self) -> bool
        ensures { IsTrue result ↔ (self.now ≡ []) }
    {
        match &self.items {
            Items::One(_) => false,
            Items::Many(items) => items.is_empty(),
        }
    }

    /// The item at an index that counts from 0, or None past the end.
    pub fn get(&self, at: usize) -> Option<&T>
        ensures { option_copied result ≡ slice_get self.now at }
    {
        match &self.items {
            Items::One(item) => { if at == 0 { Some(item) } else { None } }
            Items::Many(items) => items.get(at),
        }
    }

    /// Lends the item at an index to be written, or None past the end. It takes no memory.
    pub fn get_mut(&mut self, at: usize) -> Option<&mut T>
        ensures* writes_back { sem 𝓛 (LendsIf (the_row T.row) T.row self.entry result
            (slice_set self.old at) self.old) }
        ensures value { option_copied_mut result ≡ slice_get self.old at }
    {
        match &mut self.items {
            Items::One(item) => { if at == 0 { Some(item) } else { None } }
            Items::Many(items) => items.get_mut(at),
        }
    }

    /// Goes over the items from the first to the last.
    pub fn iter(&self) -> SmallIter<'_, T>
        ensures { result ≡ self.now }
    {
        match &self.items {
            Items::One(item) => SmallIter {
                one: Some(item),
                rest: &[],
            },
            Items::Many(items) => SmallIter {
                one: None,
                rest: items.as_slice(),
            },
        }
    }
}

// Two items on the heap.
fn pair<T: Drop>(alloc: Global, first: T, second: T) -> Result<Vec<T>, T>
    ensures ok { IfOk result (λ items. items.items ≡ first ∷ second ∷ []) }
    ensures err { IfErr result (λ item. item ≡ first) }
{
    let Ok(mut items) = Vec::with_capacity(alloc, 2) else {
        return Err(first);
    };
    items.push_reserved(first);
    items.push_reserved(second);
    Ok(items)
}

impl<T: Drop> Items<T> {
    // One item more, or the items as they were.
    fn with(self, alloc: Global, item: T) -> Result<Items<T>, Items<T>>
        ensures ok { IfOk result (λ items. stored_items items ≡ stored_items self ++ item ∷ []) }
        ensures err { IfErr result (λ items. stored_items items ≡ stored_items self) }
    {
        match self {
            Items::One(first) => match pair(alloc, first, item) {
                Ok(items) => Ok(Items::Many(items)),
                Err(first) => Err(Items::One(first)),
            },
            Items::Many(items) => grown(items, item),
        }
    }
}

fn grown<T: Drop>(mut items: Vec<T>, item: T) -> Result<Items<T>, Items<T>>
    ensures ok { IfOk result (λ grown. stored_items grown ≡ items.items ++ item ∷ []) }
    ensures err { IfErr result (λ left. stored_items left ≡ items.items) }
{
    if items.is_empty() {
        return Ok(Items::One(item));
    }
    match items.push(item) {
        Ok(()) => Ok(Items::Many(items)),
        Err(_) => Err(Items::Many(items)),
    }
}

impl<T: Drop> SmallList<T> {
    /// The list of a vector's items. It takes no memory.
    pub fn from_vec(mut items: Vec<T>) -> SmallList<T>
        ensures { result ≡ items.items }
    {
        let alloc = *items.allocator();
        if items.len() == 1 {
            if let Some(item) = items.pop() {
                return SmallList::of_one(alloc, item);
            }
        }
        SmallList {
            items: Items::Many(items),
            alloc,
        }
    }

    /// The items as a vector. It takes memory where the list has one item.
    pub fn into_vec(self) -> Result<Vec<T>, AllocError>
        ensures { IfOk result (λ items. items.items ≡ self) }
    {
        let SmallList { items, alloc } = self;
        match items {
            Items::One(item) => {
                let mut items = Vec::with_capacity(alloc, 1)?;
                items.push_reserved(item);
                Ok(items)
            }
            Items::Many(items) => Ok(items),
        }
    }

    /// Puts an item at the end; the first takes no memory. At want of memory the list is as before.
    pub fn push(&mut self, item: T) -> Result<(), AllocError>
        ensures ok { OnOk result (self.new ≡ self.old ++ item ∷ []) }
        ensures err { OnErr result (self.new ≡ self.old) }
    {
        let alloc = self.alloc;
        let items = mem::replace(&mut self.items, Items::Many(Vec::new(alloc)));
        match items.with(alloc, item) {
            Ok(items) => {
                self.items = items;
                Ok(())
            }
            Err(items) => {
                self.items = items;
                Err(AllocError)
            }
        }
    }
}

impl<'a, T> IntoIterator for &'a SmallList<T> {
    type Item = &'a T;

    type IntoIter = SmallIter<'a, T>;

    ghost into_iter_gives = { λ l i. i ≡ l.now };

    fn into_iter(self) -> SmallIter<'a, T> {
        self.iter()
    }
}

impl<'a, T> Iterator for SmallIter<'a, T> {
    type Item = &'a T;

    ghost next_gives = { YieldsFirstRef (λ i. i) };

    ghost remaining = { item_count (λ i. i) };

    fn next(&mut self) -> Option<&'a T> {
        if let Some(item) = self.one.take() {
            return Some(item);
        }
        let (first, rest) = self.rest.split_first()?;
        self.rest = rest;
        Some(first)
    }
}

impl<T: Copied + Drop> Items<T> {
    fn again(&self) -> Result<Items<T>, AllocError>
        ensures { IfOk result (λ items. stored_items items ≡ stored_items self.now) }
    {
        match self {
            Items::One(item) => Ok(Items::One(item.copied()?)),
            Items::Many(items) => Ok(Items::Many(copied_items(items)?)),
        }
    }
}

impl<T: Copied + Drop> Copied for SmallList<T> {
    fn copied(&self) -> Result<Self, AllocError> {
        Ok(SmallList {
            items: self.items.again()?,
            alloc: self.alloc,
        })
    }
}

impl<T: PartialEq> PartialEq for SmallList<T> {
    ghost eq = { λ a b. pointwise T.eq a b };

    ghost laws = { on_per (λ l. l) (lists_per T.laws) };

    fn eq(&self, other: &Self) -> bool {
        match (&self.items, &other.items) {
            (Items::One(left), Items::One(right)) => left == right,
            (Items::Many(left), Items::Many(right)) => left == right,
            (Items::One(left), Items::Many(right)) => right.len() == 1 && *left == right[0],
            (Items::Many(left), Items::One(right)) => left.len() == 1 && left[0] == *right,
        }
    }
}

impl<T: Eq> Eq for SmallList<T> {
    ghost laws = { on_equiv (λ l. l) (lists_equiv T.Eq.laws) };
}
