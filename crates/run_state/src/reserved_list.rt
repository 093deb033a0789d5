// A list that tells how much it can hold before it wants memory.
ghost use Rattle.std.specs.Prelude.{◌≡◌, ◌≤◌, ◌+◌, ◌-◌, ◌++◌, ◌∷◌, [], length, take, IfOk, IfSome, IfNone, OnOk, OnErr, Some, slice_get, option_copied};
ghost use Rattle.run_state.specs.Reserved.{HasPlaces};

use payload_records::List;
use std::alloc::{AllocError, Global};
use std::marker::Model;

/// A list that can keep places for items that are to come. It can never hold less than before.
#[derive(Drop)]
pub struct ReservedList<T> {
    items: Vec<T>,
}

impl<T> Model for ReservedList<T> {
    ghost use Rattle.std.specs.Prelude.{vec_capacity};
    ghost use Rattle.std.specs.Coded.{codes};
    ghost use Rattle.run_state.specs.Reserved.{Reserved};

    ghost Value = { Reserved T };

    ghost coded = { Prim.hlevel (codes, T.code) };

    ghost view = { λ l. record { items = l.items.items; capacity = vec_capacity l.items } };
}

impl<T> ReservedList<T> {
    /// An empty list. It takes no memory.
    pub fn new(alloc: Global) -> ReservedList<T>
        ensures { result.items ≡ [] }
    {
        ReservedList {
            items: Vec::new(alloc),
        }
    }

    /// An empty list with so many places.
    pub fn with_places(alloc: Global, places: usize) -> Result<ReservedList<T>, AllocError>
        ensures items { IfOk result (λ l. l.items ≡ []) }
        ensures room { IfOk result (HasPlaces places) }
    {
        Ok(ReservedList {
            items: Vec::with_capacity(alloc, places)?,
        })
    }

    /// The list, as one that does not tell what it can hold.
    pub fn into_list(self) -> List<T>
        ensures { result ≡ self.items }
    {
        List::from_vec(self.items)
    }

    /// How many items there are.
    pub fn len(&self) -> usize
        ensures { result ≡ length self.now.items }
    {
        self.items.len()
    }

    /// The item at an index that counts from 0, or None past the end.
    pub fn get(&self, at: usize) -> Option<&T>
        ensures { option_copied result ≡ slice_get self.now.items at }
    {
        self.items.get(at)
    }

    /// The last item, or None where the list is empty.
    pub fn last(&self) -> Option<&T>
        ensures some { IfSome result (λ item.
            slice_get self.now.items (length self.now.items - 1) ≡ Some item.now) }
        ensures none { IfNone result (self.now.items ≡ []) }
    {
        self.items.last()
    }

    /// Takes memory for one item more, and behind it for one that may be promised and one for each of so many sessions. At want of memory the
    /// list is as before.
    pub fn reserve(&mut self, sessions: usize) -> Result<(), AllocError>
        ensures items { self.new.items ≡ self.old.items }
        ensures room { OnOk result (HasPlaces (sessions + 2) self.new) }
        ensures err { OnErr result (self.new ≡ self.old) }
    {
        let Some(places) = sessions.checked_add(2) else {
            return Err(AllocError);
        };
        self.items.reserve(places)
    }

    /// Puts an item at the end, in a place that was kept for it. It takes no memory.
    pub fn push(&mut self, item: T)
    where
        T: Drop,
        requires { HasPlaces 1 self.old }
        ensures items { self.new.items ≡ self.old.items ++ item ∷ [] }
        ensures capacity { self.old.capacity ≤ self.new.capacity }
    {
        self.items.push_reserved(item);
    }

    /// Takes the last item out, if there is one; its place stays.
    pub fn drop_last(&mut self)
    where
        T: Drop,
        ensures items { self.new.items ≡ take (length self.old.items - 1) self.old.items }
        ensures capacity { self.new.capacity ≡ self.old.capacity }
    {
        let _item = self.items.pop();
    }
}
