// The items of a name.
ghost use Rattle.std.specs.Prelude.{◌≡◌, filter};
ghost use Rattle.std.specs.Iterator.{YieldsFirstRef, item_count};
ghost use Rattle.std.specs.Str.{bytes_eq};

use crate::{Named, NamedList};
use payload_records::Name;
use std::marker::Model;

/// The items of a name in the order of their list, each lent.
#[derive(Drop)]
pub struct Of<'a, 'n, T: Named> {
    list: &'a NamedList<T>,
    name: &'n Name,
    at: usize,
}

impl<'a, 'n, T: Named> Model for Of<'a, 'n, T> {
    ghost use Rattle.std.specs.Prelude.{List as Sequence, ◌≤◌, drop, filter, length};
    ghost use Rattle.std.specs.Str.{bytes_eq};

    ghost Value = { Sequence T };

    ghost view = { λ o. drop o.at (filter (λ item. bytes_eq (T.name_of item) o.name.now) o.list.now) };

    ghost invariant = { λ o.
        o.at ≤ length (filter (λ item. bytes_eq (T.name_of item) o.name.now) o.list.now) };
}

impl<T: Named> NamedList<T> {
    /// The items of the name, from the first to the last. It takes no memory.
    pub fn of<'a, 'n>(&'a self, name: &'n Name) -> Of<'a, 'n, T>
        ensures { result ≡ filter (λ item. bytes_eq (T.name_of item) name.now) self.now }
    {
        Of {
            list: self,
            name,
            at: 0,
        }
    }
}

impl<'a, 'n, T: Named> Iterator for Of<'a, 'n, T> {
    type Item = &'a T;

    ghost next_gives = { YieldsFirstRef (λ i. i) };

    ghost remaining = { item_count (λ i. i) };

    fn next(&mut self) -> Option<&'a T> {
        let _most = self.list.len();
        match self.list.nth_of(self.name, self.at) {
            None => None,
            Some(item) => {
                self.at += 1;
                Some(item)
            }
        }
    }
}
