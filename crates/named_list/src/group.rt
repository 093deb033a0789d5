// The stamps of each name.
ghost use Rattle.std.specs.Cmp.Lexicographic.{slice_cmp};
ghost use Rattle.std.specs.Ordering.{nat_cmp};
ghost use Rattle.row_tree.specs.Order.{less_by};
ghost use Rattle.named_list.specs.Order.{group_cmp, group_cmp_total, key};

use crate::entry::Stamp;
use payload_records::Name;
use row_tree::{Bound, InOrder, Ordered};
use std::cmp::Ordering;

/// The stamps of a name.
pub(crate) struct Group {
    /// The name.
    pub(crate) name: Name,
    /// Its stamps.
    pub(crate) stamps: Ordered<Stamp>,
}

impl Drop for Group {
    fn drop(self) {
        let Self { name: _, stamps: _ } = self;
    }
}

/// The group of a name.
#[derive(Drop)]
pub(crate) struct AtName<'a> {
    /// The name.
    pub(crate) name: &'a Name,
}

impl InOrder for Group {
    ghost order = { group_cmp };

    ghost total = { group_cmp_total };

    fn compare(&self, other: &Self) -> Ordering {
        self.name.cmp(&other.name)
    }
}

impl<'a> Bound<Group> for AtName<'a> {
    ghost standing = { λ b g. slice_cmp nat_cmp g.name b.name.now };

    ghost falls = { λ b x y. less_by group_cmp_total x y (key b.name.now) };

    fn standing(&self, group: &Group) -> Ordering {
        group.name.cmp(self.name)
    }
}
