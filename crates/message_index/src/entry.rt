// What an index of messages has of each.
ghost use Rattle.std.specs.Cmp.{on_total, nat_cmp_total};
ghost use Rattle.std.specs.Ordering.{nat_cmp};
ghost use Rattle.row_tree.specs.Order.{less_by};
ghost use Rattle.message_index.specs.StampOrder.{stamp_cmp, stamp_cmp_total, to_stamp, stamps_fall};

use row_tree::{Bound, InOrder};
use std::cmp::Ordering;

/// An id in the list. Later entries have greater stamps.
#[derive(Clone, Copy)]
pub(crate) struct Entry {
    /// The id.
    pub(crate) id: u64,
    /// The stamp, which no other entry has had.
    pub(crate) stamp: u64,
}

/// The place of a stamp among entries.
#[derive(Clone, Copy)]
pub(crate) struct AtStamp {
    /// The stamp.
    pub(crate) stamp: u64,
}

impl InOrder for Entry {
    ghost order = { stamp_cmp };

    ghost total = { stamp_cmp_total };

    fn compare(&self, other: &Self) -> Ordering {
        self.stamp.cmp(&other.stamp)
    }
}

impl Bound<Entry> for AtStamp {
    ghost standing = { λ b. to_stamp b.stamp };

    ghost falls = { λ b. stamps_fall b.stamp };

    fn standing(&self, row: &Entry) -> Ordering {
        row.stamp.cmp(&self.stamp)
    }
}
