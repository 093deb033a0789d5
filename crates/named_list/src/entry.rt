// What an index of names has of each.
ghost use Rattle.std.specs.Ordering.{nat_cmp};
ghost use Rattle.named_list.specs.Order.{entry_cmp, entry_cmp_total, entries_fall, stamp_cmp, stamp_cmp_total, stamps_fall};

use payload_records::Name;
use row_tree::{Bound, InOrder};
use std::cmp::Ordering;

/// A name in the list. Later entries have greater stamps.
#[derive(Drop)]
pub(crate) struct Entry {
    /// The name.
    pub(crate) name: Name,
    /// The stamp, which no other entry has had.
    pub(crate) stamp: u64,
}

/// The stamp of an entry.
#[derive(Drop)]
pub(crate) struct Stamp {
    /// The number that it is.
    pub(crate) number: u64,
}

/// The place of a stamp.
#[derive(Clone, Copy)]
pub(crate) struct AtStamp {
    /// The stamp's number.
    pub(crate) number: u64,
}

impl InOrder for Entry {
    ghost order = { entry_cmp };

    ghost total = { entry_cmp_total };

    fn compare(&self, other: &Self) -> Ordering {
        self.stamp.cmp(&other.stamp)
    }
}

impl InOrder for Stamp {
    ghost order = { stamp_cmp };

    ghost total = { stamp_cmp_total };

    fn compare(&self, other: &Self) -> Ordering {
        self.number.cmp(&other.number)
    }
}

impl Bound<Entry> for AtStamp {
    ghost standing = { λ b e. nat_cmp e.stamp b.number };

    ghost falls = { λ b. entries_fall b.number };

    fn standing(&self, entry: &Entry) -> Ordering {
        entry.stamp.cmp(&self.number)
    }
}

impl Bound<Stamp> for AtStamp {
    ghost standing = { λ b s. nat_cmp s.number b.number };

    ghost falls = { λ b. stamps_fall b.number };

    fn standing(&self, stamp: &Stamp) -> Ordering {
        stamp.number.cmp(&self.number)
    }
}
