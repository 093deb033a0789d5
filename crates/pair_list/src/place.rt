// Where the first item of a pair stands.
ghost use Rattle.std.specs.Prelude.{◌≡◌};
ghost use Rattle.row_tree.specs.Order.{less_by};
ghost use Rattle.pair_list.specs.Places.{key, place_cmp, place_cmp_total};

use row_tree::{Bound, InOrder};
use std::cmp::Ordering;

/// Where the first item of a pair stands.
#[derive(Clone, Copy)]
pub(crate) struct PairPlace {
    /// The first number of the pair.
    pub(crate) first: u64,
    /// The second number of the pair.
    pub(crate) second: u64,
    /// The index of the item.
    pub(crate) at: usize,
}

/// The place of a pair among those that are told of.
#[derive(Clone, Copy)]
pub(crate) struct AtPair {
    /// The first number of the pair.
    pub(crate) first: u64,
    /// The second number of the pair.
    pub(crate) second: u64,
}

// How a place stands to a pair.
fn compare_pairs(place: &PairPlace, first: u64, second: u64) -> Ordering
    ensures { result ≡ place_cmp place.now (key first second) }
{
    match place.first.cmp(&first) {
        Ordering::Equal => place.second.cmp(&second),
        decided => decided,
    }
}

impl InOrder for PairPlace {
    ghost order = { place_cmp };

    ghost total = { place_cmp_total };

    fn compare(&self, other: &Self) -> Ordering {
        compare_pairs(self, other.first, other.second)
    }
}

impl Bound<PairPlace> for AtPair {
    ghost standing = { λ b p. place_cmp p (key b.first b.second) };

    ghost falls = { λ b x y. less_by place_cmp_total x y (key b.first b.second) };

    fn standing(&self, place: &PairPlace) -> Ordering {
        compare_pairs(place, self.first, self.second)
    }
}
