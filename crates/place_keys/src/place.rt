// Places of messages in their queue.
ghost use Rattle.std.specs.Prelude.{◌≡◌, ◌≢◌, ◌↔◌, ◌<◌, ◌≤◌, ◌^◌, ℤ, List as Sequence, [], ◌∷◌, ◌++◌, pos, IfOk, IsErrOf, Some, refl};
ghost use Rattle.std.specs.Cmp.{IsTotalOrder, eq_by_cmp_equiv, on_equiv, on_per, on_po, on_total, partial_equiv_from_equiv, partial_order_from_total};
ghost use Rattle.std.specs.Ordering.{eq_by_cmp};
ghost use Rattle.place_keys.specs.Place.{place_cmp, put_before, before_count, last_number};
ghost use Rattle.place_keys.specs.PlaceLaws.{place_cmp_total, Neighbours};
ghost use Rattle.place_keys.specs.declared.place.PlaceFault.TheVariants.{TooDeep, Memory};

use payload_records::Copied;
use smallvec::SmallVec;
use std::alloc::{AllocError, Global};
use std::cmp::Ordering;
use std::marker::Model;

/// How many before-numbers a place has at most.
pub const BEFORE_LIMIT: usize = 16;

/// A place in a queue: the lane, a number for each sort column, the message's id, and the ids of the messages
/// before which it was put. Contracts see the list of numbers.
#[derive(Drop)]
pub struct Place {
    numbers: SmallVec<i64, 4>,
}

impl Model for Place {
    ghost use Rattle.std.specs.Prelude.{List as Sequence, ℤ};

    ghost Value = { Sequence ℤ };

    ghost view = { λ p. p.numbers.items };
}

/// Why a message was given no place before another.
#[derive(Clone, Copy, Debug, PartialEq, Eq)]
pub enum PlaceFault {
    /// The other's place has as many before-numbers as a place may have.
    TooDeep,
    /// There was no memory for it.
    Memory,
}

impl From<AllocError> for PlaceFault {
    ghost from_gives = { λ _ fault. fault ≡ Memory };

    fn from(_: AllocError) -> Self {
        PlaceFault::Memory
    }
}

impl Copied for Place {
    fn copied(&self) -> Result<Self, AllocError> {
        Ok(Place {
            numbers: SmallVec::from_slice(*self.numbers.allocator(), self.numbers.as_slice())?,
        })
    }
}

impl Place {
    /// The place of a message that is put before no other: its lane, its numbers in the sort columns, and its id.
    pub fn of(alloc: Global, lane: i64, columns: &[i64], sequence: u64) -> Result<Place, AllocError>
        requires { sequence < 2 ^ 62 }
        ensures { IfOk result (λ place. place ≡ lane ∷ columns.now ++ pos sequence ∷ []) }
    {
        let mut numbers = SmallVec::new(alloc);
        numbers.push(lane)?;
        numbers.extend_from_slice(columns)?;
        numbers.push(sequence as i64)?;
        Ok(Place { numbers })
    }

    /// The place of so many numbers, as a reader of stored places has them.
    pub fn from_numbers(numbers: Vec<i64>) -> Place
        ensures { result ≡ numbers.items }
    {
        Place {
            numbers: SmallVec::from_vec(numbers),
        }
    }

    /// The numbers: the lane, the sort columns, the message's id, and then the ids of the messages before which it was put.
    pub fn numbers(&self) -> &[i64]
        ensures { result.now ≡ self.now }
    {
        self.numbers.as_slice()
    }
}

/// The place of a message that is put before the one at `at`, which has so many sort columns: `at` with the message's
/// id behind it. `TooDeep` is told exactly where `at` has 16 before-numbers.
pub fn before(alloc: Global, at: &Place, columns: u32, number: u64) -> Result<Place, PlaceFault>
    requires { number < 2 ^ 62 }
    ensures ok { IfOk result (λ place. place ≡ put_before at.now (pos number)) }
    ensures deep { IsErrOf result TooDeep ↔ (16 ≤ before_count columns at.now) }
{
    if before_count(at, columns) >= BEFORE_LIMIT {
        return Err(PlaceFault::TooDeep);
    }
    Ok(extended(alloc, at, number)?)
}

fn before_count(place: &Place, columns: u32) -> usize
    ensures { result ≡ before_count columns place.now }
{
    place.numbers.len().saturating_sub(columns as usize + 2)
}

fn extended(alloc: Global, place: &Place, number: u64) -> Result<Place, AllocError>
    requires { number < 2 ^ 62 }
    ensures { IfOk result (λ longer. longer ≡ put_before place.now (pos number)) }
{
    let mut numbers = SmallVec::from_slice(alloc, place.numbers.as_slice())?;
    numbers.push(number as i64)?;
    Ok(Place { numbers })
}

/// How two places stand to one another: by the first number that differs, and where one begins the other, the longer
/// stands first. `Less` says that the left one stands first. It takes no memory.
pub fn compare(left: &Place, right: &Place) -> Ordering
    ensures { result ≡ place_cmp left.now right.now }
{
    compare_numbers(left.numbers.as_slice(), right.numbers.as_slice())
}

fn compare_numbers(left: &[i64], right: &[i64]) -> Ordering
    ensures { result ≡ place_cmp left.now right.now }
{
    match (left.split_first(), right.split_first()) {
        (None, None) => Ordering::Equal,
        (None, Some(_)) => Ordering::Greater,
        (Some(_), None) => Ordering::Less,
        (Some((first, left)), Some((second, right))) => match first.cmp(second) {
            Ordering::Equal => compare_numbers(left, right),
            decided => decided,
        },
    }
}

impl PartialEq for Place {
    ghost eq = { eq_by_cmp place_cmp };

    ghost laws = { on_per (λ p. p) (partial_equiv_from_equiv (eq_by_cmp_equiv place_cmp_total)) };

    fn eq(&self, other: &Self) -> bool {
        compare(self, other) == Ordering::Equal
    }
}

impl Eq for Place {
    ghost laws = { on_equiv (λ p. p) (eq_by_cmp_equiv place_cmp_total) };
}

impl PartialOrd for Place {
    ghost partial_cmp = { λ p q. Some (place_cmp p q) };

    ghost laws = { on_po (λ p. p) (partial_order_from_total place_cmp_total) };

    fn partial_cmp(&self, other: &Self) -> Option<Ordering> {
        Some(compare(self, other))
    }
}

impl Ord for Place {
    ghost cmp = { place_cmp };

    ghost total = { on_total (λ p. p) place_cmp_total };

    ghost matches_partial_cmp = { λ p q. refl };

    ghost matches_eq = { λ p q. refl };

    fn cmp(&self, other: &Self) -> Ordering {
        compare(self, other)
    }
}
