// Places in their order, how deep they go, and sort lists.
ghost use Rattle.std.specs.Prelude.{◌≤◌};

use payload_records::{Copied, List};
use place_keys::{Column, Place, PlaceFault, SortList, before, compare};
use std::alloc::{AllocError, Global};
use std::cmp::Ordering;

// ---- places

// Each place stands before the one beside it.
const IN_ORDER: [(&[i64], &[i64]); 6] = [
    (&[-2, 9, 9], &[-1, 0]),
    (&[0, 5, 2, 3, 6], &[0, 5, 2, 3]),
    (&[0, 5, 2, 3], &[0, 5, 2, 4]),
    (&[0, 5, 2, 4], &[0, 5, 2]),
    (&[0, 5, 2], &[0, 6, 1]),
    (&[0, 6, 1], &[]),
];

// A copy of the place of these numbers.
fn place_of(alloc: Global, numbers: &[i64]) -> Result<Place, AllocError> {
    let place = Place::from_numbers(numbers.to_vec(alloc)?);
    place.copied()
}

fn is_before(alloc: Global, place: &Place, later: &[i64]) -> bool {
    match place_of(alloc, later) {
        Ok(later) => compare(place, &later) == Ordering::Less && *place < later,
        Err(_) => false,
    }
}

fn are_in_order(alloc: Global, earlier: &[i64], later: &[i64]) -> bool {
    match place_of(alloc, earlier) {
        Ok(place) => is_before(alloc, &place, later),
        Err(_) => false,
    }
}

#[test]
fn places_stand_in_their_order(rt: HostRuntime) {
    for (earlier, later) in &IN_ORDER {
        assert!(rt; are_in_order(rt.alloc(), earlier, later), "{earlier:?}");
    }
}

// ---- a place before another that stands before none, and so on

fn grow(alloc: Global, place: &mut Place, from: u64, past: u64) -> Result<(), PlaceFault>
    requires { past ≤ 20 }
{
    for number in from..past {
        let longer = before(alloc, place, 1, number)?;
        *place = longer;
    }
    Ok(())
}

fn is_before_it(alloc: Global, place: &mut Place) -> bool {
    grow(alloc, place, 3, 4).is_ok() && place.numbers() == [0, 5, 2, 3].as_slice()
}

// The numbers from 3 to 18 stand behind the place, and no more.
fn is_deepest(alloc: Global, place: &mut Place) -> bool {
    grow(alloc, place, 4, 19).is_ok()
        && place.numbers().len() == 19
        && place.numbers().last() == Some(&18)
        && grow(alloc, place, 19, 20) == Err(PlaceFault::TooDeep)
}

fn goes_deep(alloc: Global) -> Result<bool, AllocError> {
    let mut place = Place::of(alloc, 0, &[5], 2)?;
    Ok(is_before_it(alloc, &mut place) && is_deepest(alloc, &mut place))
}

#[test]
fn places_go_no_deeper_than_they_may(rt: HostRuntime) -> Result<(), AllocError> {
    assert!(rt; goes_deep(rt.alloc())?);
    Ok(())
}

// ---- sort lists

fn columns(alloc: Global) -> Result<List<Column>, AllocError> {
    let usual = SortList::by_enqueue_time(alloc)?;
    usual.columns().copied()
}

fn is_copied(list: Option<SortList>) -> bool {
    match list {
        Some(list) => list.copied().is_ok(),
        None => false,
    }
}

#[test]
fn the_usual_columns_are_a_sort_list(rt: HostRuntime) -> Result<(), AllocError> {
    assert!(rt; is_copied(SortList::of(columns(rt.alloc())?)));
    Ok(())
}
