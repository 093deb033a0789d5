// Items that are found by their pairs.
use pair_list::{PairList, Paired};
use std::alloc::{AllocError, Global};

#[derive(Drop)]
struct Item {
    first: u64,
    second: u64,
}

impl Paired for Item {
    ghost pair_of = { λ item. (item.first, item.second) };

    fn pair(&self) -> (u64, u64) {
        (self.first, self.second)
    }
}

fn fill(alloc: Global, list: &mut PairList<Item>, pairs: &[(u64, u64)]) -> Result<(), AllocError> {
    for (first, second) in pairs {
        let (first, second) = (*first, *second);
        list.append(alloc, Item { first, second })?;
    }
    Ok(())
}

// A pair that comes again is found where it came first.
fn is_found(alloc: Global, list: &mut PairList<Item>) -> bool {
    fill(alloc, list, &[(3, 1), (1, 3), (3, 1), (0, 5)]).is_ok()
        && list.position(3, 1) == Some(0)
        && list.position(0, 5) == Some(3)
        && !list.has(5, 0)
}

#[test]
fn the_first_of_a_pair_is_found(rt: HostRuntime) {
    let mut list = PairList::new();
    assert!(rt; is_found(rt.alloc(), &mut list));
}
