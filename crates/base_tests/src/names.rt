// Items that are found by their names.
use named_list::{Named, NamedList};
use payload_records::{Copied, Name, NameFault};
use std::alloc::{AllocError, Global};

#[derive(Drop)]
struct Item {
    name: Name,
    number: u32,
}

impl Named for Item {
    ghost name_of = { λ item. item.name };

    fn name(&self) -> &Name {
        &self.name
    }
}

impl Copied for Item {
    fn copied(&self) -> Result<Self, AllocError> {
        Ok(Item {
            name: self.name.copied()?,
            number: self.number,
        })
    }
}

fn put(
    alloc: Global,
    list: &mut NamedList<Item>,
    name: &str,
    number: u32,
) -> Result<(), NameFault> {
    let name = Name::read(alloc, name)?;
    list.append(alloc, Item { name, number })?;
    Ok(())
}

fn fill(alloc: Global, list: &mut NamedList<Item>) -> Result<(), NameFault> {
    put(alloc, list, "b", 1)?;
    put(alloc, list, "a", 2)?;
    put(alloc, list, "a", 3)
}

/// With these a list is too long for its items to be gone over one by one.
const OTHERS: &[&str] = &["c", "d", "e", "f", "g", "h", "i"];

fn fill_on(alloc: Global, list: &mut NamedList<Item>) -> Result<(), NameFault> {
    for name in OTHERS {
        put(alloc, list, name, 4)?;
    }
    Ok(())
}

fn is_first(list: &NamedList<Item>, name: &Name) -> bool {
    match list.find(name) {
        Some(item) => item.number == 2 && list.count_of(name) == 2,
        None => false,
    }
}

fn is_found(alloc: Global, list: &NamedList<Item>) -> bool {
    match Name::read(alloc, "a") {
        Ok(name) => is_first(list, &name),
        Err(_) => false,
    }
}

fn is_found_in_copy(alloc: Global, list: &NamedList<Item>) -> bool {
    match list.copied(alloc) {
        Ok(copy) => is_found(alloc, &copy),
        Err(_) => false,
    }
}

#[test]
fn items_are_found_by_their_names(rt: HostRuntime) {
    let mut list = NamedList::new();
    let is_filled = fill(rt.alloc(), &mut list).is_ok();
    assert!(rt; is_filled && is_found_in_copy(rt.alloc(), &list));
}

#[test]
fn items_of_a_long_list_are_found_by_their_names(rt: HostRuntime) {
    let mut list = NamedList::new();
    let is_filled = fill(rt.alloc(), &mut list).is_ok() && fill_on(rt.alloc(), &mut list).is_ok();
    assert!(rt; is_filled && is_found_in_copy(rt.alloc(), &list));
}
