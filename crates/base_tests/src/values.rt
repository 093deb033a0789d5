// Names, texts, lists and shared values.
use payload_records::{Boxed, Copied, List, Name, NameFault, Shared, SmallList, Text};
use std::alloc::{AllocError, Global};

const AAAA: &str =
    "aaaaaaaaaaaaaaaaaaaaaaaaaaaaaaaaaaaaaaaaaaaaaaaaaaaaaaaaaaaaaaaaaaaaaaaaaaaaaaaaaaaaaaaaaaaaaaaaaaaaaaaaaaaaaaaaaaaaaaaaaaaaaaaa";

const OVER: &str =
    "aaaaaaaaaaaaaaaaaaaaaaaaaaaaaaaaaaaaaaaaaaaaaaaaaaaaaaaaaaaaaaaaaaaaaaaaaaaaaaaaaaaaaaaaaaaaaaaaaaaaaaaaaaaaaaaaaaaaaaaaaaaaaaaaa";

// ---- names

const NAMES: [(&str, bool); 10] = [
    ("orders_q", true),
    (AAAA, true),
    ("a9", true),
    ("", false),
    ("9a", false),
    ("Q", false),
    ("_a", false),
    ("a-b", false),
    ("aQ", false),
    (OVER, false),
];

fn is_name(alloc: Global, text: &str, wanted: bool) -> bool {
    match Name::read(alloc, text) {
        Ok(name) => wanted && name.as_str() == text && name.with_suffix("_e").is_ok(),
        Err(fault) => !wanted && fault == NameFault::Bad,
    }
}

#[test]
fn names_are_read(rt: HostRuntime) {
    for (text, wanted) in &NAMES {
        assert!(rt; is_name(rt.alloc(), text, *wanted), "{text}");
    }
}

// ---- texts

// A copy of a text that is gone.
fn copy_of(alloc: Global, text: &str) -> Result<Text, AllocError> {
    let first = Text::of(alloc, text)?;
    first.copied()
}

fn is_kept(alloc: Global, text: &str) -> bool {
    match copy_of(alloc, text) {
        Ok(copy) => copy.as_str() == text,
        Err(_) => false,
    }
}

// Those of 22 bytes and less lie in place.
#[test]
fn texts_are_kept_in_place_and_shared(rt: HostRuntime) {
    for text in ["ab", "xxxxxxxxxxxxxxxxxxxéy", "xxxxxxxxxxxxxxxxxxxxéy"] {
        assert!(rt; is_kept(rt.alloc(), text), "{text}");
    }
}

// ---- lists

fn fill(list: &mut List<i64>) -> Result<(), AllocError> {
    list.reserve(1)?;
    list.push(9)?;
    list.insert(0, 7)?;
    list.push(3)?;
    list.sort()
}

fn is_filled(list: &mut List<i64>) -> bool {
    fill(list).is_ok() && list.get(0) == Some(&3) && list.copied().is_ok()
}

// ---- small lists

fn fill_small(small: &mut SmallList<i64>) -> Result<(), AllocError> {
    for item in [5, 7, 8] {
        small.push(item)?;
    }
    Ok(())
}

// A copy's items.
fn copied_items(small: &SmallList<i64>) -> Result<Vec<i64>, AllocError> {
    let copy = small.copied()?;
    copy.into_vec()
}

fn is_small(small: &mut SmallList<i64>) -> bool {
    fill_small(small).is_ok()
        && match copied_items(small) {
            Ok(items) => items.as_slice() == [5, 7, 8].as_slice(),
            Err(_) => false,
        }
}

fn lists_are_filled(alloc: Global) -> bool {
    is_filled(&mut List::new(alloc)) && is_small(&mut SmallList::new(alloc))
}

// ---- shared values

fn change(alloc: Global, first: &mut Shared<i64>) -> Result<(), AllocError> {
    *first.make_mut(alloc)? = 5;
    Ok(())
}

// A copy stays as it was where the first one is changed.
fn is_kept_by(copy: Shared<i64>, alloc: Global, first: &mut Shared<i64>) -> bool {
    change(alloc, first).is_ok() && copy.into_inner() == Ok(3) && **first == 5
}

fn is_copied(alloc: Global, first: &mut Shared<i64>) -> Result<bool, AllocError> {
    let copy = first.copied()?;
    Ok(is_kept_by(copy, alloc, first))
}

fn is_shared(alloc: Global) -> Result<bool, AllocError> {
    let mut first = Shared::new(alloc, 3i64)?;
    is_copied(alloc, &mut first)
}

fn is_boxed(alloc: Global) -> Result<bool, AllocError> {
    let boxed = Boxed::new(alloc, 6i64)?;
    Ok(boxed.copied().is_ok())
}

fn are_held(alloc: Global) -> Result<bool, AllocError> {
    Ok(lists_are_filled(alloc) && is_shared(alloc)? && is_boxed(alloc)?)
}

#[test]
fn values_are_held(rt: HostRuntime) -> Result<(), AllocError> {
    assert!(rt; are_held(rt.alloc())?);
    Ok(())
}
