// Rows by their position, beside a plain list of the same rows.
ghost use Rattle.std.specs.Prelude.{◌≡◌};

use crate::numbers::{next, place};
use row_tree::{Edit, Stock, Tree};
use std::alloc::Global;
use std::process::Abort;
use std::test::Fail;

const STEPS: u32 = 300;

// Another number in the place of one.
#[derive(Drop)]
struct Become {
    row: u64,
}

impl Edit<u64> for Become {
    ghost edited = { λ change row. change.row };

    fn edit(self, _row: u64) -> u64 {
        self.row
    }
}

// Each of these makes a change in the tree and in the list, and tells whether both had the rows that it takes.

fn put(
    tree: &mut Tree<u64>,
    stock: &mut Stock<u64>,
    rows: &mut Vec<u64>,
    at: usize,
    number: u64,
) -> Result<bool, Fail> {
    if at > tree.len() || tree.len() == usize::MAX || at > rows.len() {
        return Ok(false);
    }
    stock.reserve(1)?;
    tree.insert(at, number, stock.take());
    rows.insert(at, number)?;
    Ok(true)
}

fn push(
    tree: &mut Tree<u64>,
    stock: &mut Stock<u64>,
    rows: &mut Vec<u64>,
    number: u64,
) -> Result<bool, Fail> {
    if tree.len() == usize::MAX {
        return Ok(false);
    }
    stock.reserve(1)?;
    tree.push(number, stock.take());
    rows.push(number)?;
    Ok(true)
}

fn take(tree: &mut Tree<u64>, rows: &mut Vec<u64>, at: usize) -> bool {
    if at >= rows.len() {
        return tree.get(at).is_none();
    }
    if at >= tree.len() {
        return false;
    }
    let (row, _spare) = tree.remove(at);
    row == rows.remove(at)
}

fn edit(tree: &mut Tree<u64>, rows: &mut Vec<u64>, at: usize, number: u64) -> bool {
    if at >= rows.len() {
        return tree.get(at).is_none();
    }
    if at >= tree.len() {
        return false;
    }
    tree.edit(at, Become { row: number });
    rows[at] = number;
    true
}

fn step(
    tree: &mut Tree<u64>,
    stock: &mut Stock<u64>,
    rows: &mut Vec<u64>,
    number: u64,
) -> Result<bool, Fail> {
    let at = place(number / 8, rows.len());
    match number % 8 {
        0 | 1 => Ok(take(tree, rows, at)),
        2 => Ok(edit(tree, rows, at, number)),
        3 => push(tree, stock, rows, number),
        _ => put(tree, stock, rows, at, number),
    }
}

fn is_same(tree: &Tree<u64>, rows: &[u64]) -> bool {
    tree.len() == rows.len() && tree.iter().zip(rows).all(|(row, other)| row == other)
}

fn is_same_at(tree: &Tree<u64>, rows: &[u64], at: usize) -> bool {
    tree.get(at) == rows.get(at) && tree.is_empty() == rows.is_empty()
}

fn agrees(tree: &Tree<u64>, rows: &[u64], number: u64) -> bool {
    is_same(tree, rows) && is_same_at(tree, rows, place(number, rows.len()))
}

fn check_steps(
    rt: &impl Abort,
    tree: &mut Tree<u64>,
    stock: &mut Stock<u64>,
    rows: &mut Vec<u64>,
    seed: u64,
) -> Result<(), Fail> {
    let mut state = seed;
    for _ in 0..STEPS {
        state = next(state);
        let went = step(tree, stock, rows, state >> 33)?;
        assert!(rt; went && agrees(tree, rows, state >> 40), "seed {seed}");
    }
    Ok(())
}

fn check_seed(rt: &impl Abort, alloc: Global, seed: u64) -> Result<(), Fail> {
    let mut tree = Tree::new();
    let mut stock = Stock::new(alloc);
    let mut rows = Vec::new(alloc);
    check_steps(rt, &mut tree, &mut stock, &mut rows, seed)
}

#[test]
fn rows_come_and_go(rt: HostRuntime) -> Result<(), Fail> {
    for seed in 0..5 {
        check_seed(&rt, rt.alloc(), seed)?;
    }
    Ok(())
}

// ---- many rows

fn grow(tree: &mut Tree<u64>, stock: &mut Stock<u64>, rows: &mut Vec<u64>) -> Result<bool, Fail> {
    let mut grew = true;
    for number in 0..10_000 {
        grew = grew && push(tree, stock, rows, number)?;
    }
    Ok(grew)
}

fn thins(tree: &mut Tree<u64>, rows: &mut Vec<u64>) -> bool {
    tree.retain(|row| row % 3 != 0);
    rows.retain(|row| row % 3 != 0);
    is_same(tree, rows)
}

fn check_many(
    rt: &impl Abort,
    tree: &mut Tree<u64>,
    stock: &mut Stock<u64>,
    rows: &mut Vec<u64>,
) -> Result<(), Fail> {
    assert!(rt; grow(tree, stock, rows)? && is_same(tree, rows) && thins(tree, rows));
    Ok(())
}

#[test]
fn many_rows_are_met_in_their_order(rt: HostRuntime) -> Result<(), Fail> {
    let mut tree = Tree::new();
    let mut stock = Stock::new(rt.alloc());
    let mut rows = Vec::new(rt.alloc());
    check_many(&rt, &mut tree, &mut stock, &mut rows)
}
