// The calls of a tree of rows.
use super::numbers::place;
use crate::fault::{Fault, right};
use crate::timing::{Least, a_call};
use row_tree::{Stock, Tree};
use std::alloc::Global;
use std::time::{Clock, Instant};

/// Tenths of nanoseconds that a call took, of each kind, and that each row of an `iter` took.
#[derive(Clone, Copy)]
struct Costs {
    insert: Least,
    get: Least,
    iter: Least,
    remove: Least,
}

impl Costs {
    const NONE: Costs = Costs {
        insert: Least::NONE,
        get: Least::NONE,
        iter: Least::NONE,
        remove: Least::NONE,
    };

    fn print<R: Print>(self, rt: &R) -> Result<(), Fault> {
        self.insert.print(rt, "insert")?;
        self.get.print(rt, "get")?;
        self.iter.print(rt, "iter")?;
        self.remove.print(rt, "remove")
    }
}

fn insert_all(tree: &mut Tree<u64>, stock: &mut Stock<u64>, rows: u64) -> Result<(), Fault> {
    for row in 0..rows {
        let at = place(row, tree.len());
        if tree.len() == usize::MAX {
            return Err(Fault::Wrong);
        }
        stock.reserve(1)?;
        tree.insert(at, row, stock.take());
    }
    Ok(())
}

fn get_all(tree: &Tree<u64>, rows: u64) -> u64 {
    let mut found: u64 = 0;
    for row in 0..rows {
        if tree.get(place(row, tree.len().saturating_sub(1))).is_some() {
            found = found.wrapping_add(1);
        }
    }
    found
}

fn sum_of(tree: &Tree<u64>) -> u64 {
    tree.iter().fold(0, |sum: u64, row| sum.wrapping_add(*row))
}

fn remove_all(tree: &mut Tree<u64>, rows: u64) {
    for row in 0..rows {
        let at = place(row, tree.len().saturating_sub(1));
        if at < tree.len() {
            let _removed = tree.remove(at);
        }
    }
}

fn insert_cost<R: Clock>(
    rt: &R,
    tree: &mut Tree<u64>,
    stock: &mut Stock<u64>,
    rows: u64,
) -> Result<u64, Fault> {
    let begun = Instant::now(rt)?;
    insert_all(tree, stock, rows)?;
    a_call(rt, begun, rows)
}

fn get_cost<R: Clock>(rt: &R, tree: &Tree<u64>, rows: u64) -> Result<u64, Fault> {
    let begun = Instant::now(rt)?;
    right(get_all(tree, rows) == rows)?;
    a_call(rt, begun, rows)
}

fn iter_cost<R: Clock>(rt: &R, tree: &Tree<u64>, rows: u64) -> Result<u64, Fault> {
    let wanted = (0..rows).fold(0, |sum: u64, row| sum.wrapping_add(row));
    let begun = Instant::now(rt)?;
    right(sum_of(tree) == wanted)?;
    a_call(rt, begun, rows)
}

fn remove_cost<R: Clock>(rt: &R, tree: &mut Tree<u64>, rows: u64) -> Result<u64, Fault> {
    let begun = Instant::now(rt)?;
    remove_all(tree, rows);
    let cost = a_call(rt, begun, rows)?;
    right(tree.is_empty())?;
    Ok(cost)
}

fn round<R: Clock>(
    rt: &R,
    tree: &mut Tree<u64>,
    stock: &mut Stock<u64>,
    rows: u64,
    costs: &mut Costs,
) -> Result<(), Fault> {
    costs.insert.note(insert_cost(rt, tree, stock, rows)?);
    costs.get.note(get_cost(rt, tree, rows)?);
    costs.iter.note(iter_cost(rt, tree, rows)?);
    costs.remove.note(remove_cost(rt, tree, rows)?);
    Ok(())
}

fn measured<R: Clock>(
    rt: &R,
    tree: &mut Tree<u64>,
    stock: &mut Stock<u64>,
    rows: u64,
    rounds: u64,
) -> Result<Costs, Fault> {
    let mut costs = Costs::NONE;
    for _ in 0..rounds {
        round(rt, tree, stock, rows, &mut costs)?;
    }
    Ok(costs)
}

pub fn report<R: Clock + Print>(
    rt: &R,
    alloc: Global,
    rows: u64,
    rounds: u64,
) -> Result<(), Fault> {
    let mut tree = Tree::new();
    let mut stock = Stock::new(alloc);
    let costs = measured(rt, &mut tree, &mut stock, rows, rounds)?;
    costs.print(rt)
}
