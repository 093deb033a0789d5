// A tree of rows, which contracts see as the list of its rows.
ghost use Rattle.std.specs.Prelude.{◌≡◌, ◌↔◌, IsTrue, ◌+◌, ◌-◌, ◌<◌, ◌≤◌, [], ◌∷◌, ◌++◌, length, insert, remove, slice_get, option_copied, Some, IsSome, IfSome, IfNone, OnOk, OnErr};
ghost use Rattle.std.specs.Fn.{CalledAt};
ghost use Rattle.std.specs.List.{find, prefix_len};
ghost use Rattle.std.specs.List.Retain.{IsFiltered};
ghost use Rattle.std.specs.Option.{option_map, option_to_list};
ghost use Rattle.row_tree.specs.Bounds.{is_before, is_not_before};
ghost use Rattle.row_tree.specs.Edits.{edit_at};
ghost use Rattle.row_tree.specs.Split.{IsSplit};

use crate::{Bound, Edit, InOrder};
use std::alloc::{AllocError, Global};
use std::marker::Model;
use std::mem;

/// Rows in an order, which contracts see as the list of these rows. Each row is reached in about as many steps as their number has
/// binary digits.
#[cycle(tree)]
#[derive(Drop)]
pub struct Tree<T> {
    pub(crate) root: Option<Box<Fork<T>>>,
    // (beside the root and not in it, so that to count a side is no look at its root)
    count: usize,
}

#[cycle(tree)]
#[derive(Drop)]
pub(crate) struct Fork<T> {
    pub(crate) left: Tree<T>,
    pub(crate) right: Tree<T>,
    pub(crate) row: Option<T>,
}

impl<T> Model for Tree<T> {
    ghost use Rattle.std.specs.Prelude.{◌≡◌, List as Sequence, length};
    ghost use Rattle.std.specs.Coded.{coded_list};

    ghost Value = { Sequence T };

    ghost coded = { coded_list T.code };

    ghost use Rattle.row_tree.specs.Rows.{rows, IsWhole};

    ghost view = { λ t. rows t.root };

    ghost invariant = { λ t. IsWhole t.root × (t.count ≡ length (rows t.root)) };

    ghost size = { length };

    ghost use Rattle.row_tree.specs.RowsFall.{sides_are_shorter};

    ghost size_decreases = { λ t whole. sides_are_shorter t.root t.count whole.0 };
}

/// A place for a row that is to be put in.
#[derive(Drop)]
pub struct Spare<T> {
    fork: Box<Fork<T>>,
}

#[derive(Drop)]
struct Opened<T> {
    left: Tree<T>,
    fork: Box<Fork<T>>,
    right: Tree<T>,
}

impl<T> Tree<T> {
    /// No rows. It takes no memory.
    pub fn new() -> Tree<T>
        ensures { result ≡ [] }
    {
        Tree {
            root: None,
            count: 0,
        }
    }

    /// How many rows there are. It takes no memory.
    pub fn len(&self) -> usize
        ensures { result ≡ length self.now }
    {
        self.count
    }
}

#[derive(Drop)]
struct Removed<T> {
    rest: Tree<T>,
    row: T,
    spare: Spare<T>,
}

#[derive(Drop)]
struct First<T> {
    fork: Box<Fork<T>>,
    rest: Tree<T>,
}

impl<T> Tree<T> {
    /// The row at an index that counts from 0, or None past the end. It takes no memory.
    pub fn get(&self, mut at: usize) -> Option<&T>
        ensures { option_copied result ≡ slice_get self.now at }
    {
        let mut tree = self;
        'forks: while let Some(fork) = &tree.root {
            let fork: &Fork<T> = fork;
            let before = fork.left.len();
            if at < before {
                tree = &fork.left;
                continue;
            }
            if at == before {
                return fork.row.as_ref();
            }
            at = at - before - 1;
            tree = &fork.right;
        }
        None
    }
}

impl<T> Tree<T> {
    /// Whether there are no rows. It takes no memory.
    pub fn is_empty(&self) -> bool
        ensures { IsTrue result ↔ (self.now ≡ []) }
    {
        self.len() == 0
    }
}

impl<T: InOrder> Tree<T> {
    /// How many rows stand before the first one that does not stand before the bound. It takes no memory.
    pub fn rank<B: Bound<T>>(&self, bound: &B) -> usize
        requires { IsSplit (is_before (B.standing bound.now)) self.now }
        ensures { result ≡ prefix_len (is_before (B.standing bound.now)) self.now }
    {
        let _most = self.len();
        let (mut tree, mut past) = (self, 0);
        'forks: while let Some(fork) = &tree.root {
            let fork: &Fork<T> = fork;
            let Some(row) = &fork.row else { unreachable!() };
            if bound.standing(row).is_lt() {
                past += fork.left.len() + 1;
                tree = &fork.right;
                continue;
            }
            tree = &fork.left;
        }
        past
    }
}

impl<T: InOrder> Tree<T> {
    /// The first row that does not stand before the bound, or None where each stands before it. It goes down once, and takes no
    /// memory.
    pub fn first_from<B: Bound<T>>(&self, bound: &B) -> Option<&T>
        requires { IsSplit (is_before (B.standing bound.now)) self.now }
        ensures { option_copied result ≡ find (is_not_before (B.standing bound.now)) self.now }
    {
        let (mut tree, mut first) = (self, None);
        'forks: while let Some(fork) = &tree.root {
            let fork: &Fork<T> = fork;
            let Some(row) = &fork.row else { unreachable!() };
            if bound.standing(row).is_lt() {
                tree = &fork.right;
                continue;
            }
            first = Some(row);
            tree = &fork.left;
        }
        first
    }
}

impl<T: Drop> Tree<T> {
    fn open(self) -> Option<Opened<T>>
        ensures some { IfSome result (λ o. self ≡ o.left ++ (option_to_list o.fork.value.row ++ o.right)) }
        ensures row { IfSome result (λ o. IsSome o.fork.value.row) }
        ensures fits { IfSome result (λ _. length self ≤ usize.MAX) }
        ensures none { IfNone result (self ≡ []) }
    {
        let _count = self.count;
        match self.root {
            None => None,
            Some(mut fork) => {
                let left = mem::replace(&mut fork.left, Tree::new());
                let right = mem::replace(&mut fork.right, Tree::new());
                Some(Opened { left, fork, right })
            }
        }
    }

    /// Puts a row before the one at an index that counts from 0, or at the end. It takes no memory.
    pub fn insert(&mut self, at: usize, row: T, spare: Spare<T>)
        requires within { at ≤ length self.old }
        requires fits { length self.old < usize.MAX }
        ensures { self.new ≡ insert self.old at row }
    {
        self.insert_fork(at, filled(spare, row));
    }

    // Puts the row of a fork in, which goes down in its place: rows may be large.
    fn insert_fork(&mut self, at: usize, inserted: Box<Fork<T>>)
        requires within { at ≤ length self.old }
        requires fits { length self.old < usize.MAX }
        requires row { IsSome inserted.value.row }
        ensures rows { (row : T) → inserted.value.row ≡ Some row → self.new ≡ insert self.old at row }
        ensures len { length self.new ≡ length self.old + 1 }
    {
        match &mut self.root {
            None => *self = hang(inserted, Tree::new(), Tree::new()),
            Some(fork) => {
                let before = fork.left.len();
                if at <= before {
                    fork.left.insert_fork(at, inserted);
                } else {
                    fork.right.insert_fork(at - before - 1, inserted);
                }
                self.count += 1;
                self.balance();
            }
        }
    }

    /// Puts a row at the end, in memory that it takes. At want of memory the rows are as before.
    pub fn append(&mut self, alloc: Global, row: T) -> Result<(), AllocError>
        ensures ok { OnOk result (self.new ≡ self.old ++ row ∷ []) }
        ensures err { OnErr result (self.new ≡ self.old) }
    {
        if self.len() == usize::MAX {
            return Err(AllocError);
        }
        let spare = Spare::new(alloc)?;
        self.push(row, spare);
        Ok(())
    }

    /// Puts a row at the end. It takes no memory.
    pub fn push(&mut self, row: T, spare: Spare<T>)
        requires { length self.old < usize.MAX }
        ensures { self.new ≡ self.old ++ row ∷ [] }
    {
        self.push_fork(filled(spare, row));
    }

    // Puts the row of a fork at the end.
    fn push_fork(&mut self, pushed: Box<Fork<T>>)
        requires fits { length self.old < usize.MAX }
        requires row { IsSome pushed.value.row }
        ensures { self.new ≡ self.old ++ option_to_list pushed.value.row }
    {
        match &mut self.root {
            None => *self = hang(pushed, Tree::new(), Tree::new()),
            Some(fork) => {
                fork.right.push_fork(pushed);
                self.count += 1;
                self.balance();
            }
        }
    }

    // Turns the root where one of its sides weighs too much beside the other.
    fn balance(&mut self)
        ensures { self.new ≡ self.old }
    {
        if !self.leans() {
            return;
        }
        let tree = mem::replace(self, Tree::new());
        if let Some(Opened { left, fork, right }) = tree.open() {
            *self = join(fork, left, right);
        }
    }

    // Whether one side of the root weighs more than three times the other.
    fn leans(&self) -> bool {
        let Some(fork) = &self.root else {
            return false;
        };
        let fork: &Fork<T> = fork;
        let (left, right) = (fork.left.len(), fork.right.len());
        left / 3 > right || right / 3 > left
    }

    /// Takes the row at an index that counts from 0 out, with its place. It takes no memory.
    pub fn remove(&mut self, at: usize) -> (T, Spare<T>)
        requires { at < length self.old }
        ensures row { slice_get self.old at ≡ Some result.0 }
        ensures rest { self.new ≡ remove self.old at }
    {
        let mut fork = self.remove_fork(at);
        let Some(row) = fork.row.take() else {
            unreachable!()
        };
        (row, Spare { fork })
    }

    // Takes the fork of the row at an index out, with its row: rows may be large.
    fn remove_fork(&mut self, at: usize) -> Box<Fork<T>>
        requires { at < length self.old }
        ensures row { slice_get self.old at ≡ result.value.row }
        ensures some { IsSome result.value.row }
        ensures rest { self.new ≡ remove self.old at }
    {
        let Some(fork) = &mut self.root else {
            unreachable!()
        };
        let before = fork.left.len();
        let removed = if at < before {
            fork.left.remove_fork(at)
        } else if at > before {
            fork.right.remove_fork(at - before - 1)
        } else {
            let Some(mut fork) = self.root.take() else {
                unreachable!()
            };
            let left = mem::replace(&mut fork.left, Tree::new());
            let right = mem::replace(&mut fork.right, Tree::new());
            *self = glue(left, right);
            return fork;
        };
        self.count -= 1;
        self.balance();
        removed
    }

    /// Changes the row at an index that counts from 0. It takes no memory.
    pub fn edit<E: Edit<T>>(&mut self, at: usize, edit: E)
        requires { at < length self.old }
        ensures { self.new ≡ edit_at self.old at (E.edited edit) }
    {
        let Some(fork) = &mut self.root else {
            unreachable!()
        };
        let before = fork.left.len();
        if at < before {
            fork.left.edit(at, edit);
        } else if at > before {
            fork.right.edit(at - before - 1, edit);
        } else {
            fork.edit(edit);
        }
    }

    /// Keeps the rows that pass a test, in their order, and takes out the others one by one. It takes no memory.
    pub fn retain<F: FnMut(&T) -> bool>(&mut self, mut passes: F)
        requires { F.IsAlwaysCallable passes }
        ensures filtered { IsFiltered (CalledAt F.FnMut) passes self.old self.new }
        ensures bound { length self.new ≤ length self.old }
    {
        let mut at = 0;
        while at < self.len() {
            let Some(row) = self.get(at) else {
                unreachable!()
            };
            if passes(row) {
                at += 1;
            } else {
                let _removed = self.remove(at);
            }
        }
    }

    fn take_first(self) -> Option<First<T>>
        ensures some { IfSome result (λ f. self ≡ option_to_list f.fork.value.row ++ f.rest) }
        ensures row { IfSome result (λ f. IsSome f.fork.value.row) }
        ensures fits { IfSome result (λ _. length self ≤ usize.MAX) }
        ensures none { IfNone result (self ≡ []) }
    {
        let Opened { left, fork, right } = self.open()?;
        match left.take_first() {
            None => Some(First { fork, rest: right }),
            Some(First { fork: first, rest }) => Some(First {
                fork: first,
                rest: join(fork, rest, right),
            }),
        }
    }
}

impl<T: Drop> Fork<T> {
    fn edit<E: Edit<T>>(&mut self, edit: E)
        requires { IsSome self.old.row }
        ensures { self.new ≡ record self.old { row = option_map (E.edited edit) self.old.row } }
    {
        let Some(row) = self.row.take() else {
            unreachable!()
        };
        self.row = Some(edit.edit(row));
    }
}

fn filled<T: Drop>(spare: Spare<T>, row: T) -> Box<Fork<T>>
    ensures { result.value.row ≡ Some row }
{
    let Spare { mut fork } = spare;
    fork.row = Some(row);
    fork
}

// The rows of both, in that order.
fn glue<T: Drop>(left: Tree<T>, right: Tree<T>) -> Tree<T>
    requires { length left + length right < usize.MAX }
    ensures { result ≡ left ++ right }
{
    match right.take_first() {
        None => left,
        Some(First { fork, rest }) => join(fork, left, rest),
    }
}

// A root over both sides.
fn hang<T: Drop>(mut fork: Box<Fork<T>>, left: Tree<T>, right: Tree<T>) -> Tree<T>
    requires row { IsSome fork.value.row }
    requires fits { length left + length right < usize.MAX }
    ensures { result ≡ left ++ (option_to_list fork.value.row ++ right) }
{
    let count = left.len() + right.len() + 1;
    fork.left = left;
    fork.right = right;
    Tree {
        root: Some(fork),
        count,
    }
}

// A root over both sides, turned where one of them weighs more than three times the other, its weight being the number of its rows and one:
// once, where its inner part weighs less than twice the outer one, and else twice.
fn join<T: Drop>(fork: Box<Fork<T>>, left: Tree<T>, right: Tree<T>) -> Tree<T>
    requires row { IsSome fork.value.row }
    requires fits { length left + length right < usize.MAX }
    ensures { result ≡ left ++ (option_to_list fork.value.row ++ right) }
{
    if left.len() / 3 > right.len() {
        lean_left(fork, left, right)
    } else if right.len() / 3 > left.len() {
        lean_right(fork, left, right)
    } else {
        hang(fork, left, right)
    }
}

fn lean_left<T: Drop>(fork: Box<Fork<T>>, left: Tree<T>, right: Tree<T>) -> Tree<T>
    requires row { IsSome fork.value.row }
    requires fits { length left + length right < usize.MAX }
    ensures { result ≡ left ++ (option_to_list fork.value.row ++ right) }
{
    let Some(
        Opened {
            left,
            fork: top,
            right: inner,
        },
    ) = left.open()
    else {
        return hang(fork, Tree::new(), right);
    };
    if inner.len().div_ceil(2) <= left.len() {
        return hang(top, left, hang(fork, inner, right));
    }
    let Some(
        Opened {
            left: first,
            fork: middle,
            right: second,
        },
    ) = inner.open()
    else {
        return hang(top, left, hang(fork, Tree::new(), right));
    };
    hang(middle, hang(top, left, first), hang(fork, second, right))
}

fn lean_right<T: Drop>(fork: Box<Fork<T>>, left: Tree<T>, right: Tree<T>) -> Tree<T>
    requires row { IsSome fork.value.row }
    requires fits { length left + length right < usize.MAX }
    ensures { result ≡ left ++ (option_to_list fork.value.row ++ right) }
{
    let Some(
        Opened {
            left: inner,
            fork: top,
            right,
        },
    ) = right.open()
    else {
        return hang(fork, left, Tree::new());
    };
    if inner.len().div_ceil(2) <= right.len() {
        return hang(top, hang(fork, left, inner), right);
    }
    let Some(
        Opened {
            left: first,
            fork: middle,
            right: second,
        },
    ) = inner.open()
    else {
        return hang(top, hang(fork, left, Tree::new()), right);
    };
    hang(middle, hang(fork, left, first), hang(top, second, right))
}

impl<T: Drop> Spare<T> {
    /// A place, if there is memory for it. This is the one call that takes memory.
    pub fn new(alloc: Global) -> Result<Spare<T>, AllocError> {
        Ok(Spare {
            fork: Box::new(
                alloc,
                Fork {
                    left: Tree::new(),
                    right: Tree::new(),
                    row: None,
                },
            )?,
        })
    }
}
