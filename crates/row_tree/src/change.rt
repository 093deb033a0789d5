// Rows that are changed where they stand.
ghost use Rattle.std.specs.Prelude.{◌≡◌, ◌<◌, false, length, slice_get, IsSome, IfSome};
ghost use Rattle.std.specs.List.{prefix_len};
ghost use Rattle.std.specs.Option.{option_map, option_map_or};
ghost use Rattle.row_tree.specs.Bounds.{is_at, is_before};
ghost use Rattle.row_tree.specs.Edits.{edit_at};
ghost use Rattle.row_tree.specs.Split.{IsSplit};

use crate::tree::Fork;
use crate::{Bound, Change, InOrder, Tree};

impl<T: InOrder> Tree<T> {
    /// How many rows stand before the first one that does not stand before the bound, and whether that one stands at it. It goes down
    /// once, and takes no memory.
    pub fn seat<B: Bound<T>>(&self, bound: &B) -> (usize, bool)
        requires { IsSplit (is_before (B.standing bound.now)) self.now }
        ensures rank { result.0 ≡ prefix_len (is_before (B.standing bound.now)) self.now }
        ensures at { result.1 ≡
            option_map_or (is_at (B.standing bound.now)) (slice_get self.now result.0) false }
    {
        let _most = self.len();
        let (mut tree, mut past, mut is_there) = (self, 0, false);
        'forks: while let Some(fork) = &tree.root {
            let fork: &Fork<T> = fork;
            let Some(row) = &fork.row else { unreachable!() };
            let standing = bound.standing(row);
            if standing.is_lt() {
                past += fork.left.len() + 1;
                tree = &fork.right;
                continue;
            }
            is_there = standing.is_eq();
            tree = &fork.left;
        }
        (past, is_there)
    }
}

impl<T: InOrder> Tree<T> {
    // The same, where the first row is looked at before all others, as one that is taken out mostly stands first.
    pub(crate) fn seat_from_first<B: Bound<T>>(&self, bound: &B) -> (usize, bool)
        requires { IsSplit (is_before (B.standing bound.now)) self.now }
        ensures rank { result.0 ≡ prefix_len (is_before (B.standing bound.now)) self.now }
        ensures at { result.1 ≡
            option_map_or (is_at (B.standing bound.now)) (slice_get self.now result.0) false }
    {
        if let Some(first) = self.get(0) {
            if bound.standing(first).is_eq() {
                return (0, true);
            }
        }
        self.seat(bound)
    }

    // The same, where the last row is looked at before all others, as one that is put in mostly comes last.
    pub(crate) fn seat_from_last<B: Bound<T>>(&self, bound: &B) -> (usize, bool)
        requires { IsSplit (is_before (B.standing bound.now)) self.now }
        ensures rank { result.0 ≡ prefix_len (is_before (B.standing bound.now)) self.now }
        ensures at { result.1 ≡
            option_map_or (is_at (B.standing bound.now)) (slice_get self.now result.0) false }
    {
        if let Some(last) = self.get(self.len().saturating_sub(1)) {
            if bound.standing(last).is_lt() {
                return (self.len(), false);
            }
        }
        self.seat(bound)
    }
}

impl<T: InOrder + Drop> Tree<T> {
    // Makes a change of the row at an index that counts from 0, and tells what it tells.
    pub(crate) fn change<C: Change<T>>(&mut self, at: usize, change: C) -> C::Told
        requires within { at < length self.old }
        requires allowed { IfSome (slice_get self.old at) (C.allowed change) }
        ensures rows { self.new ≡ edit_at self.old at (C.changed change) }
        ensures told { IfSome (slice_get self.old at) (λ row. result ≡ C.tells change row) }
    {
        let Some(fork) = &mut self.root else {
            unreachable!()
        };
        let before = fork.left.len();
        if at < before {
            fork.left.change(at, change)
        } else if at > before {
            fork.right.change(at - before - 1, change)
        } else {
            fork.change(change)
        }
    }
}

impl<T: InOrder + Drop> Fork<T> {
    fn change<C: Change<T>>(&mut self, change: C) -> C::Told
        requires some { IsSome self.old.row }
        requires allowed { IfSome self.old.row (C.allowed change) }
        ensures row { self.new ≡ record self.old { row = option_map (C.changed change) self.old.row } }
        ensures told { IfSome self.old.row (λ row. result ≡ C.tells change row) }
    {
        let Some(row) = self.row.take() else {
            unreachable!()
        };
        let (row, told) = change.change(row);
        self.row = Some(row);
        told
    }
}
