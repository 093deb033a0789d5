// The rows of a tree, one after the other.
ghost use Rattle.std.specs.Prelude.{◌≡◌, ◌≢◌, ◌+◌, ◌++◌, [], drop, slice_get, option_copied, IsSome, IfSome, IfNone};
ghost use Rattle.std.specs.Option.{option_to_list};
ghost use Rattle.std.specs.Iterator.{YieldsFirstRef, item_count};
ghost use Rattle.row_tree.specs.Path.{IsAhead};

use crate::Tree;
use crate::tree::Fork;
use arrayvec::ArrayVec;
use std::marker::Model;

/// How many forks a path has at most. It is long enough for billions of rows that came in any usual order.
const LONGEST: usize = 40;

/// The rows of a tree from the first to the last, each lent.
#[derive(Drop)]
pub struct Iter<'a, T> {
    tree: &'a Tree<T>,
    at: usize,
    path: Path<'a, T>,
}

impl<'a, T> Model for Iter<'a, T> {
    ghost use Rattle.std.specs.Prelude.{List as Sequence, ◌≤◌, drop, length};

    ghost Value = { Sequence T };

    ghost use Rattle.row_tree.specs.Path.{IsAhead};

    ghost view = { λ i. drop i.at i.tree.now };

    ghost invariant = { λ i. (i.at ≤ length i.tree.now) × IsAhead i.path i.at i.tree.now };
}

// The forks that were passed on their left side, the last one at the end. Contracts see their rows, and those right of them. A path that
// would be too long is empty, which says nothing of the rows to come.
#[derive(Drop)]
struct Path<'a, T> {
    forks: ArrayVec<Option<&'a Fork<T>>, LONGEST>,
}

impl<'a, T> Model for Path<'a, T> {
    ghost use Rattle.std.specs.Prelude.{List as Sequence};
    ghost use Rattle.std.specs.Coded.{coded_list};

    ghost Value = { Sequence T };

    ghost coded = { coded_list T.code };

    ghost use Rattle.row_tree.specs.Path.{ahead, HaveRows};

    ghost view = { λ p. ahead p.forks.items };

    ghost invariant = { λ p. HaveRows p.forks.items };
}

impl<'a, T> Path<'a, T> {
    fn new() -> Path<'a, T>
        ensures { result ≡ [] }
    {
        Path {
            forks: ArrayVec::new(),
        }
    }

    // Goes to the first row of a tree.
    fn follow(&mut self, tree: &'a Tree<T>)
        ensures { self.new ≢ [] → self.new ≡ tree.now ++ self.old }
    {
        let Some(fork) = &tree.root else {
            return;
        };
        let fork: &'a Fork<T> = fork;
        if self.forks.is_full() {
            self.forks.clear();
            return;
        }
        self.forks.push(Some(fork));
        self.follow(&fork.left);
    }

    fn pop(&mut self) -> Option<&'a Fork<T>>
        ensures some { IfSome result
            (λ fork. self.old ≡ option_to_list fork.now.row ++ (fork.now.right ++ self.new)) }
        ensures row { IfSome result (λ fork. IsSome fork.now.row) }
        ensures none { IfNone result ((self.old ≡ []) × (self.new ≡ [])) }
    {
        self.forks.pop()?
    }

    // The row in front, behind which the path goes on.
    fn step(&mut self) -> Option<&'a T>
        ensures row { option_copied result ≡ slice_get self.old 0 }
        ensures rest { self.new ≢ [] → self.new ≡ drop 1 self.old }
        ensures none { IfNone result (self.new ≡ []) }
    {
        let fork = self.pop()?;
        self.follow(&fork.right);
        fork.row.as_ref()
    }
}

// The row at an index: the next one on the path, or found by the index where the path says nothing.
fn row_at<'a, T>(tree: &'a Tree<T>, at: usize, path: &mut Path<'a, T>) -> Option<&'a T>
    requires { IsAhead path.old at tree.now }
    ensures row { option_copied result ≡ slice_get tree.now at }
    ensures rest { IsAhead path.new (at + 1) tree.now }
    ensures none { IfNone result (path.new ≡ []) }
{
    match path.step() {
        None => tree.get(at),
        found => found,
    }
}

impl<T> Tree<T> {
    /// The rows from the first to the last, each in about the same number of steps. It takes no memory.
    pub fn iter(&self) -> Iter<'_, T>
        ensures { result ≡ self.now }
    {
        let mut path = Path::new();
        path.follow(self);
        Iter {
            tree: self,
            at: 0,
            path,
        }
    }
}

impl<'a, T> IntoIterator for &'a Tree<T> {
    type Item = &'a T;

    type IntoIter = Iter<'a, T>;

    ghost into_iter_gives = { λ t i. i ≡ t.now };

    fn into_iter(self) -> Iter<'a, T> {
        self.iter()
    }
}

impl<'a, T> Iterator for Iter<'a, T> {
    type Item = &'a T;

    ghost next_gives = { YieldsFirstRef (λ i. i) };

    ghost remaining = { item_count (λ i. i) };

    fn next(&mut self) -> Option<&'a T> {
        let _most = self.tree.len();
        match row_at(self.tree, self.at, &mut self.path) {
            None => None,
            Some(row) => {
                self.at += 1;
                Some(row)
            }
        }
    }
}
