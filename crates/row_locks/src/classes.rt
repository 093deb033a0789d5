// The index of the marks of all sessions by the hash of the names of their groups.
ghost use Rattle.std.specs.Prelude.{◌≡◌, ◌<◌, ◌≤◌, ◌+◌, ◌-◌, ◌==◌, ◌||◌, ℕ, Some, None, IsSome, OnOk, if◌then◌else◌, false};
ghost use Rattle.std.specs.Option.{option_map, option_map_or};
ghost use Rattle.row_locks.specs.Changes.{SameValues, SetsValue, SetsAt};
ghost use Rattle.row_locks.specs.Groups.{cell_of, place_of, count_of, mixed_of, last_rank, taking_over, class_room, PutsPlace, TakesRank, CountsOneMore, CountsOneLess, Mixes, KeepsMixed, IsDense};

use crate::hashing::NumberHasher;
use std::alloc::{AllocError, Global};
use std::collections::HashMap;
use std::hash::BuildHasherDefault;

/// Where a mark stands.
#[derive(Clone, Copy, Debug, PartialEq, Eq)]
pub(crate) struct Place {
    /// The session that has the mark.
    pub(crate) session: u32,
    /// The mark's place among those of the session.
    pub(crate) at: u32,
}

/// What the index has at a rank of a class.
#[derive(Clone, Copy, Debug, PartialEq, Eq)]
pub(crate) struct ClassCell {
    /// Where the mark with the rank stands.
    pub(crate) place: Place,
    /// At rank 0, how many marks are of the class.
    pub(crate) count: usize,
    /// At rank 0, whether marks of the class had different names.
    pub(crate) mixed: bool,
}

/// The first mark of a class.
#[derive(Clone, Copy, Debug, PartialEq, Eq)]
pub(crate) struct FirstMark {
    /// Where it stands.
    pub(crate) place: Place,
    /// Whether other marks of its class may have other names.
    pub(crate) mixed: bool,
}

/// The index of the marks of all sessions by their classes: a class is of the marks whose groups' names have one hash, and
/// its marks have the ranks from 0 on. No key is a copy of names, so that none takes memory of its own: who looks for names
/// compares those of a mark.
#[derive(Drop)]
pub(crate) struct ClassIndex {
    cells: HashMap<(u64, usize), ClassCell, BuildHasherDefault<NumberHasher>>,
}

impl ClassIndex {
    /// No marks, and no room. It takes no memory.
    pub(crate) fn new(alloc: Global) -> ClassIndex
        ensures places { (names rank : ℕ) → place_of result names rank ≡ None }
        ensures counts { (names : ℕ) → count_of result names ≡ 0 }
    {
        ClassIndex {
            cells: HashMap::with_hasher(alloc, BuildHasherDefault::new()),
        }
    }

    /// Makes room for so many marks.
    pub(crate) fn reserve(&mut self, marks: usize) -> Result<(), AllocError>
        ensures cells { SameValues (cell_of self.old) (cell_of self.new) }
        ensures ok { OnOk result (marks ≤ class_room self.new) }
        ensures room { class_room self.old ≤ class_room self.new }
    {
        self.cells.reserve(marks)
    }

    /// How many marks there are, of which no class has more.
    pub(crate) fn len(&self) -> usize
        requires { IsDense (place_of self.now) (count_of self.now) }
        ensures counts { (names : ℕ) → count_of self.now names ≤ result }
        ensures fits { result < usize.MAX }
    {
        self.cells.len()
    }

    /// The first mark of a class, or None where the class has no marks.
    pub(crate) fn first_mark(&self, names: u64) -> Option<FirstMark>
        ensures place { option_map (λ it. it.place) result ≡ place_of self.now names 0 }
        ensures mixed { option_map_or (λ it. it.mixed) result false ≡ mixed_of self.now names }
    {
        match self.cells.get(&(names, 0)) {
            None => None,
            Some(cell) => Some(FirstMark {
                place: cell.place,
                mixed: cell.mixed,
            }),
        }
    }

    /// Where the mark with a rank stands, or None where the class has no such rank.
    pub(crate) fn find(&self, names: u64, rank: usize) -> Option<Place>
        ensures { result ≡ place_of self.now names rank }
    {
        match self.cells.get(&(names, rank)) {
            None => None,
            Some(cell) => Some(cell.place),
        }
    }

    /// Puts a mark in that stands at a place, and gives its rank. It tells whether the names differ from those of the first
    /// mark of the class.
    pub(crate) fn put(&mut self, names: u64, place: Place, differs: bool) -> usize
        requires room { 0 < class_room self.old }
        requires dense { IsDense (place_of self.old) (count_of self.old) }
        ensures rank { result ≡ count_of self.old names }
        ensures places { PutsPlace self.old self.new names place }
        ensures counts { CountsOneMore self.old self.new names }
        ensures mixed { Mixes self.old self.new names differs }
        ensures room { class_room self.old ≤ class_room self.new + 1 }
    {
        // a class has no more marks than there are
        let marks = self.len();
        let rank = self.count(names);
        prove!(rank <= marks);
        let cell = ClassCell {
            place,
            count: 1,
            mixed: differs,
        };
        self.insert(names, rank, cell);
        if rank > 0 {
            self.set_count(names, rank + 1, differs);
        }
        rank
    }

    /// Takes the mark with a rank out. The last mark of the class takes its rank over, where it is another one: this tells
    /// where it stands. It takes no memory.
    pub(crate) fn take(&mut self, names: u64, rank: usize) -> Option<Place>
        requires there { rank < count_of self.old names }
        requires dense { IsDense (place_of self.old) (count_of self.old) }
        ensures moved { result ≡ taking_over self.old names rank }
        ensures places { TakesRank self.old self.new names rank }
        ensures counts { CountsOneLess self.old self.new names }
        ensures mixed { KeepsMixed self.old self.new }
        ensures room { class_room self.old ≤ class_room self.new }
    {
        let last = self.count(names) - 1;
        let moved = self.remove(names, last)?;
        if last > 0 {
            self.set_count(names, last, false);
        }
        if rank == last {
            return None;
        }
        self.set_place(names, rank, moved);
        Some(moved)
    }

    fn count(&self, names: u64) -> usize
        ensures { result ≡ count_of self.now names }
    {
        match self.cells.get(&(names, 0)) {
            None => 0,
            Some(cell) => cell.count,
        }
    }

    fn insert(&mut self, names: u64, rank: usize, cell: ClassCell)
        requires { 0 < class_room self.old }
        ensures cells { SetsValue (cell_of self.old) (cell_of self.new) names rank (Some cell) }
        ensures room { class_room self.old ≤ class_room self.new + 1 }
    {
        let Ok(_) = self.cells.insert((names, rank), cell) else {
            unreachable!()
        };
    }

    fn remove(&mut self, names: u64, rank: usize) -> Option<Place>
        ensures place { result ≡ place_of self.old names rank }
        ensures cells { SetsValue (cell_of self.old) (cell_of self.new) names rank None }
        ensures room { class_room self.old ≤ class_room self.new }
    {
        match self.cells.remove(&(names, rank)) {
            None => None,
            Some(cell) => Some(cell.place),
        }
    }

    fn set_count(&mut self, names: u64, count: usize, differs: bool)
        requires { IsSome (cell_of self.old names 0) }
        ensures places { SameValues (place_of self.old) (place_of self.new) }
        ensures counts { SetsAt (count_of self.old) (count_of self.new) names count }
        ensures mixed { Mixes self.old self.new names differs }
        ensures room { class_room self.new ≡ class_room self.old }
    {
        if let Some(cell) = self.cells.get_mut(&(names, 0)) {
            cell.count = count;
            cell.mixed |= differs;
        }
    }

    fn set_place(&mut self, names: u64, rank: usize, place: Place)
        requires { IsSome (cell_of self.old names rank) }
        ensures places { SetsValue (place_of self.old) (place_of self.new) names rank (Some place) }
        ensures counts { (k : ℕ) → count_of self.new k ≡ count_of self.old k }
        ensures mixed { (k : ℕ) → mixed_of self.new k ≡ mixed_of self.old k }
        ensures room { class_room self.new ≡ class_room self.old }
    {
        if let Some(cell) = self.cells.get_mut(&(names, rank)) {
            cell.place = place;
        }
    }
}
