// The index of the marks of all sessions by their groups.
ghost use Rattle.std.specs.Prelude.{◌≡◌, ◌<◌, ◌≤◌, ◌+◌, ◌-◌, ◌==◌, ◌||◌, ℕ, Option, Some, None, OnOk, if◌then◌else◌, option_copied, false};
ghost use Rattle.std.specs.Hash.FoldHasher.{finish};
ghost use Rattle.std.specs.Option.{option_map, option_map_or};
ghost use Rattle.row_locks.specs.Changes.{SameValues};
ghost use Rattle.row_locks.specs.Groups.{names_hashed, group_meant, key_of, cell_of, place_of, count_of, mixed_of, taking_over, hold_in, key_hold, held_count, group_room, PutsPlace, TakesRank, CountsOneMore, CountsOneLess, Mixes, KeepsMixed, CountsIn, CountsOut, IsDense};

use crate::classes::{ClassIndex, FirstMark, Place};
use crate::holds::GroupHolds;
use payload_records::Name;
use slot_marks::{Group, Mark};
use std::alloc::{AllocError, Global};
use std::hash::{FoldHasher, Hasher};

/// What the index knows of a group. Another group may have the same key.
#[derive(Clone, Copy, Debug, PartialEq, Eq)]
pub(crate) struct GroupKey {
    /// The group's number.
    pub(crate) number: u64,
    /// The hash of its names, which is its class.
    pub(crate) names: u64,
}

/// A group as it is asked for.
#[derive(Clone, Copy)]
pub(crate) struct GroupRef<'a> {
    /// The queue in which the messages stand.
    pub(crate) queue: &'a Name,
    /// The number of the commit's group.
    pub(crate) number: u64,
    /// The consumer, where the queue has consumers.
    pub(crate) consumer: Option<&'a Name>,
}

/// The index of the marks of all sessions by their groups. Where the marks of a class have the same names, a group of the
/// class is held by the session that its key tells.
pub(crate) struct GroupIndex {
    classes: ClassIndex,
    holds: GroupHolds,
}

impl Drop for GroupIndex {
    fn drop(self) {
        let Self {
            classes: _,
            holds: _,
        } = self;
    }
}

/// The key of a group.
pub(crate) fn group_key(group: GroupRef<'_>) -> GroupKey
    ensures { result ≡ key_of (group_meant group.entry) }
{
    GroupKey {
        number: group.number,
        names: hash_of_names(group.queue, group.consumer),
    }
}

/// The key of a mark's group.
pub(crate) fn mark_key(mark: &Mark) -> Option<GroupKey>
    ensures { result ≡ option_map key_of mark.now.group }
{
    match &mark.group {
        None => None,
        Some(group) => Some(key_of_group(group.get())),
    }
}

/// The key of a group as a mark has it.
pub(crate) fn key_of_group(group: &Group) -> GroupKey
    ensures { result ≡ key_of group.now }
{
    group_key(GroupRef {
        queue: &group.queue,
        number: group.number,
        consumer: group.consumer.as_ref(),
    })
}

fn hash_of_names(queue: &Name, consumer: Option<&Name>) -> u64
    ensures { result ≡ finish (names_hashed queue.now (option_copied consumer.entry)) }
{
    let mut hasher = FoldHasher::default();
    hasher.write(queue.as_str().as_bytes());
    match consumer {
        None => hasher.finish(),
        Some(consumer) => {
            hasher.write(consumer.as_str().as_bytes());
            hasher.finish()
        }
    }
}

impl GroupIndex {
    /// No marks, and no room. It takes no memory.
    pub(crate) fn new(alloc: Global) -> GroupIndex
        ensures places { (names rank : ℕ) → place_of result.classes names rank ≡ None }
        ensures counts { (names : ℕ) → count_of result.classes names ≡ 0 }
        ensures holds { (number names : ℕ) → hold_in result.holds number names ≡ None }
    {
        GroupIndex {
            classes: ClassIndex::new(alloc),
            holds: GroupHolds::new(alloc),
        }
    }

    /// Makes room for so many marks.
    pub(crate) fn reserve(&mut self, marks: usize) -> Result<(), AllocError>
        ensures cells { SameValues (cell_of self.old.classes) (cell_of self.new.classes) }
        ensures holds { SameValues (hold_in self.old.holds) (hold_in self.new.holds) }
        ensures ok { OnOk result (marks ≤ group_room self.new) }
        ensures room { group_room self.old ≤ group_room self.new }
    {
        self.classes.reserve(marks)?;
        self.holds.reserve(marks)
    }

    /// How many marks there are, of which no class has more.
    pub(crate) fn len(&self) -> usize
        requires { IsDense (place_of self.now.classes) (count_of self.now.classes) }
        ensures { (names : ℕ) → count_of self.now.classes names ≤ result }
    {
        self.classes.len()
    }

    /// The first mark of a class, or None where the class has no marks.
    pub(crate) fn first_mark(&self, names: u64) -> Option<FirstMark>
        ensures place { option_map (λ it. it.place) result ≡ place_of self.now.classes names 0 }
        ensures mixed { option_map_or (λ it. it.mixed) result false ≡ mixed_of self.now.classes names }
    {
        self.classes.first_mark(names)
    }

    /// Where the mark with a rank stands, or None where the class has no such rank.
    pub(crate) fn find(&self, names: u64, rank: usize) -> Option<Place>
        ensures { result ≡ place_of self.now.classes names rank }
    {
        self.classes.find(names, rank)
    }

    /// The session that took the last mark with a key, or None where there is no such mark.
    pub(crate) fn session_of(&self, key: GroupKey) -> Option<u32>
        ensures { result ≡ option_map (λ it. it.session) (key_hold self.now.holds key) }
    {
        self.holds.session_of(key)
    }

    /// Puts a mark in that stands at a place, and gives its rank. It tells whether the names differ from those of the first
    /// mark of the class.
    pub(crate) fn put(&mut self, key: GroupKey, place: Place, differs: bool) -> usize
        requires room { 0 < group_room self.old }
        requires dense { IsDense (place_of self.old.classes) (count_of self.old.classes) }
        requires counts { held_count (key_hold self.old.holds key) ≤ count_of self.old.classes key.names }
        ensures rank { result ≡ count_of self.old.classes key.names }
        ensures places { PutsPlace self.old.classes self.new.classes key.names place }
        ensures counts { CountsOneMore self.old.classes self.new.classes key.names }
        ensures mixed { Mixes self.old.classes self.new.classes key.names differs }
        ensures holds { CountsIn self.old.holds self.new.holds key place.session }
        ensures room { group_room self.old ≤ group_room self.new + 1 }
    {
        // no more marks have the key than there are
        let marks = self.classes.len();
        prove!(marks < usize::MAX);
        self.holds.count_in(key, place.session);
        self.classes.put(key.names, place, differs)
    }

    /// Takes the mark with a rank out. The last mark of its class takes its rank over, where it is another one: this tells
    /// where it stands. It takes no memory.
    pub(crate) fn take(&mut self, key: GroupKey, rank: usize) -> Option<Place>
        requires there { rank < count_of self.old.classes key.names }
        requires dense { IsDense (place_of self.old.classes) (count_of self.old.classes) }
        ensures moved { result ≡ taking_over self.old.classes key.names rank }
        ensures places { TakesRank self.old.classes self.new.classes key.names rank }
        ensures counts { CountsOneLess self.old.classes self.new.classes key.names }
        ensures mixed { KeepsMixed self.old.classes self.new.classes }
        ensures holds { CountsOut self.old.holds self.new.holds key }
        ensures room { group_room self.old ≤ group_room self.new }
    {
        self.holds.count_out(key);
        self.classes.take(key.names, rank)
    }
}
