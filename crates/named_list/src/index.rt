// An index of the names in a list.
ghost use Rattle.std.specs.Prelude.{◌≡◌, ◌<◌, ◌≤◌, ◌+◌, ◌++◌, ◌∷◌, [], IsTrue, IfSome, IfNone, length, nat_lt, remove, slice_get};
ghost use Rattle.std.specs.List.{All, prefix_len};
ghost use Rattle.named_list.specs.Stamps.{AreRising, EditsStamps, IsNamed, stamps_in, with_stamp, without_group, without_stamp};
ghost use Rattle.named_list.specs.Places.{places_of};

use crate::entry::{AtStamp, Entry, Stamp};
use crate::group::{AtName, Group};
use crate::room::NameRoom;
use payload_records::{Copied, Name};
use row_tree::{Ordered, Spare, Tree};
use std::marker::Model;

/// Where names stand in a list, which contracts see as the names in the order of the list. A name is found, put last and taken
/// out in about as many steps as their number has binary digits.
#[derive(Drop)]
pub(crate) struct NameIndex {
    entries: Tree<Entry>,
    groups: Ordered<Group>,
    next: u64,
}

impl Model for NameIndex {
    ghost use Rattle.std.specs.Prelude.{List as Sequence, ℕ};
    ghost use Rattle.named_list.specs.Stamps.{AreBelow, AreRising, TellsStamps, names_in};

    ghost Value = { Sequence (Sequence ℕ) };

    ghost view = { λ i. names_in i.entries };

    ghost invariant = { λ i.
        AreRising i.entries × AreBelow i.next i.entries × TellsStamps i.groups i.entries };
}

impl NameIndex {
    /// No names. It takes no memory.
    pub(crate) fn new() -> NameIndex
        ensures { result ≡ [] }
    {
        NameIndex {
            entries: Tree::new(),
            groups: Ordered::new(),
            next: 0,
        }
    }

    /// Where the name stands for the time of that number, which counts from 0. It takes no memory.
    pub(crate) fn nth(&self, name: &Name, number: usize) -> Option<usize>
        ensures { result ≡ slice_get (places_of name.now self.now) number }
    {
        let group = self.groups.find_at(&AtName { name })?;
        let stamp = group.stamps.get(number)?;
        Some(count_before(&self.entries, stamp.number))
    }

    /// How often the name stands there. It takes no memory.
    pub(crate) fn count(&self, name: &Name) -> usize
        ensures { result ≡ length (places_of name.now self.now) }
    {
        match self.groups.find_at(&AtName { name }) {
            Some(group) => group.stamps.len(),
            None => 0,
        }
    }

    /// The index with one more name, which is last, or None where a count is full. It takes no memory.
    pub(crate) fn pushed(self, name: &Name, room: NameRoom) -> Option<NameIndex>
        ensures { IfSome result (λ index. index ≡ self ++ name.now ∷ []) }
    {
        let mut index = self;
        let Ok(own) = name.copied() else { return None };
        let Ok(key) = name.copied() else { return None };
        if index.next == u64::MAX || index.entries.len() == usize::MAX {
            return None;
        }
        let stamp = index.next;
        if !note(&mut index.groups, key, stamp, room.stamp, room.group) {
            return None;
        }
        index.entries.push(Entry { name: own, stamp }, room.entry);
        index.next = stamp + 1;
        Some(index)
    }

    /// Takes the name at an index out. It takes no memory.
    pub(crate) fn remove(&mut self, at: usize)
        requires { at < length self.old }
        ensures { self.new ≡ remove self.old at }
    {
        let (entry, _spare) = self.entries.remove(at);
        forget(&mut self.groups, &entry.name, entry.stamp);
    }
}

// How many of the first entries have lower stamps.
fn count_before(entries: &Tree<Entry>, stamp: u64) -> usize
    requires { AreRising entries.now }
    ensures { result ≡ prefix_len (λ e. nat_lt e.stamp stamp) entries.now }
{
    entries.rank(&AtStamp { number: stamp })
}

// The group of a name, taken out, or one without stamps.
fn take_group(groups: &mut Ordered<Group>, name: Name, spare: Spare<Group>) -> (Group, Spare<Group>)
    ensures name { IsNamed name result.0 }
    ensures stamps { result.0.stamps ≡ stamps_in name groups.old }
    ensures rest { groups.new ≡ without_group name groups.old }
{
    match take_named(groups, &name) {
        Some(taken) => taken,
        None => (
            Group {
                name,
                stamps: Ordered::new(),
            },
            spare,
        ),
    }
}

// The group of a name, taken out, where it has one.
fn take_named(groups: &mut Ordered<Group>, name: &Name) -> Option<(Group, Spare<Group>)>
    ensures name { IfSome result (λ taken. IsNamed name.now taken.0) }
    ensures stamps { IfSome result (λ taken. taken.0.stamps ≡ stamps_in name.now groups.old) }
    ensures none { IfNone result (stamps_in name.now groups.old ≡ []) }
    ensures rest { groups.new ≡ without_group name.now groups.old }
    ensures less { IfSome result (λ _. length groups.new + 1 ≤ length groups.old) }
{
    groups.take_at(&AtName { name })
}

// Keeps of a name that it has one more stamp, which is above all that it has. Where a count is full, nothing is said of what is
// kept.
fn note(
    groups: &mut Ordered<Group>,
    name: Name,
    stamp: u64,
    place: Spare<Stamp>,
    spare: Spare<Group>,
) -> bool
    requires { All (λ s. s.number < stamp) (stamps_in name groups.old) }
    ensures { IsTrue result → EditsStamps name (with_stamp stamp) groups.old groups.new }
{
    let (mut group, spare) = take_group(groups, name, spare);
    if group.stamps.len() == usize::MAX || groups.len() == usize::MAX {
        return false;
    }
    group.stamps.put(Stamp { number: stamp }, place);
    groups.put(group, spare);
    true
}

// Keeps of a name that it has that stamp no more.
fn forget(groups: &mut Ordered<Group>, name: &Name, stamp: u64)
    ensures { EditsStamps name.now (without_stamp stamp) groups.old groups.new }
{
    let _most = groups.len();
    let Some((mut group, spare)) = take_named(groups, name) else {
        return;
    };
    let _taken = group.stamps.take_at(&AtStamp { number: stamp });
    if group.stamps.len() > 0 {
        groups.put(group, spare);
    }
}
