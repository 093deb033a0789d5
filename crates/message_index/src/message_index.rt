// An index of messages by their ids.
ghost use Rattle.std.specs.Prelude.{◌≡◌, ◌==◌, ◌+◌, ◌<◌, ◌≤◌, [], ◌∷◌, ◌++◌, Some, IsTrue, IfSome, OnOk, OnErr, count_by, length, nat_eq, nat_lt, position, remove, slice_get};
ghost use Rattle.std.specs.HashMap.{get, hash_map_len, spare};
ghost use Rattle.std.specs.List.{prefix_len};
ghost use Rattle.message_index.specs.Stamped.{AreStamps};
ghost use Rattle.message_index.specs.Stamps.{AreRising, TellsChanged, with_entry, without_entry};

use crate::entry::{AtStamp, Entry};
use crate::row_places::RowPlaces;
use queue_rows::MsgRow;
use row_tree::{Spare, Tree};
use std::alloc::{AllocError, Global};
use std::collections::HashMap;
use std::marker::Model;

/// Where an id stands.
#[derive(Clone, Copy)]
enum Place {
    /// In one entry, the one with that stamp.
    Alone(u64),
    /// Maybe in several.
    Several,
}

/// Where messages stand in a list, by their ids, with places for more messages. Contracts see the ids in the order of the
/// list, the stamp of each, and for how many more there is memory. An id is found, put last and taken out in about as many steps as their number has binary
/// digits.
pub struct MessageIndex {
    entries: Tree<Entry>,
    spares: RowPlaces<Entry>,
    rows: RowPlaces<MsgRow>,
    places: HashMap<u64, Place>,
    next: u64,
    room: usize,
}

impl Drop for MessageIndex {
    fn drop(self) {
        let Self {
            entries: _,
            spares: _,
            rows: _,
            places: _,
            next: _,
            room: _,
        } = self;
    }
}

impl Model for MessageIndex {
    ghost use Rattle.std.specs.Prelude.{◌+◌, ◌<◌, ◌≤◌, ◌^◌, length, nat_eq};
    ghost use Rattle.std.specs.HashMap.{get, hash_map_len, spare};
    ghost use Rattle.message_index.specs.Indexed.{Indexed};

    ghost Value = { Indexed };

    ghost use Rattle.message_index.specs.Stamps.{listed, stamps_in, AreRising, AreBelow, TellsStamps};

    ghost view = { λ i. record { ids = listed i.entries; stamps = stamps_in i.entries; room = i.room } };

    ghost use Rattle.std.below.core.specs.declared.int.usize.TheConstants.{MAX};

    ghost invariant = { λ i.
        AreRising i.entries × AreBelow i.next i.entries
        × TellsStamps (get nat_eq i.places) i.entries
        × (i.room ≤ i.spares)
        × (i.room ≤ spare i.places)
        × (length i.entries + i.room ≤ hash_map_len i.places + spare i.places)
        × (i.next + i.room < 2 ^ 64) × (length i.entries + i.room ≤ MAX) × (i.room ≤ i.rows) };
}

impl MessageIndex {
    /// No ids, and memory for none. It takes no memory.
    pub fn new(alloc: Global) -> MessageIndex
        ensures { result ≡ record { ids = []; stamps = []; room = 0 } }
    {
        MessageIndex {
            entries: Tree::new(),
            spares: RowPlaces::new(alloc),
            rows: RowPlaces::new(alloc),
            places: HashMap::new(alloc),
            next: 0,
            room: 0,
        }
    }

    /// Takes memory for so many more ids. There is none past 2^64 stamps.
    pub fn reserve(&mut self, room: usize) -> Result<(), AllocError>
        ensures ids { self.new.ids ≡ self.old.ids }
        ensures stamps { self.new.stamps ≡ self.old.stamps }
        ensures ok { OnOk result (room ≤ self.new.room) }
        ensures err { OnErr result (self.new.room ≡ self.old.room) }
    {
        if self.next.checked_add(room as u64).is_none() {
            return Err(AllocError);
        }
        let ids = self.entries.len();
        if ids.checked_add(room).is_none() {
            return Err(AllocError);
        }
        let keyless = ids.saturating_sub(self.places.len());
        self.spares.reserve(room)?;
        self.rows.reserve(room)?;
        self.places.reserve(keyless + room)?;
        self.room = room;
        Ok(())
    }

    /// For how many more there is memory.
    pub(crate) fn room(&self) -> usize
        ensures { result ≡ self.now.room }
    {
        self.room
    }

    /// Where the first of that id stands. It takes no memory.
    pub fn position(&self, id: u64) -> Option<usize>
        ensures first { result ≡ position (λ i. i == id) self.now.ids }
        ensures within { IfSome result (λ at. at < length self.now.ids) }
    {
        match self.places.get(&id) {
            None => None,
            Some(Place::Alone(stamp)) => Some(count_before(&self.entries, *stamp)),
            Some(Place::Several) => first_of(&self.entries, id),
        }
    }

    /// The stamp of the one at an index. It takes no memory.
    pub(crate) fn stamp_at(&self, at: usize) -> u64
        requires { at < length self.now.ids }
        ensures { slice_get self.now.stamps at ≡ Some result }
    {
        let Some(entry) = self.entries.get(at) else {
            unreachable!()
        };
        entry.stamp
    }

    /// Where the one with that stamp stands. It takes no memory.
    pub fn rank(&self, stamp: u64) -> Option<usize>
        ensures { result ≡ position (λ s. s == stamp) self.now.stamps }
    {
        let (at, is_there) = self.entries.seat(&AtStamp { stamp });
        if is_there { Some(at) } else { None }
    }

    /// Whether at most one stands there with that id. It may say no where that is so, and yes only where it is
    /// so.
    pub(crate) fn is_alone(&self, id: u64) -> bool
        ensures { IsTrue result → count_by (λ i. i == id) self.now.ids ≤ 1 }
    {
        match self.places.get(&id) {
            None => true,
            Some(Place::Alone(_)) => true,
            Some(Place::Several) => false,
        }
    }

    /// Puts an id last, and gives the place and the stamp for its message. It takes no memory.
    pub(crate) fn push(&mut self, id: u64) -> (Spare<MsgRow>, u64)
        requires { 0 < self.old.room }
        ensures countable { length self.old.ids < usize.MAX }
        ensures ids { self.new.ids ≡ self.old.ids ++ id ∷ [] }
        ensures stamps { self.new.stamps ≡ self.old.stamps ++ result.1 ∷ [] }
        ensures stamped { AreStamps (length self.new.ids) self.new.stamps }
        ensures room { self.old.room ≡ self.new.room + 1 }
    {
        let stamp = self.next;
        let entry = Entry { id, stamp };
        note(&mut self.places, entry);
        self.entries.push(entry, self.spares.take());
        self.next += 1;
        self.room -= 1;
        (self.rows.take(), stamp)
    }

    /// Takes the id at an index out. It takes no memory.
    pub(crate) fn remove(&mut self, at: usize)
        requires { at < length self.old.ids }
        ensures ids { self.new.ids ≡ remove self.old.ids at }
        ensures stamps { self.new.stamps ≡ remove self.old.stamps at }
        ensures stamped { AreStamps (length self.new.ids) self.new.stamps }
        ensures room { self.new.room ≡ self.old.room }
    {
        let (entry, spare) = self.entries.remove(at);
        self.spares.keep(spare);
        forget(&mut self.places, entry.id);
    }

    /// Keeps the place of a message that is gone, for one to come. It takes no memory.
    pub(crate) fn keep(&mut self, place: Spare<MsgRow>)
        ensures { self.new ≡ self.old }
    {
        self.rows.keep(place);
    }
}

// How many of the first entries have lower stamps.
fn count_before(entries: &Tree<Entry>, stamp: u64) -> usize
    requires { AreRising entries.now }
    ensures { result ≡ prefix_len (λ e. nat_lt e.stamp stamp) entries.now }
{
    entries.rank(&AtStamp { stamp })
}

fn first_of(entries: &Tree<Entry>, id: u64) -> Option<usize>
    ensures { result ≡ position (λ e. e.id == id) entries.now }
{
    let _most = entries.len();
    entries.iter().position(|entry| entry.id == id)
}

// Keeps of an id that it has one more entry.
fn note(places: &mut HashMap<u64, Place>, entry: Entry)
    requires { 0 < spare places.old }
    ensures places { TellsChanged entry.id (λ told. Some (with_entry entry.stamp told))
        (get nat_eq places.old) (get nat_eq places.new) }
    ensures room { spare places.old ≤ spare places.new + 1 }
    ensures all { hash_map_len places.old + spare places.old ≤ hash_map_len places.new + spare places.new }
{
    if let Some(place) = places.get_mut(&entry.id) {
        *place = Place::Several;
        return;
    }
    let Ok(_) = places.insert(entry.id, Place::Alone(entry.stamp)) else {
        unreachable!()
    };
}

// Keeps of an id that it has one entry less.
fn forget(places: &mut HashMap<u64, Place>, id: u64)
    ensures places { TellsChanged id without_entry (get nat_eq places.old) (get nat_eq places.new) }
    ensures room { spare places.old ≤ spare places.new }
    ensures all { hash_map_len places.old + spare places.old
        ≤ hash_map_len places.new + spare places.new + 1 }
{
    if let Some(Place::Alone(_)) = places.get(&id) {
        places.remove(&id);
    }
}
