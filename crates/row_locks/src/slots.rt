// The index of the marks of all sessions by their slots.
ghost use Rattle.std.specs.Prelude.{◌≡◌, ◌<◌, ◌≤◌, ◌+◌, ◌/◌, ◌%◌, ℕ, Some, None, is_some, IsSome, IfSome, IfNone, OnOk, true, false, ◌==◌, ◌&&◌, if◌then◌else◌, length, slice_index_or, slice_set};
ghost use Rattle.slot_marks.specs.Marks.{has_slot};
ghost use Rattle.row_locks.specs.Changes.{SameValues, SetsValue};
ghost use Rattle.row_locks.specs.Entries.{present};
ghost use Rattle.row_locks.specs.Slots.{hold_of, room_of, cell, block_at, is_held_by, is_removed_by};

use crate::hashing::NumberHasher;
use slot_marks::Mark;
use std::alloc::{AllocError, Global};
use std::collections::HashMap;
use std::hash::BuildHasherDefault;

/// How many neighbouring ids stand together.
const BLOCK: u64 = 16;

/// What the index tells of a mark.
#[derive(Clone, Copy, Debug, PartialEq, Eq)]
pub(crate) struct Hold {
    /// The session that has the mark.
    pub(crate) session: u32,
    /// The mark's place among those of the session.
    pub(crate) at: u32,
    /// Whether the mark removed its slot.
    pub(crate) removed: bool,
}

/// The index of the marks of all sessions by their slots. The slots of one number of sixteen neighbouring ids stand
/// together, since sessions mostly touch messages in the order of their ids.
#[derive(Drop)]
pub(crate) struct SlotIndex {
    blocks: HashMap<(u64, u32), [Option<Hold>; 16], BuildHasherDefault<NumberHasher>>,
}

impl SlotIndex {
    /// No marks, and no room. It takes no memory.
    pub(crate) fn new(alloc: Global) -> SlotIndex
        ensures { (id slot : ℕ) → hold_of result id slot ≡ None }
    {
        SlotIndex {
            blocks: HashMap::with_hasher(alloc, BuildHasherDefault::new()),
        }
    }

    /// Makes room for so many marks.
    pub(crate) fn reserve(&mut self, marks: usize) -> Result<(), AllocError>
        ensures holds { SameValues (hold_of self.old) (hold_of self.new) }
        ensures ok { OnOk result (marks ≤ room_of self.new) }
        ensures room { room_of self.old ≤ room_of self.new }
    {
        self.blocks.reserve(marks)
    }

    /// The mark on a slot.
    pub(crate) fn find(&self, id: u64, slot: u32) -> Option<Hold>
        ensures { result ≡ hold_of self.now id slot }
    {
        match self.blocks.get(&(id / BLOCK, slot)) {
            None => None,
            Some(holds) => holds[(id % BLOCK) as usize],
        }
    }

    /// The mark on a slot, where the session has it.
    pub(crate) fn find_own(&self, session: u32, id: u64, slot: u32) -> Option<Hold>
        ensures some { IfSome result (λ hold. hold_of self.now id slot ≡ Some hold) }
        ensures own { IfSome result (λ hold. hold.session ≡ session) }
        ensures none { IfNone result (is_held_by session (hold_of self.now id slot) ≡ false) }
    {
        let hold = self.find(id, slot)?;
        if hold.session == session {
            Some(hold)
        } else {
            None
        }
    }

    /// Whether the session has a mark on a slot.
    pub(crate) fn is_held_by(&self, session: u32, id: u64, slot: u32) -> bool
        ensures { result ≡ is_held_by session (hold_of self.now id slot) }
    {
        match self.find(id, slot) {
            None => false,
            Some(hold) => hold.session == session,
        }
    }

    /// Whether the session has a mark on a slot by which it removed the slot.
    pub(crate) fn is_removed_by(&self, session: u32, id: u64, slot: u32) -> bool
        ensures { result ≡ is_removed_by session (hold_of self.now id slot) }
    {
        match self.find(id, slot) {
            None => false,
            Some(hold) => hold.session == session && hold.removed,
        }
    }

    /// Puts a mark in, where there is room.
    pub(crate) fn put(&mut self, id: u64, slot: u32, hold: Hold)
        requires { 0 < room_of self.old }
        ensures holds { SetsValue (hold_of self.old) (hold_of self.new) id slot (Some hold) }
        ensures room { room_of self.old ≤ room_of self.new + 1 }
    {
        if !self.write(id, slot, Some(hold)) {
            self.begin(id, slot);
            self.write(id, slot, Some(hold));
        }
    }

    fn begin(&mut self, id: u64, slot: u32)
        requires room { 0 < room_of self.old }
        requires absent { block_at self.old id slot ≡ None }
        ensures there { IsSome (block_at self.new id slot) }
        ensures holds { SameValues (hold_of self.old) (hold_of self.new) }
        ensures room { room_of self.old ≤ room_of self.new + 1 }
    {
        let Ok(_) = self.blocks.insert((id / BLOCK, slot), [None; 16]) else {
            unreachable!()
        };
    }

    // Writes what is told of a slot, where its block is there, and says whether it is.
    fn write(&mut self, id: u64, slot: u32, hold: Option<Hold>) -> bool
        ensures there { result ≡ is_some (block_at self.old id slot) }
        ensures holds { result ≡ true → SetsValue (hold_of self.old) (hold_of self.new) id slot hold }
        ensures absent { result ≡ false → block_at self.new id slot ≡ None }
        ensures same { result ≡ false → SameValues (hold_of self.old) (hold_of self.new) }
        ensures room { room_of self.new ≡ room_of self.old }
    {
        match self.blocks.get_mut(&(id / BLOCK, slot)) {
            None => false,
            Some(holds) => {
                set_cell(holds, (id % BLOCK) as usize, hold);
                true
            }
        }
    }

    /// Writes what the mark on a slot is now.
    pub(crate) fn change(&mut self, id: u64, slot: u32, hold: Hold)
        requires { IsSome (hold_of self.old id slot) }
        ensures holds { SetsValue (hold_of self.old) (hold_of self.new) id slot (Some hold) }
        ensures room { room_of self.new ≡ room_of self.old }
    {
        self.write(id, slot, Some(hold));
    }

    /// Takes the mark on a slot out, where there is one. It takes no memory.
    pub(crate) fn take(&mut self, id: u64, slot: u32)
        ensures holds { SetsValue (hold_of self.old) (hold_of self.new) id slot None }
        ensures room { room_of self.old ≤ room_of self.new }
    {
        if self.clear(id, slot) {
            self.end(id, slot);
        }
    }

    // Takes the mark on a slot out of its block, and says whether the block is empty then.
    fn clear(&mut self, id: u64, slot: u32) -> bool
        ensures holds { SetsValue (hold_of self.old) (hold_of self.new) id slot None }
        ensures empty { result ≡ true → (at : ℕ) → cell (block_at self.new id slot) at ≡ None }
        ensures room { room_of self.new ≡ room_of self.old }
    {
        match self.blocks.get_mut(&(id / BLOCK, slot)) {
            None => false,
            Some(holds) => clear_cell(holds, (id % BLOCK) as usize),
        }
    }

    fn end(&mut self, id: u64, slot: u32)
        requires empty { (at : ℕ) → cell (block_at self.old id slot) at ≡ None }
        ensures holds { SameValues (hold_of self.old) (hold_of self.new) }
        ensures room { room_of self.old ≤ room_of self.new }
    {
        self.blocks.remove(&(id / BLOCK, slot));
    }

    /// Takes the marks on all those slots out. It takes no memory.
    pub(crate) fn take_all(&mut self, marks: &[Mark])
        ensures holds { (i s : ℕ) → hold_of self.new i s
            ≡ (if has_slot i s marks.now then None else hold_of self.old i s) }
        ensures room { room_of self.old ≤ room_of self.new }
    {
        for mark in marks {
            self.take(mark.id, mark.slot);
        }
    }

    /// Takes the marks that are present on all those slots out. It takes no memory.
    pub(crate) fn take_present(&mut self, entries: &[Option<Mark>])
        ensures holds { (i s : ℕ) → hold_of self.new i s
            ≡ (if has_slot i s (present entries.now) then None else hold_of self.old i s) }
        ensures room { room_of self.old ≤ room_of self.new }
    {
        for entry in entries {
            if let Some(mark) = entry {
                self.take(mark.id, mark.slot);
            }
        }
    }
}

fn set_cell(holds: &mut [Option<Hold>; 16], at: usize, hold: Option<Hold>)
    requires { at < 16 }
    ensures set { holds.new ≡ slice_set holds.old at hold }
    ensures whole { length holds.old ≡ 16 }
{
    holds[at] = hold;
}

fn clear_cell(holds: &mut [Option<Hold>; 16], at: usize) -> bool
    requires { at < 16 }
    ensures set { holds.new ≡ slice_set holds.old at None }
    ensures whole { length holds.old ≡ 16 }
    ensures empty { result ≡ true → (n : ℕ) → slice_index_or holds.new n None ≡ None }
{
    set_cell(holds, at, None);
    holds.iter().all(|hold| hold.is_none())
}
