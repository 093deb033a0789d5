// The marks of one session.
ghost use Rattle.std.specs.Prelude.{◌≡◌, ◌<◌, [], Some, None, OnOk, OnErr, length, slice_index_or, option_copied, false};
ghost use Rattle.std.specs.Option.{option_map, option_map_or};
ghost use Rattle.row_locks.specs.Entries.{present, entry_at, kept_entry, is_entry_in, no_entries, with_mark, with_entry, with_rank, with_room, IsAligned};
ghost use Rattle.row_locks.specs.Groups.{key_of, group_in, group_meant, have_names};

use crate::entries::{has_entry_names, is_entry_in_group, keep_at, moved, put_last};
use crate::groups::{GroupKey, GroupRef, mark_key};
use crate::marks::Marks;
use payload_records::Name;
use slot_marks::Mark;
use std::alloc::{AllocError, Global};
use std::marker::Model;
use std::mem;

/// The memory of so many marks is kept when they are freed.
const FEW: usize = 16;

/// The marks of one session in the order taken, with room for more. A mark stays at its place until all are freed, and its
/// rank in the index by group, where that has it, stands at the same place.
pub(crate) struct SessionTable {
    entries: Vec<Option<Mark>>,
    ranks: Vec<Option<usize>>,
    room: Vec<Mark>,
    spare: usize,
}

impl Drop for SessionTable {
    fn drop(self) {
        let Self {
            entries: _,
            ranks: _,
            room: _,
            spare: _,
        } = self;
    }
}

impl Model for SessionTable {
    ghost use Rattle.std.specs.Prelude.{◌≡◌, ◌+◌, ◌<◌, ◌≤◌, ◌^◌, [], vec_len, vec_capacity};
    ghost use Rattle.row_locks.specs.Entries.{SessionEntries};

    ghost Value = { SessionEntries };

    ghost view = { λ t. record { entries = t.entries.items; ranks = t.ranks.items; spare = t.spare } };

    ghost invariant = { λ t. (vec_len t.entries + t.spare ≤ vec_capacity t.entries)
        × (vec_len t.ranks ≡ vec_len t.entries)
        × (vec_len t.entries + t.spare ≤ vec_capacity t.ranks)
        × (t.room.items ≡ [])
        × (vec_len t.entries + t.spare ≤ vec_capacity t.room)
        × (vec_len t.entries + t.spare < 2 ^ 32) };
}

impl SessionTable {
    /// A session without marks. It takes no memory.
    pub(crate) fn new(alloc: Global) -> SessionTable
        ensures { result ≡ no_entries }
    {
        SessionTable {
            entries: Vec::new(alloc),
            ranks: Vec::new(alloc),
            room: Vec::new(alloc),
            spare: 0,
        }
    }

    /// Makes room for one more mark. There is none past 2^32 places.
    pub(crate) fn reserve(&mut self) -> Result<(), AllocError>
        ensures ok { OnOk result (self.new ≡ with_room self.old) }
        ensures err { OnErr result (self.new ≡ self.old) }
    {
        let more = self.spare + 1;
        if more > u32::MAX as usize - self.entries.len() {
            return Err(AllocError);
        }
        self.entries.reserve(more)?;
        self.ranks.reserve(more)?;
        self.room.reserve(self.entries.len() + more)?;
        self.spare = more;
        Ok(())
    }

    /// Puts a mark last, into the room for it, with its rank. It takes no memory.
    pub(crate) fn put(&mut self, mark: Mark, rank: Option<usize>)
        requires { 0 < self.old.spare }
        ensures put { self.new ≡ with_mark self.old mark rank }
        ensures whole { IsAligned self.old }
    {
        put_last(&mut self.entries, Some(mark));
        put_last(&mut self.ranks, rank);
        self.spare -= 1;
    }

    pub(crate) fn spare(&self) -> usize
        ensures { result ≡ self.now.spare }
    {
        self.spare
    }

    /// The marks in the order taken. It takes no memory.
    pub(crate) fn marks(&self) -> Marks<'_>
        ensures { result ≡ present self.now.entries }
    {
        Marks::of(self.entries.as_slice())
    }

    /// How many places there are.
    pub(crate) fn len(&self) -> u32
        ensures { result ≡ length self.now.entries }
    {
        self.entries.len() as u32
    }

    /// The key of the group of the mark at a place.
    pub(crate) fn key_at(&self, at: usize) -> Option<GroupKey>
        ensures { result ≡ option_map key_of (group_in (entry_at self.now.entries at)) }
    {
        match self.entries.get(at) {
            Some(Some(mark)) => mark_key(mark),
            _ => None,
        }
    }

    /// Whether the mark at a place is in the group.
    pub(crate) fn is_in_group_at(&self, at: usize, group: GroupRef<'_>) -> bool
        ensures { result ≡ is_entry_in (group_meant group.entry) (entry_at self.now.entries at) }
    {
        is_entry_in_group(self.entries.as_slice(), at, group)
    }

    /// Whether the mark at a place is in a group with those names.
    pub(crate) fn has_names_at(&self, at: usize, queue: &Name, consumer: Option<&Name>) -> bool
        ensures { let group = group_in (entry_at self.now.entries at) in
            result ≡ have_names queue.now (option_copied consumer.entry) group }
    {
        has_entry_names(self.entries.as_slice(), at, queue, consumer)
    }

    /// Takes the rank of the mark at a place away.
    pub(crate) fn take_rank(&mut self, at: usize) -> Option<usize>
        requires { at < length self.old.entries }
        ensures rank { result ≡ slice_index_or self.old.ranks at None }
        ensures rest { self.new ≡ with_rank self.old at None }
        ensures whole { IsAligned self.old }
    {
        mem::replace(&mut self.ranks[at], None)
    }

    /// Gives the mark at a place another rank.
    pub(crate) fn set_rank(&mut self, at: usize, rank: usize)
        requires { at < length self.old.entries }
        ensures rest { self.new ≡ with_rank self.old at (Some rank) }
        ensures whole { IsAligned self.old }
    {
        self.ranks[at] = Some(rank);
    }

    /// Makes the mark at a place removed where the new one is.
    pub(crate) fn keep_at(&mut self, at: usize, new: &Mark)
        requires { at < length self.old.entries }
        ensures { self.new ≡ with_entry self.old at (kept_entry new.now self.old.entries at) }
    {
        keep_at(&mut self.entries, at, new);
    }

    /// Drops the mark at a place. It takes no memory.
    pub(crate) fn release_at(&mut self, at: usize)
        requires { at < length self.old.entries }
        ensures { self.new ≡ with_entry self.old at None }
    {
        self.entries[at] = None;
    }

    /// The marks by their places.
    pub(crate) fn entries(&self) -> &[Option<Mark>]
        ensures { result.now ≡ self.now.entries }
    {
        self.entries.as_slice()
    }

    /// Drops all marks. It takes no memory. What few marks took of it is kept for the next ones.
    pub(crate) fn empty(&mut self)
        ensures { self.new ≡ no_entries }
    {
        if self.entries.capacity() > FEW {
            *self = SessionTable::new(*self.entries.allocator());
            return;
        }
        self.entries.clear();
        self.ranks.clear();
        self.spare = 0;
    }

    /// Takes all marks out, in their order. It takes no memory.
    pub(crate) fn release_all(&mut self) -> Vec<Mark>
        ensures all { result.items ≡ present self.old.entries }
        ensures none { self.new ≡ no_entries }
    {
        let alloc = *self.entries.allocator();
        let entries = mem::replace(&mut self.entries, Vec::new(alloc));
        let room = mem::replace(&mut self.room, Vec::new(alloc));
        self.ranks = Vec::new(alloc);
        self.spare = 0;
        moved(entries, room)
    }
}
