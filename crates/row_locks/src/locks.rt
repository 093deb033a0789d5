// The marks of all sessions.
ghost use Rattle.std.specs.Prelude.{◌≡◌, ◌≢◌, ◌<◌, ◌≤◌, ◌+◌, ◌-◌, ◌^◌, ◌⊎◌, ℕ, List as Sequence, [], ◌∷◌, ◌++◌, map, length, slice_set, slice_index_or, false, IsTrue, IfSome, IfNone, IfErr, Some, None, Ok, Err, OnOk, OnErr, option_copied};
ghost use Rattle.std.specs.Option.{option_map};
ghost use Rattle.slot_marks.specs.Marks.{marks_of, spare_of, no_marks, has_slot, has_removed, kept_beside, taken, released, IsHolder, IsFreeSlot, IsFreeGroup, HasSlot, HasGroup, IsOtherHolder, IsFreeFor, NoOtherHasSlot, NoOtherHasGroup, SameMarks, ChangesOnly, AreHeldOnce};
ghost use Rattle.row_locks.specs.Groups.{group_asked, group_meant};
ghost use Rattle.row_locks.specs.declared.locks.LockFault.TheVariants.{Held, Memory};

use crate::classes::Place;
use crate::groups::{GroupIndex, GroupRef};
use crate::marks::Marks;
use crate::session_table::SessionTable;
use crate::slots::SlotIndex;
use crate::tables::{
    find_holder, free_all_at, keep_at, leave_group, leave_groups, prepare, put_at, release_all_at,
    release_at, reserve_at, spare_at,
};
use payload_records::{Boxed, List, Name};
use slot_marks::{Group, Mark};
use std::alloc::{AllocError, Global};
use std::marker::Model;

/// The marks of all sessions, with room for more. Contracts see a list of marks and a number of reserved places for each
/// session, at the session's number. No two sessions have marks on one slot, or in one group.
pub struct RowLocks {
    sessions: Vec<SessionTable>,
    slots: SlotIndex,
    groups: GroupIndex,
    spare: usize,
    alloc: Global,
}

impl Drop for RowLocks {
    fn drop(self) {
        let Self {
            sessions: _,
            slots: _,
            groups: _,
            spare: _,
            alloc: _,
        } = self;
    }
}

impl Model for RowLocks {
    ghost use Rattle.std.specs.Prelude.{List as Sequence, map};
    ghost use Rattle.slot_marks.specs.Marks.{SessionMarks};
    ghost use Rattle.row_locks.specs.Entries.{shown};
    ghost use Rattle.row_locks.specs.Slots.{hold_of, room_of, IsSound};
    ghost use Rattle.row_locks.specs.Groups.{AreGrouped};

    ghost Value = { Sequence SessionMarks };

    ghost view = { λ l. map shown l.sessions.items };

    ghost invariant = { λ l. IsSound l.sessions.items (hold_of l.slots) l.spare (room_of l.slots)
        × AreGrouped l.sessions.items l.groups l.spare };
}

/// Why a mark was not taken.
#[derive(Clone, Copy, Debug, PartialEq, Eq)]
pub enum LockFault {
    /// This session holds the slot, or its group.
    Held(u32),
    /// There was no memory for the mark.
    Memory,
}

impl From<AllocError> for LockFault {
    ghost from_gives = { λ _ fault. fault ≡ Memory };

    fn from(_: AllocError) -> Self {
        LockFault::Memory
    }
}

impl RowLocks {
    /// No marks, and no room reserved. It takes no memory.
    pub fn new(alloc: Global) -> RowLocks
        ensures { result ≡ [] }
    {
        RowLocks {
            sessions: Vec::new(alloc),
            slots: SlotIndex::new(alloc),
            groups: GroupIndex::new(alloc),
            spare: 0,
            alloc,
        }
    }

    /// Makes room for one more mark of the session. At want of memory the room is as before.
    pub fn reserve(&mut self, session: u32) -> Result<(), AllocError>
        ensures room { OnOk result (spare_of self.new session ≡ spare_of self.old session + 1) }
        ensures err { OnErr result (spare_of self.new session ≡ spare_of self.old session) }
        ensures marks { SameMarks self.old self.new }
        ensures rest { ChangesOnly self.old self.new session }
    {
        let Some(more) = self.spare.checked_add(1) else {
            return Err(AllocError);
        };
        prepare(
            &mut self.sessions,
            &mut self.slots,
            &mut self.groups,
            session,
            more,
            self.alloc,
        )?;
        reserve_at(&mut self.sessions, session as usize)?;
        self.spare = more;
        Ok(())
    }

    /// Takes a mark for the session. An own mark on the slot is kept, and becomes removed where the new one is. `Held` tells
    /// the other session that holds the slot, or, where no other does, the one that holds its group; it comes exactly where
    /// there is one. `Memory` comes only where no room was reserved for the session. After an error all marks are as before.
    pub fn take(&mut self, session: u32, mark: Mark) -> Result<(), LockFault>
        ensures ok { OnOk result (marks_of self.new session ≡ taken (marks_of self.old session) mark) }
        ensures room { OnOk result (spare_of self.old session ≤ spare_of self.new session + 1) }
        ensures held { (other : ℕ) → result ≡ Err (Held other)
            → IsOtherHolder self.old session mark other }
        ensures free { (result ≡ Ok tt) ⊎ (result ≡ Err Memory) → IsFreeFor self.old session mark }
        ensures memory { result ≡ Err Memory → spare_of self.old session ≡ 0 }
        ensures err { OnErr result (SameMarks self.old self.new) }
        ensures rest { ChangesOnly self.old self.new session }
    {
        if let Some(other) = self.other_holder(session, &mark) {
            return Err(LockFault::Held(other));
        }
        if self.has_own(session, mark.id, mark.slot) {
            self.keep(session, &mark);
            return Ok(());
        }
        self.make_room(session)?;
        self.put(session, mark);
        Ok(())
    }

    /// The session that holds the slot, or, where none does and a number is given, the group of that queue, number and
    /// consumer. None comes exactly where no session does. It takes no memory.
    pub fn holder(
        &self,
        id: u64,
        slot: u32,
        queue: &Name,
        number: Option<u64>,
        consumer: Option<&Name>,
    ) -> Option<u32>
        ensures some { let group = group_asked queue.now number (option_copied consumer.entry) in
            IfSome result (IsHolder self.now id slot group) }
        ensures free_slot { IfNone result (IsFreeSlot self.now id slot) }
        ensures free_group { let group = group_asked queue.now number (option_copied consumer.entry) in
            IfNone result (IsFreeGroup self.now group) }
        ensures once { AreHeldOnce self.now }
    {
        let holder = self.slot_holder(id, slot);
        if holder.is_some() {
            return holder;
        }
        match number {
            None => None,
            Some(number) => self.group_holder(GroupRef {
                queue,
                number,
                consumer,
            }),
        }
    }

    /// Whether the session has a mark on the slot by which it removed the slot. It takes no memory.
    pub fn removed(&self, session: u32, id: u64, slot: u32) -> bool
        ensures { result ≡ has_removed id slot (marks_of self.now session) }
    {
        self.slots.is_removed_by(session, id, slot)
    }

    /// The marks of the session in the order taken, each lent. It takes no memory.
    pub fn marks_of(&self, session: u32) -> Marks<'_>
        ensures { result ≡ marks_of self.now session }
    {
        match self.sessions.get(session as usize) {
            None => Marks::none(),
            Some(table) => table.marks(),
        }
    }

    /// Frees the session's mark on the slot, if it has one. It takes no memory.
    pub fn release_one(&mut self, session: u32, id: u64, slot: u32)
        ensures marks { marks_of self.new session ≡ released (marks_of self.old session) id slot }
        ensures room { spare_of self.new session ≡ spare_of self.old session }
        ensures rest { ChangesOnly self.old self.new session }
    {
        if let Some(hold) = self.slots.find_own(session, id, slot) {
            let place = Place {
                session: hold.session,
                at: hold.at,
            };
            leave_group(&mut self.sessions, &mut self.groups, place);
            release_at(&mut self.sessions, &mut self.slots, hold, id, slot);
        }
    }

    /// Frees all marks of the session, and gives them in the order taken. It takes no memory. No room stays reserved for the
    /// session.
    pub fn release_all(&mut self, session: u32) -> List<Mark>
        ensures all { result ≡ marks_of self.old session }
        ensures none { marks_of self.new session ≡ [] }
        ensures rest { ChangesOnly self.old self.new session }
    {
        if (session as usize) < self.sessions.len() {
            self.spare -= spare_at(&self.sessions, session as usize);
            leave_groups(&mut self.sessions, &mut self.groups, session);
            release_all_at(&mut self.sessions, &mut self.slots, session as usize)
        } else {
            List::new(self.alloc)
        }
    }

    /// Frees all marks of the session. It takes no memory. No room stays reserved for the session.
    pub fn free_all(&mut self, session: u32)
        ensures none { marks_of self.new session ≡ [] }
        ensures room { spare_of self.new session ≡ 0 }
        ensures rest { ChangesOnly self.old self.new session }
    {
        if (session as usize) < self.sessions.len() {
            self.spare -= spare_at(&self.sessions, session as usize);
            leave_groups(&mut self.sessions, &mut self.groups, session);
            free_all_at(&mut self.sessions, &mut self.slots, session as usize);
        }
    }

    fn other_holder(&self, session: u32, mark: &Mark) -> Option<u32>
        ensures some { IfSome result (IsOtherHolder self.now session mark.now) }
        ensures none { IfNone result (IsFreeFor self.now session mark.now) }
    {
        match self.other_slot_holder(session, mark) {
            Some(other) => Some(other),
            None => self.other_group_holder(session, mark),
        }
    }

    fn other_slot_holder(&self, session: u32, mark: &Mark) -> Option<u32>
        ensures other { IfSome result (λ other. other ≢ session) }
        ensures some { IfSome result (HasSlot self.now mark.now.id mark.now.slot) }
        ensures none { IfNone result (NoOtherHasSlot self.now session mark.now) }
    {
        let holder = self.slot_holder(mark.id, mark.slot);
        other_than(session, holder)
    }

    fn other_group_holder(&self, session: u32, mark: &Mark) -> Option<u32>
        ensures other { IfSome result (λ other. other ≢ session) }
        ensures some { IfSome result (HasGroup self.now mark.now.group) }
        ensures none { IfNone result (NoOtherHasGroup self.now session mark.now) }
    {
        let holder = self.holder_of_group(&mark.group);
        other_than(session, holder)
    }

    fn holder_of_group(&self, group: &Option<Boxed<Group>>) -> Option<u32>
        ensures some { IfSome result (HasGroup self.now group.now) }
        ensures none { IfNone result (IsFreeGroup self.now group.now) }
        ensures once { AreHeldOnce self.now }
    {
        let _ = &self.sessions;
        match group {
            None => None,
            Some(group) => {
                let group = group.get();
                self.group_holder(GroupRef {
                    queue: &group.queue,
                    number: group.number,
                    consumer: group.consumer.as_ref(),
                })
            }
        }
    }

    fn make_room(&mut self, session: u32) -> Result<(), AllocError>
        ensures room { OnOk result (0 < spare_of self.new session) }
        ensures more { spare_of self.old session ≤ spare_of self.new session }
        ensures err { OnErr result (spare_of self.old session ≡ 0) }
        ensures marks { SameMarks self.old self.new }
        ensures rest { ChangesOnly self.old self.new session }
    {
        if self.spare(session) > 0 {
            return Ok(());
        }
        self.reserve(session)
    }

    fn spare(&self, session: u32) -> usize
        ensures { result ≡ spare_of self.now session }
    {
        match self.sessions.get(session as usize) {
            None => 0,
            Some(table) => table.spare(),
        }
    }

    fn put(&mut self, session: u32, mark: Mark)
        requires room { 0 < spare_of self.old session }
        requires own { has_slot mark.id mark.slot (marks_of self.old session) ≡ false }
        requires free { IsFreeFor self.old session mark }
        ensures marks { marks_of self.new session ≡ marks_of self.old session ++ mark ∷ [] }
        ensures room { spare_of self.new session ≡ spare_of self.old session - 1 }
        ensures rest { ChangesOnly self.old self.new session }
    {
        put_at(
            &mut self.sessions,
            &mut self.slots,
            &mut self.groups,
            session,
            mark,
        );
        self.spare -= 1;
    }

    fn keep(&mut self, session: u32, mark: &Mark)
        ensures marks { marks_of self.new session ≡ map (kept_beside mark.now) (marks_of self.old session) }
        ensures room { spare_of self.new session ≡ spare_of self.old session }
        ensures rest { ChangesOnly self.old self.new session }
    {
        if let Some(hold) = self.slots.find_own(session, mark.id, mark.slot) {
            keep_at(&mut self.sessions, &mut self.slots, hold, mark);
        }
    }

    fn slot_holder(&self, id: u64, slot: u32) -> Option<u32>
        ensures some { IfSome result (HasSlot self.now id slot) }
        ensures none { IfNone result (IsFreeSlot self.now id slot) }
        ensures once { AreHeldOnce self.now }
    {
        match self.slots.find(id, slot) {
            None => None,
            Some(hold) => Some(hold.session),
        }
    }

    fn group_holder(&self, group: GroupRef<'_>) -> Option<u32>
        ensures some { IfSome result (HasGroup self.now (Some (group_meant group.entry))) }
        ensures none { IfNone result (IsFreeGroup self.now (Some (group_meant group.entry))) }
    {
        find_holder(&self.sessions, &self.groups, group)
    }

    fn has_own(&self, session: u32, id: u64, slot: u32) -> bool
        ensures { result ≡ has_slot id slot (marks_of self.now session) }
    {
        self.slots.is_held_by(session, id, slot)
    }
}

fn other_than(session: u32, holder: Option<u32>) -> Option<u32>
    ensures same { IfSome result (λ other. holder ≡ Some other) }
    ensures other { IfSome result (λ other. other ≢ session) }
    ensures none { IfNone result ((holder ≡ None) ⊎ (holder ≡ Some session)) }
{
    match holder {
        None => None,
        Some(other) => { if other == session { None } else { Some(other) } }
    }
}
