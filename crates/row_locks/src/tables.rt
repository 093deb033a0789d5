// What is done to the marks of one session, and to the indexes of all.
ghost use Rattle.std.specs.Prelude.{◌≡◌, ◌≢◌, ◌<◌, ◌≤◌, ◌+◌, ◌^◌, ℕ, List as Sequence, map, length, slice_set, slice_index_or, Some, None, OnOk, OnErr, IfSome, IfNone, IsTrue, false, is_some, option_copied};
ghost use Rattle.std.specs.Option.{option_map};
ghost use Rattle.row_locks.specs.Changes.{SameValues};
ghost use Rattle.row_locks.specs.Entries.{no_entries, present, table_of, entries_of, all_spare, tables_with_mark, tables_with_entry, tables_with_room, tables_keeping, unranked, IsAligned, SameTables};
ghost use Rattle.row_locks.specs.Slots.{hold_of, room_of, IsSlotIndex};
ghost use Rattle.row_locks.specs.Groups.{group_meant, key_of, group_at, rank_at, is_in_group_at, has_names_at, cell_of, hold_in, group_room, next_rank, tables_with_rank, FirstHasNames, HasAlone, HasInGroup, IsUnheld, IsGroupIndexOf, IsIndexWith, AreRanked, AreUnranked, SameRankedBut, SameRankedOutside};

use crate::classes::Place;
use crate::groups::{GroupIndex, GroupKey, GroupRef, group_key, key_of_group};
use crate::session_table::SessionTable;
use crate::slots::{Hold, SlotIndex};
use payload_records::{List, Name};
use slot_marks::{Group, Mark};
use std::alloc::{AllocError, Global};

/// Makes tables up to the session's.
fn extend_to(tables: &mut Vec<SessionTable>, session: u32, alloc: Global) -> Result<(), AllocError>
    ensures same { SameTables tables.old.items tables.new.items }
    ensures spare { all_spare tables.new.items ≡ all_spare tables.old.items }
    ensures there { OnOk result (session < length tables.new.items) }
    ensures bound { length tables.old.items ≤ 2 ^ 32 → length tables.new.items ≤ 2 ^ 32 }
{
    while tables.len() <= session as usize {
        tables.push(SessionTable::new(alloc))?;
    }
    Ok(())
}

/// Makes tables up to the session's, and room in the indexes for so many marks.
pub(crate) fn prepare(
    tables: &mut Vec<SessionTable>,
    slots: &mut SlotIndex,
    groups: &mut GroupIndex,
    session: u32,
    marks: usize,
    alloc: Global,
) -> Result<(), AllocError>
    ensures same { SameTables tables.old.items tables.new.items }
    ensures spare { all_spare tables.new.items ≡ all_spare tables.old.items }
    ensures there { OnOk result (session < length tables.new.items) }
    ensures bound { length tables.old.items ≤ 2 ^ 32 → length tables.new.items ≤ 2 ^ 32 }
    ensures holds { SameValues (hold_of slots.old) (hold_of slots.new) }
    ensures cells { SameValues (cell_of groups.old.classes) (cell_of groups.new.classes) }
    ensures group_holds { SameValues (hold_in groups.old.holds) (hold_in groups.new.holds) }
    ensures ok { OnOk result (marks ≤ room_of slots.new) }
    ensures ok_groups { OnOk result (marks ≤ group_room groups.new) }
    ensures room { room_of slots.old ≤ room_of slots.new }
    ensures group_room { group_room groups.old ≤ group_room groups.new }
{
    extend_to(tables, session, alloc)?;
    slots.reserve(marks)?;
    groups.reserve(marks)
}

/// For how many more marks of the session there is room.
pub(crate) fn spare_at(tables: &Vec<SessionTable>, at: usize) -> usize
    ensures { result ≡ (table_of tables.now.items at).spare }
{
    match tables.get(at) {
        None => 0,
        Some(table) => table.spare(),
    }
}

/// Makes room for one more mark of the session.
pub(crate) fn reserve_at(tables: &mut Vec<SessionTable>, at: usize) -> Result<(), AllocError>
    requires { at < length tables.old.items }
    ensures ok { OnOk result (tables.new.items ≡ tables_with_room tables.old.items at) }
    ensures err { OnErr result (tables.new.items ≡ tables.old.items) }
{
    tables[at].reserve()
}

/// The session that has marks in the group.
pub(crate) fn find_holder(
    tables: &Vec<SessionTable>,
    groups: &GroupIndex,
    group: GroupRef<'_>,
) -> Option<u32>
    requires grouped { IsGroupIndexOf tables.now.items groups.now }
    requires ranked { AreRanked tables.now.items }
    ensures some { IfSome result (HasInGroup tables.now.items (group_meant group.entry)) }
    ensures none { IfNone result (IsUnheld tables.now.items (group_meant group.entry)) }
{
    let key = group_key(group);
    let first_mark = groups.first_mark(key.names)?;
    if first_mark.mixed {
        return find_in_class(tables, groups, group);
    }
    if !has_names_at(tables, first_mark.place, group.queue, group.consumer) {
        return None;
    }
    groups.session_of(key)
}

/// The session that has marks in the group. It looks at each mark of its class.
fn find_in_class(
    tables: &Vec<SessionTable>,
    groups: &GroupIndex,
    group: GroupRef<'_>,
) -> Option<u32>
    requires grouped { IsGroupIndexOf tables.now.items groups.now }
    requires ranked { AreRanked tables.now.items }
    ensures some { IfSome result (HasInGroup tables.now.items (group_meant group.entry)) }
    ensures none { IfNone result (IsUnheld tables.now.items (group_meant group.entry)) }
{
    let key = group_key(group);
    for rank in 0..groups.len() {
        let place = groups.find(key.names, rank)?;
        if is_in_group_at(tables, place, group) {
            return Some(place.session);
        }
    }
    None
}

/// Puts a mark of the session last.
pub(crate) fn put_at(
    tables: &mut Vec<SessionTable>,
    slots: &mut SlotIndex,
    groups: &mut GroupIndex,
    session: u32,
    mark: Mark,
)
    requires spare { 0 < (table_of tables.old.items session).spare }
    requires room { 0 < room_of slots.old }
    requires group_room { 0 < group_room groups.old }
    requires index { IsSlotIndex tables.old.items (hold_of slots.old) }
    requires grouped { IsGroupIndexOf tables.old.items groups.old }
    requires free { hold_of slots.old mark.id mark.slot ≡ None }
    requires alone { HasAlone tables.old.items session mark.group }
    ensures put { let rank = next_rank groups.old mark.group in
        tables.new.items ≡ tables_with_mark tables.old.items session mark rank }
    ensures index { IsSlotIndex tables.new.items (hold_of slots.new) }
    ensures grouped { IsGroupIndexOf tables.new.items groups.new }
    ensures ranked { AreRanked tables.old.items → AreRanked tables.new.items }
    ensures room { room_of slots.old ≤ room_of slots.new + 1 }
    ensures group_room { group_room groups.old ≤ group_room groups.new + 1 }
{
    let at = len_at(tables, session as usize);
    let rank = enter_group(tables, groups, &mark, Place { session, at });
    let hold = Hold {
        session,
        at,
        removed: mark.removed,
    };
    slots.put(mark.id, mark.slot, hold);
    put_last_at(tables, session as usize, mark, rank);
}

/// Puts the mark that comes to stand at a place into the index of groups, and gives its rank.
fn enter_group(
    tables: &Vec<SessionTable>,
    groups: &mut GroupIndex,
    mark: &Mark,
    place: Place,
) -> Option<usize>
    requires group_room { 0 < group_room groups.old }
    requires grouped { IsGroupIndexOf tables.now.items groups.old }
    requires vacant { group_at tables.now.items place ≡ None }
    requires alone { HasAlone tables.now.items place.session mark.now.group }
    ensures rank { result ≡ next_rank groups.old mark.now.group }
    ensures grouped { IsIndexWith tables.now.items groups.new place mark.now.group result }
    ensures group_room { group_room groups.old ≤ group_room groups.new + 1 }
{
    let Some(group) = &mark.group else {
        return None;
    };
    let group = group.get();
    let key = key_of_group(group);
    let differs = differs_from_class(tables, groups, key.names, group);
    Some(groups.put(key, place, differs))
}

/// Whether the group's names differ from those of the first mark of the class.
fn differs_from_class(
    tables: &Vec<SessionTable>,
    groups: &GroupIndex,
    names: u64,
    group: &Group,
) -> bool
    ensures { result ≡ false → FirstHasNames tables.now.items groups.now.classes names group.now }
{
    match groups.first_mark(names) {
        None => false,
        Some(first_mark) => !has_group_names_at(tables, first_mark.place, group),
    }
}

/// Makes the mark that is held removed where the new one is.
pub(crate) fn keep_at(
    tables: &mut Vec<SessionTable>,
    slots: &mut SlotIndex,
    hold: Hold,
    mark: &Mark,
)
    requires held { hold_of slots.old mark.now.id mark.now.slot ≡ Some hold }
    requires index { IsSlotIndex tables.old.items (hold_of slots.old) }
    ensures kept { tables.new.items ≡ tables_keeping tables.old.items hold.session hold.at mark.now }
    ensures index { IsSlotIndex tables.new.items (hold_of slots.new) }
    ensures room { room_of slots.old ≤ room_of slots.new }
{
    let kept = Hold {
        session: hold.session,
        at: hold.at,
        removed: hold.removed | mark.removed,
    };
    slots.change(mark.id, mark.slot, kept);
    keep_entry_at(tables, hold.session as usize, hold.at as usize, mark);
}

/// Drops the mark that is held.
pub(crate) fn release_at(
    tables: &mut Vec<SessionTable>,
    slots: &mut SlotIndex,
    hold: Hold,
    id: u64,
    slot: u32,
)
    requires held { hold_of slots.old id slot ≡ Some hold }
    requires index { IsSlotIndex tables.old.items (hold_of slots.old) }
    ensures released { tables.new.items ≡ tables_with_entry tables.old.items hold.session hold.at None }
    ensures index { IsSlotIndex tables.new.items (hold_of slots.new) }
    ensures room { room_of slots.old ≤ room_of slots.new }
{
    slots.take(id, slot);
    release_entry_at(tables, hold.session as usize, hold.at as usize);
}

/// Takes all marks of the session out, in their order.
pub(crate) fn release_all_at(
    tables: &mut Vec<SessionTable>,
    slots: &mut SlotIndex,
    at: usize,
) -> List<Mark>
    requires there { at < length tables.old.items }
    requires index { IsSlotIndex tables.old.items (hold_of slots.old) }
    ensures all { result ≡ present (entries_of tables.old.items at) }
    ensures none { tables.new.items ≡ slice_set tables.old.items at no_entries }
    ensures index { IsSlotIndex tables.new.items (hold_of slots.new) }
    ensures room { room_of slots.old ≤ room_of slots.new }
{
    let marks = take_all_at(tables, at);
    slots.take_all(marks.as_slice());
    List::from_vec(marks)
}

/// Drops all marks of the session.
pub(crate) fn free_all_at(tables: &mut Vec<SessionTable>, slots: &mut SlotIndex, at: usize)
    requires there { at < length tables.old.items }
    requires index { IsSlotIndex tables.old.items (hold_of slots.old) }
    ensures none { tables.new.items ≡ slice_set tables.old.items at no_entries }
    ensures index { IsSlotIndex tables.new.items (hold_of slots.new) }
    ensures room { room_of slots.old ≤ room_of slots.new }
{
    slots.take_present(entries_at(tables, at));
    empty_at(tables, at);
}

/// Takes the mark at a place out of the index of groups, and leaves it where it stands.
pub(crate) fn leave_group(tables: &mut Vec<SessionTable>, groups: &mut GroupIndex, place: Place)
    requires there { place.session < length tables.old.items }
    requires within { place.at < length (entries_of tables.old.items place.session) }
    requires grouped { IsGroupIndexOf tables.old.items groups.old }
    ensures same { map unranked tables.new.items ≡ map unranked tables.old.items }
    ensures grouped { IsGroupIndexOf tables.new.items groups.new }
    ensures out { rank_at tables.new.items place ≡ None }
    ensures others { SameRankedBut tables.old.items tables.new.items place }
    ensures room { group_room groups.old ≤ group_room groups.new }
{
    let Some(rank) = take_rank_at(tables, place) else {
        return;
    };
    let Some(key) = key_of_place(tables, place) else {
        return;
    };
    if let Some(moved) = groups.take(key, rank) {
        set_rank_at(tables, moved, rank);
    }
}

/// Takes all marks of the session out of the index of groups, and leaves them where they stand.
pub(crate) fn leave_groups(tables: &mut Vec<SessionTable>, groups: &mut GroupIndex, session: u32)
    requires there { session < length tables.old.items }
    requires grouped { IsGroupIndexOf tables.old.items groups.old }
    ensures same { map unranked tables.new.items ≡ map unranked tables.old.items }
    ensures grouped { IsGroupIndexOf tables.new.items groups.new }
    ensures out { AreUnranked tables.new.items session (length (entries_of tables.old.items session)) }
    ensures others { SameRankedOutside tables.old.items tables.new.items session }
    ensures room { group_room groups.old ≤ group_room groups.new }
{
    for at in 0..len_at(tables, session as usize) {
        leave_group(tables, groups, Place { session, at });
    }
}

fn put_last_at(tables: &mut Vec<SessionTable>, at: usize, mark: Mark, rank: Option<usize>)
    requires there { at < length tables.old.items }
    requires spare { 0 < (table_of tables.old.items at).spare }
    ensures put { tables.new.items ≡ tables_with_mark tables.old.items at mark rank }
    ensures whole { IsAligned (table_of tables.old.items at) }
{
    tables[at].put(mark, rank);
}

fn keep_entry_at(tables: &mut Vec<SessionTable>, at: usize, place: usize, mark: &Mark)
    requires there { at < length tables.old.items }
    requires within { place < length (entries_of tables.old.items at) }
    ensures { tables.new.items ≡ tables_keeping tables.old.items at place mark.now }
{
    tables[at].keep_at(place, mark);
}

fn release_entry_at(tables: &mut Vec<SessionTable>, at: usize, place: usize)
    requires there { at < length tables.old.items }
    requires within { place < length (entries_of tables.old.items at) }
    ensures { tables.new.items ≡ tables_with_entry tables.old.items at place None }
{
    tables[at].release_at(place);
}

fn take_all_at(tables: &mut Vec<SessionTable>, at: usize) -> Vec<Mark>
    requires { at < length tables.old.items }
    ensures all { result.items ≡ present (entries_of tables.old.items at) }
    ensures none { tables.new.items ≡ slice_set tables.old.items at no_entries }
{
    tables[at].release_all()
}

fn entries_at(tables: &Vec<SessionTable>, at: usize) -> &[Option<Mark>]
    requires { at < length tables.now.items }
    ensures { result.now ≡ entries_of tables.now.items at }
{
    tables[at].entries()
}

fn empty_at(tables: &mut Vec<SessionTable>, at: usize)
    requires { at < length tables.old.items }
    ensures { tables.new.items ≡ slice_set tables.old.items at no_entries }
{
    tables[at].empty();
}

fn len_at(tables: &Vec<SessionTable>, at: usize) -> u32
    requires { at < length tables.now.items }
    ensures { result ≡ length (entries_of tables.now.items at) }
{
    tables[at].len()
}

fn key_of_place(tables: &Vec<SessionTable>, place: Place) -> Option<GroupKey>
    requires { place.session < length tables.now.items }
    ensures { result ≡ option_map key_of (group_at tables.now.items place) }
{
    tables[place.session as usize].key_at(place.at as usize)
}

fn is_in_group_at(tables: &Vec<SessionTable>, place: Place, group: GroupRef<'_>) -> bool
    ensures { result ≡ is_in_group_at tables.now.items (group_meant group.entry) place }
{
    match tables.get(place.session as usize) {
        None => false,
        Some(table) => table.is_in_group_at(place.at as usize, group),
    }
}

fn has_names_at(
    tables: &Vec<SessionTable>,
    place: Place,
    queue: &Name,
    consumer: Option<&Name>,
) -> bool
    ensures { result ≡ has_names_at tables.now.items queue.now (option_copied consumer.entry) place }
{
    match tables.get(place.session as usize) {
        None => false,
        Some(table) => table.has_names_at(place.at as usize, queue, consumer),
    }
}

fn has_group_names_at(tables: &Vec<SessionTable>, place: Place, group: &Group) -> bool
    ensures { result ≡ has_names_at tables.now.items group.now.queue group.now.consumer place }
{
    has_names_at(tables, place, &group.queue, group.consumer.as_ref())
}

fn take_rank_at(tables: &mut Vec<SessionTable>, place: Place) -> Option<usize>
    requires there { place.session < length tables.old.items }
    requires within { place.at < length (entries_of tables.old.items place.session) }
    ensures rank { result ≡ rank_at tables.old.items place }
    ensures rest { tables.new.items ≡ tables_with_rank tables.old.items place None }
    ensures whole { IsAligned (table_of tables.old.items place.session) }
{
    tables[place.session as usize].take_rank(place.at as usize)
}

fn set_rank_at(tables: &mut Vec<SessionTable>, place: Place, rank: usize)
    requires there { place.session < length tables.old.items }
    requires within { place.at < length (entries_of tables.old.items place.session) }
    ensures rest { tables.new.items ≡ tables_with_rank tables.old.items place (Some rank) }
    ensures whole { IsAligned (table_of tables.old.items place.session) }
{
    tables[place.session as usize].set_rank(place.at as usize, rank);
}
