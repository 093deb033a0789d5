// The index of the slots that are ready.
ghost use Rattle.std.specs.Prelude.{◌≡◌, ◌+◌, ◌<◌, ◌≤◌, ◌^◌, ℕ, [], None, filter, length, OnErr, OnOk, IfErr, IfOk, IfSome, option_copied};
ghost use Rattle.std.specs.List.{find};
ghost use Rattle.std.specs.Option.{option_map, option_to_list};
ghost use Rattle.row_tree.specs.Found.{kept_by};
ghost use Rattle.sort_index.specs.Fitting.{AllFit};
ghost use Rattle.sort_index.specs.Ready.{AreRising, EditsRows, IsFree};
ghost use Rattle.sort_index.specs.Ready.{first_slot, first_slot_past, is_at, is_of, is_past, is_past_row, is_row};
ghost use Rattle.sort_index.specs.Ready.{rows_of, set_row, slot_of, with_row, without_first_at, without_row};

use crate::bounds::{AtGroup, AtRow, PastPlace, PastRow};
use crate::changes::{RowSet, RowTaken};
use crate::{Group, Ready, RowsPast, Steps};
use payload_records::{Copied, Name};
use place_keys::{Place, compare};
use row_tree::{Ordered, Spare, Stock};
use std::alloc::{AllocError, Global};
use std::marker::Model;
use std::sync::ledger::Ledger;

/// The slots that are ready. Contracts see the rows of each queue and consumer, in the order of their places and at one place in
/// the order of their ids, and for how many more there is memory.
pub struct ReadyIndex {
    groups: Ordered<Group>,
    group_stock: Stock<Group>,
    stock: Stock<Ready>,
    puts: u64,
}

impl Drop for ReadyIndex {
    fn drop(self) {
        let Self {
            groups: _,
            group_stock: _,
            stock: _,
            puts: _,
        } = self;
    }
}

impl Model for ReadyIndex {
    ghost use Rattle.sort_index.specs.Ready.{ReadyRows};
    ghost use Rattle.sort_index.specs.Fitting.{IsBounded};

    ghost Value = { ReadyRows };

    ghost view = { λ i. record { groups = i.groups; spare = i.stock } };

    ghost invariant = { λ i. IsBounded i.groups i.group_stock i.stock i.puts };
}

impl ReadyIndex {
    /// No rows, and memory for none. It takes no memory.
    pub fn new(alloc: Global) -> ReadyIndex
        ensures { result ≡ record { groups = []; spare = 0 } }
    {
        ReadyIndex {
            groups: Ordered::new(),
            group_stock: Stock::new(alloc),
            stock: Stock::new(alloc),
            puts: 0,
        }
    }

    /// Makes room for so many puts. At want of memory, as after 2^64 puts, the rows are as before, and there is no less room.
    pub fn reserve(&mut self, rows: u64) -> Result<(), AllocError>
        ensures ok { OnOk result (rows ≤ self.new.spare) }
        ensures room { self.old.spare ≤ self.new.spare }
        ensures rows { self.new.groups ≡ self.old.groups }
    {
        if self.puts.checked_add(rows).is_none() {
            return Err(AllocError);
        }
        if (self.groups.len() as u64).checked_add(rows).is_none() {
            return Err(AllocError);
        }
        self.group_stock.reserve(rows as usize)?;
        self.stock.reserve(rows as usize)
    }

    /// Puts a slot in at a place, where the queue and consumer have none with this id. It takes no memory.
    pub fn put(&mut self, queue: Name, consumer: Option<Name>, place: Place, id: u64, slot: u32)
        requires room { 0 < self.old.spare }
        requires free { IsFree place id (rows_of queue consumer self.old.groups) }
        ensures rows { EditsRows queue consumer (with_row place id slot) self.old.groups self.new.groups }
        ensures room { self.old.spare ≡ self.new.spare + 1 }
    {
        self.puts += 1;
        let row = RowSet {
            row: Ready { place, id, slot },
            spare: self.stock.take(),
        };
        if let Err(row) = set_there(&mut self.groups, &queue, consumer.as_ref(), row) {
            let spare = self.group_stock.take();
            add_group(&mut self.groups, spare, queue, consumer, row);
        }
    }

    /// Puts a slot in at a place, in place of the one that the queue and consumer have there with this id, if they have one. It takes its
    /// memory itself, and at want of memory the rows are as before. Names are copied only where the queue and consumer had no rows.
    pub fn set(
        &mut self,
        queue: &Name,
        consumer: Option<&Name>,
        place: &Place,
        id: u64,
        slot: u32,
    ) -> Result<(), AllocError>
        ensures ok { OnOk result (EditsRows queue.now (option_copied consumer.entry)
            (set_row place.now id slot) self.old.groups self.new.groups) }
        ensures err { OnErr result (self.new.groups ≡ self.old.groups) }
        ensures room { self.old.spare ≤ self.new.spare + 1 }
    {
        let row = Ready {
            place: place.copied()?,
            id,
            slot,
        };
        self.reserve(1)?;
        self.puts += 1;
        let spare = self.stock.take();
        if let Err(row) = set_there(&mut self.groups, queue, consumer, RowSet { row, spare }) {
            let queue = queue.copied()?;
            let consumer = copied(consumer)?;
            let spare = self.group_stock.take();
            add_group(&mut self.groups, spare, queue, consumer, row);
        }
        Ok(())
    }

    /// Takes the slot with an id at a place out, and tells which it was, or None where the queue and consumer have none there. It
    /// takes no memory.
    pub fn take(
        &mut self,
        queue: &Name,
        consumer: Option<&Name>,
        place: &Place,
        id: u64,
    ) -> Option<u32>
        ensures slot { result ≡ option_map (λ row. row.slot) (find (is_row place.now id)
            (rows_of queue.now (option_copied consumer.entry) self.old.groups)) }
        ensures rows { EditsRows queue.now (option_copied consumer.entry) (without_row place.now id)
            self.old.groups self.new.groups }
        ensures room { self.new.spare ≡ self.old.spare }
    {
        take_row(&mut self.groups, queue, consumer, place, id)
    }

    /// Takes the first slot at a place out, where the queue and consumer have one there. It takes no memory.
    pub fn take_out(&mut self, queue: &Name, consumer: Option<&Name>, place: &Place)
        ensures rows { EditsRows queue.now (option_copied consumer.entry) (without_first_at place.now)
            self.old.groups self.new.groups }
        ensures room { self.new.spare ≡ self.old.spare }
    {
        let Some(id) = first_id(&self.groups, queue, consumer, place) else {
            return;
        };
        let _slot = take_row(&mut self.groups, queue, consumer, place, id);
    }

    /// The slot at the least place of the queue and consumer, or None where they have none. It takes no memory.
    pub fn first(&self, queue: &Name, consumer: Option<&Name>) -> Option<(u64, u32)>
        ensures first { result ≡ first_slot
            (rows_of queue.now (option_copied consumer.entry) self.now.groups) }
        ensures rising { AreRising (rows_of queue.now (option_copied consumer.entry) self.now.groups) }
    {
        let group = self.groups.find_at(&AtGroup { queue, consumer })?;
        slot_of(group.rows.get(0))
    }

    /// The first slot past all at a place, where one is given, or None where there is none. It takes no memory.
    pub fn next<L: Ledger>(
        &self,
        queue: &Name,
        consumer: Option<&Name>,
        after: Option<&Place>,
        steps: &mut Steps<L>,
    ) -> Option<(u64, u32)>
        ensures first { result ≡ first_slot_past (option_copied after.entry)
            (rows_of queue.now (option_copied consumer.entry) self.now.groups) }
        ensures rising { AreRising (rows_of queue.now (option_copied consumer.entry) self.now.groups) }
        ensures steps { steps.new ≡ steps.old + length (option_to_list result) }
    {
        slot_of(self.first_row_past(queue, consumer, after, steps))
    }

    /// The first row past all at a place, where one is given, or None where there is none. It takes no memory.
    pub fn first_row_past<L: Ledger>(
        &self,
        queue: &Name,
        consumer: Option<&Name>,
        after: Option<&Place>,
        steps: &mut Steps<L>,
    ) -> Option<&Ready>
        ensures first { option_copied result ≡ find (is_past (option_copied after.entry))
            (rows_of queue.now (option_copied consumer.entry) self.now.groups) }
        ensures rising { AreRising (rows_of queue.now (option_copied consumer.entry) self.now.groups) }
        ensures steps { steps.new ≡ steps.old + length (option_to_list result) }
    {
        let group = self.groups.find_at(&AtGroup { queue, consumer })?;
        let row = first_past(&group.rows, after)?;
        steps.tick();
        Some(row)
    }

    /// The rows past all at a place, where one is given. It takes no memory.
    pub fn rows_past(
        &self,
        queue: &Name,
        consumer: Option<&Name>,
        after: Option<&Place>,
    ) -> RowsPast<'_>
        ensures rows { result ≡ filter (is_past (option_copied after.entry))
            (rows_of queue.now (option_copied consumer.entry) self.now.groups) }
    {
        match self.groups.find_at(&AtGroup { queue, consumer }) {
            Some(group) => RowsPast::of(&group.rows, after),
            None => RowsPast::none(),
        }
    }

    /// The first row past the one with an id at a place, where they are given, or None where there is none. It takes no memory.
    pub fn next_row<L: Ledger>(
        &self,
        queue: &Name,
        consumer: Option<&Name>,
        after: Option<(&Place, u64)>,
        steps: &mut Steps<L>,
    ) -> Option<&Ready>
        ensures first { option_copied result ≡ find
            (is_past_row (option_map (λ at. (at.0.now, at.1)) after.entry))
            (rows_of queue.now (option_copied consumer.entry) self.now.groups) }
        ensures rising { AreRising (rows_of queue.now (option_copied consumer.entry) self.now.groups) }
        ensures steps { steps.new ≡ steps.old + length (option_to_list result) }
    {
        let group = self.groups.find_at(&AtGroup { queue, consumer })?;
        let row = first_past_row(&group.rows, after)?;
        steps.tick();
        Some(row)
    }
}

// The first row past all at a place, where one is given.
fn first_past<'a>(rows: &'a Ordered<Ready>, after: Option<&Place>) -> Option<&'a Ready>
    ensures first { option_copied result ≡ find (is_past (option_copied after.entry)) rows.now }
    ensures rising { AreRising rows.now }
{
    match after {
        None => rows.get(0),
        Some(place) => rows.first_from(&PastPlace { place }),
    }
}

// The first row past a place and an id, where they are given.
fn first_past_row<'a>(rows: &'a Ordered<Ready>, after: Option<(&Place, u64)>) -> Option<&'a Ready>
    ensures first { option_copied result ≡ find
        (is_past_row (option_map (λ at. (at.0.now, at.1)) after.entry)) rows.now }
    ensures rising { AreRising rows.now }
{
    match after {
        None => rows.get(0),
        Some((place, id)) => rows.first_from(&PastRow { place, id }),
    }
}

// The id of the first row of a queue and a consumer at a place.
fn first_id(
    groups: &Ordered<Group>,
    queue: &Name,
    consumer: Option<&Name>,
    place: &Place,
) -> Option<u64>
    ensures id { result ≡ option_map (λ row. row.id) (find (is_at place.now)
        (rows_of queue.now (option_copied consumer.entry) groups.now)) }
    ensures rising { AreRising (rows_of queue.now (option_copied consumer.entry) groups.now) }
{
    let group = groups.find_at(&AtGroup { queue, consumer })?;
    id_at(group.rows.first_from(&AtRow { place, id: 0 }), place)
}

// The id of the row, where it stands at the place.
fn id_at(row: Option<&Ready>, place: &Place) -> Option<u64>
    ensures { result ≡ option_map (λ row. row.id) (kept_by (is_at place.now) (option_copied row.entry)) }
{
    let row = row?;
    if compare(&row.place, place).is_eq() {
        Some(row.id)
    } else {
        None
    }
}

fn slot_of(row: Option<&Ready>) -> Option<(u64, u32)>
    ensures { result ≡ option_map slot_of (option_copied row.entry) }
{
    let row = row?;
    Some((row.id, row.slot))
}

fn copied(name: Option<&Name>) -> Result<Option<Name>, AllocError>
    ensures { IfOk result (λ copy. copy ≡ option_copied name.entry) }
{
    match name {
        None => Ok(None),
        Some(name) => Ok(Some(name.copied()?)),
    }
}

// Puts a row into the group of a queue and a consumer, or gives it back where they have none.
fn set_there(
    groups: &mut Ordered<Group>,
    queue: &Name,
    consumer: Option<&Name>,
    row: RowSet,
) -> Result<(), RowSet>
    requires { IfSome (find (is_of queue.now (option_copied consumer)) groups.old)
        (λ group. length group.rows + 1 < 2 ^ 64) }
    ensures rows { OnOk result (EditsRows queue.now (option_copied consumer.entry)
        (set_row row.row.place row.row.id row.row.slot) groups.old groups.new) }
    ensures none { OnErr result (find (is_of queue.now (option_copied consumer.entry)) groups.old ≡ None) }
    ensures back { IfErr result (λ back. back ≡ row) }
    ensures kept { OnErr result (groups.new ≡ groups.old) }
    ensures fit { (n : ℕ) → AllFit n groups.old → AllFit (n + 1) groups.new }
    ensures len { length groups.new ≡ length groups.old }
{
    groups.change_at(&AtGroup { queue, consumer }, row)
}

// Makes a group of one row.
fn add_group(
    groups: &mut Ordered<Group>,
    spare: Spare<Group>,
    queue: Name,
    consumer: Option<Name>,
    first: RowSet,
)
    requires none { find (is_of queue consumer) groups.old ≡ None }
    requires fits { length groups.old < usize.MAX }
    ensures rows { EditsRows queue consumer (set_row first.row.place first.row.id first.row.slot)
        groups.old groups.new }
    ensures fit { (n : ℕ) → AllFit n groups.old → 0 < n → AllFit n groups.new }
    ensures len { length groups.new ≡ length groups.old + 1 }
{
    let RowSet { row, spare: place } = first;
    let mut rows = Ordered::new();
    rows.put(row, place);
    let group = Group {
        queue,
        consumer,
        rows,
    };
    groups.put(group, spare);
}

// Takes the row with an id at a place out of the group of a queue and a consumer, and the group where no row is left in it.
fn take_row(
    groups: &mut Ordered<Group>,
    queue: &Name,
    consumer: Option<&Name>,
    place: &Place,
    id: u64,
) -> Option<u32>
    ensures slot { result ≡ option_map (λ row. row.slot) (find (is_row place.now id)
        (rows_of queue.now (option_copied consumer.entry) groups.old)) }
    ensures rows { EditsRows queue.now (option_copied consumer.entry) (without_row place.now id)
        groups.old groups.new }
    ensures gone { without_row place.now id (rows_of queue.now (option_copied consumer.entry) groups.old) ≡ []
        → find (is_of queue.now (option_copied consumer.entry)) groups.new ≡ None }
    ensures fit { (n : ℕ) → AllFit n groups.old → AllFit n groups.new }
    ensures len { length groups.new ≤ length groups.old }
{
    let at = AtGroup { queue, consumer };
    let Ok((slot, is_empty)) = groups.change_at(&at, RowTaken { place, id }) else {
        return None;
    };
    if is_empty {
        let _group = groups.take_at(&at);
    }
    slot
}
