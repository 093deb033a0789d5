// Messages and their slots.
ghost use Rattle.std.specs.Prelude.{◌≡◌, ◌++◌, OnOk};
ghost use Rattle.redo_journal.specs.Num.{listed, listed_at};
ghost use Rattle.redo_records.specs.Gives.{Gives};
ghost use Rattle.redo_records.specs.Reading.{datum_at, int_at, slot_row_at, props_at, msg_behind_front, msg_row_at};
ghost use Rattle.redo_records.specs.Spellable.{HasFullData, IsFull};
ghost use Rattle.redo_records.specs.Spelled.{AreListed, IsDatum, IsMsgFront, IsMsgRow, IsSlotRow};
ghost use Rattle.redo_records.specs.Spelling.{datum, slot_row, msg_front, msg_row};

use crate::DecodeFault;
use crate::lists::{flag_at, list_at, optional_at, put_flag, put_ints, put_list, put_optional};
use crate::numbers::{int_at, num_at, put_num};
use crate::parts::{put_state, state_at};
use crate::spelled::Spelled;
use payload_records::{Datum, List, Name, Prop, Record, Shared, Text};
use place_keys::Place;
use queue_rows::{MsgRow, SlotRow};
use rule_conditions::Facts;
use std::alloc::{AllocError, Global};

impl Spelled for SlotRow {
    ghost spell = { slot_row };

    ghost read = { slot_row_at };

    ghost by_type = { IsSlotRow };

    fn put(&self, out: &mut Vec<u8>) -> Result<(), AllocError> {
        put_optional(out, &self.name)?;
        put_optional(out, &self.address)?;
        put_state(out, self.state)?;
        put_num(out, self.retries)?;
        put_num(out, self.at)?;
        put_optional(out, &self.expires)
    }

    #[tactic(auto, unfolding(crate::specs::Reading::slot_row_at))]
    fn at(alloc: Global, bytes: &[u8]) -> Result<(Self, &[u8]), DecodeFault> {
        let (name, rest) = optional_at(alloc, bytes)?;
        let (address, rest) = optional_at(alloc, rest)?;
        let (state, rest) = state_at(rest)?;
        let (retries, rest) = num_at(rest)?;
        let (at, rest) = num_at(rest)?;
        let (expires, rest) = optional_at(alloc, rest)?;
        let row = SlotRow {
            name,
            address,
            state,
            retries,
            at,
            expires,
        };
        Ok((row, rest))
    }
}

fn place_at(alloc: Global, bytes: &[u8]) -> Result<(Place, &[u8]), DecodeFault>
    ensures { Gives (λ x. (x.0, x.1.now)) result (listed_at int_at bytes.now) }
{
    let (numbers, rest) = list_at::<i64>(alloc, bytes)?;
    Ok((Place::from_numbers(numbers.into_vec()), rest))
}

fn put_cells(out: &mut Vec<u8>, cells: &Shared<List<Datum>>) -> Result<(), AllocError>
    ensures bytes { OnOk result (out.new.items ≡ out.old.items ++ listed datum cells.now) }
    ensures typed { OnOk result (AreListed (λ cell. IsFull cell → IsDatum cell) cells.now) }
{
    put_list::<Datum>(out, cells)
}

fn cells_at(alloc: Global, bytes: &[u8]) -> Result<(Shared<List<Datum>>, &[u8]), DecodeFault>
    ensures { Gives (λ x. (x.0, x.1.now)) result (listed_at datum_at bytes.now) }
{
    let (cells, rest) = list_at::<Datum>(alloc, bytes)?;
    Ok((Shared::new(alloc, cells)?, rest))
}

fn props_at(alloc: Global, version: u32, bytes: &[u8]) -> Result<(List<Prop>, &[u8]), DecodeFault>
    ensures { Gives (λ x. (x.0, x.1.now)) result (props_at version bytes.now) }
{
    if version == 1 {
        return Ok((List::new(alloc), bytes));
    }
    list_at(alloc, bytes)
}

// Writes what stands in front of a message's cells at the end.
fn put_msg_front(out: &mut Vec<u8>, row: &MsgRow) -> Result<(), AllocError>
    ensures bytes { OnOk result (out.new.items ≡ out.old.items ++ msg_front row.now) }
    ensures typed { OnOk result (IsMsgFront row.now) }
{
    put_num(out, row.id)?;
    row.queue.put(out)?;
    put_ints(out, row.place.numbers())?;
    row.facts.priority.put(out)?;
    put_optional(out, &row.facts.corr)?;
    put_optional(out, &row.exception)
}

/// Writes a message at the end, in version 2.
pub(crate) fn put_msg_row(out: &mut Vec<u8>, row: &MsgRow) -> Result<(), AllocError>
    ensures bytes { OnOk result (out.new.items ≡ out.old.items ++ msg_row 2 row.now) }
    ensures typed { OnOk result (HasFullData row.now → IsMsgRow 2 row.now) }
{
    put_msg_front(out, row)?;
    put_cells(out, &row.facts.cells.cells)?;
    put_num(out, row.enq)?;
    put_num(out, row.group)?;
    put_flag(out, row.moved)?;
    put_list(out, &row.slots)?;
    put_list(out, &row.facts.props)
}

/// What stands in front of a message's cells.
pub(crate) struct MsgFront {
    id: u64,
    queue: Name,
    place: Place,
    priority: i64,
    corr: Option<Text>,
    exception: Option<Name>,
}

impl Drop for MsgFront {
    fn drop(self) {
        let Self {
            id: _,
            queue: _,
            place: _,
            priority: _,
            corr: _,
            exception: _,
        } = self;
    }
}

impl MsgFront {
    fn msg_behind(
        self,
        alloc: Global,
        version: u32,
        bytes: &[u8],
    ) -> Result<(MsgRow, &[u8]), DecodeFault>
        ensures { Gives (λ x. (x.0, x.1.now)) result (msg_behind_front version self bytes.now) }
    {
        let (cells, rest) = cells_at(alloc, bytes)?;
        let (enq, rest) = num_at(rest)?;
        let (group, rest) = num_at(rest)?;
        let (moved, rest) = flag_at(rest)?;
        let (slots, rest) = list_at(alloc, rest)?;
        let (props, rest) = props_at(alloc, version, rest)?;
        let Self {
            id,
            queue,
            place,
            priority,
            corr,
            exception,
        } = self;
        let facts = Facts {
            priority,
            corr,
            cells: Record { cells },
            props,
        };
        let row = MsgRow {
            id,
            queue,
            place,
            facts,
            exception,
            enq,
            group,
            moved,
            slots,
        };
        Ok((row, rest))
    }
}

/// The message at the front in a version, and what stands behind it.
#[tactic(auto, unfolding(crate::specs::Reading::msg_row_at))]
pub(crate) fn msg_row_at(
    alloc: Global,
    version: u32,
    bytes: &[u8],
) -> Result<(MsgRow, &[u8]), DecodeFault>
    ensures { Gives (λ x. (x.0, x.1.now)) result (msg_row_at version bytes.now) }
{
    let (id, rest) = num_at(bytes)?;
    let (queue, rest) = Name::at(alloc, rest)?;
    let (place, rest) = place_at(alloc, rest)?;
    let (priority, rest) = int_at(rest)?;
    let (corr, rest) = optional_at(alloc, rest)?;
    let (exception, rest) = optional_at(alloc, rest)?;
    let front = MsgFront {
        id,
        queue,
        place,
        priority,
        corr,
        exception,
    };
    front.msg_behind(alloc, version, rest)
}
