// Messages that are right.
ghost use Rattle.std.specs.Prelude.{◌≡◌, false, pos, map, option_copied};
ghost use Rattle.std.specs.List.{list_all};
ghost use Rattle.std.specs.Option.{option_map_or};
ghost use Rattle.std.specs.Ordering.{int_cmp, is_eq};
ghost use Rattle.payload_records.specs.Order.{are_ascending};
ghost use Rattle.payload_records.specs.Props.{are_props, is_value};
ghost use Rattle.place_keys.specs.Place.{last_number};
ghost use Rattle.queue_rows.specs.Valid.{is_right_queue, is_of_kind, are_of_kinds, has_right_cells, has_right_ids, has_right_place, has_right_lane, has_right_props, is_valid_message_in, is_valid_message};

use crate::catalog::Catalog;
use crate::named::NamedRows;
use crate::slots::has_right_slots;
use payload_records::{Datum, Field, Kind, List, PROP_LIMIT, Prop};
use place_keys::{BEFORE_LIMIT, Place};
use queue_rows::{MsgRow, QueueRow, TableRow, Tables, lane_of};

// A normal queue where it is not moved, an exception queue where it is.
fn is_right_queue(message: &MsgRow, queue: &QueueRow) -> bool
    ensures { result ≡ is_right_queue message.now queue.now }
{
    if message.moved {
        queue.kind.is_exception()
    } else {
        !queue.kind.is_exception()
    }
}

// ---- its payload

// A null is of every kind.
fn is_of_kind(kind: Kind, cell: &Datum) -> bool
    ensures { result ≡ is_of_kind kind cell.now }
{
    match (kind, cell) {
        (_, Datum::Null) => true,
        (Kind::Num, Datum::Num(_)) => true,
        (Kind::Num, Datum::Text(_)) => false,
        (Kind::Text, Datum::Num(_)) => false,
        (Kind::Text, Datum::Text(_)) => true,
    }
}

fn are_of_kinds(fields: &List<Field>, cells: &List<Datum>) -> bool
    ensures { result ≡ are_of_kinds fields.now cells.now }
{
    fields
        .iter()
        .zip(cells.iter())
        .all(|(field, cell)| is_of_kind(field.kind, cell))
}

// The payload has the cells and kinds of the table.
fn has_right_cells(table: &TableRow, message: &MsgRow) -> bool
    ensures { result ≡ has_right_cells table.now message.now }
{
    let fields = table.fields.fields();
    let cells = &message.facts.cells.cells;
    cells.len() == fields.len() && are_of_kinds(fields, cells)
}

// ---- its numbers and its place

// The id is at least 1 and below the next one, and the group likewise.
fn has_right_ids(tables: &Tables, message: &MsgRow) -> bool
    ensures { result ≡ has_right_ids tables.now message.now }
{
    1 <= message.id
        && message.id < tables.next
        && 1 <= message.group
        && message.group < tables.transaction
}

fn ends_with(place: &Place, id: u64) -> bool
    ensures { result ≡ option_map_or (λ last. is_eq (int_cmp last (pos id))) (last_number place.now) false }
{
    match place.numbers().last() {
        Some(last) => i128::from(*last) == i128::from(id),
        None => false,
    }
}

// The place has the lane, the table's columns, the sequence and at most 16 before-numbers, and ends with the id.
fn has_right_place(table: &TableRow, message: &MsgRow) -> bool
    ensures { result ≡ has_right_place table.now message.now }
{
    let numbers = message.place.numbers().len();
    let least = table.columns.columns().len() + 2;
    least <= numbers && numbers <= least + BEFORE_LIMIT && ends_with(&message.place, message.id)
}

// The queue's lowest lane is at most the message's, where the table is not grouped.
fn has_right_lane(table: &TableRow, queue: &QueueRow, message: &MsgRow) -> bool
    ensures { result ≡ has_right_lane table.now queue.now message.now }
{
    table.grouped || queue.lowest <= lane_of(&message.place)
}

// ---- its properties

fn is_value(value: &Datum) -> bool
    ensures { result ≡ is_value value.now }
{
    match value {
        Datum::Null => false,
        Datum::Num(_) => true,
        Datum::Text(text) => !text.as_str().is_empty(),
    }
}

fn are_ascending(props: &List<Prop>) -> bool
    ensures { result ≡ are_ascending (map (λ p. p.name) props.now) }
{
    let mut rest = props.iter();
    let Some(mut before) = rest.next() else {
        return true;
    };
    for prop in rest {
        if before.name >= prop.name {
            return false;
        }
        before = prop;
    }
    true
}

fn are_values(props: &List<Prop>) -> bool
    ensures { result ≡ list_all (λ p. is_value p.value) props.now }
{
    props.iter().all(|prop| is_value(&prop.value))
}

// They stand in byte order of their names, each name once, and none is null or an empty text.
fn are_props(props: &List<Prop>) -> bool
    ensures { result ≡ are_props props.now }
{
    are_ascending(props) && are_values(props)
}

fn has_right_props(message: &MsgRow) -> bool
    ensures { result ≡ has_right_props message.now }
{
    message.facts.props.len() <= PROP_LIMIT && are_props(&message.facts.props)
}

// ---- all of it

fn is_valid_message_in(
    tables: &Tables,
    queue: &QueueRow,
    table: Option<&TableRow>,
    message: &MsgRow,
) -> bool
    ensures { result ≡ is_valid_message_in tables.now queue.now (option_copied table.entry) message.now }
{
    let Some(table) = table else {
        return false;
    };
    is_right_queue(message, queue)
        && has_right_cells(table, message)
        && has_right_ids(tables, message)
        && has_right_place(table, message)
        && has_right_lane(table, queue, message)
        && has_right_props(message)
        && message.enq <= tables.latest
        && has_right_slots(tables, table, queue, message)
}

/// Whether the message stands in a queue that is there, and is right for it and its table. It takes no memory.
pub fn is_valid_message<R: NamedRows>(rows: &R, message: &MsgRow) -> bool
    ensures { result ≡ is_valid_message (R.tables rows.now) message.now }
{
    match rows.queue(&message.queue) {
        Some(queue) => {
            is_valid_message_in(rows.tables(), queue, rows.table(&queue.table), message)
        }
        None => false,
    }
}

/// Whether each message is right.
pub(crate) fn are_valid_messages(catalog: &Catalog<'_>) -> bool
    ensures { result ≡ list_all (is_valid_message catalog.now) catalog.now.messages }
{
    catalog
        .tables()
        .messages
        .iter()
        .all(|message| is_valid_message(catalog, message))
}
