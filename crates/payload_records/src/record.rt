// Records: one datum for each field of a record type.
ghost use Rattle.std.specs.Prelude.{◌≡◌, ◌≢◌, IfOk, IfErr, OnOk, Ok, Err, false, Some, None, option_copied, find};
ghost use Rattle.std.specs.Str.{bytes_eq};
ghost use Rattle.std.specs.Option.{option_map_or};
ghost use Rattle.serde_json.specs.Data.{null, object, put};
ghost use Rattle.serde_json.specs.View.{view, members_view};
ghost use Rattle.serde_json.specs.Written.{has_float};
ghost use Rattle.payload_records.specs.Record.{value_fault, member_fault, first_fault, datum_of, cell_of, cells_of, record_of, datum_json, members_json};
ghost use Rattle.payload_records.specs.declared.record.PayloadFault.TheVariants.{Memory};

use crate::{
    Copied, Field, Kind, List, Loose, Member, Name, Payload, RecordType, Shared, TEXT_LIMIT, Text,
};
use serde_json::{Map, Value};
use std::alloc::{AllocError, Global};

/// What a record holds for a field.
#[derive(Debug, PartialEq, Eq, Drop)]
pub enum Datum {
    /// Nothing. An empty text is nothing too.
    Null,
    /// A whole number.
    Num(i64),
    /// A text of 4,000 bytes at most.
    Text(Text),
}

/// A record: one datum for each field of its type, in the order of the fields.
#[derive(Debug, PartialEq, Eq, Drop)]
pub struct Record {
    /// The data.
    pub cells: Shared<List<Datum>>,
}

/// Why a payload is no record of a type.
#[derive(Debug, PartialEq, Eq, Drop)]
pub enum PayloadFault {
    /// It is no object.
    NotObject,
    /// The type has no field with this key.
    UnknownField(Text),
    /// The value for this field is of another kind.
    WrongKind(Name),
    /// The text for this field has more than 4,000 bytes.
    TooLong(Name),
    /// There was no memory for the answer.
    Memory,
}

impl From<AllocError> for PayloadFault {
    ghost from_gives = { λ _ e. e ≡ Memory };

    fn from(_: AllocError) -> Self {
        PayloadFault::Memory
    }
}

fn judge_value(field: &Field, value: &Loose) -> Result<(), PayloadFault>
    ensures right { OnOk result (value_fault field.now.kind field.now.name value.now ≡ None) }
    ensures fault { IfErr result
        (λ e. e ≢ PayloadFault.Memory → value_fault field.now.kind field.now.name value.now ≡ Some e) }
{
    match (field.kind, value) {
        (_, Loose::Null) => Ok(()),
        (Kind::Num, Loose::Num(_)) => Ok(()),
        (Kind::Num, Loose::Text(text)) if text.as_str().is_empty() => Ok(()),
        (Kind::Text, Loose::Text(text)) if text.as_str().len() <= TEXT_LIMIT => Ok(()),
        (Kind::Text, Loose::Text(_)) => Err(PayloadFault::TooLong(field.name.copied()?)),
        _ => Err(PayloadFault::WrongKind(field.name.copied()?)),
    }
}

fn field_of<'a>(fields: &'a List<Field>, key: &str) -> Option<&'a Field>
    ensures { option_copied result ≡ find (λ f. bytes_eq f.name key.now) fields.now }
{
    fields.iter().find(|field| field.name.as_str() == key)
}

fn judge(fields: &List<Field>, member: &Member) -> Result<(), PayloadFault>
    ensures right { OnOk result (member_fault fields.now member.now ≡ None) }
    ensures fault { IfErr result
        (λ e. e ≢ PayloadFault.Memory → member_fault fields.now member.now ≡ Some e) }
{
    match field_of(fields, member.key.as_str()) {
        Some(field) => judge_value(field, &member.value),
        None => Err(PayloadFault::UnknownField(member.key.copied()?)),
    }
}

fn judge_all(fields: &List<Field>, members: &List<Member>) -> Result<(), PayloadFault>
    ensures right { OnOk result (first_fault fields.now members.now ≡ None) }
    ensures fault { IfErr result
        (λ e. e ≢ PayloadFault.Memory → first_fault fields.now members.now ≡ Some e) }
{
    for member in members {
        judge(fields, member)?;
    }
    Ok(())
}

impl Datum {
    pub(crate) fn of(value: &Loose) -> Result<Datum, AllocError>
        ensures { IfOk result (λ d. d ≡ datum_of value.now) }
    {
        match value {
            Loose::Num(number) => Ok(Datum::Num(*number)),
            Loose::Text(text) if !text.as_str().is_empty() => Ok(Datum::Text(text.copied()?)),
            _ => Ok(Datum::Null),
        }
    }
}

fn json_of(alloc: Global, cell: Option<&Datum>) -> Result<Value, AllocError>
    ensures { IfOk result (λ v. view v ≡ option_map_or datum_json (option_copied cell.entry) null) }
{
    match cell {
        None | Some(Datum::Null) => Ok(Value::Null),
        Some(Datum::Num(number)) => Ok(Value::from(*number)),
        Some(Datum::Text(text)) => Ok(Value::String(String::from_str(alloc, text.as_str())?)),
    }
}

fn put(
    alloc: Global,
    members: &mut Map<String, Value>,
    key: &str,
    value: Value,
) -> Result<(), AllocError>
    ensures { OnOk result
        (members_view members.new.entries ≡ put key.now (view value) (members_view members.old.entries)) }
{
    let key = String::from_str(alloc, key)?;
    drop(members.insert(key, value)?);
    Ok(())
}

fn member_of<'a>(members: &'a List<Member>, name: &str) -> Option<&'a Member>
    ensures { option_copied result ≡ find (λ m. bytes_eq m.key name.now) members.now }
{
    members.iter().find(|member| member.key.as_str() == name)
}

fn cell_of(members: &List<Member>, name: &str) -> Result<Datum, AllocError>
    ensures { IfOk result (λ d. d ≡ cell_of members.now name.now) }
{
    match member_of(members, name) {
        Some(member) => Datum::of(&member.value),
        None => Ok(Datum::Null),
    }
}

fn cells_of(
    alloc: Global,
    fields: &List<Field>,
    members: &List<Member>,
) -> Result<List<Datum>, AllocError>
    ensures { IfOk result (λ cells. cells ≡ cells_of fields.now members.now) }
{
    // Messages and histories keep records: so there is room for these cells, and for no more.
    let mut cells = List::from_vec(Vec::with_capacity(alloc, fields.len())?);
    for field in fields {
        cells.push(cell_of(members, field.name.as_str())?)?;
    }
    Ok(cells)
}

impl Record {
    /// The record that a payload is by a type: for each field the datum of the member with its
    /// name, and null where there is none. The fault is that of the first faulty member.
    pub fn from_json(
        alloc: Global,
        kind: &RecordType,
        value: &Payload,
    ) -> Result<Record, PayloadFault>
        ensures ok { IfOk result (λ r. record_of kind.now value.now ≡ Ok r) }
        ensures fault { IfErr result
            (λ e. e ≢ PayloadFault.Memory → record_of kind.now value.now ≡ Err e) }
    {
        let fields = kind.fields();
        let members = match value {
            Payload::NotObject => return Err(PayloadFault::NotObject),
            Payload::Members(members) => members,
        };
        judge_all(fields, members)?;
        let cells = cells_of(alloc, fields, members)?;
        Ok(Record {
            cells: Shared::new(alloc, cells)?,
        })
    }

    /// The record as a JSON object: every field of the type with its cell, null ones and those
    /// that the record lacks as null. No number in it has a fraction, so its text is exact.
    pub fn to_json(&self, alloc: Global, kind: &RecordType) -> Result<Value, AllocError>
        ensures object { IfOk result (λ v. view v ≡ object (members_json kind.now self.now.cells)) }
        ensures exact { IfOk result (λ v. has_float (view v) ≡ false) }
    {
        let mut members = Map::new(alloc);
        let fields = kind.fields();
        let mut cells = self.cells.iter();
        for field in fields {
            let value = json_of(alloc, cells.next())?;
            put(alloc, &mut members, field.name.as_str(), value)?;
        }
        Ok(Value::Object(members))
    }
}

impl Copied for Datum {
    fn copied(&self) -> Result<Self, AllocError> {
        match self {
            Datum::Null => Ok(Datum::Null),
            Datum::Num(number) => Ok(Datum::Num(*number)),
            Datum::Text(text) => Ok(Datum::Text(text.copied()?)),
        }
    }
}

impl Copied for Record {
    fn copied(&self) -> Result<Self, AllocError> {
        Ok(Record {
            cells: self.cells.copied()?,
        })
    }
}

impl Copied for PayloadFault {
    fn copied(&self) -> Result<Self, AllocError> {
        match self {
            PayloadFault::NotObject => Ok(PayloadFault::NotObject),
            PayloadFault::UnknownField(key) => Ok(PayloadFault::UnknownField(key.copied()?)),
            PayloadFault::WrongKind(name) => Ok(PayloadFault::WrongKind(name.copied()?)),
            PayloadFault::TooLong(name) => Ok(PayloadFault::TooLong(name.copied()?)),
            PayloadFault::Memory => Ok(PayloadFault::Memory),
        }
    }
}
