// The text of a record, its type and properties, written straight into the text that it is a part of.
ghost use Rattle.std.specs.Prelude.{◌≡◌, OnOk, option_copied};
ghost use Rattle.serde_json.specs.Written.{comma_if};
ghost use Rattle.transcript.specs.Record.{cells_text, record_text, kind_word, fields_text, props_object, props_text, datum_text, member_text, member_of};
ghost use Rattle.transcript.specs.Text.{Writes, json_text};

use crate::text::{put_json, put_signed};
use payload_records::{Datum, Field, Kind, List, Prop, Record, RecordType};
use queue_rows::Shown;
use std::alloc::AllocError;

#[tactic(auto, using(crate::proofs::Objects::number_shown))]
fn put_datum(out: &mut String, datum: Option<&Datum>) -> Result<(), AllocError>
    ensures { OnOk result (Writes out.old out.new (datum_text (option_copied datum.entry))) }
{
    match datum {
        None | Some(Datum::Null) => out.push_str("null"),
        Some(Datum::Num(number)) => put_signed(out, *number),
        Some(Datum::Text(text)) => put_json(out, text.as_str()),
    }
}

/// Puts a comma in where something stands before.
pub(crate) fn put_comma_if(out: &mut String, later: bool) -> Result<(), AllocError>
    ensures { OnOk result (Writes out.old out.new (comma_if later)) }
{
    if later { out.push(',') } else { Ok(()) }
}

fn put_member(
    out: &mut String,
    later: bool,
    name: &str,
    datum: Option<&Datum>,
) -> Result<(), AllocError>
    ensures { OnOk result (Writes out.old out.new (member_of later name.now (option_copied datum.entry))) }
{
    put_comma_if(out, later)?;
    put_json(out, name)?;
    out.push(':')?;
    put_datum(out, datum)
}

/// Puts a record in as a JSON object, by its type: every field, a null one too.
pub(crate) fn put_cells(
    out: &mut String,
    kind: &RecordType,
    values: &Record,
) -> Result<(), AllocError>
    ensures { OnOk result (Writes out.old out.new (cells_text kind.now values.now.cells)) }
{
    out.push('{')?;
    let mut cells = values.cells.iter();
    let mut later = false;
    for field in kind.fields() {
        let datum = cells.next();
        put_member(out, later, field.name.as_str(), datum)?;
        later = true;
    }
    out.push('}')
}

/// Puts a record in as a JSON object.
pub(crate) fn put_record(out: &mut String, shown: &Shown) -> Result<(), AllocError>
    ensures { OnOk result (Writes out.old out.new (record_text shown.now)) }
{
    put_cells(out, &shown.kind, &shown.cells)
}

fn kind_word(kind: Kind) -> &'static str
    ensures { result.now ≡ kind_word kind }
{
    match kind {
        Kind::Num => "num",
        Kind::Text => "text",
    }
}

fn put_field(out: &mut String, later: bool, field: &Field) -> Result<(), AllocError>
    ensures { OnOk result (Writes out.old out.new
        (member_text later field.now.name (json_text (kind_word field.now.kind)))) }
{
    put_comma_if(out, later)?;
    put_json(out, field.name.as_str())?;
    out.push(':')?;
    put_json(out, kind_word(field.kind))
}

/// Puts a record type in as a JSON object: the name of each field with the word of its kind.
pub(crate) fn put_fields(out: &mut String, kind: &RecordType) -> Result<(), AllocError>
    ensures { OnOk result (Writes out.old out.new (fields_text kind.now)) }
{
    out.push_str("{")?;
    let mut later = false;
    for field in kind.fields() {
        put_field(out, later, field)?;
        later = true;
    }
    out.push_str("}")
}

fn put_props_object(out: &mut String, props: &List<Prop>) -> Result<(), AllocError>
    ensures { OnOk result (Writes out.old out.new (props_object props.now)) }
{
    out.push_str("{")?;
    let mut later = false;
    for prop in props {
        put_member(out, later, prop.name.as_str(), Some(&prop.value))?;
        later = true;
    }
    out.push_str("}")
}

/// Puts properties in as a JSON object behind a word; nothing where there are none.
pub(crate) fn put_props(out: &mut String, props: &List<Prop>) -> Result<(), AllocError>
    ensures { OnOk result (Writes out.old out.new (props_text props.now)) }
{
    if props.len() == 0 {
        return Ok(());
    }
    out.push_str(" props ")?;
    put_props_object(out, props)
}
