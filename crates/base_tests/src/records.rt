// The worked record types, records and properties, as JSON.
use payload_records::{
    Copied, Datum, Field, List, Payload, PayloadFault, Prop, PropFault, Record, RecordType,
    TypeFault,
};
use serde_json::Value;
use std::alloc::{AllocError, Global};
use std::test::Fail;

// A record type, and then rows: what is read, a JSON value, and what comes of it. Records and faults are those of a payload by that type.
const CASES: &str = r#"[
    {"region": "text", "qty": "num"},

    ["type", {}, true],
    ["type", {"region": "text", "qty": "num"}, true],
    ["type", [], false],
    ["type", {"Q": "num"}, false],
    ["type", {"qty": "int"}, false],
    ["type", {"qty": null}, false],

    ["record", {"qty": 3}, "{\"qty\":3,\"region\":null}"],
    ["record", {"qty": 9223372036854775807}, "{\"qty\":9223372036854775807,\"region\":null}"],
    ["record", {"region": ""}, "{\"qty\":null,\"region\":null}"],
    ["record", {"qty": ""}, "{\"qty\":null,\"region\":null}"],
    ["record", {"qty": null}, "{\"qty\":null,\"region\":null}"],
    ["record", {"region": "é", "qty": -5}, "{\"qty\":-5,\"region\":\"é\"}"],
    ["record", {"qty": -9223372036854775808}, "{\"qty\":-9223372036854775808,\"region\":null}"],

    ["fault", {"qty": 9223372036854775808}, ["wrong-kind", "qty"]],
    ["fault", [], ["not-object", ""]],
    ["fault", null, ["not-object", ""]],
    ["fault", {"zz": null}, ["unknown-field", "zz"]],
    ["fault", {"Q": 1}, ["unknown-field", "Q"]],
    ["fault", {"qty": "3"}, ["wrong-kind", "qty"]],
    ["fault", {"qty": 1.5}, ["wrong-kind", "qty"]],
    ["fault", {"qty": true}, ["wrong-kind", "qty"]],
    ["fault", {"region": {}}, ["wrong-kind", "region"]],
    ["fault", {"zz": 1, "qty": "3"}, ["wrong-kind", "qty"]],
    ["fault", {"region": 1, "b": 1}, ["unknown-field", "b"]],

    ["properties", {}, []],
    ["properties", {"zone": "n", "lvl": 2}, [["lvl", 2], ["zone", "n"]]],
    ["properties", {"a": null, "b": "", "c": 0}, [["c", 0]]],
    ["properties", {"Q": null}, null],
    ["properties", {"a": 1, "b": true}, null],
    ["properties", {"a": 9223372036854775808}, null],
    ["properties", [], null],
    ["properties", null, null]
]"#;

fn is_text(value: Option<&Value>, wanted: &str) -> bool {
    match value {
        Some(value) => value.as_str() == Some(wanted),
        None => false,
    }
}

// ---- types

fn is_type(alloc: Global, value: &Value, wanted: bool) -> bool {
    match RecordType::read(alloc, value) {
        Ok(kind) => wanted && kind.copied().is_ok(),
        Err(fault) => !wanted && fault == TypeFault::Bad,
    }
}

// ---- records

// What it is given may go to other threads.
fn needs_send<T: Send + Sync>(_: &T) {}

fn json_of(alloc: Global, kind: &RecordType, record: &Record) -> Result<Value, AllocError> {
    needs_send(record);
    let copy = record.copied()?;
    copy.to_json(alloc, kind)
}

fn is_json(alloc: Global, value: &Value, wanted: &Value) -> bool {
    match value.to_string(alloc) {
        Ok(text) => wanted.as_str() == Some(text.as_str()),
        Err(_) => false,
    }
}

fn is_printed(alloc: Global, kind: &RecordType, record: &Record, wanted: &Value) -> bool {
    match json_of(alloc, kind, record) {
        Ok(value) => is_json(alloc, &value, wanted),
        Err(_) => false,
    }
}

// What is wrong, and with which member.
fn told(fault: &PayloadFault) -> (&str, &str) {
    match fault {
        PayloadFault::NotObject => ("not-object", ""),
        PayloadFault::UnknownField(key) => ("unknown-field", key.as_str()),
        PayloadFault::WrongKind(name) => ("wrong-kind", name.as_str()),
        PayloadFault::TooLong(name) => ("too-long", name.as_str()),
        PayloadFault::Memory => ("memory", ""),
    }
}

fn is_told(fault: &PayloadFault, wanted: &Value) -> bool {
    let (what, member) = told(fault);
    is_text(wanted.get(0), what) && is_text(wanted.get(1), member)
}

fn is_fault(fault: &PayloadFault, wanted: &Value) -> bool {
    match fault.copied() {
        Ok(copy) => is_told(&copy, wanted),
        Err(_) => false,
    }
}

// Whether a payload gives the record of that JSON text, or that fault.
fn gives(alloc: Global, kind: &RecordType, payload: &Payload, wanted: &Value) -> bool {
    match Record::from_json(alloc, kind, payload) {
        Ok(record) => is_printed(alloc, kind, &record, wanted),
        Err(fault) => is_fault(&fault, wanted),
    }
}

fn payload_of(alloc: Global, value: &Value) -> Result<Payload, AllocError> {
    let payload = Payload::of(alloc, value)?;
    payload.copied()
}

fn is_record(alloc: Global, kind: &RecordType, value: &Value, wanted: &Value) -> bool {
    match payload_of(alloc, value) {
        Ok(payload) => gives(alloc, kind, &payload, wanted),
        Err(_) => false,
    }
}

// ---- properties

fn is_prop(prop: &Prop, wanted: &Value) -> bool {
    is_text(wanted.get(0), prop.name.as_str())
        && match (&prop.value, wanted.get(1)) {
            (Datum::Num(number), Some(value)) => value.as_i64() == Some(*number),
            (Datum::Text(text), value) => is_text(value, text.as_str()),
            _ => false,
        }
}

fn are_props(props: &List<Prop>, wanted: &Value) -> bool {
    for (at, prop) in props.iter().enumerate() {
        match wanted.get(at) {
            Some(wanted) if is_prop(prop, wanted) => {}
            _ => return false,
        }
    }
    wanted.is_array() && wanted.get(props.len()).is_none()
}

fn gives_props(alloc: Global, value: &Value, wanted: &Value) -> bool {
    match Prop::read_all(alloc, value) {
        Ok(props) => are_props(&props, wanted),
        Err(fault) => wanted.is_null() && fault == PropFault::Bad,
    }
}

// ---- all

fn is_right(alloc: Global, kind: &RecordType, row: &Value) -> bool {
    let (Some(value), Some(wanted)) = (row.get(1), row.get(2)) else {
        return false;
    };
    if is_text(row.get(0), "type") {
        is_type(alloc, value, wanted.as_bool() == Some(true))
    } else if is_text(row.get(0), "properties") {
        gives_props(alloc, value, wanted)
    } else {
        is_record(alloc, kind, value, wanted)
    }
}

// The number of the first row that does not hold, or is not there.
fn first_wrong(alloc: Global, kind: &RecordType, cases: &Value) -> usize {
    for at in 1..usize::MAX {
        match cases.get(at) {
            Some(row) if is_right(alloc, kind, row) => {}
            _ => return at,
        }
    }
    0
}

fn first_wrong_by(alloc: Global, kind: &Value, cases: &Value) -> usize {
    match RecordType::read(alloc, kind) {
        Ok(kind) => first_wrong(alloc, &kind, cases),
        Err(_) => 0,
    }
}

fn first_wrong_of(alloc: Global, cases: &Value) -> usize {
    match cases.get(0) {
        Some(kind) => first_wrong_by(alloc, kind, cases),
        None => 0,
    }
}

fn first_wrong_case(alloc: Global) -> Result<usize, Fail> {
    let cases = Value::from_str(alloc, CASES)?;
    Ok(first_wrong_of(alloc, &cases))
}

#[test]
fn types_records_and_properties_are_read(rt: HostRuntime) -> Result<(), Fail> {
    let wrong = first_wrong_case(rt.alloc())?;
    assert!(rt; wrong == 33, "row {wrong}");
    Ok(())
}

// ---- the longest text

fn add_letters(text: &mut String, len: usize) -> Result<(), AllocError> {
    for _ in 0..len {
        text.push('x')?;
    }
    text.push_str("\"}")
}

// An object of one text of that length.
fn long_text(alloc: Global, len: usize) -> Result<String, AllocError> {
    let mut text = String::from_str(alloc, "{\"region\":\"")?;
    add_letters(&mut text, len)?;
    Ok(text)
}

fn value_of(alloc: Global, len: usize) -> Result<Value, Fail> {
    let text = long_text(alloc, len)?;
    Ok(Value::from_str(alloc, text.as_str())?)
}

fn is_taken(alloc: Global, kind: &Value, value: &Value, wanted: &Value) -> bool {
    match RecordType::read(alloc, kind) {
        Ok(kind) => is_record(alloc, &kind, value, wanted),
        Err(_) => false,
    }
}

// Whether a payload of a text that long comes to that print of a record, or that fault.
fn comes_to(alloc: Global, len: usize, wanted: &Value) -> Result<bool, Fail> {
    let kind = Value::from_str(alloc, "{\"region\":\"text\"}")?;
    let value = value_of(alloc, len)?;
    Ok(is_taken(alloc, &kind, &value, wanted))
}

fn is_printed_whole(alloc: Global) -> Result<bool, Fail> {
    let printed = Value::String(long_text(alloc, 4000)?);
    comes_to(alloc, 4000, &printed)
}

fn is_too_long(alloc: Global) -> Result<bool, Fail> {
    let fault = Value::from_str(alloc, "[\"too-long\",\"region\"]")?;
    comes_to(alloc, 4001, &fault)
}

#[test]
fn texts_of_records_have_a_limit(rt: HostRuntime) -> Result<(), Fail> {
    assert!(rt; is_printed_whole(rt.alloc())?);
    assert!(rt; is_too_long(rt.alloc())?);
    Ok(())
}
