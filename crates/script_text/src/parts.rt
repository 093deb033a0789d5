// What a value says as a session's place, a queue's kind, a sort list, an id, or another part of a statement.
ghost use Rattle.std.specs.Prelude.{◌≡◌, IfOk, IfSome, IsErrOf, Some, None, nat_le, true};
ghost use Rattle.aq_base.specs.declared.limits.TheConstants.{ID_LIMIT};
ghost use Rattle.std.specs.Char.{is_ascii_digit};
ghost use Rattle.std.specs.List.{list_all};
ghost use Rattle.serde_json.specs.View.{view, items_view};
ghost use Rattle.payload_records.specs.Order.{is_in_order};
ghost use Rattle.payload_records.specs.Payload.{has_ascending_keys};
ghost use Rattle.queue_rows.specs.Within.{if_some, is_session_name, are_fields, is_id, are_props_within};
ghost use Rattle.script_text.specs.Member.{each_item};
ghost use Rattle.script_text.specs.Parts.{is_reserved, session_at, place_of, place_at, fields_at, column_of, column_in, as_sort_list, sort_in, sort_at, grouping_of, grouping_in, grouping_at, kind_of, kind_in, kind_at, is_counting, id_number, id_of, id_of_text, id_in, id_if_given, payload_at, props_at, visibility_of, visibility_in, visibility_at, mode_of, mode_in, mode_at, navigation_of, navigation_in, navigation_at};

use crate::fault::LineFault;
use crate::member::{given_at, name_at, text_at};
use aq_base::{DbId, ID_LIMIT};
use payload_records::{List, Name, Payload, Prop, PropFault, RecordType, TypeFault};
use place_keys::{Column, SortList};
use queue_rows::{Mode, MsgId, Navigation, QueueKind, Visibility};
use serde_json::Value;
use std::alloc::Global;

fn is_reserved(name: &str) -> bool
    ensures { result ≡ is_reserved name.now }
{
    name == "timer" || name == "offer" || name == "arrive" || name == "confirm"
}

/// The name of a session that is declared, none of those that transcripts use otherwise.
pub fn session_at(alloc: Global, value: &Value) -> Result<Name, LineFault>
    ensures ok { IfOk result (λ name. session_at (view value.now) ≡ Some name) }
    ensures named { IfOk result (λ name. is_session_name name ≡ true) }
    ensures bad { IsErrOf result LineFault.Bad → session_at (view value.now) ≡ None }
{
    let name = name_at(alloc, value, "session")?;
    if is_reserved(name.as_str()) {
        return Err(LineFault::Bad);
    }
    Ok(name)
}

fn place_of(text: &str) -> Option<DbId>
    ensures { result ≡ place_of text.now }
{
    if text == "home" {
        Some(DbId::Home)
    } else if text == "away" {
        Some(DbId::Away)
    } else {
        None
    }
}

/// The database of a session that is declared.
pub fn place_at(value: &Value) -> Option<DbId>
    ensures { result ≡ place_at (view value.now) }
{
    place_of(text_at(value, "at")?)
}

/// The record type that the member for the fields is.
pub fn fields_at(alloc: Global, value: &Value) -> Result<RecordType, LineFault>
    ensures ok { IfOk result (λ fields. fields_at (view value.now) ≡ Some fields) }
    ensures within { IfOk result (λ fields. are_fields fields ≡ true) }
    ensures ordered { IfOk result (λ fields. is_in_order fields ≡ true) }
    ensures bad { IsErrOf result LineFault.Bad → fields_at (view value.now) ≡ None }
{
    let Some(fields) = value.get("fields") else {
        return Err(LineFault::Bad);
    };
    match RecordType::read(alloc, fields) {
        Ok(fields) => Ok(fields),
        Err(TypeFault::Bad) => Err(LineFault::Bad),
        Err(TypeFault::Memory) => Err(LineFault::Memory),
    }
}

fn column_of(text: &str) -> Option<Column>
    ensures { result ≡ column_of text.now }
{
    if text == "priority" {
        Some(Column::Priority)
    } else if text == "enq_time" {
        Some(Column::EnqTime)
    } else if text == "commit_time" {
        Some(Column::CommitTime)
    } else {
        None
    }
}

fn column_in(value: &Value) -> Option<Column>
    ensures { result ≡ column_in (view value.now) }
{
    column_of(value.as_str()?)
}

fn columns_in(alloc: Global, items: &[Value]) -> Result<List<Column>, LineFault>
    ensures ok { IfOk result (λ columns. each_item column_in (items_view items.now) ≡ Some columns) }
    ensures bad { IsErrOf result LineFault.Bad → each_item column_in (items_view items.now) ≡ None }
{
    let mut columns = List::new(alloc);
    for item in items {
        let column = column_in(item).ok_or(LineFault::Bad)?;
        columns.push(column)?;
    }
    Ok(columns)
}

fn as_sort_list(columns: List<Column>) -> Option<SortList>
    ensures { result ≡ as_sort_list columns }
{
    SortList::of(columns)
}

fn sort_in(alloc: Global, value: &Value) -> Result<SortList, LineFault>
    ensures ok { IfOk result (λ sort. sort_in (view value.now) ≡ Some sort) }
    ensures bad { IsErrOf result LineFault.Bad → sort_in (view value.now) ≡ None }
{
    let Some(items) = value.as_array() else {
        return Err(LineFault::Bad);
    };
    let columns = columns_in(alloc, items)?;
    as_sort_list(columns).ok_or(LineFault::Bad)
}

/// What a table is sorted by.
pub fn sort_at(alloc: Global, value: &Value) -> Result<SortList, LineFault>
    ensures ok { IfOk result (λ sort. sort_at (view value.now) ≡ Some sort) }
    ensures bad { IsErrOf result LineFault.Bad → sort_at (view value.now) ≡ None }
{
    match given_at(value, "sort") {
        Some(member) => sort_in(alloc, member),
        None => Ok(SortList::by_enqueue_time(alloc)?),
    }
}

fn grouping_of(text: &str) -> Option<bool>
    ensures { result ≡ grouping_of text.now }
{
    if text == "none" {
        Some(false)
    } else if text == "transactional" {
        Some(true)
    } else {
        None
    }
}

fn grouping_in(value: &Value) -> Option<bool>
    ensures { result ≡ grouping_in (view value.now) }
{
    grouping_of(value.as_str()?)
}

/// Whether the messages of one commit stand together.
pub fn grouping_at(value: &Value) -> Result<bool, LineFault>
    ensures ok { IfOk result (λ grouped. grouping_at (view value.now) ≡ Some grouped) }
    ensures bad { IsErrOf result LineFault.Bad → grouping_at (view value.now) ≡ None }
{
    match given_at(value, "grouping") {
        Some(member) => grouping_in(member).ok_or(LineFault::Bad),
        None => Ok(false),
    }
}

fn kind_of(text: &str) -> Option<QueueKind>
    ensures { result ≡ kind_of text.now }
{
    if text == "normal" {
        Some(QueueKind::Normal)
    } else if text == "exception" {
        Some(QueueKind::Exception)
    } else {
        None
    }
}

fn kind_in(value: &Value) -> Option<QueueKind>
    ensures { result ≡ kind_in (view value.now) }
{
    kind_of(value.as_str()?)
}

/// What a queue is for.
pub fn kind_at(value: &Value) -> Result<QueueKind, LineFault>
    ensures ok { IfOk result (λ kind. kind_at (view value.now) ≡ Some kind) }
    ensures bad { IsErrOf result LineFault.Bad → kind_at (view value.now) ≡ None }
{
    match given_at(value, "kind") {
        Some(member) => kind_in(member).ok_or(LineFault::Bad),
        None => Ok(QueueKind::Normal),
    }
}

fn are_digits(text: &[u8]) -> bool
    ensures { result ≡ list_all is_ascii_digit text.now }
{
    text.iter().all(|byte| byte.is_ascii_digit())
}

fn is_counting(text: &[u8]) -> bool
    ensures { result ≡ is_counting text.now }
{
    match text {
        [] => false,
        [first, ..] => *first != b'0' && are_digits(text),
    }
}

fn id_number(digits: &str) -> Option<u64>
    ensures number { result ≡ id_number digits.now }
    ensures least { IfSome result (λ n. nat_le 1 n ≡ true) }
    ensures most { IfSome result (λ n. nat_le n ID_LIMIT ≡ true) }
{
    if !is_counting(digits.as_bytes()) {
        return None;
    }
    let number = digits.parse::<u64>().ok()?;
    if number > ID_LIMIT {
        None
    } else {
        Some(number)
    }
}

fn id_of(db: DbId, digits: &str) -> Option<MsgId>
    ensures id { result ≡ id_of db digits.now }
    ensures within { IfSome result (λ id. is_id id ≡ true) }
{
    let number = id_number(digits)?;
    Some(MsgId { db, number })
}

fn id_of_text(text: &str) -> Option<MsgId>
    ensures id { result ≡ id_of_text text.now }
    ensures within { IfSome result (λ id. is_id id ≡ true) }
{
    if let Some(digits) = text.strip_prefix('h') {
        return id_of(DbId::Home, digits);
    }
    id_of(DbId::Away, text.strip_prefix('a')?)
}

fn id_in(value: &Value) -> Option<MsgId>
    ensures id { result ≡ id_in (view value.now) }
    ensures within { IfSome result (λ id. is_id id ≡ true) }
{
    id_of_text(value.as_str()?)
}

/// The message that a member names, where it is given.
pub fn id_if_given(value: &Value, key: &str) -> Result<Option<MsgId>, LineFault>
    ensures ok { IfOk result (λ id. id_if_given key.now (view value.now) ≡ Some id) }
    ensures within { IfOk result (λ id. if_some is_id id ≡ true) }
    ensures bad { IsErrOf result LineFault.Bad → id_if_given key.now (view value.now) ≡ None }
{
    match given_at(value, key) {
        Some(member) => Ok(Some(id_in(member).ok_or(LineFault::Bad)?)),
        None => Ok(None),
    }
}

/// The payload that an enqueue gives.
pub fn payload_at(alloc: Global, value: &Value) -> Result<Payload, LineFault>
    ensures ok { IfOk result (λ payload. payload_at (view value.now) ≡ Some payload) }
    ensures within { IfOk result (λ payload. has_ascending_keys payload ≡ true) }
    ensures bad { IsErrOf result LineFault.Bad → payload_at (view value.now) ≡ None }
{
    let Some(payload) = value.get("payload") else {
        return Err(LineFault::Bad);
    };
    Ok(Payload::of(alloc, payload)?)
}

/// The properties that an enqueue gives.
pub fn props_at(alloc: Global, value: &Value) -> Result<List<Prop>, LineFault>
    ensures ok { IfOk result (λ props. props_at (view value.now) ≡ Some props) }
    ensures within { IfOk result (λ props. are_props_within props ≡ true) }
    ensures bad { IsErrOf result LineFault.Bad → props_at (view value.now) ≡ None }
{
    let Some(member) = given_at(value, "props") else {
        return Ok(List::new(alloc));
    };
    match Prop::read_all(alloc, member) {
        Ok(props) => Ok(props),
        Err(PropFault::Bad) => Err(LineFault::Bad),
        Err(PropFault::Memory) => Err(LineFault::Memory),
    }
}

fn visibility_of(text: &str) -> Option<Visibility>
    ensures { result ≡ visibility_of text.now }
{
    if text == "on_commit" {
        Some(Visibility::OnCommit)
    } else if text == "immediate" {
        Some(Visibility::Immediate)
    } else {
        None
    }
}

/// When what a statement does is to be seen by others, as a value says it.
pub fn visibility_in(value: &Value) -> Option<Visibility>
    ensures { result ≡ visibility_in (view value.now) }
{
    visibility_of(value.as_str()?)
}

/// When what a statement does is to be seen by others.
pub fn visibility_at(value: &Value) -> Result<Visibility, LineFault>
    ensures ok { IfOk result (λ visibility. visibility_at (view value.now) ≡ Some visibility) }
    ensures bad { IsErrOf result LineFault.Bad → visibility_at (view value.now) ≡ None }
{
    match given_at(value, "visibility") {
        Some(member) => visibility_in(member).ok_or(LineFault::Bad),
        None => Ok(Visibility::OnCommit),
    }
}

fn mode_of(text: &str) -> Option<Mode>
    ensures { result ≡ mode_of text.now }
{
    if text == "remove" {
        Some(Mode::Remove)
    } else if text == "browse" {
        Some(Mode::Browse)
    } else if text == "locked" {
        Some(Mode::Locked)
    } else if text == "remove_nodata" {
        Some(Mode::RemoveNodata)
    } else {
        None
    }
}

fn mode_in(value: &Value) -> Option<Mode>
    ensures { result ≡ mode_in (view value.now) }
{
    mode_of(value.as_str()?)
}

/// What is to become of a message that a dequeue gives.
pub fn mode_at(value: &Value) -> Result<Mode, LineFault>
    ensures ok { IfOk result (λ mode. mode_at (view value.now) ≡ Some mode) }
    ensures bad { IsErrOf result LineFault.Bad → mode_at (view value.now) ≡ None }
{
    match given_at(value, "mode") {
        Some(member) => mode_in(member).ok_or(LineFault::Bad),
        None => Ok(Mode::Remove),
    }
}

fn navigation_of(text: &str) -> Option<Navigation>
    ensures { result ≡ navigation_of text.now }
{
    if text == "next" {
        Some(Navigation::Next)
    } else if text == "first" {
        Some(Navigation::First)
    } else if text == "next_transaction" {
        Some(Navigation::NextTransaction)
    } else {
        None
    }
}

fn navigation_in(value: &Value) -> Option<Navigation>
    ensures { result ≡ navigation_in (view value.now) }
{
    navigation_of(value.as_str()?)
}

/// Where a dequeue is to look for its message.
pub fn navigation_at(value: &Value) -> Result<Navigation, LineFault>
    ensures ok { IfOk result (λ navigation. navigation_at (view value.now) ≡ Some navigation) }
    ensures bad { IsErrOf result LineFault.Bad → navigation_at (view value.now) ≡ None }
{
    match given_at(value, "navigation") {
        Some(member) => navigation_in(member).ok_or(LineFault::Bad),
        None => Ok(Navigation::Next),
    }
}
