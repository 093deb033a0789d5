// The members of an object: which are given, and what a value says as a name, a number, a truth value or a text.
ghost use Rattle.std.specs.Prelude.{◌≡◌, IfOk, IfSome, IsErrOf, Some, None, length, nat_le, option_map, true};
ghost use Rattle.serde_json.specs.View.{view, items_view};
ghost use Rattle.payload_records.specs.Name.{is_name};
ghost use Rattle.queue_rows.specs.Within.{if_some, is_table_name, is_text, is_priority};
ghost use Rattle.script_text.specs.Member.{text_at, given_at, list_between, name_in, name_at, name_if_given, table_at, number_between, priority_in, bool_or, bool_if_given, text_up_to, text_if_given};

use crate::fault::LineFault;
use aq_base::TABLE_NAME_LIMIT;
use payload_records::{Name, NameFault, Text};
use serde_json::Value;
use std::alloc::Global;

/// The text of a member.
pub fn text_at<'v>(value: &'v Value, key: &str) -> Option<&'v str>
    ensures { option_map (λ t. t.now) result ≡ text_at key.now (view value.now) }
{
    value.get(key)?.as_str()
}

/// A member that may be left out, where it is given; one that is null is not.
pub fn given_at<'v>(value: &'v Value, key: &str) -> Option<&'v Value>
    ensures { option_map (λ member. view member.now) result ≡ given_at key.now (view value.now) }
{
    let member = value.get(key)?;
    if member.is_null() { None } else { Some(member) }
}

/// The items of a list, of which there are at least so many, and at most so many.
#[tactic(auto, using(crate::proofs::Items::count_items))]
pub fn list_between(least: usize, most: usize, value: &Value) -> Option<&[Value]>
    ensures items { option_map (λ items. items_view items.now) result
        ≡ list_between least most (view value.now) }
    ensures least { IfSome result (λ items. nat_le least (length items.now) ≡ true) }
    ensures most { IfSome result (λ items. nat_le (length items.now) most ≡ true) }
{
    let items = value.as_array()?;
    if least <= items.len() && items.len() <= most {
        Some(items)
    } else {
        None
    }
}

/// The name that a value is.
pub fn name_in(alloc: Global, value: &Value) -> Result<Name, LineFault>
    ensures ok { IfOk result (λ name. name_in (view value.now) ≡ Some name) }
    ensures named { IfOk result (λ name. is_name name ≡ true) }
    ensures bad { IsErrOf result LineFault.Bad → name_in (view value.now) ≡ None }
{
    let Some(text) = value.as_str() else {
        return Err(LineFault::Bad);
    };
    match Name::read(alloc, text) {
        Ok(name) => Ok(name),
        Err(NameFault::Bad) => Err(LineFault::Bad),
        Err(NameFault::Memory) => Err(LineFault::Memory),
    }
}

/// The name of a member.
pub fn name_at(alloc: Global, value: &Value, key: &str) -> Result<Name, LineFault>
    ensures ok { IfOk result (λ name. name_at key.now (view value.now) ≡ Some name) }
    ensures named { IfOk result (λ name. is_name name ≡ true) }
    ensures bad { IsErrOf result LineFault.Bad → name_at key.now (view value.now) ≡ None }
{
    match value.get(key) {
        Some(member) => name_in(alloc, member),
        None => Err(LineFault::Bad),
    }
}

/// The name of a member that may be left out.
pub fn name_if_given(alloc: Global, value: &Value, key: &str) -> Result<Option<Name>, LineFault>
    ensures ok { IfOk result (λ name. name_if_given key.now (view value.now) ≡ Some name) }
    ensures named { IfOk result (λ name. if_some is_name name ≡ true) }
    ensures bad { IsErrOf result LineFault.Bad → name_if_given key.now (view value.now) ≡ None }
{
    match given_at(value, key) {
        Some(member) => Ok(Some(name_in(alloc, member)?)),
        None => Ok(None),
    }
}

/// The name of a table, which leaves room for what is put behind it.
pub fn table_at(alloc: Global, value: &Value) -> Result<Name, LineFault>
    ensures ok { IfOk result (λ name. table_at (view value.now) ≡ Some name) }
    ensures named { IfOk result (λ name. is_table_name name ≡ true) }
    ensures bad { IsErrOf result LineFault.Bad → table_at (view value.now) ≡ None }
{
    let name = name_at(alloc, value, "table")?;
    if name.as_str().len() > TABLE_NAME_LIMIT {
        return Err(LineFault::Bad);
    }
    Ok(name)
}

/// The whole number that a value is, from the least to the most that it may be.
pub fn number_between(least: u64, most: u64, value: &Value) -> Option<u64>
    ensures number { result ≡ number_between least most (view value.now) }
    ensures least { IfSome result (λ n. nat_le least n ≡ true) }
    ensures most { IfSome result (λ n. nat_le n most ≡ true) }
{
    let number = u64::try_from(value.as_i64()?).ok()?;
    if least <= number && number <= most {
        Some(number)
    } else {
        None
    }
}

/// The whole number of 32 bits with a sign that a value is.
pub fn priority_in(value: &Value) -> Option<i64>
    ensures number { result ≡ priority_in (view value.now) }
    ensures within { IfSome result (λ n. is_priority n ≡ true) }
{
    let number = value.as_i64()?;
    if number >= i32::MIN as i64 && number <= i32::MAX as i64 {
        Some(number)
    } else {
        None
    }
}

/// The truth value of a member, and the one that is meant where it is not given.
pub fn bool_or(meant: bool, value: &Value, key: &str) -> Result<bool, LineFault>
    ensures ok { IfOk result (λ said. bool_or meant key.now (view value.now) ≡ Some said) }
    ensures bad { IsErrOf result LineFault.Bad → bool_or meant key.now (view value.now) ≡ None }
{
    match given_at(value, key) {
        Some(member) => member.as_bool().ok_or(LineFault::Bad),
        None => Ok(meant),
    }
}

/// The truth value of a member, where it is given.
pub fn bool_if_given(value: &Value, key: &str) -> Result<Option<bool>, LineFault>
    ensures ok { IfOk result (λ said. bool_if_given key.now (view value.now) ≡ Some said) }
    ensures bad { IsErrOf result LineFault.Bad → bool_if_given key.now (view value.now) ≡ None }
{
    match given_at(value, key) {
        Some(member) => Ok(Some(member.as_bool().ok_or(LineFault::Bad)?)),
        None => Ok(None),
    }
}

fn text_up_to(alloc: Global, most: usize, value: &Value) -> Result<Option<Text>, LineFault>
    ensures ok { IfOk result (λ text. text_up_to most (view value.now) ≡ Some text) }
    ensures within { IfOk result (λ text. if_some (is_text most) text ≡ true) }
    ensures bad { IsErrOf result LineFault.Bad → text_up_to most (view value.now) ≡ None }
{
    let Some(text) = value.as_str() else {
        return Err(LineFault::Bad);
    };
    if text.len() > most {
        return Err(LineFault::Bad);
    }
    if text.is_empty() {
        return Ok(None);
    }
    Ok(Some(Text::of(alloc, text)?))
}

/// A text of no more bytes than that, where it is given and not empty.
pub fn text_if_given(
    alloc: Global,
    most: usize,
    value: &Value,
    key: &str,
) -> Result<Option<Text>, LineFault>
    ensures ok { IfOk result (λ text. text_if_given most key.now (view value.now) ≡ Some text) }
    ensures within { IfOk result (λ text. if_some (is_text most) text ≡ true) }
    ensures bad { IsErrOf result LineFault.Bad → text_if_given most key.now (view value.now) ≡ None }
{
    match given_at(value, key) {
        Some(member) => text_up_to(alloc, most, member),
        None => Ok(None),
    }
}
