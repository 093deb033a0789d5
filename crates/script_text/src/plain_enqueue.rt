// Lines that enqueue and say nothing that is mostly left out: most lines do that are not the same as an earlier one.
ghost use Rattle.std.specs.Prelude.{◌≡◌, IfOk, IfSome, IsErrOf, Some, None, option_map, true};
ghost use Rattle.serde_json.specs.Data.{member};
ghost use Rattle.serde_json.specs.View.{view, members_view};
ghost use Rattle.payload_records.specs.Name.{is_name};
ghost use Rattle.payload_records.specs.Payload.{has_ascending_keys};
ghost use Rattle.queue_rows.specs.Within.{is_enqueue_within};
ghost use Rattle.script_text.specs.Line.{line_from};
ghost use Rattle.script_text.specs.Plain.{visibility_member, visibility_given, plain_line, plain_ask, plain_enqueue, plain_asking};
ghost use Rattle.script_text.specs.Readable.{IsReadableLine};

use crate::fault::LineFault;
use crate::line::Line;
use crate::member::name_in;
use crate::parts::visibility_in;
use payload_records::{List, Name, Payload, Shared};
use queue_rows::{Enqueue, Statement, Visibility};
use serde_json::Value;
use std::alloc::Global;
use std::collections::btree_map::Iter;

/// What such a line gives beside its verb.
#[derive(Clone, Copy)]
pub struct PlainMembers<'v> {
    /// The payload.
    pub payload: &'v Value,
    /// The queue.
    pub queue: &'v Value,
    /// The session that asks.
    pub session: &'v Value,
    /// The visibility, if it is given.
    pub visibility: Option<&'v Value>,
}

// The value of the next member, where that is its key.
fn next_of<'v>(members: &mut Iter<'v, String, Value>, key: &str) -> Option<&'v Value>
    ensures { IfSome result (λ value.
        members_view members.old ≡ member key.now (view value.now) (members_view members.new)) }
{
    let (next, value) = members.next()?;
    if next.as_str() == key {
        Some(value)
    } else {
        None
    }
}

// The visibility, where no other member is left.
fn only_visibility(mut members: Iter<'_, String, Value>) -> Option<Option<&Value>>
    ensures { IfSome result (λ visibility. members_view members.entry
        ≡ visibility_member (option_map (λ value. view value.now) visibility)) }
{
    let Some((key, value)) = members.next() else {
        return Some(None);
    };
    if key.as_str() == "visibility" && members.next().is_none() {
        return Some(Some(value));
    }
    None
}

/// The members of such a line, which stand in the order of their keys. Of others nothing is told.
pub fn plain_members(value: &Value) -> Option<PlainMembers<'_>>
    ensures { IfSome result (λ m. view value.now ≡ plain_line (view m.payload.now)
        (view m.queue.now) (view m.session.now) (option_map (λ v. view v.now) m.visibility)) }
{
    let mut members = value.as_object()?.iter();
    if next_of(&mut members, "do")?.as_str()? != "enqueue" {
        return None;
    }
    let payload = next_of(&mut members, "payload")?;
    let queue = next_of(&mut members, "queue")?;
    let session = next_of(&mut members, "s")?;
    let visibility = only_visibility(members)?;
    Some(PlainMembers {
        payload,
        queue,
        session,
        visibility,
    })
}

fn visibility_given(member: Option<&Value>) -> Result<Visibility, LineFault>
    ensures ok { IfOk result (λ visibility.
        visibility_given (option_map (λ v. view v.now) member.entry) ≡ Some visibility) }
    ensures bad { IsErrOf result LineFault.Bad
        → visibility_given (option_map (λ v. view v.now) member.entry) ≡ None }
{
    match member {
        Some(value) if !value.is_null() => visibility_in(value).ok_or(LineFault::Bad),
        _ => Ok(Visibility::OnCommit),
    }
}

/// An enqueue of which nothing else is said.
pub fn plain_ask(alloc: Global, queue: Name, payload: Payload, visibility: Visibility) -> Enqueue
    requires named { is_name queue ≡ true }
    requires in_order { has_ascending_keys payload ≡ true }
    ensures ask { result ≡ plain_ask queue payload visibility }
    ensures within { is_enqueue_within result ≡ true }
{
    Enqueue {
        queue,
        payload,
        visibility,
        priority: 1,
        delay: 0,
        expiration: None,
        corr: None,
        recipients: None,
        exception_queue: None,
        before: None,
        top: false,
        props: List::new(alloc),
    }
}

#[tactic(auto, unfolding(crate::specs::Plain::plain_enqueue))]
fn plain_enqueue(alloc: Global, members: PlainMembers<'_>) -> Result<Enqueue, LineFault>
    ensures ok { IfOk result (λ ask. plain_enqueue
        (view members.entry.payload.now) (view members.entry.queue.now)
        (option_map (λ v. view v.now) members.entry.visibility) ≡ Some ask) }
    ensures within { IfOk result (λ ask. is_enqueue_within ask ≡ true) }
    ensures bad { IsErrOf result LineFault.Bad → plain_enqueue (view members.entry.payload.now)
        (view members.entry.queue.now) (option_map (λ v. view v.now) members.entry.visibility) ≡ None }
{
    let visibility = visibility_given(members.visibility)?;
    let queue = name_in(alloc, members.queue)?;
    let payload = Payload::of(alloc, members.payload)?;
    Ok(plain_ask(alloc, queue, payload, visibility))
}

#[tactic(auto, unfolding(crate::specs::Plain::plain_asking, queue_rows::specs::Within::is_within))]
fn plain_asking(alloc: Global, members: PlainMembers<'_>) -> Result<Line, LineFault>
    ensures ok { IfOk result (λ l. plain_asking
        (view members.entry.payload.now) (view members.entry.queue.now)
        (view members.entry.session.now) (option_map (λ v. view v.now) members.entry.visibility) ≡ Some l) }
    ensures readable { IfOk result IsReadableLine }
    ensures bad { IsErrOf result LineFault.Bad → plain_asking (view members.entry.payload.now)
        (view members.entry.queue.now) (view members.entry.session.now)
        (option_map (λ v. view v.now) members.entry.visibility) ≡ None }
{
    let session = name_in(alloc, members.session)?;
    let ask = plain_enqueue(alloc, members)?;
    let statement = Shared::new(alloc, Statement::Enqueue(ask))?;
    Ok(Line::Asked { session, statement })
}

/// What such a line says. Of others nothing is told.
#[tactic(auto, using(crate::proofs::Plain::line_is_plain))]
pub fn plain_line(alloc: Global, value: &Value) -> Result<Option<Line>, LineFault>
    ensures some { IfOk result (λ plain. IfSome plain (λ l. line_from (view value.now) ≡ Some l)) }
    ensures readable { IfOk result (λ plain. IfSome plain IsReadableLine) }
    ensures bad { IsErrOf result LineFault.Bad → line_from (view value.now) ≡ None }
{
    match plain_members(value) {
        Some(members) => Ok(Some(plain_asking(alloc, members)?)),
        None => Ok(None),
    }
}
