// The statements on messages.
ghost use Rattle.std.specs.Prelude.{◌≡◌, IfOk, IsErrOf, Some, None, true};
ghost use Rattle.serde_json.specs.View.{view};
ghost use Rattle.queue_rows.specs.Within.{is_priority, is_enqueue_within, is_dequeue_within, is_listen_within};
ghost use Rattle.script_text.specs.Readable.{is_placing_within};
ghost use Rattle.script_text.specs.Form.{has_form};
ghost use Rattle.script_text.specs.declared.form.Form.TheVariants.{PlainDequeue};
ghost use Rattle.script_text.specs.Statement.{priority_at, placing_at, enqueue, plain_dequeue, dequeue, listen};

use crate::fault::LineFault;
use crate::listed::{agents_at, recipients_at};
use crate::member::{bool_or, given_at, name_at, name_if_given, priority_in, text_if_given};
use crate::parts::{id_if_given, mode_at, navigation_at, payload_at, props_at, visibility_at};
use crate::times::{seconds_at, span_at, wait_at};
use aq_base::{CONDITION_LIMIT, CORRELATION_LIMIT};
use payload_records::List;
use queue_rows::{Dequeue, Enqueue, Listen, Mode, MsgId, Navigation, Visibility};
use serde_json::Value;
use std::alloc::Global;

/// How a message is put in.
#[derive(Clone, Copy)]
pub struct Placing {
    /// Whether the enqueue is a transaction of its own.
    pub visibility: Visibility,
    /// The priority; a smaller number is the more urgent.
    pub priority: i64,
    /// After how many seconds it can be taken.
    pub delay: u64,
    /// For how many seconds it can be taken.
    pub expiration: Option<u64>,
    /// The message before which it is to stand.
    pub before: Option<MsgId>,
    /// Whether it is to stand before all.
    pub top: bool,
}

fn priority_at(value: &Value) -> Result<i64, LineFault>
    ensures ok { IfOk result (λ n. priority_at (view value.now) ≡ Some n) }
    ensures within { IfOk result (λ n. is_priority n ≡ true) }
    ensures bad { IsErrOf result LineFault.Bad → priority_at (view value.now) ≡ None }
{
    match given_at(value, "priority") {
        Some(member) => priority_in(member).ok_or(LineFault::Bad),
        None => Ok(1),
    }
}

#[tactic(auto, unfolding(crate::specs::Statement::placing_at))]
fn placing_at(value: &Value) -> Result<Placing, LineFault>
    ensures ok { IfOk result (λ placing. placing_at (view value.now) ≡ Some placing) }
    ensures within { IfOk result (λ placing. is_placing_within placing ≡ true) }
    ensures bad { IsErrOf result LineFault.Bad → placing_at (view value.now) ≡ None }
{
    let placing = Placing {
        visibility: visibility_at(value)?,
        priority: priority_at(value)?,
        delay: seconds_at(value, "delay")?,
        expiration: span_at(value, "expiration")?,
        before: id_if_given(value, "before")?,
        top: bool_or(false, value, "top")?,
    };
    if placing.before.is_some() && placing.top {
        return Err(LineFault::Bad);
    }
    Ok(placing)
}

/// What is put into a queue.
#[tactic(auto, unfolding(crate::specs::Statement::enqueue))]
pub fn enqueue(alloc: Global, value: &Value) -> Result<Enqueue, LineFault>
    ensures ok { IfOk result (λ ask. enqueue (view value.now) ≡ Some ask) }
    ensures within { IfOk result (λ ask. is_enqueue_within ask ≡ true) }
    ensures bad { IsErrOf result LineFault.Bad → enqueue (view value.now) ≡ None }
{
    let placing = placing_at(value)?;
    let queue = name_at(alloc, value, "queue")?;
    let payload = payload_at(alloc, value)?;
    let corr = text_if_given(alloc, CORRELATION_LIMIT, value, "corr")?;
    let recipients = recipients_at(alloc, value)?;
    let exception_queue = name_if_given(alloc, value, "exception_queue")?;
    let props = props_at(alloc, value)?;
    Ok(Enqueue {
        queue,
        payload,
        visibility: placing.visibility,
        priority: placing.priority,
        delay: placing.delay,
        expiration: placing.expiration,
        corr,
        recipients,
        exception_queue,
        before: placing.before,
        top: placing.top,
        props,
    })
}

/// What is taken from a queue.
#[tactic(auto, unfolding(crate::specs::Statement::dequeue))]
pub fn dequeue(alloc: Global, value: &Value) -> Result<Dequeue, LineFault>
    ensures ok { IfOk result (λ ask. dequeue (view value.now) ≡ Some ask) }
    ensures within { IfOk result (λ ask. is_dequeue_within ask ≡ true) }
    ensures bad { IsErrOf result LineFault.Bad → dequeue (view value.now) ≡ None }
{
    let mode = mode_at(value)?;
    let navigation = navigation_at(value)?;
    let visibility = visibility_at(value)?;
    let wait = wait_at(value)?;
    let msgid = id_if_given(value, "msgid")?;
    let queue = name_at(alloc, value, "queue")?;
    let consumer = name_if_given(alloc, value, "consumer")?;
    let corr = text_if_given(alloc, CONDITION_LIMIT, value, "corr")?;
    let condition = text_if_given(alloc, CONDITION_LIMIT, value, "condition")?;
    Ok(Dequeue {
        queue,
        consumer,
        mode,
        navigation,
        visibility,
        wait,
        msgid,
        corr,
        condition,
    })
}

/// What is taken from a queue by a dequeue of which nothing is said that is mostly left out. Nothing is looked up that is not there.
#[tactic(auto, unfolding(crate::specs::Statement::plain_dequeue), using(crate::proofs::Plain::dequeue_is_plain))]
pub fn plain_dequeue(alloc: Global, value: &Value) -> Result<Dequeue, LineFault>
    requires { has_form PlainDequeue (view value.now) ≡ true }
    ensures ok { IfOk result (λ ask. dequeue (view value.now) ≡ Some ask) }
    ensures within { IfOk result (λ ask. is_dequeue_within ask ≡ true) }
    ensures bad { IsErrOf result LineFault.Bad → dequeue (view value.now) ≡ None }
{
    let visibility = visibility_at(value)?;
    let queue = name_at(alloc, value, "queue")?;
    Ok(Dequeue {
        queue,
        consumer: None,
        mode: Mode::Remove,
        navigation: Navigation::Next,
        visibility,
        wait: 0,
        msgid: None,
        corr: None,
        condition: None,
    })
}

/// What is waited for.
#[tactic(auto, unfolding(crate::specs::Statement::listen))]
pub fn listen(alloc: Global, value: &Value) -> Result<Listen, LineFault>
    ensures ok { IfOk result (λ ask. listen (view value.now) ≡ Some ask) }
    ensures within { IfOk result (λ ask. is_listen_within ask ≡ true) }
    ensures bad { IsErrOf result LineFault.Bad → listen (view value.now) ≡ None }
{
    let wait = wait_at(value)?;
    let agents = agents_at(alloc, value)?;
    Ok(Listen { agents, wait })
}
