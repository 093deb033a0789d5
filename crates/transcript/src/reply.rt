// The text of a reply: a word, and with some words more behind it.
ghost use Rattle.std.specs.Prelude.{◌≡◌, ◌++◌, OnOk, unwrap_or, codes};
ghost use Rattle.std.specs.Bool.{Decides};
ghost use Rattle.transcript.specs.Reply.{IsUsual, reply_word, payload_text, message_start, message_head, message_text, agent_text, payload_fault_word, payload_fault_place, payload_fault_text, condition_fault_text, limit_text, reply_details, reply_text};
ghost use Rattle.transcript.specs.Text.{Writes, json_or_null, spaced_id_text};

use crate::record::{put_props, put_record};
use crate::text::{
    put_json, put_json_or_null, put_number, put_signed, put_spaced_id, session_name,
};
use payload_records::{List, Name, PayloadFault};
use queue_rows::{
    ConditionFault, GivenMessage, LimitName, MsgId, Reply, ServedAgent, SessionScript, Shown,
};
use std::alloc::AllocError;

fn reply_word(reply: &Reply) -> &'static str
    ensures { result.now ≡ reply_word reply.now }
{
    match reply {
        Reply::Ok | Reply::Enqueued(_) => "ok",
        Reply::Message(_) => "message",
        Reply::Agent(_) => "agent",
        Reply::Held(_) => "held",
        Reply::Payload(_) => "payload",
        Reply::BadCondition(_) => "bad-condition",
        Reply::Limit(_) => "limit",
        Reply::NoMessage => "no-message",
        Reply::EndOfGroup => "end-of-group",
        Reply::NoTable => "no-table",
        Reply::NoQueue => "no-queue",
        Reply::Exists => "exists",
        Reply::InUse => "in-use",
        Reply::EnqueueOff => "enqueue-off",
        Reply::DequeueOff => "dequeue-off",
        Reply::WrongKind => "wrong-kind",
        Reply::NoRecipients => "no-recipients",
        Reply::ConsumerNeeded => "consumer-needed",
        Reply::ConsumerRefused => "consumer-refused",
        Reply::NotARecipient => "not-a-recipient",
        Reply::NoSuchMessage => "no-such-message",
        Reply::NoSubscriber => "no-subscriber",
        Reply::BadExceptionQueue => "bad-exception-queue",
        Reply::BadRelative => "bad-relative",
        Reply::TooDeep => "too-deep",
        Reply::Grouped => "grouped",
        Reply::NotGrouped => "not-grouped",
        Reply::Outstanding => "outstanding",
        Reply::NoSchedule => "no-schedule",
    }
}

fn put_payload(out: &mut String, payload: &Option<Shown>) -> Result<(), AllocError>
    ensures { OnOk result (Writes out.old out.new (payload_text payload.now)) }
{
    let Some(shown) = payload else {
        return Ok(());
    };
    out.push(' ')?;
    put_record(out, shown)
}

// Whether it says what most do: the priority that nobody gave, no retries and no correlation.
fn is_usual(message: &GivenMessage) -> bool
    ensures { Decides result (IsUsual message.now) }
{
    message.priority == 1 && message.retries == 0 && message.corr.is_none()
}

fn put_message_start(out: &mut String, message: &GivenMessage) -> Result<(), AllocError>
    ensures { OnOk result (Writes out.old out.new (message_start message.now)) }
{
    put_spaced_id(out, message.id)?;
    out.push_str(" priority ")?;
    put_signed(out, message.priority)?;
    out.push_str(" retries ")?;
    put_number(out, message.retries)
}

fn put_each_part(out: &mut String, message: &GivenMessage) -> Result<(), AllocError>
    ensures { OnOk result (Writes out.old out.new
        (message_start message.now ++ codes " corr " ++ json_or_null message.now.corr)) }
{
    put_message_start(out, message)?;
    out.push_str(" corr ")?;
    put_json_or_null(out, &message.corr)
}

// The parts of a usual message are one text behind its id.
fn put_usual_parts(out: &mut String, message: &GivenMessage) -> Result<(), AllocError>
    requires { IsUsual message.now }
    ensures { OnOk result (Writes out.old out.new
        (message_start message.now ++ codes " corr " ++ json_or_null message.now.corr)) }
{
    put_spaced_id(out, message.id)?;
    out.push_str(" priority 1 retries 0 corr null")
}

fn put_parts(out: &mut String, message: &GivenMessage) -> Result<(), AllocError>
    ensures { OnOk result (Writes out.old out.new
        (message_start message.now ++ codes " corr " ++ json_or_null message.now.corr)) }
{
    if is_usual(message) {
        put_usual_parts(out, message)
    } else {
        put_each_part(out, message)
    }
}

fn put_message_head(out: &mut String, message: &GivenMessage) -> Result<(), AllocError>
    ensures { OnOk result (Writes out.old out.new (message_head message.now)) }
{
    put_parts(out, message)?;
    put_payload(out, &message.payload)
}

fn put_message(out: &mut String, message: &GivenMessage) -> Result<(), AllocError>
    ensures { OnOk result (Writes out.old out.new (message_text message.now)) }
{
    put_message_head(out, message)?;
    put_props(out, &message.props)
}

fn consumer_text(consumer: &Option<Name>) -> &str
    ensures { result.now ≡ unwrap_or consumer.now (codes "-") }
{
    match consumer {
        Some(name) => name.as_str(),
        None => "-",
    }
}

fn put_agent(out: &mut String, agent: &ServedAgent) -> Result<(), AllocError>
    ensures { OnOk result (Writes out.old out.new (agent_text agent.now)) }
{
    let number = agent.number;
    let queue = agent.queue.as_str();
    let consumer = consumer_text(&agent.consumer);
    write!(out, " {number} {queue} {consumer}")
}

fn payload_fault_word(fault: &PayloadFault) -> &'static str
    ensures { result.now ≡ payload_fault_word fault.now }
{
    match fault {
        PayloadFault::NotObject => "not-object",
        PayloadFault::UnknownField(_) => "unknown-field",
        PayloadFault::WrongKind(_) => "wrong-kind",
        PayloadFault::TooLong(_) => "too-long",
        PayloadFault::Memory => "memory",
    }
}

fn put_payload_fault_place(out: &mut String, fault: &PayloadFault) -> Result<(), AllocError>
    ensures { OnOk result (Writes out.old out.new (payload_fault_place fault.now)) }
{
    match fault {
        PayloadFault::UnknownField(key) => {
            out.push_str(" ")?;
            put_json(out, key.as_str())
        }
        PayloadFault::WrongKind(name) | PayloadFault::TooLong(name) => {
            let name = name.as_str();
            write!(out, " {name}")
        }
        PayloadFault::NotObject | PayloadFault::Memory => Ok(()),
    }
}

fn put_payload_fault(out: &mut String, fault: &PayloadFault) -> Result<(), AllocError>
    ensures { OnOk result (Writes out.old out.new (payload_fault_text fault.now)) }
{
    let word = payload_fault_word(fault);
    write!(out, " {word}")?;
    put_payload_fault_place(out, fault)
}

fn put_condition_fault(out: &mut String, fault: &ConditionFault) -> Result<(), AllocError>
    ensures { OnOk result (Writes out.old out.new (condition_fault_text fault.now)) }
{
    match fault {
        ConditionFault::At(bytes) => write!(out, " at {bytes}"),
        ConditionFault::Field(name) => {
            let name = name.as_str();
            write!(out, " field {name}")
        }
        ConditionFault::Kind => out.push_str(" kind"),
    }
}

fn limit_text(name: LimitName) -> &'static str
    ensures { result.now ≡ limit_text name }
{
    match name {
        LimitName::Recipients => " recipients",
        LimitName::Subscribers => " subscribers",
        LimitName::Ids => " ids",
    }
}

fn put_details(
    out: &mut String,
    scripts: &List<SessionScript>,
    reply: &Reply,
) -> Result<(), AllocError>
    ensures { OnOk result (Writes out.old out.new (reply_details scripts.now reply.now)) }
{
    match reply {
        Reply::Enqueued(id) => put_spaced_id(out, *id),
        Reply::Message(message) => put_message(out, message.get()),
        Reply::Agent(agent) => put_agent(out, agent.get()),
        Reply::Held(session) => {
            let name = session_name(scripts, *session);
            write!(out, " {name}")
        }
        Reply::Payload(fault) => put_payload_fault(out, fault.get()),
        Reply::BadCondition(fault) => put_condition_fault(out, fault.get()),
        Reply::Limit(name) => out.push_str(limit_text(*name)),
        _ => Ok(()),
    }
}

// So short a word costs less by its letters.
fn put_ok(out: &mut String) -> Result<(), AllocError>
    ensures { OnOk result (Writes out.old out.new (codes "ok")) }
{
    out.push('o')?;
    out.push('k')
}

fn put_enqueued(out: &mut String, id: MsgId) -> Result<(), AllocError>
    ensures { OnOk result (Writes out.old out.new (codes "ok" ++ spaced_id_text id.db id.number)) }
{
    put_ok(out)?;
    put_spaced_id(out, id)
}

fn put_given(out: &mut String, message: &GivenMessage) -> Result<(), AllocError>
    ensures { OnOk result (Writes out.old out.new (codes "message" ++ message_text message.now)) }
{
    out.push_str("message")?;
    put_message(out, message)
}

fn put_other(
    out: &mut String,
    scripts: &List<SessionScript>,
    reply: &Reply,
) -> Result<(), AllocError>
    ensures { OnOk result (Writes out.old out.new (reply_text scripts.now reply.now)) }
{
    out.push_str(reply_word(reply))?;
    put_details(out, scripts, reply)
}

/// Puts the text of a reply in. The commonest are told apart first, and their words are at hand there.
pub(crate) fn put_reply(
    out: &mut String,
    scripts: &List<SessionScript>,
    reply: &Reply,
) -> Result<(), AllocError>
    ensures { OnOk result (Writes out.old out.new (reply_text scripts.now reply.now)) }
{
    match reply {
        Reply::Ok => put_ok(out),
        Reply::Enqueued(id) => put_enqueued(out, *id),
        Reply::Message(message) => put_given(out, message.get()),
        _ => put_other(out, scripts, reply),
    }
}
