// Recipients and agents, as statements list them.
ghost use Rattle.std.specs.Prelude.{◌≡◌, IfOk, IsErrOf, Some, None, length, true};
ghost use Rattle.std.specs.List.{list_all};
ghost use Rattle.serde_json.specs.View.{view, items_view};
ghost use Rattle.queue_rows.specs.Within.{if_some, is_recipient, are_recipients, is_agent};
ghost use Rattle.script_text.specs.Member.{each_item};
ghost use Rattle.script_text.specs.Readable.{are_agents};
ghost use Rattle.script_text.specs.Parts.{recipient_of, addressed_recipient, recipient_in, recipients_in, recipients_at, agent_of, agent_in, agents_in, agents_at};

use crate::fault::LineFault;
use crate::form::{Form, has_form};
use crate::member::{given_at, list_between, name_at, name_if_given, name_in};
use aq_base::{AGENT_LIMIT, RECIPIENT_LIMIT};
use payload_records::List;
use queue_rows::{Listener, Recipient};
use serde_json::Value;
use std::alloc::Global;

fn recipient_of(alloc: Global, value: &Value) -> Result<Recipient, LineFault>
    ensures ok { IfOk result (λ r. recipient_of (view value.now) ≡ Some r) }
    ensures within { IfOk result (λ r. is_recipient r ≡ true) }
    ensures bad { IsErrOf result LineFault.Bad → recipient_of (view value.now) ≡ None }
{
    let name = name_at(alloc, value, "name")?;
    let address = name_if_given(alloc, value, "address")?;
    Ok(Recipient { name, address })
}

fn addressed_recipient(alloc: Global, value: &Value) -> Result<Recipient, LineFault>
    ensures ok { IfOk result (λ r. addressed_recipient (view value.now) ≡ Some r) }
    ensures within { IfOk result (λ r. is_recipient r ≡ true) }
    ensures bad { IsErrOf result LineFault.Bad → addressed_recipient (view value.now) ≡ None }
{
    if !has_form(Form::Recipient, value) {
        return Err(LineFault::Bad);
    }
    recipient_of(alloc, value)
}

fn recipient_in(alloc: Global, value: &Value) -> Result<Recipient, LineFault>
    ensures ok { IfOk result (λ r. recipient_in (view value.now) ≡ Some r) }
    ensures within { IfOk result (λ r. is_recipient r ≡ true) }
    ensures bad { IsErrOf result LineFault.Bad → recipient_in (view value.now) ≡ None }
{
    if !value.is_string() {
        return addressed_recipient(alloc, value);
    }
    let name = name_in(alloc, value)?;
    Ok(Recipient {
        name,
        address: None,
    })
}

fn each_recipient(alloc: Global, items: &[Value]) -> Result<List<Recipient>, LineFault>
    ensures ok { IfOk result (λ rs. each_item recipient_in (items_view items.now) ≡ Some rs) }
    ensures count { IfOk result (λ rs. length rs ≡ length items.now) }
    ensures within { IfOk result (λ rs. list_all is_recipient rs ≡ true) }
    ensures bad { IsErrOf result LineFault.Bad → each_item recipient_in (items_view items.now) ≡ None }
{
    let mut recipients = List::new(alloc);
    for item in items {
        let recipient = recipient_in(alloc, item)?;
        recipients.push(recipient)?;
    }
    Ok(recipients)
}

fn recipients_in(alloc: Global, value: &Value) -> Result<List<Recipient>, LineFault>
    ensures ok { IfOk result (λ rs. recipients_in (view value.now) ≡ Some rs) }
    ensures within { IfOk result (λ rs. are_recipients rs ≡ true) }
    ensures bad { IsErrOf result LineFault.Bad → recipients_in (view value.now) ≡ None }
{
    let Some(items) = list_between(0, RECIPIENT_LIMIT, value) else {
        return Err(LineFault::Bad);
    };
    each_recipient(alloc, items)
}

/// The recipients that an enqueue names, where it names them.
pub fn recipients_at(alloc: Global, value: &Value) -> Result<Option<List<Recipient>>, LineFault>
    ensures ok { IfOk result (λ rs. recipients_at (view value.now) ≡ Some rs) }
    ensures within { IfOk result (λ rs. if_some are_recipients rs ≡ true) }
    ensures bad { IsErrOf result LineFault.Bad → recipients_at (view value.now) ≡ None }
{
    match given_at(value, "recipients") {
        Some(member) => Ok(Some(recipients_in(alloc, member)?)),
        None => Ok(None),
    }
}

fn agent_of(alloc: Global, value: &Value) -> Result<Listener, LineFault>
    ensures ok { IfOk result (λ agent. agent_of (view value.now) ≡ Some agent) }
    ensures within { IfOk result (λ agent. is_agent agent ≡ true) }
    ensures bad { IsErrOf result LineFault.Bad → agent_of (view value.now) ≡ None }
{
    let queue = name_at(alloc, value, "queue")?;
    let consumer = name_if_given(alloc, value, "consumer")?;
    Ok(Listener { queue, consumer })
}

fn agent_in(alloc: Global, value: &Value) -> Result<Listener, LineFault>
    ensures ok { IfOk result (λ agent. agent_in (view value.now) ≡ Some agent) }
    ensures within { IfOk result (λ agent. is_agent agent ≡ true) }
    ensures bad { IsErrOf result LineFault.Bad → agent_in (view value.now) ≡ None }
{
    if !has_form(Form::Agent, value) {
        return Err(LineFault::Bad);
    }
    agent_of(alloc, value)
}

fn each_agent(alloc: Global, items: &[Value]) -> Result<List<Listener>, LineFault>
    ensures ok { IfOk result (λ agents. each_item agent_in (items_view items.now) ≡ Some agents) }
    ensures count { IfOk result (λ agents. length agents ≡ length items.now) }
    ensures within { IfOk result (λ agents. list_all is_agent agents ≡ true) }
    ensures bad { IsErrOf result LineFault.Bad → each_item agent_in (items_view items.now) ≡ None }
{
    let mut agents = List::new(alloc);
    for item in items {
        let agent = agent_in(alloc, item)?;
        agents.push(agent)?;
    }
    Ok(agents)
}

fn agents_in(alloc: Global, value: &Value) -> Result<List<Listener>, LineFault>
    ensures ok { IfOk result (λ agents. agents_in (view value.now) ≡ Some agents) }
    ensures within { IfOk result (λ agents. are_agents agents ≡ true) }
    ensures bad { IsErrOf result LineFault.Bad → agents_in (view value.now) ≡ None }
{
    let Some(items) = list_between(1, AGENT_LIMIT, value) else {
        return Err(LineFault::Bad);
    };
    each_agent(alloc, items)
}

/// The agents that a listen names, at least one.
pub fn agents_at(alloc: Global, value: &Value) -> Result<List<Listener>, LineFault>
    ensures ok { IfOk result (λ agents. agents_at (view value.now) ≡ Some agents) }
    ensures within { IfOk result (λ agents. are_agents agents ≡ true) }
    ensures bad { IsErrOf result LineFault.Bad → agents_at (view value.now) ≡ None }
{
    match value.get("agents") {
        Some(member) => agents_in(alloc, member),
        None => Err(LineFault::Bad),
    }
}
