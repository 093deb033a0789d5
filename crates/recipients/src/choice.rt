// Who gets a message.
ghost use Rattle.std.specs.Prelude.{◌≡◌, ◌<◌, ◌≤◌, IfOk, IfErr, length, map};
ghost use Rattle.queue_rows.specs.Recipients.{facts_of, named_or_wanting, recipients, subscribed, wanting};
ghost use Rattle.recipients.specs.Refused.{IsRefused};

use crate::agents::{distinct_agents, nameless, subscribed};
use crate::fault::ChosenFault;
use aq_base::RECIPIENT_LIMIT;
use payload_records::{Copied, Name, Record, RecordType, SmallList};
use queue_rows::{Agent, Enqueue, TableRow, Tables};
use rule_checks::is_met;
use rule_conditions::Facts;
use std::alloc::{AllocError, Global};

/// What rules are asked of. The payload and long texts are shared, and the properties alone are copied.
fn facts_of(ask: &Enqueue, payload: &Record) -> Result<Facts, AllocError>
    ensures { IfOk result (λ facts. facts ≡ facts_of ask.now payload.now) }
{
    Ok(Facts {
        priority: ask.priority,
        corr: Copied::copied(&ask.corr)?,
        cells: payload.copied()?,
        props: ask.props.copied()?,
    })
}

/// The subscribers of a queue without a rule, and those whose rule is true of the facts, in the order in which they were added.
fn wanting(
    alloc: Global,
    tables: &Tables,
    queue: &Name,
    kind: &RecordType,
    facts: &Facts,
) -> Result<SmallList<Agent>, AllocError>
    ensures { IfOk result
        (λ agents. agents ≡ map subscribed (wanting tables.now queue.now kind.now facts.now)) }
{
    let mut agents = SmallList::new(alloc);
    for sub in tables.subs.of(queue) {
        if is_met(sub.rule.as_ref(), facts, kind) {
            agents.push(subscribed(sub)?)?;
        }
    }
    Ok(agents)
}

fn named_or_wanting(
    alloc: Global,
    tables: &Tables,
    table: &TableRow,
    ask: &Enqueue,
    payload: &Record,
) -> Result<SmallList<Agent>, AllocError>
    ensures { IfOk result (λ agents. agents ≡ named_or_wanting tables.now table.now ask.now payload.now) }
{
    match &ask.recipients {
        Some(named) if !named.is_empty() => distinct_agents(alloc, named),
        _ => {
            let facts = facts_of(ask, payload)?;
            wanting(alloc, tables, &ask.queue, &table.fields, &facts)
        }
    }
}

#[tactic(auto, unfolding(queue_rows::specs::Recipients::recipients))]
fn recipients(
    alloc: Global,
    tables: &Tables,
    table: &TableRow,
    ask: &Enqueue,
    payload: &Record,
) -> Result<SmallList<Agent>, AllocError>
    ensures { IfOk result (λ agents. agents ≡ recipients tables.now table.now ask.now payload.now) }
{
    if table.multi {
        named_or_wanting(alloc, tables, table, ask, payload)
    } else {
        Ok(nameless(alloc))
    }
}

/// The recipients of a message that an enqueue puts into a queue of this table, with its payload as a record of the table's
/// type: those that it names, each once, else the subscribers of its queue that want the message. In a table for one consumer
/// it is one without a name, and takes no memory. `NoRecipients` is told exactly where there are none, and `TooMany` where there are
/// more than 64.
pub fn chosen(
    alloc: Global,
    tables: &Tables,
    table: &TableRow,
    ask: &Enqueue,
    payload: &Record,
) -> Result<SmallList<Agent>, ChosenFault>
    ensures ok { IfOk result (λ agents. agents ≡ recipients tables.now table.now ask.now payload.now) }
    ensures some { IfOk result (λ agents. 0 < length agents) }
    ensures limit { IfOk result (λ agents. length agents ≤ 64) }
    ensures refused { IfErr result (λ e. IsRefused e (recipients tables.now table.now ask.now payload.now)) }
{
    let agents = recipients(alloc, tables, table, ask, payload)?;
    if agents.is_empty() {
        return Err(ChosenFault::NoRecipients);
    }
    if agents.len() > RECIPIENT_LIMIT {
        return Err(ChosenFault::TooMany);
    }
    Ok(agents)
}
