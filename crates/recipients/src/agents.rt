// Agents, and lists of them in which none stands twice.
ghost use Rattle.std.specs.Prelude.{◌≡◌, [], ◌∷◌, IfOk, OnOk, map};
ghost use Rattle.std.specs.List.{list_any};
ghost use Rattle.queue_rows.specs.Recipients.{distinct_agents, is_same_agent, listed, nameless, subscribed, with_agent};

use payload_records::{Copied, List, SmallList};
use queue_rows::{Agent, Recipient, SubRow};
use std::alloc::{AllocError, Global};

fn is_same_agent(left: &Agent, right: &Agent) -> bool
    ensures { result ≡ is_same_agent left.now right.now }
{
    left.name == right.name && left.address == right.address
}

/// The recipient of a message in a queue with one consumer. It takes no memory.
pub(crate) fn nameless(alloc: Global) -> SmallList<Agent>
    ensures { result ≡ nameless ∷ [] }
{
    SmallList::of_one(
        alloc,
        Agent {
            name: None,
            address: None,
        },
    )
}

fn listed(recipient: &Recipient) -> Result<Agent, AllocError>
    ensures { IfOk result (λ agent. agent ≡ listed recipient.now) }
{
    Ok(Agent {
        name: Some(recipient.name.copied()?),
        address: Copied::copied(&recipient.address)?,
    })
}

/// A subscriber as a recipient.
pub(crate) fn subscribed(sub: &SubRow) -> Result<Agent, AllocError>
    ensures { IfOk result (λ agent. agent ≡ subscribed sub.now) }
{
    Ok(Agent {
        name: Some(sub.name.copied()?),
        address: Copied::copied(&sub.address)?,
    })
}

fn is_among(agents: &SmallList<Agent>, agent: &Agent) -> bool
    ensures { result ≡ list_any (is_same_agent agent.now) agents.now }
{
    agents.iter().any(|known| is_same_agent(agent, known))
}

fn add(agents: &mut SmallList<Agent>, agent: Agent) -> Result<(), AllocError>
    ensures { OnOk result (agents.new ≡ with_agent agents.old agent) }
{
    if is_among(agents, &agent) {
        return Ok(());
    }
    agents.push(agent)
}

/// The recipients that are named, each name and address once, in the order in which they are first named.
pub(crate) fn distinct_agents(
    alloc: Global,
    recipients: &List<Recipient>,
) -> Result<SmallList<Agent>, AllocError>
    ensures { IfOk result (λ agents. agents ≡ distinct_agents (map listed recipients.now)) }
{
    let mut agents = SmallList::new(alloc);
    for recipient in recipients {
        add(&mut agents, listed(recipient)?)?;
    }
    Ok(agents)
}
