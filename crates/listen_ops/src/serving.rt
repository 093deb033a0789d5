// Which agent has a message.
ghost use Rattle.std.specs.Prelude.{◌≡◌, ◌≤◌, ◌<◌, length, IfOk};
ghost use Rattle.aq_base.specs.declared.limits.TheConstants.{AGENT_LIMIT};
ghost use Rattle.slot_marks.specs.Marks.{marks_of};
ghost use Rattle.message_choice.specs.Asking.{AreSound};
ghost use Rattle.listen_ops.specs.Listened.{CanListen, IsFound, IsPickOf, IsServed, ServesFirst, agent_reply};

use message_choice::{Choice, ChoosesMessages, Pick};
use payload_records::{Boxed, Copied, List};
use queue_rows::{
    Listener, Mode, Navigation, QueueRow, Reply, ServedAgent, TableRow, find_queue, find_table,
};
use row_locks::RowLocks;
use sort_index::Steps;
use std::alloc::{AllocError, Global};
use std::marker::Brand;
use std::sync::ledger::{Blank, Ledger};

// What the agent would take: any message.
fn pick_of<'a>(queue: &'a QueueRow, table: &'a TableRow, agent: &'a Listener) -> Pick<'a>
    ensures { IsPickOf queue.now table.now agent.now result }
{
    Pick {
        queue,
        table,
        consumer: agent.consumer.as_ref(),
        mode: Mode::Remove,
        navigation: Navigation::First,
        position: None,
        corr: None,
        condition: None,
    }
}

fn has_message_by<T: ChoosesMessages, L: Ledger>(
    store: &T,
    locks: &RowLocks,
    actor: u32,
    pick: &Pick<'_>,
    blank: Blank,
) -> bool
    requires name { blank.name ≡ L.name }
    requires parts { blank.parts ≡ L.parts }
    requires some { 0 < blank.parts }
    requires sound { AreSound (marks_of locks.now actor)
        pick.now.queue.now pick.now.table.now (T.tables store.now).messages }
    ensures { IsFound (T.tables store.now) locks.now actor pick.now result }
{
    let mut steps = Steps::<L>::new(blank);
    match store.choose(locks, actor, pick, &mut steps) {
        Choice::Found { .. } => true,
        Choice::EndOfGroup => false,
        Choice::Nothing => false,
    }
}

fn has_message<T: ChoosesMessages>(store: &T, locks: &RowLocks, actor: u32, pick: &Pick<'_>) -> bool
    requires { AreSound (marks_of locks.now actor)
        pick.now.queue.now pick.now.table.now (T.tables store.now).messages }
    ensures { IsFound (T.tables store.now) locks.now actor pick.now result }
{
    has_message_by::<T, Brand>(store, locks, actor, pick, Blank::new(1))
}

// Whether the agent has a slot that the session could take.
fn is_served<T: ChoosesMessages>(store: &T, locks: &RowLocks, actor: u32, agent: &Listener) -> bool
    requires { CanListen (T.tables store.now) locks.now actor }
    ensures { IsServed (T.tables store.now) locks.now actor agent.now result }
{
    let Some(queue) = find_queue(store.tables(), &agent.queue) else {
        return false;
    };
    let Some(table) = find_table(store.tables(), &queue.table) else {
        return false;
    };
    has_message(store, locks, actor, &pick_of(queue, table, agent))
}

fn agent_reply(alloc: Global, number: u32, agent: &Listener) -> Result<Reply, AllocError>
    ensures { IfOk result (λ reply. reply ≡ agent_reply number agent.now) }
{
    let served = ServedAgent {
        number,
        queue: agent.queue.copied()?,
        consumer: Copied::copied(&agent.consumer)?,
    };
    Ok(Reply::Agent(Boxed::new(alloc, served)?))
}

/// The first agent that has a message for the session of that number, with its place in the list; None where none has.
pub(crate) fn served<T: ChoosesMessages>(
    alloc: Global,
    store: &T,
    locks: &RowLocks,
    actor: u32,
    agents: &List<Listener>,
) -> Result<Option<Reply>, AllocError>
    requires can { CanListen (T.tables store.now) locks.now actor }
    requires few { length agents.now ≤ AGENT_LIMIT }
    ensures { IfOk result (ServesFirst (T.tables store.now) locks.now actor agents.now) }
{
    let mut number = 1;
    for agent in agents {
        if is_served(store, locks, actor, agent) {
            return Ok(Some(agent_reply(alloc, number, agent)?));
        }
        number += 1;
    }
    Ok(None)
}
