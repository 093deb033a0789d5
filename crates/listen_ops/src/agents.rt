// Why an agent cannot be listened for.
ghost use Rattle.std.specs.Prelude.{◌≡◌, option_copied};
ghost use Rattle.queue_rows.specs.Listening.{agent_fault, agent_fault_in, agents_fault};

use message_choice::{has_needless_consumer, lacks_consumer};
use payload_records::{List, Name};
use queue_rows::{Listener, QueueRow, Reply, TableRow, Tables, find_queue, find_table};

fn agent_fault_in(
    queue: &QueueRow,
    table: Option<&TableRow>,
    consumer: Option<&Name>,
) -> Option<Reply>
    ensures { result ≡ agent_fault_in queue.now (option_copied table.entry) (option_copied consumer.entry) }
{
    let Some(table) = table else {
        return Some(Reply::NoQueue);
    };
    if queue.kind.is_exception() {
        return Some(Reply::WrongKind);
    }
    if !queue.dequeue {
        return Some(Reply::DequeueOff);
    }
    if lacks_consumer(queue, table, consumer) {
        return Some(Reply::ConsumerNeeded);
    }
    if has_needless_consumer(queue, table, consumer) {
        return Some(Reply::ConsumerRefused);
    }
    None
}

fn agent_fault(tables: &Tables, agent: &Listener) -> Option<Reply>
    ensures { result ≡ agent_fault tables.now agent.now }
{
    let Some(queue) = find_queue(tables, &agent.queue) else {
        return Some(Reply::NoQueue);
    };
    let table = find_table(tables, &queue.table);
    agent_fault_in(queue, table, agent.consumer.as_ref())
}

/// Why the first agent cannot be listened for that is faulty; None where none is. It takes no memory.
pub(crate) fn agents_fault(tables: &Tables, agents: &List<Listener>) -> Option<Reply>
    ensures { result ≡ agents_fault tables.now agents.now }
{
    for agent in agents {
        if let Some(reply) = agent_fault(tables, agent) {
            return Some(reply);
        }
    }
    None
}
