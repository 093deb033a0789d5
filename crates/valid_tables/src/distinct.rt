// Rows of which none is the same as another.
ghost use Rattle.std.specs.Prelude.{◌≡◌, IfOk, OnOk, not};
ghost use Rattle.queue_rows.specs.Distinct.{are_distinct};
ghost use Rattle.queue_rows.specs.Rows.{is_same_table, is_same_queue, is_same_sub, is_same_schedule};
ghost use Rattle.queue_rows.specs.Valid.{is_same_message, is_same_seen, has_distinct_rows};
ghost use Rattle.valid_tables.specs.Met.{has_name, has_pair, MeetsName, MeetsPair};

use named_list::NamedList;
use pair_list::PairList;
use payload_records::{Copied, List, Name};
use queue_rows::{MsgRow, QueueRow, ScheduleRow, SeenRow, SubRow, TableRow, Tables};
use row_tree::Tree;
use std::alloc::{AllocError, Global};
use std::collections::BTreeSet;

// Puts a name among those that were met, and tells whether it is new.
fn meet_name(met: &mut BTreeSet<Name>, name: &Name) -> Result<bool, AllocError>
    ensures new { IfOk result (λ new. new ≡ not (has_name met.old name.now)) }
    ensures met { OnOk result (MeetsName name.now met.old met.new) }
{
    Ok(met.insert(name.copied()?)?)
}

fn meet_pair(
    met: &mut BTreeSet<(Name, Name)>,
    first: &Name,
    second: &Name,
) -> Result<bool, AllocError>
    ensures new { IfOk result (λ new. new ≡ not (has_pair met.old first.now second.now)) }
    ensures met { OnOk result (MeetsPair first.now second.now met.old met.new) }
{
    Ok(met.insert((first.copied()?, second.copied()?))?)
}

fn are_distinct_tables(alloc: Global, tables: &NamedList<TableRow>) -> Result<bool, AllocError>
    ensures { IfOk result (λ distinct. distinct ≡ are_distinct is_same_table tables.now) }
{
    let mut met = BTreeSet::new(alloc);
    for table in tables {
        if !meet_name(&mut met, &table.name)? {
            return Ok(false);
        }
    }
    Ok(true)
}

fn are_distinct_queues(alloc: Global, queues: &NamedList<QueueRow>) -> Result<bool, AllocError>
    ensures { IfOk result (λ distinct. distinct ≡ are_distinct is_same_queue queues.now) }
{
    let mut met = BTreeSet::new(alloc);
    for queue in queues {
        if !meet_name(&mut met, &queue.name)? {
            return Ok(false);
        }
    }
    Ok(true)
}

fn are_distinct_subs(alloc: Global, subs: &NamedList<SubRow>) -> Result<bool, AllocError>
    ensures { IfOk result (λ distinct. distinct ≡ are_distinct is_same_sub subs.now) }
{
    let mut met = BTreeSet::new(alloc);
    for sub in subs {
        if !meet_pair(&mut met, &sub.queue, &sub.name)? {
            return Ok(false);
        }
    }
    Ok(true)
}

fn are_distinct_schedules(alloc: Global, schedules: &List<ScheduleRow>) -> Result<bool, AllocError>
    ensures { IfOk result (λ distinct. distinct ≡ are_distinct is_same_schedule schedules.now) }
{
    let mut met = BTreeSet::new(alloc);
    for schedule in schedules {
        if !meet_pair(&mut met, &schedule.queue, &schedule.to)? {
            return Ok(false);
        }
    }
    Ok(true)
}

fn are_distinct_messages(alloc: Global, messages: &Tree<MsgRow>) -> Result<bool, AllocError>
    ensures { IfOk result (λ distinct. distinct ≡ are_distinct is_same_message messages.now) }
{
    let mut met = BTreeSet::new(alloc);
    for message in messages {
        if !met.insert(message.id)? {
            return Ok(false);
        }
    }
    Ok(true)
}

fn are_distinct_seen(alloc: Global, seen: &PairList<SeenRow>) -> Result<bool, AllocError>
    ensures { IfOk result (λ distinct. distinct ≡ are_distinct is_same_seen seen.now) }
{
    let mut met = BTreeSet::new(alloc);
    for row in seen {
        if !met.insert((row.id, row.slot))? {
            return Ok(false);
        }
    }
    Ok(true)
}

/// Whether names of tables, names of queues, subscribers within a queue, pairs of queue and destination, message ids and
/// seen pairs are distinct.
pub(crate) fn has_distinct_rows(alloc: Global, tables: &Tables) -> Result<bool, AllocError>
    ensures { IfOk result (λ distinct. distinct ≡ has_distinct_rows tables.now) }
{
    Ok(
        are_distinct_tables(alloc, &tables.tables)?
            && are_distinct_queues(alloc, &tables.queues)?
            && are_distinct_subs(alloc, &tables.subs)?
            && are_distinct_schedules(alloc, &tables.schedules)?
            && are_distinct_messages(alloc, &tables.messages)?
            && are_distinct_seen(alloc, &tables.seen)?,
    )
}
