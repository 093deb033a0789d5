// The text of a database's tables.
ghost use Rattle.std.specs.Prelude.{◌≡◌, OnOk, IfOk};
ghost use Rattle.std.specs.List.{flat_map};
ghost use Rattle.transcript.specs.Dump.{print_tables};
ghost use Rattle.transcript.specs.Messages.{message_lines};
ghost use Rattle.transcript.specs.Rows.{table_line, queue_line, sub_line, schedule_line, seen_line};
ghost use Rattle.transcript.specs.Text.{Writes};

use crate::messages::put_message;
use crate::rows::{put_database, put_queue, put_schedule, put_seen, put_subscriber, put_table};
use aq_base::DbId;
use named_list::NamedList;
use pair_list::PairList;
use payload_records::List;
use queue_rows::{QueueRow, ScheduleRow, SeenRow, SubRow, TableRow, Tables};
use std::alloc::{AllocError, Global};

fn put_tables(out: &mut String, rows: &NamedList<TableRow>) -> Result<(), AllocError>
    ensures { OnOk result (Writes out.old out.new (flat_map table_line rows.now)) }
{
    for row in rows {
        put_table(out, row)?;
    }
    Ok(())
}

fn put_queues(out: &mut String, rows: &NamedList<QueueRow>) -> Result<(), AllocError>
    ensures { OnOk result (Writes out.old out.new (flat_map queue_line rows.now)) }
{
    for row in rows {
        put_queue(out, row)?;
    }
    Ok(())
}

fn put_subscribers(out: &mut String, rows: &NamedList<SubRow>) -> Result<(), AllocError>
    ensures { OnOk result (Writes out.old out.new (flat_map sub_line rows.now)) }
{
    for row in rows {
        put_subscriber(out, row)?;
    }
    Ok(())
}

fn put_schedules(out: &mut String, rows: &List<ScheduleRow>) -> Result<(), AllocError>
    ensures { OnOk result (Writes out.old out.new (flat_map schedule_line rows.now)) }
{
    for row in rows {
        put_schedule(out, row)?;
    }
    Ok(())
}

fn put_messages(out: &mut String, db: DbId, tables: &Tables) -> Result<(), AllocError>
    ensures { OnOk result (Writes out.old out.new
        (flat_map (message_lines db tables.now) tables.now.messages)) }
{
    for message in &tables.messages {
        put_message(out, db, tables, message)?;
    }
    Ok(())
}

fn put_arrivals(out: &mut String, db: DbId, rows: &PairList<SeenRow>) -> Result<(), AllocError>
    ensures { OnOk result (Writes out.old out.new (flat_map (seen_line db) rows.now)) }
{
    for row in rows {
        put_seen(out, db, row)?;
    }
    Ok(())
}

/// The text of a database's tables: a line for the database, and then one for each queue table, queue,
/// subscriber, schedule, message with its slots behind it, and slot that has arrived. It fails only for
/// want of memory.
#[tactic(auto, unfolding(crate::specs::Dump::print_tables))]
pub fn print_tables(alloc: Global, db: DbId, tables: &Tables) -> Result<Vec<u8>, AllocError>
    ensures { IfOk result (λ text. text.items ≡ print_tables db tables.now) }
{
    let mut out = String::new(alloc);
    put_database(&mut out, db, tables)?;
    put_tables(&mut out, &tables.tables)?;
    put_queues(&mut out, &tables.queues)?;
    put_subscribers(&mut out, &tables.subs)?;
    put_schedules(&mut out, &tables.schedules)?;
    put_messages(&mut out, db, tables)?;
    put_arrivals(&mut out, db, &tables.seen)?;
    Ok(out.into_bytes())
}
