// The lines of what stands in a database besides messages.
ghost use Rattle.std.specs.Prelude.{◌≡◌, OnOk, option_map};
ghost use Rattle.rule_conditions.specs.Print.{print as rule_text};
ghost use Rattle.transcript.specs.Rows.{db_word, database_head, database_tail, database_line, column_word, columns_text, table_line, queue_kind_word, queue_head, retries_part, queue_tail, queue_line, sub_head, sub_tail, sub_line, schedule_head, window_part, schedule_tail, schedule_line, seen_line};
ghost use Rattle.transcript.specs.Text.{Writes, json_or_null};

use crate::record::{put_comma_if, put_fields};
use crate::text::{Id, Slot, name_or_null, other_of, put_json, put_number_or_null, word_of};
use aq_base::DbId;
use payload_records::List;
use place_keys::Column;
use queue_rows::{MsgId, QueueKind, QueueRow, ScheduleRow, SeenRow, SubRow, TableRow, Tables};
use rule_conditions::Cond;
use std::alloc::AllocError;

fn db_word(db: DbId) -> &'static str
    ensures { result.now ≡ db_word db }
{
    match db {
        DbId::Home => "home",
        DbId::Away => "away",
    }
}

fn put_database_head(out: &mut String, db: DbId, next: u64) -> Result<(), AllocError>
    ensures { OnOk result (Writes out.old out.new (database_head db next)) }
{
    let word = db_word(db);
    write!(out, "database {word} next {next}")
}

fn put_database_tail(out: &mut String, transaction: u64, latest: u64) -> Result<(), AllocError>
    ensures { OnOk result (Writes out.old out.new (database_tail transaction latest)) }
{
    out.push_str(" transaction ")?;
    write!(out, "{transaction} latest {latest}\n")
}

/// Puts in the line of a database, with its counters.
pub(crate) fn put_database(out: &mut String, db: DbId, tables: &Tables) -> Result<(), AllocError>
    ensures { OnOk result (Writes out.old out.new (database_line db tables.now)) }
{
    put_database_head(out, db, tables.next)?;
    put_database_tail(out, tables.transaction, tables.latest)
}

// ---- queue tables

fn column_word(column: Column) -> &'static str
    ensures { result.now ≡ column_word column }
{
    match column {
        Column::Priority => "priority",
        Column::EnqTime => "enq_time",
        Column::CommitTime => "commit_time",
    }
}

fn put_columns(out: &mut String, columns: &List<Column>) -> Result<(), AllocError>
    ensures { OnOk result (Writes out.old out.new (columns_text columns.now)) }
{
    let mut later = false;
    for column in columns {
        put_comma_if(out, later)?;
        out.push_str(column_word(*column))?;
        later = true;
    }
    Ok(())
}

/// Puts in the line of a queue table.
pub(crate) fn put_table(out: &mut String, row: &TableRow) -> Result<(), AllocError>
    ensures { OnOk result (Writes out.old out.new (table_line row.now)) }
{
    let name = row.name.as_str();
    let consumers = word_of(row.multi, "multi", "single");
    let grouping = word_of(row.grouped, "transactional", "none");
    write!(out, "table {name} fields ")?;
    put_fields(out, &row.fields)?;
    out.push_str(" sort ")?;
    put_columns(out, row.columns.columns())?;
    write!(out, " {consumers} {grouping}\n")
}

// ---- queues

fn queue_kind_word(kind: QueueKind) -> &'static str
    ensures { result.now ≡ queue_kind_word kind }
{
    match kind {
        QueueKind::Normal => "normal",
        QueueKind::Exception => "exception",
    }
}

fn put_queue_head(out: &mut String, row: &QueueRow) -> Result<(), AllocError>
    ensures { OnOk result (Writes out.old out.new (queue_head row.now)) }
{
    let (name, table) = (row.name.as_str(), row.table.as_str());
    let kind = queue_kind_word(row.kind);
    let enqueue = word_of(row.enqueue, "on", "off");
    let dequeue = word_of(row.dequeue, "on", "off");
    write!(
        out,
        "queue {name} table {table} {kind} enqueue {enqueue} dequeue {dequeue}"
    )
}

fn put_retries(out: &mut String, row: &QueueRow) -> Result<(), AllocError>
    ensures { OnOk result (Writes out.old out.new (retries_part row.now)) }
{
    let (retries, delay) = (row.max_retries, row.retry_delay);
    write!(out, " max_retries {retries} retry_delay {delay}")
}

fn put_queue_tail(out: &mut String, row: &QueueRow) -> Result<(), AllocError>
    ensures { OnOk result (Writes out.old out.new (queue_tail row.now)) }
{
    let (retention, lowest) = (row.retention, row.lowest);
    write!(out, " retention {retention} lowest {lowest}\n")
}

/// Puts in the line of a queue.
pub(crate) fn put_queue(out: &mut String, row: &QueueRow) -> Result<(), AllocError>
    ensures { OnOk result (Writes out.old out.new (queue_line row.now)) }
{
    put_queue_head(out, row)?;
    put_retries(out, row)?;
    put_queue_tail(out, row)
}

// ---- subscribers

fn put_rule(out: &mut String, rule: &Option<Cond>) -> Result<(), AllocError>
    ensures { OnOk result (Writes out.old out.new (json_or_null (option_map rule_text rule.now))) }
{
    let Some(rule) = rule else {
        return out.push_str("null");
    };
    let alloc = *out.allocator();
    let text = rule_text::print(alloc, rule)?;
    put_json(out, text.as_str())
}

fn put_subscriber_head(out: &mut String, row: &SubRow) -> Result<(), AllocError>
    ensures { OnOk result (Writes out.old out.new (sub_head row.now)) }
{
    let (queue, name) = (row.queue.as_str(), row.name.as_str());
    out.push_str("subscriber ")?;
    write!(out, "{queue} {name}")
}

fn put_subscriber_tail(out: &mut String, row: &SubRow) -> Result<(), AllocError>
    ensures { OnOk result (Writes out.old out.new (sub_tail row.now)) }
{
    let address = name_or_null(&row.address);
    write!(out, " address {address} rule ")?;
    put_rule(out, &row.rule)?;
    out.push_str("\n")
}

/// Puts in the line of a subscriber.
pub(crate) fn put_subscriber(out: &mut String, row: &SubRow) -> Result<(), AllocError>
    ensures { OnOk result (Writes out.old out.new (sub_line row.now)) }
{
    put_subscriber_head(out, row)?;
    put_subscriber_tail(out, row)
}

// ---- schedules

fn put_schedule_head(out: &mut String, row: &ScheduleRow) -> Result<(), AllocError>
    ensures { OnOk result (Writes out.old out.new (schedule_head row.now)) }
{
    let (queue, to) = (row.queue.as_str(), row.to.as_str());
    let enabled = word_of(row.enabled, "enabled", "disabled");
    let start = row.start;
    write!(out, "schedule {queue} to {to} {enabled} start {start}")
}

fn put_window(out: &mut String, row: &ScheduleRow) -> Result<(), AllocError>
    ensures { OnOk result (Writes out.old out.new (window_part row.now)) }
{
    out.push_str(" duration ")?;
    put_number_or_null(out, row.duration)?;
    out.push_str(" period ")?;
    put_number_or_null(out, row.period)
}

fn put_schedule_tail(out: &mut String, row: &ScheduleRow) -> Result<(), AllocError>
    ensures { OnOk result (Writes out.old out.new (schedule_tail row.now)) }
{
    let (latency, failures, next) = (row.latency, row.failures, row.next);
    write!(out, " latency {latency} failures {failures} next {next}\n")
}

/// Puts in the line of a schedule.
pub(crate) fn put_schedule(out: &mut String, row: &ScheduleRow) -> Result<(), AllocError>
    ensures { OnOk result (Writes out.old out.new (schedule_line row.now)) }
{
    put_schedule_head(out, row)?;
    put_window(out, row)?;
    put_schedule_tail(out, row)
}

// ---- what has arrived

/// Puts in the line of a slot that has arrived from the other database, with its copy.
pub(crate) fn put_seen(out: &mut String, db: DbId, row: &SeenRow) -> Result<(), AllocError>
    ensures { OnOk result (Writes out.old out.new (seen_line db row.now)) }
{
    let slot = Slot {
        db: other_of(db),
        id: row.id,
        number: row.slot,
    };
    let copy = Id(MsgId {
        db,
        number: row.copy,
    });
    write!(out, "seen {slot} as {copy}\n")
}
