// Subscribers: how one is added, and how one is removed.
ghost use Rattle.std.specs.Prelude.{◌≡◌, length, Ok, Some, IfOk, IfErr};
ghost use Rattle.queue_rows.specs.Rows.{find_queue};
ghost use Rattle.queue_rows.specs.Conditions.{optional_condition};
ghost use Rattle.queue_rows.specs.Recipients.{subscribers_of};
ghost use Rattle.queue_rows.specs.Catalog.{add_subscriber, put_sub, remove_sub, remove_subscriber};
ghost use Rattle.queue_catalog.specs.Judging.{Refuses};

use crate::changes::one;
use crate::fault::CatalogFault;
use crate::lookup::{find_sub, has_consumers, has_subscribers};
use crate::removal::drop_slots_in;
use aq_base::SUBSCRIBER_LIMIT;
use payload_records::{Boxed, Copied, List, Name, RecordType, Text};
use queue_rows::{Change, LimitName, Reply, SubRow, Tables, find_queue, find_table};
use rule_checks::{CheckFault, read_checked};
use rule_conditions::Cond;
use std::alloc::{AllocError, Global};

fn subscriber_count(tables: &Tables, queue: &Name) -> usize
    ensures { result ≡ length (subscribers_of tables.now queue.now) }
{
    tables.subs.count_of(queue)
}

fn copied_names(
    queue: &Name,
    name: &Name,
    address: &Option<Name>,
) -> Result<(Name, Name, Option<Name>), AllocError>
    ensures { IfOk result (λ copies. copies ≡ (queue.now, name.now, address.now)) }
{
    Ok((queue.copied()?, name.copied()?, Copied::copied(address)?))
}

fn put_ruled(
    alloc: Global,
    queue: &Name,
    name: &Name,
    address: &Option<Name>,
    rule: Option<Cond>,
) -> Result<List<Change>, AllocError>
    ensures { IfOk result (λ changes.
        put_sub queue.now name.now address.now (Ok rule) ≡ Ok changes) }
{
    match copied_names(queue, name, address) {
        Ok((queue, name, address)) => {
            let row = SubRow {
                queue,
                name,
                address,
                rule,
            };
            one(alloc, Change::PutSub(Boxed::new(alloc, row)?))
        }
        Err(AllocError) => {
            drop(rule);
            Err(AllocError)
        }
    }
}

// The last test of a new subscriber is of its rule.
fn put_sub(
    alloc: Global,
    queue: &Name,
    name: &Name,
    address: &Option<Name>,
    fields: &RecordType,
    rule: &Option<Text>,
) -> Result<List<Change>, CatalogFault>
    ensures changes { IfOk result (λ changes.
        put_sub queue.now name.now address.now (optional_condition fields.now rule.now) ≡ Ok changes) }
    ensures refused { IfErr result (Refuses
        (put_sub queue.now name.now address.now (optional_condition fields.now rule.now))) }
{
    match read_checked(alloc, rule.as_ref(), fields) {
        Ok(rule) => Ok(put_ruled(alloc, queue, name, address, rule)?),
        Err(CheckFault::Refused(fault)) => {
            let fault = Boxed::new(alloc, fault)?;
            Err(CatalogFault::Refused(Reply::BadCondition(fault)))
        }
        Err(CheckFault::Memory) => Err(CatalogFault::Memory),
    }
}

/// A subscriber of a normal queue of a table for many consumers, with a rule that fits the table.
pub(crate) fn add_subscriber(
    alloc: Global,
    tables: &Tables,
    queue: &Name,
    name: &Name,
    address: &Option<Name>,
    rule: &Option<Text>,
) -> Result<List<Change>, CatalogFault>
    ensures changes { IfOk result (λ changes.
        add_subscriber tables.now (find_queue tables.now queue.now) name.now address.now rule.now
        ≡ Ok changes) }
    ensures refused { IfErr result (Refuses
        (add_subscriber tables.now (find_queue tables.now queue.now) name.now address.now rule.now)) }
{
    let Some(row) = find_queue(tables, queue) else {
        return Err(CatalogFault::Refused(Reply::NoQueue));
    };
    let Some(table) = find_table(tables, &row.table) else {
        return Err(CatalogFault::Refused(Reply::WrongKind));
    };
    if !has_consumers(row, table) {
        return Err(CatalogFault::Refused(Reply::WrongKind));
    }
    if find_sub(tables, &row.name, name).is_some() {
        return Err(CatalogFault::Refused(Reply::Exists));
    }
    if subscriber_count(tables, &row.name) >= SUBSCRIBER_LIMIT {
        return Err(CatalogFault::Refused(Reply::Limit(LimitName::Subscribers)));
    }
    put_sub(alloc, &row.name, name, address, &table.fields, rule)
}

fn remove_sub(
    alloc: Global,
    tables: &Tables,
    sub: &SubRow,
    moment: u64,
) -> Result<List<Change>, AllocError>
    ensures { IfOk result (λ changes. remove_sub tables.now (Some sub.now) moment ≡ Ok changes) }
{
    let mut changes = one(
        alloc,
        Change::DropSub {
            queue: sub.queue.copied()?,
            name: sub.name.copied()?,
        },
    )?;
    drop_slots_in(&mut changes, tables, sub, moment)?;
    Ok(changes)
}

/// A subscriber goes, and with it what it could still take.
pub(crate) fn remove_subscriber(
    alloc: Global,
    tables: &Tables,
    queue: &Name,
    name: &Name,
    moment: u64,
) -> Result<List<Change>, CatalogFault>
    ensures changes { IfOk result (λ changes.
        remove_subscriber tables.now (find_queue tables.now queue.now) name.now moment ≡ Ok changes) }
    ensures refused { IfErr result (Refuses
        (remove_subscriber tables.now (find_queue tables.now queue.now) name.now moment)) }
{
    let Some(row) = find_queue(tables, queue) else {
        return Err(CatalogFault::Refused(Reply::NoQueue));
    };
    if !has_subscribers(tables, row) {
        return Err(CatalogFault::Refused(Reply::WrongKind));
    }
    let Some(sub) = find_sub(tables, &row.name, name) else {
        return Err(CatalogFault::Refused(Reply::NoSubscriber));
    };
    Ok(remove_sub(alloc, tables, sub, moment)?)
}
