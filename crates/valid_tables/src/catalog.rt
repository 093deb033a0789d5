// Queue tables and queues by their names, each found without a walk over all rows.
ghost use Rattle.std.specs.Prelude.{◌≡◌, ◌+◌, List as Sequence, ℕ, IfOk, OnOk, find, filter, length, option_copied, if◌then◌else◌};
ghost use Rattle.std.specs.Map.{count_at};
ghost use Rattle.std.specs.Str.{bytes_eq};
ghost use Rattle.valid_tables.specs.Catalog.{at_name};

use crate::named::NamedRows;
use named_list::NamedList;
use payload_records::{Copied, Name};
use queue_rows::{QueueRow, SubRow, TableRow, Tables};
use std::alloc::{AllocError, Global};
use std::collections::BTreeMap;
use std::marker::Model;

/// The tables of a database, with maps that find a queue table and a queue by their names, and tell how many subscribers a
/// queue has. Contracts see the tables.
#[derive(Drop)]
pub(crate) struct Catalog<'a> {
    tables: &'a Tables,
    table_rows: BTreeMap<Name, &'a TableRow>,
    queue_rows: BTreeMap<Name, &'a QueueRow>,
    sub_counts: BTreeMap<Name, usize>,
}

impl<'a> Model for Catalog<'a> {
    ghost use Rattle.std.specs.Coded.{codes};
    ghost use Rattle.rule_conditions.specs.contracts.condition.Cond as cond;
    ghost use Rattle.queue_rows.specs.declared.tables.Tables.{Tables};
    ghost use Rattle.valid_tables.specs.Catalog.{IsCatalog, at_name};

    ghost Value = { Tables };

    ghost coded = { Prim.hlevel (codes, cond.the_row.coded) };

    ghost view = { λ c. c.tables.now };

    ghost invariant = { λ c. IsCatalog c.tables.now (at_name c.table_rows) (at_name c.queue_rows)
        (at_name c.sub_counts) };
}

// The first row of each name stays.
fn rows_of_tables<'a>(
    alloc: Global,
    tables: &'a NamedList<TableRow>,
) -> Result<BTreeMap<Name, &'a TableRow>, AllocError>
    ensures { IfOk result (λ rows. (name : Sequence ℕ)
        → option_copied (at_name rows name) ≡ find (λ r. bytes_eq r.name name) tables.now) }
{
    let mut rows = BTreeMap::new(alloc);
    for table in tables {
        if !rows.contains_key(&table.name) {
            rows.insert(table.name.copied()?, table)?;
        }
    }
    Ok(rows)
}

fn rows_of_queues<'a>(
    alloc: Global,
    queues: &'a NamedList<QueueRow>,
) -> Result<BTreeMap<Name, &'a QueueRow>, AllocError>
    ensures { IfOk result (λ rows. (name : Sequence ℕ)
        → option_copied (at_name rows name) ≡ find (λ r. bytes_eq r.name name) queues.now) }
{
    let mut rows = BTreeMap::new(alloc);
    for queue in queues {
        if !rows.contains_key(&queue.name) {
            rows.insert(queue.name.copied()?, queue)?;
        }
    }
    Ok(rows)
}

fn count_of(counts: &BTreeMap<Name, usize>, queue: &Name) -> usize
    ensures { result ≡ count_at (at_name counts.now) queue.now }
{
    counts.get(queue).copied().unwrap_or(0)
}

fn count_one(counts: &mut BTreeMap<Name, usize>, queue: &Name) -> Result<(), AllocError>
    ensures { OnOk result ((name : Sequence ℕ) → count_at (at_name counts.new) name
        ≡ count_at (at_name counts.old) name + (if bytes_eq queue.now name then 1 else 0)) }
{
    let Some(count) = count_of(counts, queue).checked_add(1) else {
        return Err(AllocError);
    };
    counts.insert(queue.copied()?, count)?;
    Ok(())
}

fn counts_of_subs(
    alloc: Global,
    subs: &NamedList<SubRow>,
) -> Result<BTreeMap<Name, usize>, AllocError>
    ensures { IfOk result (λ counts. (queue : Sequence ℕ)
        → count_at (at_name counts) queue ≡ length (filter (λ s. bytes_eq s.queue queue) subs.now)) }
{
    let mut counts = BTreeMap::new(alloc);
    for sub in subs {
        count_one(&mut counts, &sub.queue)?;
    }
    Ok(counts)
}

impl<'a> Catalog<'a> {
    /// The catalog of the tables.
    pub(crate) fn of(alloc: Global, tables: &'a Tables) -> Result<Catalog<'a>, AllocError>
        ensures { IfOk result (λ catalog. catalog ≡ tables.now) }
    {
        Ok(Catalog {
            tables,
            table_rows: rows_of_tables(alloc, &tables.tables)?,
            queue_rows: rows_of_queues(alloc, &tables.queues)?,
            sub_counts: counts_of_subs(alloc, &tables.subs)?,
        })
    }
}

impl<'a> NamedRows for Catalog<'a> {
    ghost use Rattle.queue_rows.specs.declared.tables.Tables.{Tables};

    ghost tables = { λ c. c };

    fn tables(&self) -> &Tables {
        self.tables
    }

    fn table(&self, name: &Name) -> Option<&TableRow> {
        self.table_rows.get(name).copied()
    }

    fn queue(&self, name: &Name) -> Option<&QueueRow> {
        self.queue_rows.get(name).copied()
    }

    fn sub_count(&self, queue: &Name) -> usize {
        count_of(&self.sub_counts, queue)
    }
}
