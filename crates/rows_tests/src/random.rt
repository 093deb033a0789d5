// Stores at random, in which an index and a walk choose the same.
ghost use Rattle.std.specs.Prelude.{◌≡◌, ◌<◌};
ghost use Rattle.message_choice.specs.Indexed.{IndexesReady};
ghost use Rattle.rows_tests.specs.Kept.{numbered_from};

use crate::any_rows::{fill, mark};
use crate::asked::{any_asked, any_pick};
use crate::kept::{Numbered, can_choose, choose_alike, index_of};
use crate::rows::{queue, table};
use message_store::PreparedStore;
use queue_rows::{QueueKind, QueueRow, TableRow};
use ready_slots::ReadySlots;
use row_locks::RowLocks;
use sort_index::Steps;
use std::alloc::Global;
use std::marker::Brand;
use std::sync::ledger::{Blank, Ledger};
use std::test::Fail;

// The queue and the table in which is asked.
#[derive(Clone, Copy)]
struct Place<'a> {
    queue: &'a QueueRow,
    table: &'a TableRow,
}

// One question of the session 1.
fn answers_alike<L: Ledger>(
    kept: &Numbered<'_>,
    ready: &ReadySlots,
    locks: &RowLocks,
    place: Place<'_>,
    alloc: Global,
    seed: &mut u32,
    steps: &mut Steps<L>,
) -> Result<bool, Fail>
    requires { IndexesReady (numbered_from 0 kept.now.messages.now) ready.now }
{
    let asked = any_asked(seed, alloc)?;
    let pick = any_pick(seed, &asked, place.queue, place.table);
    Ok(
        can_choose(kept.messages, locks, 1, &pick)
            && choose_alike(kept, ready, locks, 1, &pick, steps),
    )
}

fn all_alike<L: Ledger>(
    kept: &Numbered<'_>,
    ready: &ReadySlots,
    locks: &RowLocks,
    place: Place<'_>,
    alloc: Global,
    seed: &mut u32,
    steps: &mut Steps<L>,
) -> Result<bool, Fail>
    requires { IndexesReady (numbered_from 0 kept.now.messages.now) ready.now }
{
    for _ in 0..8 {
        if !answers_alike(kept, ready, locks, place, alloc, seed, steps)? {
            return Ok(false);
        }
    }
    Ok(true)
}

fn store_alike<L: Ledger>(
    place: Place<'_>,
    alloc: Global,
    seed: &mut u32,
    steps: &mut Steps<L>,
) -> Result<bool, Fail> {
    let mut store = PreparedStore::new(alloc);
    fill(&mut store, seed, alloc)?;
    let messages = &store.tables().messages;
    let kept = Numbered { messages };
    let ready = index_of(messages, alloc)?;
    let mut locks = RowLocks::new(alloc);
    mark(&mut locks, seed, alloc, place.table.grouped)?;
    all_alike(&kept, &ready, &locks, place, alloc, seed, steps)
}

fn stores_alike<L: Ledger>(
    place: Place<'_>,
    alloc: Global,
    seed: &mut u32,
    steps: &mut Steps<L>,
) -> Result<bool, Fail> {
    for _ in 0..100 {
        if !store_alike(place, alloc, seed, steps)? {
            return Ok(false);
        }
    }
    Ok(true)
}

fn run_alike<L: Ledger>(
    kind: QueueKind,
    grouped: bool,
    alloc: Global,
    blank: Blank,
) -> Result<bool, Fail>
    requires name { blank.name ≡ L.name }
    requires parts { blank.parts ≡ L.parts }
    requires some { 0 < blank.parts }
{
    let mut steps = Steps::<L>::new(blank);
    let queue = queue(alloc, "q", "t", (kind, true, 0))?;
    let table = table(alloc, "t", &[], (true, grouped))?;
    let place = Place {
        queue: &queue,
        table: &table,
    };
    stores_alike(place, alloc, &mut 1, &mut steps)
}

const QUEUES: [(QueueKind, bool); 3] = [
    (QueueKind::Normal, false),
    (QueueKind::Normal, true),
    (QueueKind::Exception, false),
];

#[test]
fn an_index_and_a_walk_choose_the_same(rt: HostRuntime) -> Result<(), Fail> {
    for (kind, grouped) in QUEUES {
        let alike = run_alike::<Brand>(kind, grouped, rt.alloc(), Blank::new(1))?;
        assert!(rt; alike, "grouped {grouped}");
    }
    Ok(())
}
