// Stores that commits at random have made, which choose as it is defined.
ghost use Rattle.std.specs.Prelude.{◌≡◌, ◌<◌};
ghost use Rattle.slot_marks.specs.Marks.{marks_of};
ghost use Rattle.message_choice.specs.Asking.{AreSound};

use crate::any_rows::{below, mark};
use crate::asked::{any_asked, any_pick};
use crate::commits::any_commit;
use crate::kept::{are_same, can_choose};
use crate::plain::{Question, choose_plainly};
use crate::rows::{queue, table};
use message_choice::{ChoosesMessages, Pick};
use message_store::PreparedStore;
use queue_rows::{QueueKind, QueueRow, TableRow};
use row_locks::RowLocks;
use sort_index::Steps;
use std::alloc::Global;
use std::marker::Brand;
use std::sync::ledger::{Blank, Ledger};
use std::test::Fail;

// Two queues, and their table.
struct Places {
    first: QueueRow,
    second: QueueRow,
    table: TableRow,
}

impl Drop for Places {
    fn drop(self) {
        let Self {
            first: _,
            second: _,
            table: _,
        } = self;
    }
}

fn make_places(alloc: Global, kind: QueueKind, grouped: bool) -> Result<Places, Fail> {
    let first = queue(alloc, "q", "t", (kind, true, 0))?;
    let second = queue(alloc, "r", "t", (kind, true, 0))?;
    let table = table(alloc, "t", &[], (true, grouped))?;
    Ok(Places {
        first,
        second,
        table,
    })
}

fn any_place<'a>(places: &'a Places, seed: &mut u32) -> &'a QueueRow {
    if below(seed, 2) == 0 {
        &places.first
    } else {
        &places.second
    }
}

// What the random numbers have come to.
#[derive(Clone, Copy)]
struct Luck {
    seed: u32,
    /// The number of the next message.
    next: u32,
}

fn chooses_alike<L: Ledger>(
    store: &PreparedStore,
    question: &Question<'_>,
    steps: &mut Steps<L>,
) -> bool
    requires sound { let pick = question.now.pick.now in
        AreSound (marks_of question.now.locks.now question.now.actor) pick.queue.now pick.table.now
        store.now.tables.messages }
{
    let Question { locks, actor, pick } = *question;
    let chosen = store.choose(locks, actor, pick, steps);
    are_same(chosen, choose_plainly(&store.tables().messages, question))
}

// One question of the session 1.
fn answers_alike<L: Ledger>(
    store: &PreparedStore,
    locks: &RowLocks,
    places: &Places,
    luck: &mut Luck,
    alloc: Global,
    steps: &mut Steps<L>,
) -> Result<bool, Fail> {
    let asked = any_asked(&mut luck.seed, alloc)?;
    let queue = any_place(places, &mut luck.seed);
    let pick = any_pick(&mut luck.seed, &asked, queue, &places.table);
    let question = Question {
        locks,
        actor: 1,
        pick: &pick,
    };
    Ok(
        can_choose(&store.tables().messages, locks, 1, &pick)
            && chooses_alike(store, &question, steps),
    )
}

fn all_alike<L: Ledger>(
    store: &PreparedStore,
    locks: &RowLocks,
    places: &Places,
    luck: &mut Luck,
    alloc: Global,
    steps: &mut Steps<L>,
) -> Result<bool, Fail> {
    for _ in 0..4 {
        if !answers_alike(store, locks, places, luck, alloc, steps)? {
            return Ok(false);
        }
    }
    Ok(true)
}

// Questions after each of some commits.
fn grows_alike<L: Ledger>(
    store: &mut PreparedStore,
    locks: &RowLocks,
    places: &Places,
    luck: &mut Luck,
    alloc: Global,
    steps: &mut Steps<L>,
) -> Result<bool, Fail> {
    for _ in 0..6 {
        any_commit(store, &mut luck.seed, &mut luck.next, alloc)?;
        if !all_alike(store, locks, places, luck, alloc, steps)? {
            return Ok(false);
        }
    }
    Ok(true)
}

fn store_alike<L: Ledger>(
    locks: &RowLocks,
    places: &Places,
    luck: &mut Luck,
    alloc: Global,
    steps: &mut Steps<L>,
) -> Result<bool, Fail> {
    let mut store = PreparedStore::new(alloc);
    grows_alike(&mut store, locks, places, luck, alloc, steps)
}

fn marked_alike<L: Ledger>(
    places: &Places,
    luck: &mut Luck,
    alloc: Global,
    steps: &mut Steps<L>,
) -> Result<bool, Fail> {
    luck.next = 0;
    let mut locks = RowLocks::new(alloc);
    mark(&mut locks, &mut luck.seed, alloc, places.table.grouped)?;
    store_alike(&locks, places, luck, alloc, steps)
}

fn stores_alike<L: Ledger>(
    places: &Places,
    luck: &mut Luck,
    alloc: Global,
    steps: &mut Steps<L>,
) -> Result<bool, Fail> {
    for _ in 0..100 {
        if !marked_alike(places, luck, alloc, steps)? {
            return Ok(false);
        }
    }
    Ok(true)
}

fn run_alike<L: Ledger>(
    kind: QueueKind,
    grouped: bool,
    alloc: Global,
    blank: Blank,
) -> Result<bool, Fail>
    requires name { blank.name ≡ L.name }
    requires parts { blank.parts ≡ L.parts }
    requires some { 0 < blank.parts }
{
    let mut steps = Steps::<L>::new(blank);
    let places = make_places(alloc, kind, grouped)?;
    let mut luck = Luck { seed: 1, next: 0 };
    stores_alike(&places, &mut luck, alloc, &mut steps)
}

const QUEUES: [(QueueKind, bool); 3] = [
    (QueueKind::Normal, false),
    (QueueKind::Normal, true),
    (QueueKind::Exception, false),
];

#[test]
fn a_store_chooses_as_it_is_defined(rt: HostRuntime) -> Result<(), Fail> {
    for (kind, grouped) in QUEUES {
        let alike = run_alike::<Brand>(kind, grouped, rt.alloc(), Blank::new(1))?;
        assert!(rt; alike, "grouped {grouped}");
    }
    Ok(())
}
