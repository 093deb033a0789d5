// Stores at random, in which the rows of a destination and a walk lead to the same message that a schedule sends.
ghost use Rattle.std.specs.Prelude.{◌≡◌, IfOk, All};
ghost use Rattle.remote_slots.specs.Few.{HasFewSlots};
ghost use Rattle.remote_slots.specs.Remote.{IndexesRemote};
ghost use Rattle.rows_tests.specs.Kept.{numbered_from};

use crate::any_rows::{below, fill};
use crate::calls::have_few;
use crate::kept::Numbered;
use crate::rows::{ALWAYS, Plan, schedule};
use message_store::PreparedStore;
use queue_rows::{MsgRow, ScheduleRow};
use remote_slots::{RemoteSlots, least_by_rows, least_by_walk};
use row_tree::Tree;
use std::alloc::{AllocError, Global};
use std::test::Fail;

fn index_of(messages: &Tree<MsgRow>, alloc: Global) -> Result<RemoteSlots, AllocError>
    ensures { IfOk result (λ remote. IndexesRemote (numbered_from 0 messages.now) remote) }
{
    let _most = messages.len();
    let mut remote = RemoteSlots::new(alloc);
    let mut stamp = 0;
    for message in messages {
        remote.put(stamp, message)?;
        stamp += 1;
    }
    Ok(remote)
}

fn are_same(left: Option<&MsgRow>, right: Option<&MsgRow>) -> bool {
    match (left, right) {
        (Some(left), Some(right)) => left.id == right.id,
        (None, None) => true,
        _ => false,
    }
}

fn sends_alike(
    kept: &Numbered<'_>,
    remote: &RemoteSlots,
    schedule: &ScheduleRow,
    moment: u64,
) -> bool
    requires indexed { IndexesRemote (numbered_from 0 kept.now.messages.now) remote.now }
    requires few { All HasFewSlots kept.now.messages.now }
{
    let by_rows = least_by_rows(kept, remote.index(), schedule, moment);
    let by_walk = least_by_walk(kept.messages, schedule, moment);
    are_same(by_rows, by_walk)
}

fn any_schedule(seed: &mut u32, alloc: Global) -> Result<ScheduleRow, Fail> {
    let plan = Plan {
        start: 3,
        latency: u64::from(below(seed, 3)) * 5,
        ..ALWAYS
    };
    schedule(alloc, "q", "far", plan)
}

fn answers_alike(
    kept: &Numbered<'_>,
    remote: &RemoteSlots,
    seed: &mut u32,
    alloc: Global,
) -> Result<bool, Fail>
    requires { IndexesRemote (numbered_from 0 kept.now.messages.now) remote.now }
{
    let schedule = any_schedule(seed, alloc)?;
    let moment = 3 + u64::from(below(seed, 20));
    Ok(have_few(kept.messages) && sends_alike(kept, remote, &schedule, moment))
}

fn store_alike(seed: &mut u32, alloc: Global) -> Result<bool, Fail> {
    let mut store = PreparedStore::new(alloc);
    fill(&mut store, seed, alloc)?;
    let messages = &store.tables().messages;
    let kept = Numbered { messages };
    let remote = index_of(messages, alloc)?;
    answers_alike(&kept, &remote, seed, alloc)
}

#[test]
fn rows_and_a_walk_send_the_same(rt: HostRuntime) -> Result<(), Fail> {
    let mut seed = 1;
    for _ in 0..300 {
        assert!(rt; store_alike(&mut seed, rt.alloc())?, "{seed}");
    }
    Ok(())
}
