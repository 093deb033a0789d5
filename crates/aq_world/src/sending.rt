// A step of propagation is made, when what must be durable before it is.
ghost use Rattle.std.specs.Prelude.{◌≡◌, Err, IfOk, IfErr, OnOk, OnErr, is_some, false};
ghost use Rattle.queue_rows.specs.Sending.{may_follow, next_sending, sent};
ghost use Rattle.queue_rows.specs.Order.{IsFront};
ghost use Rattle.queue_rows.specs.Turns.{is_durable, propagated};
ghost use Rattle.run_laws.specs.ValidRun.{IsValidWorld};
ghost use Rattle.run_state.specs.Entries.{IsUntold};
ghost use Rattle.next_steps.specs.Sendings.{sending_meant, made_ready, HasIds};
ghost use Rattle.durable_state.specs.Held.{HasFailed};
ghost use Rattle.aq_world.specs.Going.{GoesAs, GoesQuietly};
ghost use Rattle.aq_world.specs.Turning.{IsSendingDue};

use aq_disk::Disk;
use durable_state::{Broken, DurableState};
use next_steps::{Sending, may_follow, next_sending};
use std::alloc::AllocError;

/// Makes every commit durable where the step needs it. Broken off, the world is as before.
fn make_ready<D: Disk>(
    state: &mut DurableState<D>,
    actor: u32,
    sending: &Sending,
) -> Result<(), Broken>
    ensures ok { OnOk result
        (state.new.world ≡ made_ready actor (sending_meant sending.now) state.old.world) }
    ensures err { OnErr result (state.new.world ≡ state.old.world) }
    ensures due { IfErr result (λ why. (HasFailed state.old → ⊥)
        → (why ≡ Broken.Halted) × (may_follow state.old.world (sending_meant sending.now) ≡ false)
        × (is_durable state.old.world ≡ false)) }
    ensures disks { GoesAs actor D.seen D.is_image D.calls D.faults result state.old state.new }
{
    if may_follow(state.run(), sending) {
        return Ok(());
    }
    state.flush(actor)?;
    Ok(())
}

/// Makes the step. At want of memory all is as before.
fn send<D: Disk>(
    state: &mut DurableState<D>,
    actor: u32,
    sending: Sending,
) -> Result<(), AllocError>
    requires { HasIds state.old.world }
    ensures ok { OnOk result (state.new.world ≡ sent actor (sending_meant sending) state.old.world) }
    ensures err { OnErr result (state.new.world ≡ state.old.world) }
    ensures disks { GoesQuietly actor D.seen D.is_image D.calls D.faults state.old state.new }
{
    match sending {
        Sending::Offer { at, to } => state.offer(actor, at, to),
        Sending::Arrive { at, arriving } => state.arrive(actor, at, arriving),
        Sending::Confirm { at, changes, .. } => state.confirm(actor, at, changes),
    }
}

/// Makes the step of propagation that comes next, if there is one, after a flush where one must be; whether there was one is told. Broken
/// off, the world is as before, but that every commit may be durable.
#[tactic(auto, using(next_steps::proofs::Sendings::none_sent, next_steps::proofs::Sendings::ready_front, next_steps::proofs::Sendings::ready_ids, next_steps::proofs::Sendings::ready_untold, next_steps::proofs::Sendings::sent_whole, next_steps::proofs::Sendings::untouched_front))]
pub fn propagate<D: Disk>(state: &mut DurableState<D>, actor: u32) -> Result<bool, Broken>
    requires { IsValidWorld state.old.world }
    ensures ok { OnOk result (state.new.world ≡ propagated actor state.old.world) }
    ensures sent { IfOk result (λ was_sent. was_sent ≡ is_some (next_sending state.old.world)) }
    ensures err { OnErr result (IsUntold actor state.old.world state.new.world) }
    ensures front { OnErr result
        (IsFront state.new.world.entries (propagated actor state.old.world).entries) }
    ensures due { result ≡ Err Broken.Halted → (HasFailed state.old → ⊥)
        → IsSendingDue state.old.world × (state.new.world ≡ state.old.world) }
    ensures disks { GoesAs actor D.seen D.is_image D.calls D.faults result state.old state.new }
{
    let Some(sending) = next_sending(state.run())? else {
        return Ok(false);
    };
    make_ready(state, actor, &sending)?;
    send(state, actor, sending)?;
    Ok(true)
}
