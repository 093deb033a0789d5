// The step of propagation that comes next.
ghost use Rattle.std.specs.Prelude.{◌≡◌, ◌+◌, Some, IfOk, option_map, option_and_then};
ghost use Rattle.queue_rows.specs.World.{other_db, on_its_way, came};
ghost use Rattle.queue_rows.specs.Sending.{may_follow, next_sending, offer_of, picked, picked_at, sending_on};
ghost use Rattle.run_laws.specs.ValidRun.{IsValidWorld};
ghost use Rattle.next_steps.specs.Sendings.{sending_meant};

use aq_base::DbId;
use payload_records::{Copied, List, Name};
use propagation::{Arriving, arrive, confirm, pick, schedule_of};
use queue_rows::{Change, SlotRef};
use run_state::{RunState, Stage, Transit};
use std::alloc::AllocError;

/// A step of propagation.
#[derive(Drop)]
pub enum Sending {
    /// The slot is offered to that queue of the other database.
    Offer {
        /// The slot.
        at: SlotRef,
        /// The queue.
        to: Name,
    },
    /// The slot arrives.
    Arrive {
        /// The slot.
        at: SlotRef,
        /// What that does.
        arriving: Arriving,
    },
    /// The slot is confirmed: its pair stands at that place among those that the destination has seen.
    Confirm {
        /// The slot.
        at: SlotRef,
        /// The place of its pair, counted from 0.
        place: u64,
        /// What this commits where it came from.
        changes: List<Change>,
    },
}

fn other_db(db: DbId) -> DbId
    ensures { result ≡ other_db db }
{
    match db {
        DbId::Home => DbId::Away,
        DbId::Away => DbId::Home,
    }
}

/// The slot that a database sends at this moment, if it has one to send.
#[tactic(auto, using(crate::proofs::Sizes::few_slots_at))]
fn picked_at(state: &RunState, db: DbId) -> Option<SlotRef>
    requires { IsValidWorld state.now }
    ensures { result ≡ picked_at db state.now }
{
    let (id, slot) = pick(state.database(db).store(), state.moment())?;
    Some(SlotRef { db, id, slot })
}

/// Home's slot to send, or where there is none, away's.
fn picked(state: &RunState) -> Option<SlotRef>
    requires { IsValidWorld state.now }
    ensures { result ≡ picked state.now }
{
    match picked_at(state, DbId::Home) {
        Some(at) => Some(at),
        None => picked_at(state, DbId::Away),
    }
}

/// A slot is taken up, where there is one to send.
#[tactic(auto, using(crate::proofs::Sendings::none_picked, crate::proofs::Sendings::none_offered, crate::proofs::Sendings::offered_so))]
fn next_offer(state: &RunState) -> Result<Option<Sending>, AllocError>
    requires { IsValidWorld state.now }
    ensures { IfOk result (λ next. option_map sending_meant next
        ≡ option_and_then (offer_of state.now) (picked state.now)) }
{
    let Some(at) = picked(state) else {
        return Ok(None);
    };
    let Some(schedule) = schedule_of(state.database(at.db).store(), &at) else {
        return Ok(None);
    };
    Ok(Some(Sending::Offer {
        at,
        to: schedule.to.copied()?,
    }))
}

/// The slot that is on its way arrives.
#[tactic(auto, using(crate::proofs::Sizes::early_moment, crate::proofs::Sizes::few_transactions_at, crate::proofs::Sendings::arrival_is, crate::proofs::Sendings::few_failures, crate::proofs::Sendings::is_dispatched))]
fn next_arrival(state: &RunState, at: SlotRef) -> Result<Sending, AllocError>
    requires valid { IsValidWorld state.now }
    requires sent { state.now.transit ≡ Some (record { slot = at; stage = on_its_way }) }
    ensures { IfOk result (λ next.
        Some (sending_meant next) ≡ sending_on state.now at on_its_way) }
{
    let there = state.database(other_db(at.db));
    let origin = state.database(at.db).store();
    let arriving = arrive(origin, &at, there.store(), there.next(), state.moment())?;
    Ok(Sending::Arrive { at, arriving })
}

/// The slot that came is confirmed.
#[tactic(auto, using(crate::proofs::Sendings::confirmation_is, crate::proofs::Sendings::is_dispatched))]
fn next_confirmation(state: &RunState, at: SlotRef, place: u64) -> Result<Sending, AllocError>
    requires valid { IsValidWorld state.now }
    requires sent { state.now.transit ≡ Some (record { slot = at; stage = came (place + 1) }) }
    ensures { IfOk result (λ next.
        Some (sending_meant next) ≡ sending_on state.now at (came (place + 1))) }
{
    let changes = confirm(state.database(at.db).store(), &at, state.moment())?;
    Ok(Sending::Confirm { at, place, changes })
}

/// The step of propagation that comes next, if there is one: one slot is sent at a time.
#[tactic(auto, unfolding(queue_rows::specs::Sending::next_sending))]
pub fn next_sending(state: &RunState) -> Result<Option<Sending>, AllocError>
    requires { IsValidWorld state.now }
    ensures { IfOk result (λ next. option_map sending_meant next ≡ next_sending state.now) }
{
    match state.transit() {
        None => next_offer(state),
        Some(
            Transit {
                slot,
                stage: Stage::OnItsWay,
            },
        ) => Ok(Some(next_arrival(state, *slot)?)),
        Some(
            Transit {
                slot,
                stage: Stage::Came(place),
            },
        ) => Ok(Some(next_confirmation(state, *slot, *place)?)),
    }
}

/// Whether what must be durable before the step is: an offer needs all commits of its database, a confirmation the destination's pair.
pub fn may_follow(state: &RunState, sending: &Sending) -> bool
    ensures { result ≡ may_follow state.now (sending_meant sending.now) }
{
    match sending {
        Sending::Offer { at, .. } => state.database(at.db).is_durable(),
        Sending::Arrive { .. } => true,
        Sending::Confirm { at, place, .. } => {
            *place < state.database(other_db(at.db)).durable_seen()
        }
    }
}
