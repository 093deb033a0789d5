// The turns of the sessions, the timer, the propagator and the closing turn.
ghost use Rattle.std.specs.Prelude.{◌≡◌, ◌<◌, ◌≤◌, ◌^◌, ℕ, Err, not, true, length, OnOk, OnErr, IfOk, IfErr, slice_get};
ghost use Rattle.queue_rows.specs.Order.{IsFront};
ghost use Rattle.queue_rows.specs.Turns.{caught_up, closing_turn, drained, drained_once, is_still, propagator_turn, session_turn, timer_turn, DrainsIn};
ghost use Rattle.run_laws.specs.ValidRun.{IsValidWorld};
ghost use Rattle.queue_rows.specs.World.{read_clock};
ghost use Rattle.durable_state.specs.Going.{Goes};
ghost use Rattle.durable_state.specs.Held.{HasFailed};
ghost use Rattle.aq_world.specs.Going.{GoesAs, Stops};
ghost use Rattle.next_steps.specs.Sound.{IsSound};
ghost use Rattle.aq_world.specs.Turning.{IsActor, IsBrokenOff, IsCalling, IsDrainable, IsFlushDue, IsOwed, IsPartDrained, IsPartOfStep, IsSendingDue, IsUnclosed, IsUndone};
ghost use Rattle.aq_world.specs.Turning.{background_end, is_owed, reads_clock, session_end, turn_end, turned};
ghost use Rattle.aq_world.specs.declared.turn_end.TurnEnd.TheVariants.{Done};

use crate::due_work::{begin, catch_up};
use crate::own_turn::own_turn;
use crate::sending::propagate;
use crate::turn_end::TurnEnd;
use aq_disk::Disk;
use durable_state::{Broken, DurableState};
use run_state::RunState;

/// The number of sessions' numbers: below it stand the sessions.
const SESSIONS: u32 = 64;

/// The number of the timer among the actors.
const TIMER: u32 = 64;

/// The number of the propagator among the actors.
const PROPAGATOR: u32 = 65;

/// The number of the closing turn among the actors.
const CLOSING: u32 = 66;

/// A turn in which the session of that number is told the reply to its statement, whatever reading it might take. It takes no
/// memory: where the session is not told, a call on a disk failed.
#[tactic(auto, using(crate::proofs::Turning::told_whole, crate::proofs::Turning::untold_front))]
fn telling_turn<D: Disk>(
    state: &mut DurableState<D>,
    at: u32,
    number: u32,
) -> Result<TurnEnd, Broken>
    requires { IsOwed state.old.world at number }
    ensures ok { OnOk result ((reading : ℕ) → state.new.world ≡ session_turn reading at state.old.world) }
    ensures end { IfOk result (λ end. end ≡ Done) }
    ensures err { OnErr result (state.new.world ≡ state.old.world) }
    ensures why { IfErr result (λ why. why ≡ Broken.Halted) }
    ensures front { OnErr result ((reading : ℕ)
        → IsFront state.new.world.entries (session_turn reading at state.old.world).entries) }
    ensures disks { GoesAs at D.seen D.is_image D.calls D.faults result state.old state.new }
{
    state.tell(at, number)?;
    Ok(TurnEnd::Done)
}

/// A turn in which the session of that number, which was told all and goes on, calls a statement, waits or ends.
#[tactic(auto, using(crate::proofs::Turning::begun_front, crate::proofs::Turning::called_end, crate::proofs::Turning::called_whole, crate::proofs::Turning::read_front, crate::proofs::Turning::sound_at_call))]
fn calling_turn<D: Disk>(
    state: &mut DurableState<D>,
    at: u32,
    reading: u64,
) -> Result<TurnEnd, Broken>
    requires sound { IsSound state.old.world }
    requires readings { state.old.world.readings < 2 ^ 63 }
    requires calling { IsCalling state.old.world at }
    ensures ok { OnOk result (state.new.world ≡ session_turn reading at state.old.world) }
    ensures end { IfOk result (λ end.
        end ≡ session_end reading at
        (slice_get state.old.world.sessions at) state.old.world) }
    ensures err { OnErr result (IsUndone at reading state.old.world state.new.world) }
    ensures front { OnErr result
        (IsFront state.new.world.entries (session_turn reading at state.old.world).entries) }
    ensures disks { GoesAs at D.seen D.is_image D.calls D.faults result state.old state.new }
{
    begin(state, at, reading)?;
    Ok(own_turn(state, at)?)
}

/// The turn of the session of that number. One whose last call is not yet told is told it; else, with that reading, it calls its next
/// statement, waits with it, or ends where it has called all. At want of memory, or where a disk fails, the turn is broken off.
#[tactic(auto, using(crate::proofs::Turning::calling_broken, crate::proofs::Turning::calling_so, crate::proofs::Turning::none_end, crate::proofs::Turning::none_whole, crate::proofs::Turning::over_end, crate::proofs::Turning::over_whole, crate::proofs::Turning::owed_broken, crate::proofs::Turning::owed_so, crate::proofs::Turning::told_all, crate::proofs::Turning::told_end))]
fn session_turn<D: Disk>(
    state: &mut DurableState<D>,
    at: u32,
    reading: u64,
) -> Result<TurnEnd, Broken>
    requires sound { IsSound state.old.world }
    requires session { at < 64 }
    requires readings { state.old.world.readings < 2 ^ 63 }
    ensures ok { OnOk result (state.new.world ≡ session_turn reading at state.old.world) }
    ensures end { IfOk result (λ end.
        end ≡ session_end reading at
        (slice_get state.old.world.sessions at) state.old.world) }
    ensures err { OnErr result
        (IsBrokenOff at reading state.old.world state.new.world) }
    ensures front { OnErr result
        (IsFront state.new.world.entries (session_turn reading at state.old.world).entries) }
    ensures telling { is_owed (slice_get state.old.world.sessions at) ≡ true
        → IfErr result (λ why. why ≡ Broken.Halted) }
    ensures disks { GoesAs at D.seen D.is_image D.calls D.faults result state.old state.new }
{
    let Some(session) = state.run().session(at) else {
        return Ok(TurnEnd::Ended);
    };
    if let Some(untold) = session.untold {
        return telling_turn(state, at, untold.number);
    }
    if !session.live {
        return Ok(TurnEnd::Ended);
    }
    calling_turn(state, at, reading)
}

/// A turn of the timer: it does what is due. With no session live it is its last, and takes no reading.
#[tactic(auto, using(crate::proofs::Turning::over_ends, crate::proofs::Turning::timer_broken, crate::proofs::Turning::timer_ends, crate::proofs::Turning::timer_front, crate::proofs::Turning::timer_over, crate::proofs::Turning::timer_whole))]
fn timer_turn<D: Disk>(state: &mut DurableState<D>, reading: u64) -> Result<TurnEnd, Broken>
    requires sound { IsSound state.old.world }
    requires readings { state.old.world.readings < 2 ^ 63 }
    ensures ok { OnOk result (state.new.world ≡ timer_turn reading state.old.world) }
    ensures end { IfOk result (λ end.
        end ≡ background_end reading 64 state.old.world) }
    ensures err { OnErr result
        (IsBrokenOff 64 reading state.old.world state.new.world) }
    ensures front { OnErr result
        (IsFront state.new.world.entries (timer_turn reading state.old.world).entries) }
    ensures disks { GoesAs 64 D.seen D.is_image D.calls D.faults result state.old state.new }
{
    if !state.run().any_live() {
        return Ok(TurnEnd::Ended);
    }
    let was_due = begin(state, TIMER, reading)?;
    Ok(if was_due {
        TurnEnd::Done
    } else {
        TurnEnd::Idle
    })
}

/// A turn of the propagator: it does what is due, and makes one step of propagation. With no session live it is its last, and takes no
/// reading.
#[tactic(auto, using(crate::proofs::Turning::over_ends, crate::proofs::Turning::propagator_broken, crate::proofs::Turning::propagator_broken_read, crate::proofs::Turning::propagator_ends, crate::proofs::Turning::propagator_front, crate::proofs::Turning::propagator_over, crate::proofs::Turning::propagator_read_front, crate::proofs::Turning::propagator_whole, crate::proofs::Turning::valid_begun))]
fn propagator_turn<D: Disk>(state: &mut DurableState<D>, reading: u64) -> Result<TurnEnd, Broken>
    requires sound { IsSound state.old.world }
    requires readings { state.old.world.readings < 2 ^ 63 }
    ensures ok { OnOk result (state.new.world ≡ propagator_turn reading state.old.world) }
    ensures end { IfOk result (λ end.
        end ≡ background_end reading 65 state.old.world) }
    ensures err { OnErr result
        (IsBrokenOff 65 reading state.old.world state.new.world) }
    ensures front { OnErr result
        (IsFront state.new.world.entries (propagator_turn reading state.old.world).entries) }
    ensures disks { GoesAs 65 D.seen D.is_image D.calls D.faults result state.old state.new }
{
    if !state.run().any_live() {
        return Ok(TurnEnd::Ended);
    }
    let was_due = begin(state, PROPAGATOR, reading)?;
    let was_sent = propagate(state, PROPAGATOR)?;
    Ok(if was_due || was_sent {
        TurnEnd::Done
    } else {
        TurnEnd::Idle
    })
}

/// Whether the turn of an actor takes a reading.
pub fn reads_clock(state: &RunState, actor: u32) -> bool
    ensures { result ≡ reads_clock actor state.now }
{
    if SESSIONS <= actor {
        return state.any_live();
    }
    match state.session(actor) {
        Some(session) => session.live && session.untold.is_none(),
        None => false,
    }
}

/// What is left of an actor's turn behind a failure of a disk: it takes a reading, if the turn takes one, and does nothing else.
#[tactic(auto, using(crate::proofs::Fronts::turned_grows, crate::proofs::Halting::reading_broken, crate::proofs::Halting::reading_front, crate::proofs::Halting::resting_broken))]
fn take_reading<D: Disk>(state: &mut DurableState<D>, actor: u32, reading: u64)
    requires { state.old.world.readings < 2 ^ 63 }
    ensures broken { IsBrokenOff actor reading state.old.world state.new.world }
    ensures front { IsFront state.new.world.entries (turned reading actor state.old.world).entries }
    ensures entries { state.new.entries ≡ state.old.entries }
    ensures stays { HasFailed state.old → HasFailed state.new }
    ensures disks { Goes D.seen D.is_image D.calls D.faults state.old state.new }
{
    if !reads_clock(state.run(), actor) {
        return;
    }
    state.read_clock(reading);
}

/// The turn of an actor: of the session of that number, of the timer or of the propagator, with that reading, if it takes one. At want of
/// memory, or where a disk fails, it is broken off.
#[tactic(auto, using(crate::proofs::Running::is_propagator, crate::proofs::Running::propagator_ended, crate::proofs::Running::propagator_turned, crate::proofs::Running::session_ends, crate::proofs::Running::session_turned, crate::proofs::Running::timer_ended, crate::proofs::Running::timer_turned, crate::proofs::Turning::never_owed))]
fn actors_turn<D: Disk>(
    state: &mut DurableState<D>,
    actor: u32,
    reading: u64,
) -> Result<TurnEnd, Broken>
    requires sound { IsSound state.old.world }
    requires actor { IsActor state.old.world actor }
    requires readings { state.old.world.readings < 2 ^ 63 }
    ensures ok { OnOk result (state.new.world ≡ turned reading actor state.old.world) }
    ensures end { IfOk result (λ end. end ≡ turn_end reading actor state.old.world) }
    ensures err { OnErr result
        (IsBrokenOff actor reading state.old.world state.new.world) }
    ensures front { OnErr result
        (IsFront state.new.world.entries (turned reading actor state.old.world).entries) }
    ensures telling { is_owed (slice_get state.old.world.sessions actor) ≡ true
        → IfErr result (λ why. why ≡ Broken.Halted) }
    ensures disks { GoesAs actor D.seen D.is_image D.calls D.faults result state.old state.new }
{
    match actor {
        0..=63 => session_turn(state, actor, reading),
        TIMER => timer_turn(state, reading),
        _ => propagator_turn(state, reading),
    }
}

/// The turn of an actor, as `actors_turn` takes it, unless a call on a disk has failed before: then it is halted at its reading.
pub fn turn<D: Disk>(
    state: &mut DurableState<D>,
    actor: u32,
    reading: u64,
) -> Result<TurnEnd, Broken>
    requires sound { IsSound state.old.world }
    requires actor { IsActor state.old.world actor }
    requires readings { state.old.world.readings < 2 ^ 63 }
    ensures ok { OnOk result (state.new.world ≡ turned reading actor state.old.world) }
    ensures end { IfOk result (λ end. end ≡ turn_end reading actor state.old.world) }
    ensures err { OnErr result
        (IsBrokenOff actor reading state.old.world state.new.world) }
    ensures front { OnErr result
        (IsFront state.new.world.entries (turned reading actor state.old.world).entries) }
    ensures telling { is_owed (slice_get state.old.world.sessions actor) ≡ true
        → IfErr result (λ why. why ≡ Broken.Halted) }
    ensures disks { GoesAs actor D.seen D.is_image D.calls D.faults result state.old state.new }
    ensures stops { Stops (result ≡ Err Broken.Halted) state.old state.new }
{
    if state.has_failed() {
        take_reading(state, actor, reading);
        return Err(Broken::Halted);
    }
    actors_turn(state, actor, reading)
}

/// What is due is done, and then one step of propagation; whether there was anything to do is told. At want of memory there are the first
/// entries of that.
#[tactic(auto, using(crate::proofs::Turning::more_so, crate::proofs::Turning::part_of_step, crate::proofs::Turning::step_front, crate::proofs::Turning::untouched_step, crate::proofs::Turning::valid_drained))]
fn drain_once<D: Disk>(state: &mut DurableState<D>) -> Result<bool, Broken>
    requires { IsValidWorld state.old.world }
    ensures ok { OnOk result (state.new.world ≡ drained_once state.old.world) }
    ensures more { IfOk result (λ more. more ≡ not (is_still state.old.world)) }
    ensures room { OnOk result (length state.new.world.entries < 2 ^ 64) }
    ensures err { OnErr result (IsPartOfStep state.old.world state.new.world) }
    ensures front { OnErr result (IsFront state.new.world.entries (drained_once state.old.world).entries) }
    ensures due { result ≡ Err Broken.Halted → (HasFailed state.old → ⊥)
        → (state.new.world ≡ caught_up 66 state.old.world) × IsSendingDue state.new.world }
    ensures disks { GoesAs 66 D.seen D.is_image D.calls D.faults result state.old state.new }
{
    let before = state.run().entry_count();
    catch_up(state, CLOSING)?;
    propagate(state, CLOSING)?;
    Ok(state.run().entry_count() > before)
}

/// Drains until nothing is due and nothing can be sent. At want of memory there are the first entries of some number of steps.
fn drain<D: Disk>(state: &mut DurableState<D>) -> Result<(), Broken>
    requires { IsDrainable state.old.world }
    ensures ok { OnOk result ((steps : ℕ) × DrainsIn state.old.world steps
        × (state.new.world ≡ drained steps state.old.world)) }
    ensures err { OnErr result (IsPartDrained state.old.world state.new.world) }
    ensures front { OnErr result
        ((steps : ℕ) × IsFront state.new.world.entries (drained steps state.old.world).entries) }
    ensures due { result ≡ Err Broken.Halted → (HasFailed state.old → ⊥)
        → (steps : ℕ) × (state.new.world ≡ caught_up 66 (drained steps state.old.world)) × IsSendingDue state.new.world }
    ensures disks { GoesAs 66 D.seen D.is_image D.calls D.faults result state.old state.new }
{
    // Each step that does something adds an entry, and a list has room for so many alone.
    loop {
        let more = drain_once(state)?;
        if !more {
            return Ok(());
        }
    }
}

/// The turn that follows when no session goes on any more: with that reading it drains, and then makes every commit durable. Where a call
/// on a disk has failed before, it is halted at its reading.
#[tactic(auto, using(crate::proofs::Turning::closed_part, crate::proofs::Turning::closed_so, crate::proofs::Turning::drainable_behind, crate::proofs::Turning::part_behind, crate::proofs::Turning::unclosed_at_flush, crate::proofs::Turning::unclosed_behind))]
pub fn closing_turn<D: Disk>(state: &mut DurableState<D>, reading: u64) -> Result<TurnEnd, Broken>
    requires drainable { IsDrainable (read_clock reading state.old.world) }
    requires readings { state.old.world.readings ≤ 2 ^ 63 }
    ensures ok { OnOk result ((steps : ℕ) × DrainsIn (read_clock reading state.old.world) steps
        × (state.new.world ≡ closing_turn reading steps state.old.world)) }
    ensures end { IfOk result (λ end. end ≡ Done) }
    ensures err { OnErr result (IsPartDrained (read_clock reading state.old.world) state.new.world) }
    ensures front { OnErr result (IsUnclosed reading state.old.world state.new.world) }
    ensures due { result ≡ Err Broken.Halted → (HasFailed state.old → ⊥)
        → IsFlushDue reading state.old.world state.new.world }
    ensures disks { GoesAs 66 D.seen D.is_image D.calls D.faults result state.old state.new }
    ensures stops { Stops (result ≡ Err Broken.Halted) state.old state.new }
{
    state.read_clock(reading);
    if state.has_failed() {
        return Err(Broken::Halted);
    }
    drain(state)?;
    state.flush(CLOSING)?;
    Ok(TurnEnd::Done)
}
