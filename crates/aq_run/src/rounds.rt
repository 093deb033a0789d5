// The rounds of the serial schedule.
ghost use Rattle.std.specs.Prelude.{◌≡◌, ◌≤◌, ◌<◌, ◌^◌, ◌+◌, length, OnOk, OnErr, IfErr};
ghost use Rattle.history_laws.specs.ValidWorld.{AreScripts};
ghost use Rattle.queue_rows.specs.Serial.{next_session_turn, next_timer_turn, next_propagator_turn};
ghost use Rattle.queue_rows.specs.Serial.{session_turns, telling_turns, round, AreSerial, IsOnTheWay};
ghost use Rattle.queue_rows.specs.Turns.{next_reading, telling_turn};
ghost use Rattle.aq_world.specs.Turning.{IsUnclosed, IsWhole};
ghost use Rattle.aq_run.specs.Passing.{EndsBy, IsSerialClock, Passes, Takes};
ghost use Rattle.aq_run.specs.Progress.{AreAt, AreTold};
ghost use Rattle.aq_run.specs.Rounds.{IsClosed};

use aq_clock::Clock;
use aq_disk::Disk;
use aq_world::{Broken, TurnEnd, World};

/// The number of the timer among the actors.
const TIMER: u32 = 64;

/// The number of the propagator among the actors.
const PROPAGATOR: u32 = 65;

/// A turn that was broken off is an error.
fn whole(end: TurnEnd) -> Result<(), Broken>
    ensures whole { OnOk result (IsWhole end) }
    ensures broken { OnErr result (IsWhole end → ⊥) }
    ensures halted { IfErr result (λ e. e ≡ Broken.Halted → end ≡ TurnEnd.Halted) }
{
    match end {
        TurnEnd::Done | TurnEnd::Parked | TurnEnd::Idle | TurnEnd::Ended => Ok(()),
        TurnEnd::Halted => Err(Broken::Halted),
        TurnEnd::Memory => Err(Broken::Memory),
    }
}

/// The turn of the session of that number.
fn session_turn<D: Disk, C: Clock>(world: &mut World<D, C>, session: u32) -> Result<(), Broken>
    requires session { session < length world.old.held.world.sessions }
    requires few { length world.old.held.world.sessions ≤ 64 }
    requires readings { world.old.held.world.readings < 2 ^ 63 }
    requires clock { IsSerialClock C.given C.plan world.old }
    ensures turn { Takes (next_session_turn session) result world.old world.new }
    ensures passes { Passes D.seen D.is_image D.calls D.faults C.given C.plan world.old world.new }
{
    whole(world.turn(session))
}

/// Tells the session of that number what it has called, if it was not yet told.
fn telling_turn<D: Disk, C: Clock>(world: &mut World<D, C>, session: u32) -> Result<(), Broken>
    requires session { session < length world.old.held.world.sessions }
    requires few { length world.old.held.world.sessions ≤ 64 }
    requires readings { world.old.held.world.readings < 2 ^ 63 }
    requires clock { IsSerialClock C.given C.plan world.old }
    ensures turn { Takes (telling_turn session) result world.old world.new }
    ensures passes { Passes D.seen D.is_image D.calls D.faults C.given C.plan world.old world.new }
{
    if world.is_owed(session) {
        session_turn(world, session)
    } else {
        Ok(())
    }
}

/// A turn of each session, in order.
fn session_turns<D: Disk, C: Clock>(world: &mut World<D, C>) -> Result<(), Broken>
    requires readings { world.old.held.world.readings < 2 ^ 62 + 2 ^ 30 }
    requires clock { IsSerialClock C.given C.plan world.old }
    ensures turn { Takes session_turns result world.old world.new }
    ensures passes { Passes D.seen D.is_image D.calls D.faults C.given C.plan world.old world.new }
    ensures few { length world.old.held.world.sessions ≤ 64 }
{
    for session in 0..world.session_count() {
        session_turn(world, session)?;
    }
    Ok(())
}

/// Tells each session, in order, what it has called, if it was not yet told.
fn telling_turns<D: Disk, C: Clock>(world: &mut World<D, C>) -> Result<(), Broken>
    requires readings { world.old.held.world.readings < 2 ^ 63 }
    requires clock { IsSerialClock C.given C.plan world.old }
    ensures turn { Takes telling_turns result world.old world.new }
    ensures passes { Passes D.seen D.is_image D.calls D.faults C.given C.plan world.old world.new }
{
    for session in 0..world.session_count() {
        telling_turn(world, session)?;
    }
    Ok(())
}

/// A turn of the timer.
fn timer_turn<D: Disk, C: Clock>(world: &mut World<D, C>) -> Result<(), Broken>
    requires readings { world.old.held.world.readings < 2 ^ 63 }
    requires clock { IsSerialClock C.given C.plan world.old }
    ensures turn { Takes next_timer_turn result world.old world.new }
    ensures passes { Passes D.seen D.is_image D.calls D.faults C.given C.plan world.old world.new }
{
    whole(world.turn(TIMER))
}

/// A turn of the propagator.
fn propagator_turn<D: Disk, C: Clock>(world: &mut World<D, C>) -> Result<(), Broken>
    requires readings { world.old.held.world.readings < 2 ^ 63 }
    requires clock { IsSerialClock C.given C.plan world.old }
    ensures turn { Takes next_propagator_turn result world.old world.new }
    ensures passes { Passes D.seen D.is_image D.calls D.faults C.given C.plan world.old world.new }
{
    whole(world.turn(PROPAGATOR))
}

/// A round of the serial schedule: a turn of each session, of the timer and of the propagator, and then what
/// was called is told.
#[tactic(auto, unfolding(queue_rows::specs::Serial::round))]
fn round<D: Disk, C: Clock>(world: &mut World<D, C>) -> Result<(), Broken>
    requires readings { world.old.held.world.readings < 2 ^ 62 + 2 ^ 30 }
    requires clock { IsSerialClock C.given C.plan world.old }
    ensures turn { Takes round result world.old world.new }
    ensures passes { Passes D.seen D.is_image D.calls D.faults C.given C.plan world.old world.new }
    ensures few { length world.old.held.world.sessions ≤ 64 }
{
    session_turns(world)?;
    timer_turn(world)?;
    propagator_turn(world)?;
    telling_turns(world)
}

/// The closing turn.
fn close<D: Disk, C: Clock>(world: &mut World<D, C>) -> Result<(), Broken>
    requires readings { world.old.held.world.readings < 2 ^ 63 }
    requires clock { IsSerialClock C.given C.plan world.old }
    ensures world { OnOk result (IsClosed world.old.held.world world.new.held.world) }
    ensures front { OnErr result (IsUnclosed (next_reading world.old.held.world)
        world.old.held.world world.new.held.world) }
    ensures passes { Passes D.seen D.is_image D.calls D.faults C.given C.plan world.old world.new }
    ensures ends { EndsBy result world.old.held world.new.held }
{
    whole(world.closing())
}

/// Rounds while a session goes on, and then the closing turn. Where it is broken off the entries are the
/// first ones of what they were to be.
pub fn run<D: Disk, C: Clock>(world: &mut World<D, C>) -> Result<(), Broken>
    requires readings { world.old.held.world.readings ≡ 0 }
    requires clock { IsSerialClock C.given C.plan world.old }
    requires at { AreAt 0 world.old.held.world }
    requires told { AreTold world.old.held.world }
    requires scripts { AreScripts world.old.held.world.scripts }
    ensures whole { OnOk result (AreSerial world.old.held.world world.new.held.world.entries) }
    ensures front { OnErr result (IsOnTheWay world.old.held.world world.new.held.world.entries) }
    ensures passes { Passes D.seen D.is_image D.calls D.faults C.given C.plan world.old world.new }
    ensures ends { EndsBy result world.old.held world.new.held }
{
    // Each round takes a reading. At the greatest moment no statement waits: then in each round a session
    // that goes on calls a statement, and in one more it ends.
    while world.any_live() {
        round(world)?;
    }
    close(world)
}
