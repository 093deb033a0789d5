// A session's own step: it calls its next statement, waits with it, or ends.
ghost use Rattle.std.specs.Prelude.{◌≡◌, IfOk, OnOk, OnErr};
ghost use Rattle.queue_rows.specs.Statements.{next_statement};
ghost use Rattle.queue_rows.specs.Turns.{own_turn};
ghost use Rattle.session_registry.specs.Sessions.{OfSession};
ghost use Rattle.aq_world.specs.Going.{GoesQuietly};
ghost use Rattle.next_steps.specs.Sound.{IsSound};
ghost use Rattle.aq_world.specs.Turning.{end_by, next_meaning};

use crate::turn_end::TurnEnd;
use aq_disk::Disk;
use durable_state::DurableState;
use next_steps::{Doing, next_doing};
use std::alloc::AllocError;

/// The session of that number does what comes next, and the turn ends so. At want of memory all is as before.
pub fn own_turn<D: Disk>(state: &mut DurableState<D>, at: u32) -> Result<TurnEnd, AllocError>
    requires { IsSound state.old.world }
    ensures ok { OnOk result (OfSession at state.old.world (λ s.
        state.new.world ≡ own_turn at s (next_statement state.old.world at s) state.old.world)) }
    ensures end { IfOk result (λ end. OfSession at state.old.world (λ s.
        end ≡ end_by (next_meaning state.old.world at s))) }
    ensures err { OnErr result (state.new.world ≡ state.old.world) }
    ensures disks { GoesQuietly at D.seen D.is_image D.calls D.faults state.old state.new }
{
    match next_doing(state.run(), at)? {
        Some(Doing::Call(effect)) => {
            state.call(at, effect)?;
            Ok(TurnEnd::Done)
        }
        Some(Doing::Wait { since }) => {
            state.park(at, since)?;
            Ok(TurnEnd::Parked)
        }
        None => {
            state.end(at)?;
            Ok(TurnEnd::Done)
        }
    }
}
