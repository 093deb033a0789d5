// What a session does next: it calls its next statement, waits with it, or ends.
ghost use Rattle.std.specs.Prelude.{IfOk};
ghost use Rattle.session_registry.specs.Sessions.{OfSession};
ghost use Rattle.next_steps.specs.Sound.{IsSound};
ghost use Rattle.next_steps.specs.Stepping.{IsNext};

use crate::due::slot_sent;
use crate::respond::{Caller, Doing, respond};
use run_state::RunState;
use std::alloc::AllocError;

/// What the session of that number does next, or None where it has called all.
pub fn next_doing(state: &RunState, at: u32) -> Result<Option<Doing>, AllocError>
    requires { IsSound state.now }
    ensures { IfOk result (λ next. OfSession at state.now (λ s. IsNext state.now at s next)) }
{
    let Some(session) = state.session(at) else {
        return Ok(None);
    };
    let Some(statement) = state.statement(at, session.next) else {
        return Ok(None);
    };
    let caller = Caller {
        alloc: state.allocator(),
        actor: at,
        session,
        sessions: state.states(),
        database: state.database(session.at),
        locks: state.locks(session.at),
        sent: slot_sent(state),
        moment: state.moment(),
    };
    Ok(Some(respond(caller, statement)?))
}
