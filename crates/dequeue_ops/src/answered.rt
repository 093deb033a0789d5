// Where no message is given: the session is told why, or waits.
ghost use Rattle.std.specs.Prelude.{◌≡◌};
ghost use Rattle.queue_rows.specs.Session.{Session};
ghost use Rattle.queue_rows.specs.Dequeueing.{forgetting};
ghost use Rattle.queue_rows.specs.declared.tables.Tables.{Tables};
ghost use Rattle.queue_rows.specs.declared.statement.Dequeue.{Dequeue};
ghost use Rattle.sessions.specs.Effects.{positions_after};
ghost use Rattle.dequeue_ops.specs.Asked.{Does, by_nothing, refusal};

use crate::request::{Asked, Request};
use message_choice::still_waits;
use payload_records::List;
use queue_rows::{Navigation, Reply};
use sessions::{Effect, PositionMove, Verdict};

/// It is refused.
pub(crate) fn refuse(request: &Request<'_>, reply: Reply) -> Effect
    ensures { Does request.now (refusal reply) result }
{
    Effect::answered(request.alloc, reply)
}

// Looking from the beginning, the session no longer stands anywhere in the queue.
fn forgetting(navigation: Navigation) -> PositionMove
    ensures { (ask : Dequeue) (s : Session) → forgetting navigation ask s
        ≡ record s { positions = positions_after result ask.queue ask.consumer s.positions } }
{
    match navigation {
        Navigation::First => PositionMove::Forget,
        Navigation::Next | Navigation::NextTransaction => PositionMove::Keep,
    }
}

/// There is nothing to give: the session waits, or is told so.
pub(crate) fn give_nothing(asked: &Asked<'_>) -> Effect
    ensures { (t : Tables) → Does asked.now.request.now (by_nothing t asked.now) result }
{
    let request = asked.request;
    if still_waits(request.session.parked, request.ask.wait, request.moment) {
        return Effect::plain(Verdict::Park, List::new(request.alloc));
    }
    let mut effect = Effect::answered(request.alloc, Reply::NoMessage);
    effect.position = forgetting(request.ask.navigation);
    effect
}
