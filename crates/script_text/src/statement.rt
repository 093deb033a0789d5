// The statement that a line asks.
ghost use Rattle.std.specs.Prelude.{◌≡◌, IfOk, IfSome, IsErrOf, Some, None, codes, option_and_then, true};
ghost use Rattle.serde_json.specs.View.{view};
ghost use Rattle.history_laws.specs.Ordered.{is_ordered};
ghost use Rattle.queue_rows.specs.Within.{is_within};
ghost use Rattle.script_text.specs.Form.{verb_of};
ghost use Rattle.script_text.specs.Member.{text_at};
ghost use Rattle.script_text.specs.Statement.{statement_of, statement_if, statement};

use crate::fault::LineFault;
use crate::form::{Form, Verb, has_form, verb_of};
use crate::member::text_at;
use crate::{admin, message};
use queue_rows::Statement;
use serde_json::Value;
use std::alloc::Global;

#[tactic(auto, unfolding(queue_rows::specs::Within::is_within))]
fn statement_of(alloc: Global, verb: Verb, value: &Value) -> Result<Statement, LineFault>
    ensures ok { IfOk result (λ s. statement_of verb (view value.now) ≡ Some s) }
    ensures within { IfOk result (λ s. is_within s ≡ true) }
    ensures ordered { IfOk result (λ s. is_ordered s ≡ true) }
    ensures bad { IsErrOf result LineFault.Bad → statement_of verb (view value.now) ≡ None }
{
    let ask = match verb {
        Verb::Enqueue => return Ok(Statement::Enqueue(message::enqueue(alloc, value)?)),
        Verb::Dequeue => return Ok(Statement::Dequeue(message::dequeue(alloc, value)?)),
        Verb::Listen => return Ok(Statement::Listen(message::listen(alloc, value)?)),
        Verb::Commit => return Ok(Statement::Commit),
        Verb::Rollback => return Ok(Statement::Rollback),
        Verb::CreateTable => admin::create_table(alloc, value),
        Verb::DropTable => admin::drop_table(alloc, value),
        Verb::CreateQueue => admin::create_queue(alloc, value),
        Verb::DropQueue => admin::drop_queue(alloc, value),
        Verb::StartQueue => admin::start_queue(alloc, value),
        Verb::StopQueue => admin::stop_queue(alloc, value),
        Verb::AddSubscriber => admin::add_subscriber(alloc, value),
        Verb::RemoveSubscriber => admin::remove_subscriber(alloc, value),
        Verb::Schedule => admin::schedule(alloc, value),
        Verb::Unschedule => admin::unschedule(alloc, value),
        Verb::EnableSchedule => admin::enable_schedule(alloc, value),
        Verb::DisableSchedule => admin::disable_schedule(alloc, value),
    };
    Ok(Statement::Admin(ask?))
}

fn verb_at(value: &Value) -> Option<Verb>
    ensures { result ≡ option_and_then verb_of (text_at (codes "do") (view value.now)) }
{
    verb_of(text_at(value, "do")?)
}

// What a dequeue asks that has none of the members that are mostly left out, as most have. Of others nothing is told.
#[tactic(auto, using(crate::proofs::Plain::dequeue_is_asking), unfolding(queue_rows::specs::Within::is_within))]
fn plain_statement(alloc: Global, verb: Verb, value: &Value) -> Result<Option<Statement>, LineFault>
    ensures some { IfOk result (λ plain. IfSome plain (λ s. statement_if (view value.now) verb ≡ Some s)) }
    ensures within { IfOk result (λ plain. IfSome plain (λ s. is_within s ≡ true)) }
    ensures ordered { IfOk result (λ plain. IfSome plain (λ s. is_ordered s ≡ true)) }
    ensures bad { IsErrOf result LineFault.Bad → statement_if (view value.now) verb ≡ None }
{
    match verb {
        Verb::Dequeue if has_form(Form::PlainDequeue, value) => Ok(Some(Statement::Dequeue(
            message::plain_dequeue(alloc, value)?,
        ))),
        _ => Ok(None),
    }
}

/// The statement that a line asks.
#[tactic(auto, unfolding(crate::specs::Statement::statement))]
pub fn statement_at(alloc: Global, value: &Value) -> Result<Statement, LineFault>
    ensures ok { IfOk result (λ s. statement (view value.now) ≡ Some s) }
    ensures within { IfOk result (λ s. is_within s ≡ true) }
    ensures ordered { IfOk result (λ s. is_ordered s ≡ true) }
    ensures bad { IsErrOf result LineFault.Bad → statement (view value.now) ≡ None }
{
    let Some(verb) = verb_at(value) else {
        return Err(LineFault::Bad);
    };
    if let Some(statement) = plain_statement(alloc, verb, value)? {
        return Ok(statement);
    }
    if !has_form(Form::Asking(verb), value) {
        return Err(LineFault::Bad);
    }
    statement_of(alloc, verb, value)
}
