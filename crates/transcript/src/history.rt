// The text of a history.
ghost use Rattle.std.specs.Prelude.{◌≡◌, OnOk, IfOk, option_copied, slice_get};
ghost use Rattle.transcript.specs.Print.{told_text, statement_of, call_head, call_text, due_lines, end_line, entry_line, print};
ghost use Rattle.transcript.specs.Text.{Writes};
ghost use Rattle.transcript.specs.Told.{AreToldBy};

use crate::line::{put_arrive, put_confirm, put_offer, put_timer_lines};
use crate::reply::put_reply;
use crate::text::put_number;
use crate::told::ToldCalls;
use crate::word::spaced_statement_word;
use aq_base::DbId;
use payload_records::List;
use queue_rows::{Entry, History, Reply, SessionScript, Statement, Step};
use std::alloc::{AllocError, Global};

fn statement_of(session: &SessionScript, number: u32) -> Option<&Statement>
    ensures { option_copied result ≡ statement_of session.now number }
{
    if number == 0 {
        return None;
    }
    session.statement(number as usize - 1)
}

fn put_told(
    out: &mut String,
    scripts: &List<SessionScript>,
    told: bool,
    reply: &Reply,
) -> Result<(), AllocError>
    ensures { OnOk result (Writes out.old out.new (told_text scripts.now told reply.now)) }
{
    if told {
        put_reply(out, scripts, reply)
    } else {
        out.push_str("untold")
    }
}

fn put_call_head(
    out: &mut String,
    session: &str,
    number: u32,
    statement: &Statement,
) -> Result<(), AllocError>
    ensures { OnOk result (Writes out.old out.new (call_head session.now number statement.now)) }
{
    out.push_str(session)?;
    out.push('.')?;
    put_number(out, u64::from(number))?;
    out.push_str(spaced_statement_word(statement))
}

fn put_call(
    out: &mut String,
    scripts: &List<SessionScript>,
    session: u32,
    number: u32,
    told: bool,
    reply: &Reply,
) -> Result<(), AllocError>
    ensures { OnOk result (Writes out.old out.new (call_text scripts.now session number told reply.now)) }
{
    let Some(script) = scripts.get(session as usize) else {
        return Ok(());
    };
    let Some(statement) = statement_of(script, number) else {
        return Ok(());
    };
    put_call_head(out, script.name.as_str(), number, statement)?;
    put_told(out, scripts, told, reply)?;
    out.push('\n')
}

fn put_end(out: &mut String, scripts: &List<SessionScript>, session: u32) -> Result<(), AllocError>
    ensures { OnOk result (Writes out.old out.new (end_line (slice_get scripts.now session))) }
{
    let Some(script) = scripts.get(session as usize) else {
        return Ok(());
    };
    let name = script.name.as_str();
    write!(out, "{name} end\n")
}

fn put_timer(out: &mut String, entry: &Entry) -> Result<(), AllocError>
    ensures { OnOk result (Writes out.old out.new (due_lines entry.now)) }
{
    put_timer_lines(out, DbId::Home, &entry.home)?;
    put_timer_lines(out, DbId::Away, &entry.away)
}

/// What an entry prints, where these calls are told.
pub fn put_entry(
    out: &mut String,
    history: &History,
    told: &ToldCalls,
    entry: &Entry,
) -> Result<(), AllocError>
    requires { AreToldBy history.now.entries told.now }
    ensures { OnOk result (Writes out.old out.new (entry_line history.now entry.now)) }
{
    match &entry.step {
        Step::Call { number, reply } => {
            let is_told = told.has(entry.actor, *number);
            put_call(out, &history.scripts, entry.actor, *number, is_told, reply)
        }
        Step::Timer => put_timer(out, entry),
        Step::Offer { at, to } => put_offer(out, *at, to.get()),
        Step::Arrive { at, outcome } => put_arrive(out, *at, *outcome),
        Step::Confirm { at } => put_confirm(out, *at),
        Step::End => put_end(out, &history.scripts, entry.actor),
        Step::Park { .. } | Step::Flush | Step::Told { .. } => Ok(()),
    }
}

/// The text of a history: a line for each call, for each thing that the timer and the propagator
/// did, and for each end of a session. A call of what no session asked prints nothing. The time
/// that it takes grows with the length of the history, and not with its square.
#[tactic(auto, unfolding(crate::specs::Print::print))]
pub fn print(alloc: Global, history: &History) -> Result<Vec<u8>, AllocError>
    ensures { IfOk result (λ text. text.items ≡ print history.now) }
{
    let told = ToldCalls::of(alloc, history.scripts.len(), &history.entries)?;
    let mut out = String::new(alloc);
    for entry in &history.entries {
        put_entry(&mut out, history, &told, entry)?;
    }
    Ok(out.into_bytes())
}
