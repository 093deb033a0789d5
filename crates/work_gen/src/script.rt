// The sessions of a generated script.
ghost use Rattle.std.specs.Prelude.{◌≡◌, ◌<◌, ◌≤◌, ◌++◌, [], IfOk, OnOk};
ghost use Rattle.work_gen.specs.Script.{preparation, drawn_statements, number_after, session_of, session_name, generated};
ghost use Rattle.script_text.specs.Readable.{AreReadable};

use crate::draws::Draws;
use crate::statements::{
    SharedStatements, create_queue, create_table, draw_statement, name_of, start_queue,
};
use aq_base::DbId;
use payload_records::{List, Name, Shared};
use queue_rows::{SessionScript, Statement};
use std::alloc::{AllocError, Global};

fn session_name(alloc: Global, session: u32) -> Result<Name, AllocError>
    requires { session < 64 }
    ensures { IfOk result (λ name. name ≡ session_name session) }
{
    let number = session + 1;
    let text = format!(in alloc; "s{number}")?;
    name_of(alloc, text.as_str())
}

// The first session makes the queue.
fn prepare(
    alloc: Global,
    session: u32,
    statements: &mut List<Shared<Statement>>,
) -> Result<(), AllocError>
    requires { statements.old ≡ [] }
    ensures { OnOk result (statements.new ≡ preparation session) }
{
    if session > 0 {
        return Ok(());
    }
    statements.push(Shared::new(alloc, create_table(alloc)?)?)?;
    statements.push(Shared::new(alloc, create_queue(alloc)?)?)?;
    statements.push(Shared::new(alloc, start_queue(alloc)?)?)
}

// Puts so many drawn statements at the end.
#[tactic(auto, unfolding(crate::specs::Script::drawn_statements, crate::specs::Script::number_after))]
fn draw_statements(
    alloc: Global,
    shared: &SharedStatements,
    draws: &mut Draws,
    count: u32,
    statements: &mut List<Shared<Statement>>,
) -> Result<(), AllocError>
    ensures drawn { OnOk result
        (statements.new ≡ statements.old ++ drawn_statements count draws.old.number) }
    ensures after { OnOk result (draws.new.number ≡ number_after count draws.old.number) }
{
    for _drawn in 0..count {
        statements.push(draw_statement(alloc, shared, draws)?)?;
    }
    Ok(())
}

const PREPARATION: usize = 3;

fn session(
    alloc: Global,
    shared: &SharedStatements,
    draws: &mut Draws,
    session: u32,
    count: u32,
) -> Result<SessionScript, AllocError>
    requires { session < 64 }
    ensures script { IfOk result (λ script. script ≡ session_of session count draws.old.number) }
    ensures after { OnOk result (draws.new.number ≡ number_after count draws.old.number) }
{
    let room = PREPARATION + count as usize;
    let mut statements = List::from_vec(Vec::with_capacity(alloc, room)?);
    prepare(alloc, session, &mut statements)?;
    draw_statements(alloc, shared, draws, count, &mut statements)?;
    Ok(SessionScript {
        name: session_name(alloc, session)?,
        at: DbId::Home,
        statements,
    })
}

/// The script of a number: so many sessions s1, s2 and so on at home, of which the first makes a queue, each with so many
/// statements that are drawn one after the other. It is one that the reader of scripts could have read.
#[tactic(auto, unfolding(crate::specs::Script::generated, crate::specs::Script::number_past))]
pub fn sessions(
    alloc: Global,
    number: u64,
    sessions: u32,
    statements: u32,
) -> Result<List<SessionScript>, AllocError>
    requires few { sessions ≤ 64 }
    requires short { statements ≤ 10000 }
    ensures generated { IfOk result (λ scripts. scripts ≡ generated number sessions statements) }
    ensures readable { IfOk result AreReadable }
{
    let shared = SharedStatements::new(alloc)?;
    let mut draws = Draws { number };
    let mut scripts = List::from_vec(Vec::with_capacity(alloc, sessions as usize)?);
    for at in 0..sessions {
        scripts.push(session(alloc, &shared, &mut draws, at, statements)?)?;
    }
    Ok(scripts)
}
