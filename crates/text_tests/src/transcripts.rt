// What is printed of replies and steps that no script brings about, or none that is short. The transcripts show the rest.
use aq_base::DbId;
use payload_records::{Boxed, List, Name, NameFault, Shared};
use queue_rows::{
    Arrival, Cause, Entry, History, LimitName, Reply, SessionScript, SlotRef, Statement, Step,
    Tables,
};
use std::alloc::{AllocError, Global};
use transcript::print;

// ---- a history of one session

/// A history in which nothing was asked or done.
fn empty(alloc: Global) -> History {
    History {
        home: Tables::new(alloc),
        away: Tables::new(alloc),
        opening: 10,
        scripts: List::new(alloc),
        entries: List::new(alloc),
    }
}

fn session(alloc: Global, name: Name) -> SessionScript {
    SessionScript {
        name,
        at: DbId::Home,
        statements: List::new(alloc),
    }
}

/// The session s1, which asks a commit and a rollback.
fn add_session(scripts: &mut List<SessionScript>, alloc: Global) -> Result<(), NameFault> {
    let name = Name::read(alloc, "s1")?;
    scripts.push(session(alloc, name))?;
    match scripts.get_mut(0) {
        Some(script) => Ok(add_statements(alloc, &mut script.statements)?),
        None => Ok(()),
    }
}

fn add_statements(
    alloc: Global,
    statements: &mut List<Shared<Statement>>,
) -> Result<(), AllocError> {
    statements.push(Shared::new(alloc, Statement::Commit)?)?;
    statements.push(Shared::new(alloc, Statement::Rollback)?)
}

fn entry(alloc: Global, actor: u32, step: Step) -> Entry {
    Entry {
        actor,
        moment: 10,
        readings: 1,
        home_calls: 0,
        away_calls: 0,
        home: List::new(alloc),
        away: List::new(alloc),
        step,
    }
}

fn add(entries: &mut List<Entry>, alloc: Global, actor: u32, step: Step) -> Result<(), AllocError> {
    entries.push(entry(alloc, actor, step))
}

// ---- steps of sessions: only a call that is told shows its reply, and a call of what was not asked shows nothing

fn call(number: u32, reply: Reply) -> Step {
    Step::Call { number, reply }
}

fn session_step(row: usize) -> Step {
    match row {
        // (of a session that is not there)
        0 => call(1, Reply::Held(7)),
        1 => call(1, Reply::Limit(LimitName::Ids)),
        2 => Step::Park { number: 2 },
        3 | 10 => call(2, Reply::Ok),
        4 => call(1, Reply::Ok),
        5 => Step::Told { number: 2 },
        6 => Step::Told { number: 1 },
        7 => Step::Told { number: 3 },
        8 => call(0, Reply::Ok),
        9 => call(3, Reply::Ok),
        _ => Step::End,
    }
}

fn add_sessions(
    entries: &mut List<Entry>,
    alloc: Global,
    actors: &[u32],
) -> Result<(), AllocError> {
    for (row, actor) in actors.iter().enumerate() {
        add(entries, alloc, *actor, session_step(row))?;
    }
    Ok(())
}

// ---- steps of the propagator

fn slot(db: DbId, id: u64, slot: u32) -> SlotRef {
    SlotRef { db, id, slot }
}

fn failed(cause: Cause, disabled: bool) -> Arrival {
    Arrival::Failed { cause, disabled }
}

fn arrival(row: usize) -> Arrival {
    match row {
        0 => Arrival::Copied(4),
        1 => Arrival::Copied(9),
        2 => Arrival::Seen,
        3 => failed(Cause::NoQueue, false),
        4 => failed(Cause::WrongKind, false),
        5 => failed(Cause::EnqueueOff, true),
        6 => failed(Cause::Payload, false),
        _ => failed(Cause::Limit, true),
    }
}

fn arrive(row: usize) -> Step {
    let at = if row == 1 {
        slot(DbId::Away, 5, 1)
    } else {
        slot(DbId::Home, 2, 3)
    };
    let outcome = arrival(row);
    Step::Arrive { at, outcome }
}

fn add_arrivals(entries: &mut List<Entry>, alloc: Global) -> Result<(), AllocError> {
    for row in 0..8 {
        add(entries, alloc, 65, arrive(row))?;
    }
    Ok(())
}

fn offer(alloc: Global) -> Result<Step, NameFault> {
    let at = slot(DbId::Home, 2, 3);
    let to = Boxed::new(alloc, Name::read(alloc, "bills")?)?;
    Ok(Step::Offer { at, to })
}

fn add_propagated(entries: &mut List<Entry>, alloc: Global) -> Result<(), NameFault> {
    add_arrivals(entries, alloc)?;
    add(entries, alloc, 65, offer(alloc)?)?;
    let at = slot(DbId::Home, 2, 3);
    add(entries, alloc, 65, Step::Confirm { at })?;
    Ok(add(entries, alloc, 65, Step::Flush)?)
}

// ---- what is printed of them

const PRINTED: &str = "s1.1 commit held \n\
s1.1 commit limit ids\n\
s1.2 rollback untold\n\
s1.1 commit ok\n\
s1 end\n\
arrive h2.3 as a4\n\
arrive a5.1 as h9\n\
arrive h2.3 seen\n\
arrive h2.3 failed no-queue\n\
arrive h2.3 failed wrong-kind\n\
arrive h2.3 failed enqueue-off disabled\n\
arrive h2.3 failed payload\n\
arrive h2.3 failed limit disabled\n\
offer h2.3 to bills\n\
confirm h2.3\n";

fn fill(history: &mut History, alloc: Global) -> Result<(), NameFault> {
    add_session(&mut history.scripts, alloc)?;
    // (1 is the actor of a session that is not there)
    add_sessions(
        &mut history.entries,
        alloc,
        &[0, 0, 0, 0, 0, 1, 0, 0, 0, 0, 1, 1, 0],
    )?;
    add_propagated(&mut history.entries, alloc)
}

fn is_printed(alloc: Global, history: &History) -> bool {
    match print(alloc, history) {
        Ok(text) => text.as_slice() == PRINTED.as_bytes(),
        Err(_) => false,
    }
}

fn prints(alloc: Global, history: &mut History) -> bool {
    fill(history, alloc).is_ok() && is_printed(alloc, history)
}

#[test]
fn replies_and_steps_are_printed(rt: HostRuntime) {
    let mut history = empty(rt.alloc());
    assert!(rt; prints(rt.alloc(), &mut history));
}
