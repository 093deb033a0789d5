// What is written: histories, tables, and what is told of a call that reached no run.
ghost use Rattle.std.specs.Prelude.{◌≡◌, ◌⊎◌, IfOk, OnOk, OnErr, string_bytes};
ghost use Rattle.aq_run.specs.Written.{Tells, Writes};
ghost use Rattle.aq_run.specs.Faults.{bad_line_text, damaged_text};
ghost use Rattle.transcript.specs.Print.{print};
ghost use Rattle.transcript.specs.Rows.{db_word};
ghost use Rattle.aq_run.specs.Compacting.{compacted_text};
ghost use Rattle.aq_run.specs.Dumping.{dump_text};
ghost use Rattle.aq_run.specs.Outcomes.{IsRun};

use aq_base::{DbId, Sink, write_all};
use queue_rows::{History, Tables};
use std::alloc::{AllocError, Global};
use transcript::{PrintFault, print_tables, print_to};

/// Writes a text as far as the sink takes it.
pub fn tell<O: Sink>(out: &mut O, text: &[u8])
    ensures { Tells O.taken O.faults out.old out.new text.now }
{
    let _ = write_all(out, text);
}

/// Tells the first bad line, as far as the sink takes it.
pub fn tell_bad<O: Sink>(alloc: Global, out: &mut O, line: u64) -> Result<(), AllocError>
    ensures told { OnOk result (Tells O.taken O.faults out.old out.new (bad_line_text line)) }
    ensures nothing { OnErr result (O.taken out.new ≡ O.taken out.old) }
{
    let text = format!(in alloc; "bad line {line}\n")?;
    tell(out, text.as_bytes());
    Ok(())
}

fn name_of(db: DbId) -> &'static str
    ensures { result.now ≡ db_word db }
{
    match db {
        DbId::Home => "home",
        DbId::Away => "away",
    }
}

/// Tells where a disk is damaged, as far as the sink takes it.
pub fn tell_damaged<O: Sink>(
    alloc: Global,
    out: &mut O,
    db: DbId,
    offset: u64,
) -> Result<(), AllocError>
    ensures told { OnOk result (Tells O.taken O.faults out.old out.new (damaged_text db offset)) }
    ensures nothing { OnErr result (O.taken out.new ≡ O.taken out.old) }
{
    let name = name_of(db);
    let text = format!(in alloc; "damaged {name} {offset}\n")?;
    tell(out, text.as_bytes());
    Ok(())
}

/// Writes a text as far as the sink takes it. The answer is the status of a call that has nothing else to do.
fn write<O: Sink>(out: &mut O, text: &[u8]) -> u8
    ensures known { IsRun result }
    ensures writes { Writes O.taken O.faults out.old out.new text.now result }
{
    let Ok(()) = write_all(out, text) else {
        return 7;
    };
    0
}

/// Prints a history as far as the sink takes it and memory lasts. The answer is the status of a run that came to
/// its end.
pub fn show<O: Sink>(alloc: Global, out: &mut O, history: &History) -> u8
    ensures known { IsRun result ⊎ (result ≡ 4) }
    ensures writes { Writes O.taken O.faults out.old out.new (print history.now) result }
{
    match print_to(alloc, out, history) {
        Ok(()) => 0,
        Err(PrintFault::Memory) => 4,
        Err(PrintFault::Sink(_)) => 7,
    }
}

/// The tables of both databases.
fn dump_text(alloc: Global, home: &Tables, away: &Tables) -> Result<Vec<u8>, AllocError>
    ensures { IfOk result (λ text. text.items ≡ dump_text home.now away.now) }
{
    let mut text = print_tables(alloc, DbId::Home, home)?;
    text.extend_from_slice(&print_tables(alloc, DbId::Away, away)?)?;
    Ok(text)
}

/// Prints the tables of both databases, as far as the sink takes them; at 4 nothing of them.
pub fn show_tables<O: Sink>(alloc: Global, out: &mut O, home: &Tables, away: &Tables) -> u8
    ensures known { IsRun result ⊎ (result ≡ 4) }
    ensures writes { Writes O.taken O.faults out.old out.new (dump_text home.now away.now) result }
    ensures nothing { result ≡ 4 → O.taken out.new ≡ O.taken out.old }
{
    match dump_text(alloc, home, away) {
        Ok(text) => write(out, &text),
        Err(AllocError) => 4,
    }
}

/// What is told of two journals that had so many frames.
fn frames_text(alloc: Global, home: u64, away: u64) -> Result<String, AllocError>
    ensures { IfOk result (λ text. string_bytes text ≡ compacted_text home away) }
{
    let mut text = format!(in alloc; "compacted home {home}")?;
    let of_away = format!(in alloc; " away {away}\n")?;
    text.push_str(of_away.as_str())?;
    Ok(text)
}

/// Tells how many frames both journals had, as far as the sink takes it; at 4 nothing of it.
pub fn show_frames<O: Sink>(alloc: Global, out: &mut O, home: u64, away: u64) -> u8
    ensures known { IsRun result ⊎ (result ≡ 4) }
    ensures writes { Writes O.taken O.faults out.old out.new (compacted_text home away) result }
    ensures nothing { result ≡ 4 → O.taken out.new ≡ O.taken out.old }
{
    match frames_text(alloc, home, away) {
        Ok(text) => write(out, text.as_bytes()),
        Err(AllocError) => 4,
    }
}
