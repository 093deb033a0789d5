// The serial run of the script that is read.
ghost use Rattle.std.specs.Prelude.{◌≡◌, ◌⊎◌, List as Sequence, Ok, IfOk, IfErr, IfSome, IsErrOf};
ghost use Rattle.aq_base.specs.Causes.{Rose};
ghost use Rattle.aq_run.specs.Reading.{ConsumesInput, ReadsBytes};
ghost use Rattle.queue_rows.specs.declared.history.SessionScript.{SessionScript};
ghost use Rattle.script_text.specs.Readable.{AreReadable};
ghost use Rattle.script_text.specs.Script.{script, IsFaultOf};
ghost use Rattle.aq_run.specs.Histories.{HoldsOf};
ghost use Rattle.aq_run.specs.Played.{status_of, PlaysOver};
ghost use Rattle.aq_run.specs.SerialRun.{AnswersBytes, AnswersScripts, IsSerialRun, RunsSerially};
ghost use Rattle.aq_run.specs.Serve.{LeavesDisks};

use crate::outcome::Outcome;
use crate::play::{Played, RunEnd, play};
use crate::unbegun::{unbegun, unmounted};
use crate::writing::{show, tell_bad};
use aq_base::{INPUT_LIMIT, ReadFault, Sink, Source, read_up_to};
use aq_clock::Clock;
use aq_disk::Disk;
use payload_records::List;
use queue_rows::SessionScript;
use script_text::{ScriptFault, read, script_needs_only_the_front};
use std::alloc::{AllocError, Global};

fn status_of(end: RunEnd, written: u8) -> u8
    ensures { result ≡ status_of end written }
{
    match end {
        RunEnd::Whole => written,
        RunEnd::Halted => { if written == 4 { 4 } else { 5 } }
        RunEnd::Memory => 4,
    }
}

/// A run, printed as far as it came. What it answers, it answers of the disks and scripts that it was played
/// with.
fn printed<O: Sink, D: Disk, C: Clock>(
    alloc: Global,
    out: &mut O,
    played: Played<D>,
    clock: C,
) -> Outcome<D, C>
    ensures answers { (home away : D) (scripts : Sequence SessionScript)
        → PlaysOver D.Disk home away scripts played
        → IsSerialRun O.Sink D.Disk out.old out.new home away result scripts }
    ensures disks { (home away : D) (scripts : Sequence SessionScript)
        → PlaysOver D.Disk home away scripts played → LeavesDisks D.Disk home away result }
    ensures history { result.history ≡ played.history }
    ensures clock { result.clock ≡ clock }
{
    let Played {
        history,
        end,
        home,
        away,
    } = played;
    let written = show(alloc, out, &history);
    Outcome {
        status: status_of(end, written),
        history,
        home,
        away,
        clock,
    }
}

/// The serial run of these scripts over the databases of the two disks, printed.
fn run_scripts<O: Sink, D: Disk, C: Clock>(
    alloc: Global,
    scripts: List<SessionScript>,
    out: &mut O,
    home: D,
    away: D,
    clock: C,
) -> Outcome<D, C>
    requires { AreReadable scripts }
    ensures answers { AnswersScripts O.Sink D.Disk out.old out.new home away result scripts }
    ensures disks { LeavesDisks D.Disk home away result }
    ensures holds { HoldsOf result.history }
    ensures clock { result.clock ≡ clock }
{
    match play(alloc, scripts, home, away) {
        Ok(played) => printed(alloc, out, played, clock),
        Err(fault) => unmounted(alloc, out, fault, clock),
    }
}

/// The script that these bytes are. They are dropped then: a run holds its statements, and needs them no
/// more.
fn read_script(alloc: Global, bytes: Vec<u8>) -> Result<List<SessionScript>, ScriptFault>
    ensures ok { IfOk result (λ sessions. script bytes.items ≡ Ok sessions) }
    ensures bad { IfErr result (λ fault. IsFaultOf fault (script bytes.items)) }
    ensures readable { IfOk result AreReadable }
{
    read(alloc, &bytes)
}

/// The run of the script that these bytes are.
fn run_bytes<O: Sink, D: Disk, C: Clock>(
    alloc: Global,
    bytes: Vec<u8>,
    out: &mut O,
    home: D,
    away: D,
    clock: C,
) -> Outcome<D, C>
    ensures answers { AnswersBytes O.Sink D.Disk out.old out.new home away result bytes.items }
    ensures disks { LeavesDisks D.Disk home away result }
    ensures holds { HoldsOf result.history }
    ensures clock { result.clock ≡ clock }
{
    match read_script(alloc, bytes) {
        Ok(scripts) => run_scripts(alloc, scripts, out, home, away, clock),
        Err(ScriptFault::Memory) => unbegun(alloc, 4, home, away, clock),
        Err(ScriptFault::Bad { line }) => match tell_bad(alloc, out, line) {
            Ok(()) => unbegun(alloc, 2, home, away, clock),
            Err(AllocError) => unbegun(alloc, 4, home, away, clock),
        },
    }
}

/// Reads the input up to one byte past its limit.
fn read_input<I: Source>(alloc: Global, input: &mut I) -> Result<Vec<u8>, ReadFault>
    ensures bytes { IfOk result (λ v. ReadsBytes I.left I.read_gives input.old input.new v.items) }
    ensures script { IfOk result (λ v. IfSome (I.left input.old) (λ xs. script v.items ≡ script xs)) }
    ensures failed { IsErrOf result ReadFault.Failed → Rose (I.faults input.old) (I.faults input.new) }
    ensures consumed { ConsumesInput I.left input.old input.new }
{
    script_needs_only_the_front();
    read_up_to(alloc, input, INPUT_LIMIT + 1)
}

/// The serial run of the script that is read.
pub fn run_serially<I: Source, O: Sink, D: Disk, C: Clock>(
    alloc: Global,
    input: &mut I,
    out: &mut O,
    home: D,
    away: D,
    clock: C,
) -> Outcome<D, C>
    ensures answers { RunsSerially I.Source O.Sink D.Disk
        input.old input.new out.old out.new home away result }
    ensures consumed { ConsumesInput I.left input.old input.new }
    ensures disks { LeavesDisks D.Disk home away result }
    ensures holds { HoldsOf result.history }
    ensures clock { result.clock ≡ clock }
{
    match read_input(alloc, input) {
        Ok(bytes) => run_bytes(alloc, bytes, out, home, away, clock),
        Err(ReadFault::Failed) => unbegun(alloc, 3, home, away, clock),
        Err(ReadFault::Memory) => unbegun(alloc, 4, home, away, clock),
    }
}
