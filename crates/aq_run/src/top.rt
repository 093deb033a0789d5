// The top call.
ghost use Rattle.std.specs.Prelude.{◌≡◌, ◌⊎◌, None, Some, false, []};
ghost use Rattle.std.specs.Option.{ForSome};
ghost use Rattle.aq_run.specs.Compacting.{Compacts};
ghost use Rattle.aq_run.specs.Dumping.{Dumps};
ghost use Rattle.aq_run.specs.Histories.{HoldsOf};
ghost use Rattle.aq_run.specs.SerialRun.{RunsSerially};
ghost use Rattle.aq_run.specs.Serve.{usage_text, CanServe, HasCauses, LeavesAlone, LeavesDisks, TakesInput};
ghost use Rattle.aq_run.specs.Serve.{TellsUsage};
ghost use Rattle.aq_run.specs.Words.{command_of, runs_in_threads, serial_run};
ghost use Rattle.aq_run.specs.declared.command.Command.TheVariants.{Compact, Dump};

use crate::command::{Command, command_of};
use crate::compact::compact;
use crate::dump::dump;
use crate::outcome::Outcome;
use crate::serial_run::run_serially;
use crate::unbegun::unbegun;
use crate::writing::tell;
use aq_base::{Sink, Source, Words};
use aq_clock::Clock;
use aq_disk::Disk;
use std::alloc::Global;

const USAGE: &str = "usage: aqd run | run --serial | dump | compact | gen N S K | audit\n";

/// The answer to words that are no command.
fn no_command<O: Sink, D: Disk, C: Clock>(
    alloc: Global,
    out: &mut O,
    home: D,
    away: D,
    clock: C,
) -> Outcome<D, C>
    ensures status { result.status ≡ 1 }
    ensures answers { TellsUsage O.Sink out.old out.new home away result }
    ensures disks { LeavesDisks D.Disk home away result }
    ensures holds { HoldsOf result.history }
    ensures clock { result.clock ≡ clock }
{
    tell(out, USAGE.as_bytes());
    unbegun(alloc, 1, home, away, clock)
}

/// All that the program does: the words of its command line, what it reads, what it writes, the disks of its
/// two databases, and the clock.
pub fn serve<I: Source, O: Sink, D: Disk, C: Clock>(
    alloc: Global,
    words: &Words,
    input: &mut I,
    out: &mut O,
    home: D,
    away: D,
    clock: C,
) -> Outcome<D, C>
    requires fresh { ForSome (C.given clock) (λ readings. readings ≡ []) }
    ensures causes { HasCauses I.Source O.Sink (command_of words.now)
        input.old input.new out.old out.new result.status }
    ensures usage { command_of words.now ≡ None → TellsUsage O.Sink out.old out.new home away result }
    ensures serial_run { command_of words.now ≡ Some serial_run → RunsSerially I.Source O.Sink D.Disk
        input.old input.new out.old out.new home away result }
    ensures dump { command_of words.now ≡ Some Dump → Dumps O.Sink D.Disk out.old out.new home away result }
    ensures compact { command_of words.now ≡ Some Compact → Compacts O.Sink D.Disk
        out.old out.new home away result }
    ensures holds { HoldsOf result.history }
    ensures disks { LeavesDisks D.Disk home away result }
    ensures reading { TakesInput I.Source (command_of words.now) input.old input.new }
    ensures untouched { LeavesAlone (command_of words.now) home away clock result }
    ensures complete { CanServe I.Source O.Sink D.Disk (command_of words.now)
        input.old input.new out.old out.new home away result.home result.away
        → (result.status ≡ 0) ⊎ (result.status ≡ 4) }
{
    serve_serial(alloc, words, input, out, home, away, clock)
}

/// What `serve` does for all words but those of a run by threads. It waits for nobody.
pub fn serve_serial<I: Source, O: Sink, D: Disk, C: Clock>(
    alloc: Global,
    words: &Words,
    input: &mut I,
    out: &mut O,
    home: D,
    away: D,
    clock: C,
) -> Outcome<D, C>
    requires fresh { ForSome (C.given clock) (λ readings. readings ≡ []) }
    requires serial { runs_in_threads (command_of words.now) ≡ false }
    ensures causes { HasCauses I.Source O.Sink (command_of words.now)
        input.old input.new out.old out.new result.status }
    ensures usage { command_of words.now ≡ None → TellsUsage O.Sink out.old out.new home away result }
    ensures serial_run { command_of words.now ≡ Some serial_run → RunsSerially I.Source O.Sink D.Disk
        input.old input.new out.old out.new home away result }
    ensures dump { command_of words.now ≡ Some Dump → Dumps O.Sink D.Disk out.old out.new home away result }
    ensures compact { command_of words.now ≡ Some Compact → Compacts O.Sink D.Disk
        out.old out.new home away result }
    ensures holds { HoldsOf result.history }
    ensures disks { LeavesDisks D.Disk home away result }
    ensures reading { TakesInput I.Source (command_of words.now) input.old input.new }
    ensures untouched { LeavesAlone (command_of words.now) home away clock result }
    ensures complete { CanServe I.Source O.Sink D.Disk (command_of words.now)
        input.old input.new out.old out.new home away result.home result.away
        → (result.status ≡ 0) ⊎ (result.status ≡ 4) }
{
    match command_of(words) {
        Some(Command::Run { .. }) => run_serially(alloc, input, out, home, away, clock),
        Some(Command::Dump) => dump(alloc, out, home, away, clock),
        Some(Command::Compact) => compact(alloc, out, home, away, clock),
        // These are no commands for the words yet.
        Some(Command::Generate { .. }) => no_command(alloc, out, home, away, clock),
        Some(Command::Audit) => no_command(alloc, out, home, away, clock),
        None => no_command(alloc, out, home, away, clock),
    }
}
