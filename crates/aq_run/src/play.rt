// The serial run of scripts over two disks.
ghost use Rattle.std.specs.Prelude.{◌≡◌, IfOk, IfErr};
ghost use Rattle.script_text.specs.Readable.{AreReadable};
ghost use Rattle.aq_run.specs.Disks.{IsUnmounted};
ghost use Rattle.aq_run.specs.Histories.{LegalHolds};
ghost use Rattle.aq_run.specs.Played.{PlaysOver, end_of};

use crate::rounds::run;
use aq_clock::StepClock;
use aq_disk::Disk;
use aq_world::{Broken, Finished, MountFault, World};
use payload_records::List;
use queue_rows::{History, SessionScript};
use run_fates::{
    legal_commits_fit, legal_confirms_seen, legal_copies_durable, legal_entries_are_own,
    legal_has_arrivals, legal_has_fates, legal_is_durable_as_told, legal_is_valid_throughout,
    legal_sees_once, serial_is_durable,
};
use run_spellings::{legal_commits_spell, rules_are_texts, sound_is_spellable};
use run_turns::{
    legal_calls_in_order, serial_calls_all, serial_front_is_legal, serial_is_done, serial_is_legal,
};
use std::alloc::Global;

/// What the laws of legal histories say, together.
pub fn legal_holds()
    ensures { LegalHolds }
{
    legal_commits_fit();
    legal_has_fates();
    legal_sees_once();
    legal_has_arrivals();
    legal_is_durable_as_told();
    legal_confirms_seen();
    legal_copies_durable();
    legal_calls_in_order();
    legal_entries_are_own();
    legal_is_valid_throughout();
}

/// How a run ended.
#[derive(Clone, Copy, Debug, PartialEq, Eq)]
pub enum RunEnd {
    /// All was done.
    Whole,
    /// A call on a disk failed.
    Halted,
    /// Memory ran out.
    Memory,
}

/// A run as far as it came, and the disks.
#[derive(Drop)]
pub struct Played<D> {
    /// What was done.
    pub history: History,
    /// How it ended.
    pub end: RunEnd,
    /// The disk of the database home.
    pub home: D,
    /// The disk of the database away.
    pub away: D,
}

fn end_of(run: Result<(), Broken>) -> RunEnd
    ensures { result ≡ end_of run }
{
    match run {
        Ok(()) => RunEnd::Whole,
        Err(Broken::Halted) => RunEnd::Halted,
        Err(Broken::Memory) => RunEnd::Memory,
    }
}

/// The serial run of these scripts over the databases of two disks, as far as it came; `Err` where they were
/// not mounted.
pub fn play<D: Disk>(
    alloc: Global,
    scripts: List<SessionScript>,
    home: D,
    away: D,
) -> Result<Played<D>, MountFault<D, StepClock>>
    requires { AreReadable scripts }
    ensures played { IfOk result (λ p. PlaysOver D.Disk home away scripts p) }
    ensures unmounted { IfErr result (λ e. IsUnmounted D.Disk home away e) }
{
    legal_holds();
    sound_is_spellable();
    legal_commits_spell();
    serial_is_durable();
    serial_calls_all();
    serial_front_is_legal();
    serial_is_legal();
    serial_is_done();
    legal_calls_in_order();
    rules_are_texts(&scripts);
    let mut world = World::mount_serial(alloc, home, away, scripts)?;
    let end = end_of(run(&mut world));
    let Finished {
        history,
        home,
        away,
        clock: _,
    } = world.finish();
    Ok(Played {
        history,
        end,
        home,
        away,
    })
}
