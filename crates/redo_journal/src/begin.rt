// A journal is begun on a disk that has none.
ghost use Rattle.std.specs.Prelude.{◌≡◌, ◌≤◌, ◌+◌, [], ◌∷◌, ℕ, length, drop, slice_index, option_map, true, false, None, OnOk, IsSome};
ghost use Rattle.std.specs.Option.{ForSome};
ghost use Rattle.aq_disk.specs.Causes.{HasCause};
ghost use Rattle.aq_disk.specs.Disk.{KeepsEarlier};
ghost use Rattle.redo_journal.specs.Journal.{is_unbegun};
ghost use Rattle.redo_journal.specs.Crash.{StandsForNone};
ghost use Rattle.redo_journal.specs.Runs.{IsDiskSettled, CrashLeaves, HasJournal};
ghost use Rattle.redo_journal.specs.Begun.{begun_journal, begun_bytes, IsShut};

use aq_disk::{Disk, Failed, write_synced};

// What stands behind the first byte: the magic, side A, its root 24, no root B, version 2, and a closed gate.
const BEGINNING: [u8; 28] = [
    65, 81, 74, 82, 78, 76, 0, 0, 0, 0, 0, 0, 0, 0, 24, 0, 0, 0, 0, 0, 0, 0, 0, 0, 0, 0, 2, 0,
];

// Whether the first byte is there, and says that no journal is.
fn is_shut(bytes: &[u8]) -> bool
    ensures yes { result ≡ true → IsShut bytes.now }
    ensures no { result ≡ false → slice_index bytes.now 0 ≡ 0 → length bytes.now ≡ 0 }
{
    !bytes.is_empty() && bytes[0] == 0
}

// Says in the first byte that no journal is there. Where it says so already, it is left alone: an image of
// the write could bring back old frames.
fn close_header<D: Disk>(disk: &mut D, bytes: &[u8]) -> Result<(), Failed>
    requires told { ForSome (D.seen disk.old) (λ told. told ≡ bytes.now) }
    requires unbegun { is_unbegun bytes.now ≡ true }
    ensures shut { OnOk result (ForSome (D.seen disk.new) IsShut) }
    ensures behind { OnOk result
        (option_map (drop 1) (D.seen disk.new) ≡ option_map (drop 1) (D.seen disk.old)) }
    ensures settled { OnOk result (IsDiskSettled D.seen D.is_image D.calls disk.old
        → IsDiskSettled D.seen D.is_image D.calls disk.new) }
    ensures told { OnOk result (ForSome (D.seen disk.new) (λ _. IsSome (D.seen disk.old))) }
    ensures tells { OnOk result (ForSome (D.seen disk.old) (λ _. IsSome (D.seen disk.new))) }
    ensures silent { D.seen disk.old ≡ None → D.seen disk.new ≡ None }
    ensures any_moment { CrashLeaves D.seen D.is_image D.calls disk.old disk.new (λ _. StandsForNone) }
    ensures earlier { KeepsEarlier (D.calls disk.old) (D.is_image disk.old) (D.is_image disk.new) }
    ensures later { D.calls disk.old ≤ D.calls disk.new }
    ensures cause { HasCause (D.faults disk.old) (D.faults disk.new) result }
{
    if is_shut(bytes) {
        return Ok(());
    }
    write_synced(disk, 0, &[0])
}

// Writes what stands behind the first byte, and when it is on the disk the first byte.
fn open_header<D: Disk>(disk: &mut D) -> Result<(), Failed>
    requires { ForSome (D.seen disk.old) IsShut }
    ensures leaves { OnOk result (D.seen disk.new ≡ option_map begun_bytes (D.seen disk.old)) }
    ensures rests { OnOk result (HasJournal D.seen D.is_image D.calls disk.new begun_journal) }
    ensures silent { D.seen disk.old ≡ None → D.seen disk.new ≡ None }
    ensures any_moment { CrashLeaves D.seen D.is_image D.calls disk.old disk.new (λ _. StandsForNone) }
    ensures earlier { KeepsEarlier (D.calls disk.old) (D.is_image disk.old) (D.is_image disk.new) }
    ensures later { D.calls disk.old ≤ D.calls disk.new }
    ensures cause { HasCause (D.faults disk.old) (D.faults disk.new) result }
{
    write_synced(disk, 1, &BEGINNING)?;
    write_synced(disk, 0, &[1])
}

/// Begins a journal on a disk that reads so. A crash at any moment leaves no commit.
pub(crate) fn begin<D: Disk>(disk: &mut D, bytes: &[u8]) -> Result<(), Failed>
    requires told { ForSome (D.seen disk.old) (λ told. told ≡ bytes.now) }
    requires unbegun { is_unbegun bytes.now ≡ true }
    ensures leaves { OnOk result (D.seen disk.new ≡ option_map begun_bytes (D.seen disk.old)) }
    ensures rests { OnOk result (HasJournal D.seen D.is_image D.calls disk.new begun_journal) }
    ensures silent { D.seen disk.old ≡ None → D.seen disk.new ≡ None }
    ensures any_moment { CrashLeaves D.seen D.is_image D.calls disk.old disk.new (λ _. StandsForNone) }
    ensures earlier { KeepsEarlier (D.calls disk.old) (D.is_image disk.old) (D.is_image disk.new) }
    ensures later { D.calls disk.old ≤ D.calls disk.new }
    ensures cause { HasCause (D.faults disk.old) (D.faults disk.new) result }
{
    close_header(disk, bytes)?;
    open_header(disk)
}
