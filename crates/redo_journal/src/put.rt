// The calls on a disk by which a journal grows.
ghost use Rattle.std.specs.Prelude.{◌≡◌, ◌≤◌, ◌<◌, ◌+◌, ◌^◌, ◌⊎◌, List, ℕ, Some, None, [], ◌∷◌, length, vec_capacity, option_map, OnOk, OnErr, IsSome};
ghost use Rattle.std.specs.Option.{ForSome};
ghost use Rattle.aq_disk.specs.Causes.{HasCause};
ghost use Rattle.aq_disk.specs.Disk.{KeepsEarlier};
ghost use Rattle.redo_journal.specs.Put.{TornFrame, framed_bytes};
ghost use Rattle.redo_journal.specs.Journal.{Mounted, frame};
ghost use Rattle.redo_journal.specs.Crash.{IsAtRest, with_frame, AppendLeaves};
ghost use Rattle.redo_journal.specs.Runs.{IsDiskSettled, CrashLeaves};
ghost use Rattle.redo_journal.specs.Journaled.{bodies_as};

use crate::encode::encode;
use aq_disk::{Disk, Failed, write_synced};

// Writes a frame behind a closed gate, and when it is on the disk opens the gate.
pub(crate) fn put_frame<D: Disk>(disk: &mut D, gate: u64, frame: &[u8]) -> Result<(), Failed>
    requires place { ForSome (D.seen disk.old) (λ bytes. gate < length bytes) }
    requires limit { gate ≤ 2 ^ 62 }
    ensures bytes { OnOk result
        (D.seen disk.new ≡ option_map (framed_bytes gate frame.now) (D.seen disk.old)) }
    ensures silent { D.seen disk.old ≡ None → D.seen disk.new ≡ None }
    ensures limit { OnOk result (gate + 1 + length frame.now ≤ 2 ^ 62) }
    ensures settled { OnOk result (IsDiskSettled D.seen D.is_image D.calls disk.new) }
    ensures any_moment { CrashLeaves D.seen D.is_image D.calls disk.old disk.new (TornFrame gate frame.now) }
    ensures earlier { KeepsEarlier (D.calls disk.old) (D.is_image disk.old) (D.is_image disk.new) }
    ensures later { D.calls disk.old ≤ D.calls disk.new }
    ensures number { D.calls disk.new ≤ D.calls disk.old + 4 }
    ensures cause { HasCause (D.faults disk.old) (D.faults disk.new) result }
{
    write_synced(disk, gate + 1, frame)?;
    write_synced(disk, gate, &[1])
}

// Writes a frame of the queued bodies behind the closed gate, and when it is on the disk opens the gate.
pub(crate) fn put_queued<D: Disk>(
    disk: &mut D,
    gate: u64,
    room: &mut Vec<u8>,
    queued: &[Vec<u8>],
) -> Result<(), Failed>
    requires some { 1 ≤ length queued.now }
    requires room { length (frame (bodies_as queued.now)) ≤ vec_capacity room.old }
    requires place { ForSome (D.seen disk.old) (λ bytes. gate < length bytes) }
    requires limit { gate ≤ 2 ^ 62 }
    ensures room { room.new.items ≡ frame (bodies_as queued.now) }
    ensures capacity { vec_capacity room.old ≤ vec_capacity room.new }
    ensures limit { OnOk result (gate + 1 + length room.new.items ≤ 2 ^ 62) }
    ensures place { OnOk result
        (ForSome (D.seen disk.new) (λ bytes. gate + length room.new.items < length bytes)) }

    // A crash at any moment leaves the frames so far, with the new one or without.
    ensures crash { ForSome (D.seen disk.old) (λ bytes. (m : Mounted) → gate ≡ m.active.gate
        → IsAtRest m bytes (D.is_image disk.old (D.calls disk.old))
        → AppendLeaves m (bodies_as queued.now) (D.calls disk.old) (D.calls disk.new) (D.is_image disk.new)) }
    ensures rests { OnOk result (ForSome (D.seen disk.new) (λ new. ForSome (D.seen disk.old) (λ bytes.
        (m : Mounted) → gate ≡ m.active.gate → IsAtRest m bytes (D.is_image disk.old (D.calls disk.old))
        → IsAtRest (with_frame (bodies_as queued.now) m) new (D.is_image disk.new (D.calls disk.new))))) }
    ensures earlier { KeepsEarlier (D.calls disk.old) (D.is_image disk.old) (D.is_image disk.new) }
    ensures later { D.calls disk.old ≤ D.calls disk.new }
    ensures number { D.calls disk.new ≤ D.calls disk.old + 4 }
    ensures told { OnOk result (ForSome (D.seen disk.new) (λ _. IsSome (D.seen disk.old))) }
    ensures tells { OnOk result (ForSome (D.seen disk.old) (λ _. IsSome (D.seen disk.new))) }
    ensures silent { D.seen disk.old ≡ None → D.seen disk.new ≡ None }
    ensures cause { HasCause (D.faults disk.old) (D.faults disk.new) result }
{
    encode(room, queued);
    put_frame(disk, gate, room)
}
