// The calls on a disk by which a journal is compacted.
ghost use Rattle.std.specs.Prelude.{◌≡◌, ◌≤◌, ◌<◌, ◌+◌, ◌^◌, length, option_map, OnOk};
ghost use Rattle.std.specs.Int.{w64, to_be_bytes};
ghost use Rattle.std.specs.Option.{ForSome};
ghost use Rattle.aq_disk.specs.Causes.{HasCause};
ghost use Rattle.aq_disk.specs.Disk.{after_write, KeepsEarlier};
ghost use Rattle.redo_journal.specs.Runs.{IsDiskSettled, CrashLeaves};
ghost use Rattle.redo_journal.specs.Journaled.{IsArea};
ghost use Rattle.checkpoint.specs.Compaction.{new_root, TornTwice, TornTurn, turned_bytes};

use crate::place::{new_root, other_side, side_byte};
use aq_disk::{Disk, Failed, write_synced};
use redo_journal::{Active, pointer_of};

// Where a header tells the active side.
const SIDE: u64 = 7;

// Writes at two places, and syncs. Of a settled disk, a crash at any moment leaves the bytes from before with
// any bytes in the two ranges and past the old end, and after `Ok` it leaves the bytes as written.
fn put_both<D: Disk>(
    disk: &mut D,
    at: u64,
    first: &[u8],
    also_at: u64,
    second: &[u8],
) -> Result<(), Failed>
    requires place { ForSome (D.seen disk.old) (λ bytes. at ≤ length bytes) }
    requires also { ForSome (D.seen disk.old) (λ bytes. also_at ≤ length bytes) }
    ensures bytes { OnOk result (D.seen disk.new
        ≡ option_map (λ b. after_write also_at second.now (after_write at first.now b)) (D.seen disk.old)) }
    ensures limit { OnOk result (at + length first.now ≤ 2 ^ 62) }
    ensures settled { OnOk result (IsDiskSettled D.seen D.is_image D.calls disk.new) }
    ensures any_moment { CrashLeaves D.seen D.is_image D.calls disk.old disk.new
        (TornTwice at (length first.now) also_at (length second.now)) }
    ensures earlier { KeepsEarlier (D.calls disk.old) (D.is_image disk.old) (D.is_image disk.new) }
    ensures later { D.calls disk.old ≤ D.calls disk.new }
    ensures cause { HasCause (D.faults disk.old) (D.faults disk.new) result }
{
    disk.write_at(at, first)?;
    disk.write_at(also_at, second)?;
    disk.sync()
}

/// Writes a new area and its root, and when they are on the disk the side.
pub(crate) fn put_area<D: Disk>(disk: &mut D, active: Active, area: &[u8]) -> Result<(), Failed>
    requires place { ForSome (D.seen disk.old) (λ bytes. active.gate < length bytes) }
    requires area { IsArea active }
    ensures bytes { OnOk result
        (D.seen disk.new ≡ option_map (turned_bytes active area.now) (D.seen disk.old)) }
    ensures limit { OnOk result (new_root active (length area.now) + length area.now ≤ 2 ^ 62) }
    ensures settled { OnOk result (IsDiskSettled D.seen D.is_image D.calls disk.new) }
    ensures any_moment { CrashLeaves D.seen D.is_image D.calls disk.old disk.new (TornTurn active area.now) }
    ensures earlier { KeepsEarlier (D.calls disk.old) (D.is_image disk.old) (D.is_image disk.new) }
    ensures later { D.calls disk.old ≤ D.calls disk.new }
    ensures cause { HasCause (D.faults disk.old) (D.faults disk.new) result }
{
    let side = other_side(active.side);
    let root = new_root(active, area.len() as u64);
    put_both(disk, root, area, pointer_of(side), &root.to_be_bytes())?;
    write_synced(disk, SIDE, &[side_byte(side)])
}
