// A write that is on the disk once it is answered.
ghost use Rattle.std.specs.Prelude.{◌≡◌, ◌≤◌, ◌+◌, ◌^◌, List, ℕ, Some, None, length, option_map, OnOk, OnErr};
ghost use Rattle.std.specs.Option.{ForSome};
ghost use Rattle.aq_disk.specs.Causes.{HasCause};
ghost use Rattle.aq_disk.specs.Disk.{after_write, next_call, Torn, TellsTorn, TearsAtMost, IsSettled, KeepsEarlier};

use crate::{Disk, Failed};

/// Writes and syncs. Of a settled disk, a crash at any moment leaves the bytes from before with any bytes in the
/// range and past the old end, and after `Ok` it leaves the bytes as written.
pub fn write_synced<D: Disk>(disk: &mut D, at: u64, from: &[u8]) -> Result<(), Failed>
    requires { ForSome (D.seen disk.old) (λ bytes. at ≤ length bytes) }
    ensures bytes { OnOk result (D.seen disk.new ≡ option_map (after_write at from.now) (D.seen disk.old)) }
    ensures torn { OnErr result (TellsTorn at (length from.now) (D.seen disk.old) (D.seen disk.new)) }
    ensures silent { D.seen disk.old ≡ None → D.seen disk.new ≡ None }
    ensures limit { OnOk result (at + length from.now ≤ 2 ^ 62) }
    ensures settled { OnOk result (IsSettled (D.seen disk.new) (D.is_image disk.new (D.calls disk.new))) }
    ensures any_moment { IsSettled (D.seen disk.old) (D.is_image disk.old (D.calls disk.old))
        → ForSome (D.seen disk.old)
        (λ bytes. TearsAtMost D.is_image D.calls at (length from.now) bytes disk.old disk.new) }
    ensures earlier { KeepsEarlier (D.calls disk.old) (D.is_image disk.old) (D.is_image disk.new) }
    ensures later { D.calls disk.old ≤ D.calls disk.new }
    ensures number { OnOk result (D.calls disk.new ≡ next_call (next_call (D.calls disk.old))) }
    ensures few { D.calls disk.new ≤ D.calls disk.old + 2 }
    ensures cause { HasCause (D.faults disk.old) (D.faults disk.new) result }
{
    disk.write_at(at, from)?;
    disk.sync()
}
