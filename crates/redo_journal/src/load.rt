// A disk's bytes, read into one buffer.
ghost use Rattle.std.specs.Prelude.{◌≡◌, ◌≤◌, ◌^◌, length, OnOk, IfOk, IfErr, IsErrOf, Some};
ghost use Rattle.std.specs.Option.{ForSome};
ghost use Rattle.aq_disk.specs.Causes.{Rose};
ghost use Rattle.aq_disk.specs.Disk.{KeepsEarlier};
ghost use Rattle.redo_journal.specs.Runs.{CrashLeaves, SameNow};
ghost use Rattle.redo_journal.specs.declared.load.LoadFault.TheVariants.{Fault, Memory};

use aq_disk::{Disk, Failed};
use std::alloc::{AllocError, Global};

/// Why a disk is not read.
#[derive(Clone, Copy)]
pub(crate) enum LoadFault {
    Fault,
    Memory,
}

impl From<AllocError> for LoadFault {
    ghost from_gives = { λ _ e. e ≡ Memory };

    fn from(_: AllocError) -> Self {
        LoadFault::Memory
    }
}

impl From<Failed> for LoadFault {
    ghost from_gives = { λ _ e. e ≡ Fault };

    fn from(_: Failed) -> Self {
        LoadFault::Fault
    }
}

/// All bytes of a disk.
pub(crate) fn load<D: Disk>(alloc: Global, disk: &mut D) -> Result<Vec<u8>, LoadFault>
    ensures bytes { IfOk result (λ v. ForSome (D.seen disk.old) (λ bytes. bytes ≡ v.items)) }
    ensures limit { IfOk result (λ v. length v.items ≤ 2 ^ 62) }
    ensures seen { D.seen disk.new ≡ D.seen disk.old }
    ensures crash { SameNow D.is_image D.calls disk.old disk.new }
    ensures any_moment { CrashLeaves D.seen D.is_image D.calls disk.old disk.new
        (λ bytes image. image ≡ bytes) }
    ensures earlier { KeepsEarlier (D.calls disk.old) (D.is_image disk.old) (D.is_image disk.new) }
    ensures later { D.calls disk.old ≤ D.calls disk.new }
    ensures rise { D.faults disk.old ≤ D.faults disk.new }
    ensures fine { OnOk result (D.faults disk.new ≡ D.faults disk.old) }
    ensures no_fault { IfErr result (λ e. (e ≡ LoadFault.Fault → ⊥) → D.faults disk.new ≡ D.faults disk.old) }
    ensures fault { IsErrOf result LoadFault.Fault → Rose (D.faults disk.old) (D.faults disk.new) }
{
    let size = disk.len()?;
    let mut buffer = Vec::new(alloc);
    buffer.resize(size as usize, 0)?;
    let count = disk.read(0, &mut buffer)?;
    buffer.truncate(count);
    Ok(buffer)
}
