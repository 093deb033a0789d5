// Laws of what a crash leaves, each a function without a body.
ghost use Rattle.crash_laws.specs.CrashLaws.{OpeningSurvives, CallsPass, FlushLeaves, EntryComes, FlushComes};

use aq_disk::Disk;

/// A run without entries survives a crash at any moment since mounting began where each image since then recovers its opening.
pub fn opening_survives<D: Disk>()
    ensures { OpeningSurvives D.is_image D.calls }
{}

/// A run that survives a crash survives it at further calls of its disk, where each of their images recovers what is durable, and no more
/// than was made.
pub fn calls_pass<D: Disk>()
    ensures { CallsPass D.is_image D.calls }
{}

/// What recovers what was on the disk, which is no less than was durable, or all that was made, recovers what is durable and no more than
/// was made.
#[tactic(auto, using(crate::proofs::Standing::flush_leaves))]
pub fn flush_leaves()
    ensures { FlushLeaves }
{}

/// A run that survives a crash survives it with an entry that is no flush and makes no call on the disk.
pub fn entry_comes<D: Disk>()
    ensures { EntryComes D.is_image D.calls }
{}

/// A run that survives a crash survives it with a flush, where each image behind it recovers all that was made.
pub fn flush_comes<D: Disk>()
    ensures { FlushComes D.is_image D.calls }
{}
