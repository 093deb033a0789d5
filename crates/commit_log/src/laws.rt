// Laws of what is logged, each a function without a body of its own.
ghost use Rattle.commit_log.specs.LogLaws.{LogKeeps, LogRecovers, LoggableSoFar};

use aq_disk::Disk;
use database_recovery::contents_recover;

/// Where commits can be logged, so can those so far.
#[tactic(auto, using(crate::proofs::Loggable::loggable_so_far))]
pub fn loggable_so_far()
    ensures { LoggableSoFar }
{}

/// What a crash leaves of a log that has not failed is recovered to the commits that are on its disk.
pub fn log_recovers<D: Disk>()
    ensures { LogRecovers D.seen D.is_image D.calls }
{
    contents_recover();
}

/// A log that is left alone keeps its tables.
pub fn log_keeps<D: Disk>()
    ensures { LogKeeps D.Disk }
{
    log_recovers::<D>();
}
