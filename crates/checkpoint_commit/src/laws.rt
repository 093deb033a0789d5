// Laws of checkpoints, each a function without a body.
ghost use Rattle.checkpoint_commit.specs.Laws.{CheckpointLeads, CheckpointIsSpelled, CheckpointRestores, CompactionRecovers};

use database_recovery::{commit_leads_on, contents_recover};

/// The checkpoint of valid tables fits empty tables, and leads to just these tables.
pub fn checkpoint_leads()
    ensures { CheckpointLeads }
{}

/// The checkpoint of valid tables has a spelling in the version that is written, where each of their rows has one.
#[tactic(auto, using(crate::proofs::Spelling::checkpoint_is_spelled))]
pub fn checkpoint_is_spelled()
    ensures { CheckpointIsSpelled }
{}

/// The bytes of the checkpoint of sound tables, as the only body of a journal, lead to these tables.
#[tactic(auto, using(crate::proofs::Restoring::checkpoint_restores))]
pub fn checkpoint_restores()
    ensures { CheckpointRestores }
{
    commit_leads_on();
}

/// What a crash leaves of a journal that led to sound tables, as it is compacted into their checkpoint, is recovered to these tables,
/// whichever version the journal had.
#[tactic(auto, using(crate::proofs::Restoring::compaction_recovers))]
pub fn compaction_recovers()
    ensures { CompactionRecovers }
{
    checkpoint_restores();
    contents_recover();
}
