// Laws over the definitions, each a function without a body.
ghost use Rattle.database_recovery.specs.Recovering.{JournalRecovers, DamageRecovers, ContentsRecover, AppendRecovers, MountRecovers, FramesLead, BodiesJoin, CommitLeadsOn};

use redo_records::written_is_read;

/// A journal is recovered to what its frames lead to.
#[tactic(auto, using(crate::proofs::Disks::journal_recovers))]
pub fn journal_recovers()
    ensures { JournalRecovers }
{}

/// A damaged disk is recovered to no tables: the damage that stands first is told.
#[tactic(auto, using(crate::proofs::Disks::damage_recovers))]
pub fn damage_recovers()
    ensures { DamageRecovers }
{}

/// What a crash leaves is recovered by what it stands for alone: its version and its bodies.
#[tactic(auto, using(crate::proofs::Disks::contents_recover))]
pub fn contents_recover()
    ensures { ContentsRecover }
{}

/// What a crash leaves of an append is recovered to the tables in front of the frame, or to those behind it.
#[tactic(auto, using(crate::proofs::Disks::append_recovers))]
pub fn append_recovers()
    ensures { AppendRecovers }
{}

/// Mounting loses nothing: what it leaves of a disk at any moment is recovered to what the disk was recovered to.
pub fn mount_recovers()
    ensures { MountRecovers }
{}

/// Where frames lead to tables, so do their bodies, as one list.
#[tactic(auto, using(crate::proofs::Leading::bodies_lead))]
pub fn frames_lead()
    ensures { FramesLead }
{}

/// Bodies that lead from tables to others, and bodies that lead on from there, lead all the way.
#[tactic(auto, using(crate::proofs::Leading::bodies_join))]
pub fn bodies_join()
    ensures { BodiesJoin }
{}

/// A commit that fits leads on to the tables after it, by its bytes as they are written.
#[tactic(auto, using(crate::proofs::Leading::commit_leads_on))]
pub fn commit_leads_on()
    ensures { CommitLeadsOn }
{
    written_is_read();
}
