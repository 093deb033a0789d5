// Laws of what histories commit, over the definitions of `queue_rows`, each a function without a body.
ghost use Rattle.history_laws.specs.Arrivals.{
  ArrivingCopies,
  CopyMayBeTakenIn,
  FittingHasArrivals,
  FittingSeesOnce,
  SeenStays,
};
ghost use Rattle.history_laws.specs.LegalFates.{CommitKeepsMade};
ghost use Rattle.history_laws.specs.LocalMarks.{
  DequeueMarksLocal,
  LocalStays,
  SentConfirmationKeepsStanding,
  SentIsRemote,
};

/// A proper commit that fits, whoever makes it, with ids that are new, leaves a database what its commits made of it.
pub fn commit_keeps_made()
    ensures { CommitKeepsMade }
{}

/// What was seen of the other database stays so.
pub fn seen_stays()
    ensures { SeenStays }
{}

/// Commits that fit say once at most of a slot that it was seen, and not where it was seen before.
pub fn fitting_sees_once()
    ensures { FittingSeesOnce }
{}

/// An arrival that ends with a copy puts a message in with the facts of the one that was sent, which expires
/// when the slot does; and the slot was not seen before.
pub fn arriving_copies()
    ensures { ArrivingCopies }
{}

/// Where all commits fit, each slot arrives as a copy at most once, never where it was seen before, and as it was.
pub fn fitting_has_arrivals()
    ensures { FittingHasArrivals }
{}

/// Proper changes send no slot to the other database, unless they put its message in.
pub fn local_stays()
    ensures { LocalStays }
{}

/// A dequeue marks no slot that goes to the other database.
pub fn dequeue_marks_local()
    ensures { DequeueMarksLocal }
{}

/// What is sent of valid tables is a slot that goes to the other database.
pub fn sent_is_remote()
    ensures { SentIsRemote }
{}

/// So what sessions hold stands behind the confirmation of a slot that was sent.
pub fn sent_confirmation_keeps_standing()
    ensures { SentConfirmationKeepsStanding }
{}

/// The copy with which an arrival ends may be taken in, where the slot was sent of valid tables.
pub fn copy_may_be_taken_in()
    ensures { CopyMayBeTakenIn }
{}
