// Laws of legal histories, each a function without a body.
ghost use Rattle.run_fates.specs.DurableRun.{
  LegalConfirmsSeen,
  LegalCopiesDurable,
  LegalIsDurableAsTold,
  SerialIsDurable,
};
ghost use Rattle.run_fates.specs.RunFates.{
  LegalCommitsFit,
  LegalEndsIn,
  LegalHasArrivals,
  LegalHasFates,
  LegalSeesOnce,
};
ghost use Rattle.run_fates.specs.Throughout.{LegalEntriesAreOwn, LegalIsValidThroughout};

/// Each commit of a legal history fits the tables that those before it leave.
pub fn legal_commits_fit()
    ensures { LegalCommitsFit }
{}

/// The tables to which a legal history leads are those that its commits leave.
pub fn legal_ends_in()
    ensures { LegalEndsIn }
{}

/// In a legal history each slot of each message has one fate: its row says it, it stays when it is final, and
/// each slot is removed at most once.
pub fn legal_has_fates()
    ensures { LegalHasFates }
{}

/// A legal history says of each slot of the other database once at most that it was seen.
pub fn legal_sees_once()
    ensures { LegalSeesOnce }
{}

/// In a legal history each slot arrives as a copy at most once, as it was.
pub fn legal_has_arrivals()
    ensures { LegalHasArrivals }
{}

/// When a legal history tells a reply, every commit is durable that was made up to its call.
pub fn legal_is_durable_as_told()
    ensures { LegalIsDurableAsTold }
{}

/// When a legal history confirms a slot, the other database has seen it in what is durable there.
pub fn legal_confirms_seen()
    ensures { LegalConfirmsSeen }
{}

/// When a slot arrives as a copy in a legal history, its message stands in what is durable at its own database.
pub fn legal_copies_durable()
    ensures { LegalCopiesDurable }
{}

/// At the end of a serial history every commit is durable.
pub fn serial_is_durable()
    ensures { SerialIsDurable }
{}

/// The tables of a legal history are valid as it opens and after each of its commits.
pub fn legal_is_valid_throughout()
    ensures { LegalIsValidThroughout }
{}

/// Each entry of a legal history is one that its actor may make: a session calls, waits, is told and ends itself.
pub fn legal_entries_are_own()
    ensures { LegalEntriesAreOwn }
{}
