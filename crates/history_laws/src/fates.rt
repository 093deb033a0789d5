// The laws of fates, over the definitions of `queue_rows`, each a function without a body.
ghost use Rattle.history_laws.specs.CommitLaws.{
  AdministrationIsProper,
  ArrivalIsProper,
  CommitIsProper,
  ConfirmationIsProper,
  DueIsProper,
  ProperGrows,
  RollbackIsProper,
  SubscriberRemovalIsProper,
};
ghost use Rattle.history_laws.specs.FateLaws.{ProperHasFates};

/// Where a database is valid as a history begins, and what is committed there is proper, each slot of each
/// message has one fate: its row says it, it stays when it is final, and each slot is removed at most once.
pub fn proper_has_fates()
    ensures { ProperHasFates }
{}

/// What a session commits is proper, and puts in what it added.
pub fn commit_is_proper()
    ensures { CommitIsProper }
{}

/// What a rollback commits is proper.
pub fn rollback_is_proper()
    ensures { RollbackIsProper }
{}

/// What is due is proper.
pub fn due_is_proper()
    ensures { DueIsProper }
{}

/// What an arrival takes in is proper, and puts in the copy.
pub fn arrival_is_proper()
    ensures { ArrivalIsProper }
{}

/// The confirmation of an open slot is proper.
pub fn confirmation_is_proper()
    ensures { ConfirmationIsProper }
{}

/// The removal of a subscriber is proper.
pub fn subscriber_removal_is_proper()
    ensures { SubscriberRemovalIsProper }
{}

/// Whatever an administrative statement changes that is not refused is proper.
pub fn administration_is_proper()
    ensures { AdministrationIsProper }
{}

/// What was committed stays proper with a further proper commit, whose ids are new.
pub fn proper_grows()
    ensures { ProperGrows }
{}
