// Laws over the definitions of `queue_rows`, each a function without a body.
ghost use Rattle.statement_laws.specs.DequeueLaws.{DequeueRemovesOpen};
ghost use Rattle.statement_laws.specs.EnqueueLaws.{EnqueueAddsRight};
ghost use Rattle.statement_laws.specs.Examples.{ExampleStands};
ghost use Rattle.statement_laws.specs.KeepingLaws.{StatementsKeepPending};
ghost use Rattle.statement_laws.specs.SessionLaws.{
  CommitFitsForSessions,
  DequeueKeepsEnd,
  EmptyMayEnd,
  EnqueueKeepsEnd,
  MayEndLater,
  RollbackFitsForSessions,
};
ghost use Rattle.statement_laws.specs.StandingLaws.{
  AdministrationKeepsStanding,
  ArrivalKeepsStanding,
  CommitKeepsStanding,
  ConfirmationKeepsStanding,
  DequeueKeepsStanding,
  DueKeepsStanding,
  EmptyAreStanding,
  EnqueueKeepsStanding,
  ListenKeepsStanding,
  RollbackKeepsStanding,
  StandingLater,
  StandingMayEnd,
};

/// An enqueue adds a message that is right for its queue and table, with the id that it was given.
pub fn enqueue_adds_right()
    ensures { EnqueueAddsRight }
{}

/// A dequeue takes a slot that is open and that its session has not removed, and does so once.
pub fn dequeue_removes_open()
    ensures { DequeueRemovesOpen }
{}

/// A statement leaves what was pending as it was, but for a commit and a rollback, which empty it.
pub fn statements_keep_pending()
    ensures { StatementsKeepPending }
{}

/// The transaction of a session that has nothing pending and nothing marked may end.
pub fn empty_may_end()
    ensures { EmptyMayEnd }
{}

/// A session whose transaction may end may end it later, and with further ids given.
pub fn may_end_later()
    ensures { MayEndLater }
{}

/// After an enqueue such a session may still end its transaction.
pub fn enqueue_keeps_end()
    ensures { EnqueueKeepsEnd }
{}

/// After a dequeue such a session may still end its transaction.
pub fn dequeue_keeps_end()
    ensures { DequeueKeepsEnd }
{}

/// What a commit of such a session commits fits.
pub fn commit_fits_for_sessions()
    ensures { CommitFitsForSessions }
{}

/// What a rollback of such a session commits fits.
pub fn rollback_fits_for_sessions()
    ensures { RollbackFitsForSessions }
{}

/// Each of the sessions that stand in tables may end its transaction.
pub fn standing_may_end()
    ensures { StandingMayEnd }
{}

/// Sessions that hold nothing stand in valid tables.
pub fn empty_are_standing()
    ensures { EmptyAreStanding }
{}

/// Sessions that stand in tables do so later, and when further ids were given.
pub fn standing_later()
    ensures { StandingLater }
{}

/// Behind the commit of one of them all sessions stand.
pub fn commit_keeps_standing()
    ensures { CommitKeepsStanding }
{}

/// Behind the rollback of one of them all sessions stand.
pub fn rollback_keeps_standing()
    ensures { RollbackKeepsStanding }
{}

/// Behind due work all sessions stand.
pub fn due_keeps_standing()
    ensures { DueKeepsStanding }
{}

/// Behind an arrival all sessions stand.
pub fn arrival_keeps_standing()
    ensures { ArrivalKeepsStanding }
{}

/// Behind the confirmation of a slot that none has marked all sessions stand.
pub fn confirmation_keeps_standing()
    ensures { ConfirmationKeepsStanding }
{}

/// Behind an enqueue of one of them all sessions stand.
pub fn enqueue_keeps_standing()
    ensures { EnqueueKeepsStanding }
{}

/// Behind a dequeue of one of them all sessions stand.
pub fn dequeue_keeps_standing()
    ensures { DequeueKeepsStanding }
{}

/// Behind a listen of one of them all sessions stand.
pub fn listen_keeps_standing()
    ensures { ListenKeepsStanding }
{}

/// Behind an administrative statement of one of them all sessions stand.
pub fn administration_keeps_standing()
    ensures { AdministrationKeepsStanding }
{}

/// In the example the two sessions stand.
pub fn example_stands()
    ensures { ExampleStands }
{}
