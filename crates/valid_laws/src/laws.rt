// Laws over the definitions of `queue_rows`, each a function without a body.
ghost use Rattle.valid_laws.specs.ArrivalLaws.{ArrivalFits, ConfirmationFits};
ghost use Rattle.valid_laws.specs.CatalogueLaws.{JudgedFits, NewTableFits, OneChangeFits};
ghost use Rattle.valid_laws.specs.DueLaws.{DueFits};
ghost use Rattle.valid_laws.specs.Examples.{
  ExampleCommits,
  ExampleDrops,
  ExampleIsLeft,
  ExampleIsValid,
  ExampleRollsBack,
};
ghost use Rattle.valid_laws.specs.PendingLaws.{PendingFits, RemovalFits};
ghost use Rattle.valid_laws.specs.RollbackLaws.{GivingUpKeepsValid, RollbackFits};
ghost use Rattle.valid_laws.specs.SubscriberLaws.{SubscriberRemovalFits};
ghost use Rattle.valid_laws.specs.ValidLaws.{
  ChangeKeepsValid,
  CommitFits,
  LaterIsValid,
  NothingDueAt,
  SettledFits,
  SlotKeepsValid,
};

/// After a commit of what is due at a database nothing is due there at that moment.
pub fn nothing_due_at()
    ensures { NothingDueAt }
{}

/// Valid tables stay valid at a later moment.
pub fn later_is_valid()
    ensures { LaterIsValid }
{}

/// A slot that is changed as it may be keeps valid tables valid.
pub fn slot_keeps_valid()
    ensures { SlotKeepsValid }
{}

/// A change that has what it needs keeps valid tables valid, and names what is there.
pub fn change_keeps_valid()
    ensures { ChangeKeepsValid }
{}

/// A commit fits whose changes have what they need, one after another.
pub fn commit_fits()
    ensures { CommitFits }
{}

/// A commit of such changes fits with what they settle.
pub fn settled_fits()
    ensures { SettledFits }
{}

/// What a session has added and removed fits as one commit, with what it settles.
pub fn pending_fits()
    ensures { PendingFits }
{}

/// A removal at once of an open slot fits, with what it settles.
pub fn removal_fits()
    ensures { RemovalFits }
{}

/// A retry too many, with the expiry behind it, keeps valid tables valid, and names what is there.
pub fn giving_up_keeps_valid()
    ensures { GivingUpKeepsValid }
{}

/// What a rollback commits fits, with what it settles.
pub fn rollback_fits()
    ensures { RollbackFits }
{}

/// What is due at a database fits, with what it settles.
pub fn due_fits()
    ensures { DueFits }
{}

/// What an arrival takes in at its destination fits.
pub fn arrival_fits()
    ensures { ArrivalFits }
{}

/// The confirmation of a slot that was sent fits, with what it settles.
pub fn confirmation_fits()
    ensures { ConfirmationFits }
{}

/// The removal of a subscriber fits, with what is dropped and what this settles.
pub fn subscriber_removal_fits()
    ensures { SubscriberRemovalFits }
{}

/// One change that has what it needs and names no message fits by itself.
pub fn one_change_fits()
    ensures { OneChangeFits }
{}

/// A new table fits together with its exception queue.
pub fn new_table_fits()
    ensures { NewTableFits }
{}

/// What an administrative statement changes, where it is not refused, fits with what it settles.
pub fn judged_fits()
    ensures { JudgedFits }
{}

/// The tables of the example are valid.
pub fn example_is_valid()
    ensures { ExampleIsValid }
{}

/// In the example a commit of a removal lets the message go.
pub fn example_commits()
    ensures { ExampleCommits }
{}

/// In the example a rollback of a removal is one retry too many.
pub fn example_rolls_back()
    ensures { ExampleRollsBack }
{}

/// In the example a table that is not used any more is dropped, and this fits.
pub fn example_drops()
    ensures changes { ExampleDrops }
    ensures fit { ExampleIsLeft }
{}
