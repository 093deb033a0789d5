// Laws over the definitions of `queue_rows`, each a function without a body.
ghost use Rattle.choice_laws.specs.ChoiceLaws.{AvailableStandFor, ChosenInRows, FirstIsLeast, FirstPastIsLeast, RowsLead, RowsRise};
ghost use Rattle.choice_laws.specs.EditLaws.{MissingRowIsFree, NewRowIsFree, RowsAfterChange, RowsAfterDrop, RowsAfterPush, RowsAfterRemoval, RowsStay, StampsRise, StampsStayBelow};
ghost use Rattle.choice_laws.specs.Examples.{ExampleAvailable, ExampleChoice, ExampleRows};
ghost use Rattle.choice_laws.specs.GoingLaws.{RowsGoOn};
ghost use Rattle.choice_laws.specs.LookLaws.{BothSearchesAreShort, LooksAreFew, LooksPastAreFew};
ghost use Rattle.choice_laws.specs.ShownLaws.{MovedShows, OthersAreShownAlike, StatesKeepRecipient};

/// A message that a look may be given stands in its queue and has a ready slot for its consumer.
pub fn available_stand_for()
    ensures { AvailableStandFor }
{}

/// The rows of a queue and consumer stand in their order, no two alike.
pub fn rows_rise()
    ensures { RowsRise }
{}

/// Each row leads to a message that stands in the queue and has a ready slot for the consumer.
pub fn rows_lead()
    ensures { RowsLead }
{}

/// The first row that passes a test leads to the least of the messages that pass.
pub fn first_is_least()
    ensures { FirstIsLeast }
{}

/// The first row past a place that passes leads to the least of those past it.
pub fn first_past_is_least()
    ensures { FirstPastIsLeast }
{}

/// What a dequeue chooses it chooses in the rows, with two searches at most.
pub fn chosen_in_rows()
    ensures { ChosenInRows }
{}

/// Rows can be gone over one by one, each found behind the one before it.
pub fn rows_go_on()
    ensures { RowsGoOn }
{}

/// What an entry at the end makes of the rows.
pub fn rows_after_push()
    ensures { RowsAfterPush }
{}

/// What an entry that goes makes of the rows.
pub fn rows_after_removal()
    ensures { RowsAfterRemoval }
{}

/// What a change of a message that keeps its place makes of the rows.
pub fn rows_after_change()
    ensures { RowsAfterChange }
{}

/// Rows stay where a changed message stands there now as before.
pub fn rows_stay()
    ensures { RowsStay }
{}

/// What it makes of the rows when all messages of a queue go.
pub fn rows_after_drop()
    ensures { RowsAfterDrop }
{}

/// The row of an entry with a greater stamp is not there yet.
pub fn new_row_is_free()
    ensures { NewRowIsFree }
{}

/// The row of an entry that a queue and consumer do not have is not among theirs.
pub fn missing_row_is_free()
    ensures { MissingRowIsFree }
{}

/// Stamps rise after each edit.
pub fn stamps_rise()
    ensures { StampsRise }
{}

/// Stamps stay below a number after each edit.
pub fn stamps_stay_below()
    ensures { StampsStayBelow }
{}

/// A change of a slot leaves what is shown to each consumer for whom the slot does not count.
pub fn others_are_shown_alike()
    ensures { OthersAreShownAlike }
{}

/// A change of state and a retry leave a slot to its recipient.
pub fn states_keep_recipient()
    ensures { StatesKeepRecipient }
{}

/// What a message shows that was moved.
pub fn moved_shows()
    ensures { MovedShows }
{}

/// A search looks at one row more than those that do not pass, at most.
pub fn looks_are_few()
    ensures { LooksAreFew }
{}

/// So does one past a place.
pub fn looks_past_are_few()
    ensures { LooksPastAreFew }
{}

/// Both together look at no more than twice as many.
pub fn both_searches_are_short()
    ensures { BothSearchesAreShort }
{}

/// In the example two messages have rows.
pub fn example_rows()
    ensures { ExampleRows }
{}

/// In the example the first message may be given.
pub fn example_available()
    ensures { ExampleAvailable }
{}

/// In the example the second message is chosen, and then the first.
pub fn example_choice()
    ensures { ExampleChoice }
{}
