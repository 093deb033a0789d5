// Laws of rows and the messages that they are of, for crates above.
ghost use Rattle.due_slots.specs.Laws.{AddingIndexes, JoinedTells, RemovingIndexes, RowsAreFew, RowsHaveItsNumber, RowsNameDue, WithoutTells};

/// Which rows are left when some are taken out.
pub fn without_tells()
    ensures { WithoutTells }
{}

/// Which rows there are when some are put in.
pub fn joined_tells()
    ensures { JoinedTells }
{}

/// When a message has gone, the rows without its own are those of the messages.
pub fn removing_indexes()
    ensures { RemovingIndexes }
{}

/// When a message has come, the rows with its own are those of the messages.
pub fn adding_indexes()
    ensures { AddingIndexes }
{}

/// The rows of messages name what is due.
pub fn rows_name_due()
    ensures { RowsNameDue }
{}

/// How many rows a message has at most, so that room can be made for them.
pub fn rows_are_few()
    ensures { RowsAreFew }
{}

/// The rows of a message have its number.
pub fn rows_have_its_number()
    ensures { RowsHaveItsNumber }
{}
