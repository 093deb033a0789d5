// Laws over the definitions of `queue_rows`, each a function without a body.
ghost use Rattle.row_laws.specs.RowLaws.{FindsAfterAll, StaysDistinct};

/// Ids of messages stay distinct by each change that puts in no message whose id is there.
pub fn stays_distinct()
    ensures { StaysDistinct }
{}

/// What changes make of one message is the message found in the tables after them: for all tables
/// with distinct ids and all changes, but for those that put that message in, drop the queue in which
/// it stands, or would move it to a queue that is not there.
pub fn finds_after_all()
    ensures { FindsAfterAll }
{}
