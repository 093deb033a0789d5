// Laws of what edits make of an index, each a function without a body.
ghost use Rattle.remote_slots.specs.Edits.{ChangedByBoth, LastPut, NothingIndexed};

/// An index without rows is that of no messages.
pub fn nothing_indexed()
    ensures { NothingIndexed }
{}

/// A message that is put in under a stamp greater than all others has come last.
pub fn last_put()
    ensures { LastPut }
{}

/// A message that is removed as it stood, and put in as it stands now, is changed.
pub fn changed_by_both()
    ensures { ChangedByBoth }
{}
