// Laws of worlds and legal histories, each a function without a body.
ghost use Rattle.run_laws.specs.RunLaws.{
  GroupedAreInGroups,
  LegalIsGrouped,
  LegalIsValid,
  OpensGrouped,
  OpensValid,
  ReadingKeepsGroups,
  ReadingKeepsValid,
  StepKeepsGroups,
  StepKeepsValid,
};

/// What may begin is a valid world.
pub fn opens_valid()
    ensures { OpensValid }
{}

/// A reading of the clock leaves a valid world valid.
pub fn reading_keeps_valid()
    ensures { ReadingKeepsValid }
{}

/// A legal step of any kind leaves a valid world valid.
pub fn step_keeps_valid()
    ensures { StepKeepsValid }
{}

/// Each world of a legal history is valid.
pub fn legal_is_valid()
    ensures { LegalIsValid }
{}

/// In a world that is opened no session has marks.
pub fn opens_grouped()
    ensures { OpensGrouped }
{}

/// A reading of the clock leaves each mark in the group of its slot.
pub fn reading_keeps_groups()
    ensures { ReadingKeepsGroups }
{}

/// So does each legal step of a valid world.
pub fn step_keeps_groups()
    ensures { StepKeepsGroups }
{}

/// In each world of a legal history each mark is in the group of its slot.
pub fn legal_is_grouped()
    ensures { LegalIsGrouped }
{}

/// A session that has a slot of a grouped table marked has its group marked.
pub fn grouped_are_in_groups()
    ensures { GroupedAreInGroups }
{}
