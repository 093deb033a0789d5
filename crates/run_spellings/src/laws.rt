// Laws of commits that can be spelled, each a function without a body.
ghost use Rattle.run_spellings.specs.Examples.{ExampleData, ExampleRules};
ghost use Rattle.run_spellings.specs.SpellingLaws.{
  CallSpells,
  CommitKeepsRows,
  DueSpells,
  LegalCommitsSpell,
  LegalIsSpellable,
  OpensSpellable,
  ReadingKeepsSpellable,
  RuleIsReadAgain,
  SendingSpells,
  SoundIsSpellable,
  StepKeepsSpellable,
};

/// A text that is read as a condition is one of it in the grammar, and its print is read as it again.
pub fn rule_is_read_again()
    ensures { RuleIsReadAgain }
{}

/// The rows of tables that are recovered can be spelled.
pub fn sound_is_spellable()
    ensures { SoundIsSpellable }
{}

/// A commit of spellable changes leaves rows that can be spelled.
pub fn commit_keeps_rows()
    ensures { CommitKeepsRows }
{}

/// What a call commits is spellable.
pub fn call_spells()
    ensures { CallSpells }
{}

/// So is what is due.
pub fn due_spells()
    ensures { DueSpells }
{}

/// So is what the step of propagation commits that comes next.
pub fn sending_spells()
    ensures { SendingSpells }
{}

/// Openings and scripts whose parts can be spelled begin a world whose commits can be.
pub fn opens_spellable()
    ensures { OpensSpellable }
{}

/// A reading of the clock leaves it so.
pub fn reading_keeps_spellable()
    ensures { ReadingKeepsSpellable }
{}

/// So does each legal step of a valid world.
pub fn step_keeps_spellable()
    ensures { StepKeepsSpellable }
{}

/// Each world of a legal history is so.
pub fn legal_is_spellable()
    ensures { LegalIsSpellable }
{}

/// Each commit of a legal history can be spelled, at both databases.
pub fn legal_commits_spell()
    ensures { LegalCommitsSpell }
{}

/// A rule that is read again, one that is not since it is no text, and scripts that give them.
pub fn example_rules()
    ensures { ExampleRules }
{}

/// Cells and properties that can be spelled, and such as cannot.
pub fn example_data()
    ensures { ExampleData }
{}
