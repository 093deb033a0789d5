// Laws over the definitions, each a function without a body.
ghost use Rattle.std.specs.Prelude.{List, ℕ, IsTrue};
ghost use Rattle.rule_conditions.specs.declared.condition.Cond.{Cond};
ghost use Rattle.rule_conditions.specs.Grammar.{IsTextOf};
ghost use Rattle.rule_conditions.specs.Print.{print};
ghost use Rattle.rule_text.specs.Laws.{HasOneCondition, PrintIsText};
ghost use Rattle.rule_text.specs.PrintReadable.{is_readable};

/// The print of a readable condition is a text of it in the grammar.
pub fn readable_prints()
    ensures { (condition : Cond) → IsTrue (is_readable condition) → IsTextOf (print condition) condition }
{}

/// A condition that has a text in the grammar is readable: its print takes no more levels of NOT and
/// parentheses than the text does.
pub fn text_is_readable()
    ensures { (text : List ℕ) (condition : Cond)
        → IsTextOf text condition → IsTrue (is_readable condition) }
{}

/// Where a condition has a text in the grammar, its print is one too.
pub fn print_is_text()
    ensures { PrintIsText }
{}

/// A text is that of one condition at most.
pub fn text_has_one_condition()
    ensures { HasOneCondition }
{}
