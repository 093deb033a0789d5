// The tokens of a condition's text.
use rule_conditions::{Atom, Cmp};

/// A token of a condition's text.
#[derive(Drop)]
pub enum Token {
    /// Between alternatives.
    Or,
    /// Between what must hold together.
    And,
    /// Before a unit, or inside a test of null or of a pattern.
    Not,
    /// Before NULL in a test of null.
    Is,
    /// Before a pattern.
    Like,
    /// What a product is made of.
    Operand(Atom),
    /// Between two sums.
    Compared(Cmp),
    /// Before a term that is added.
    Plus,
    /// Before a term that is subtracted.
    Minus,
    /// Between two operands of a product.
    Times,
    /// The parenthesis before a group.
    Open,
    /// The parenthesis behind a group.
    Close,
}

/// A word of a condition's text. In a text its letters are of either case.
#[derive(Clone, Copy, Debug, PartialEq, Eq)]
pub enum Word {
    /// `or`, between alternatives.
    Or,
    /// `and`, between what must hold together.
    And,
    /// `not`, before a unit or inside a test.
    Not,
    /// `is`, in a test of null.
    Is,
    /// `like`, before a pattern.
    Like,
    /// `null`, the operand that has no value.
    Null,
    /// `tab.priority`, the priority of a message.
    Priority,
    /// `tab.corrid`, the correlation of a message.
    Corr,
    /// `tab.user_data.`, behind which the name of a field stands.
    Cell,
    /// `tab.user_prop.`, behind which the name of a property stands.
    Prop,
}
