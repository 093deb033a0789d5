// Conditions as trees.
ghost use Rattle.std.specs.Prelude.{◌≡◌, IfOk};

use payload_records::{Boxed, Copied, List, Name, Text};
use std::alloc::AllocError;

/// A condition over the facts of a message.
#[derive(Drop)]
pub enum Cond {
    /// True where one part is.
    Any(List<Cond>),
    /// True where all parts are.
    All(List<Cond>),
    /// True where the condition is false.
    Not(Boxed<Cond>),
    /// A comparison of two sums.
    Compare(Sum, Cmp, Sum),
    /// Whether the sum is null; where the flag is set, whether it is not.
    IsNull(Sum, bool),
    /// Whether the text is like the pattern; where the flag is set, whether it is not.
    Like(Sum, Text, bool),
}

/// A sum of signed products, from left to right.
#[derive(Drop)]
pub struct Sum {
    /// The terms, the first of them without a sign.
    pub terms: List<Term>,
}

/// A product with its sign in a sum.
#[derive(Drop)]
pub struct Term {
    /// Whether it is subtracted.
    pub minus: bool,
    /// The product.
    pub product: Product,
}

/// A product of atoms, from left to right.
#[derive(Drop)]
pub struct Product {
    /// The factors.
    pub atoms: List<Atom>,
}

/// A number, a text, null, or what a message has.
#[derive(Drop)]
pub enum Atom {
    /// A whole number.
    Number(i64),
    /// A text.
    Text(Text),
    /// No value.
    Null,
    /// The message's priority.
    Priority,
    /// The message's correlation.
    Corr,
    /// A field of the payload.
    Cell(Name),
    /// A property.
    Prop(Name),
}

/// How two sums are compared.
#[derive(Clone, Copy, Debug, PartialEq, Eq)]
pub enum Cmp {
    /// `=`
    Equal,
    /// `<>`
    Unequal,
    /// `<`
    Less,
    /// `<=`
    LessEqual,
    /// `>`
    Greater,
    /// `>=`
    GreaterEqual,
}

impl Copied for Atom {
    fn copied(&self) -> Result<Self, AllocError> {
        match self {
            Atom::Number(number) => Ok(Atom::Number(*number)),
            Atom::Text(text) => Ok(Atom::Text(text.copied()?)),
            Atom::Null => Ok(Atom::Null),
            Atom::Priority => Ok(Atom::Priority),
            Atom::Corr => Ok(Atom::Corr),
            Atom::Cell(name) => Ok(Atom::Cell(name.copied()?)),
            Atom::Prop(name) => Ok(Atom::Prop(name.copied()?)),
        }
    }
}

impl Copied for Product {
    fn copied(&self) -> Result<Self, AllocError> {
        Ok(Product {
            atoms: self.atoms.copied()?,
        })
    }
}

impl Copied for Term {
    fn copied(&self) -> Result<Self, AllocError> {
        Ok(Term {
            minus: self.minus,
            product: self.product.copied()?,
        })
    }
}

impl Copied for Sum {
    fn copied(&self) -> Result<Self, AllocError> {
        Ok(Sum {
            terms: self.terms.copied()?,
        })
    }
}

fn copy_of(condition: &Cond) -> Result<Cond, AllocError>
    ensures { IfOk result (λ copy. copy ≡ condition.now) }
{
    match condition {
        Cond::Any(parts) => {
            let mut copies = List::new(parts.allocator());
            for part in parts {
                copies.push(copy_of(part)?)?;
            }
            Ok(Cond::Any(copies))
        }
        Cond::All(parts) => {
            let mut copies = List::new(parts.allocator());
            for part in parts {
                copies.push(copy_of(part)?)?;
            }
            Ok(Cond::All(copies))
        }
        Cond::Not(part) => Ok(Cond::Not(Boxed::new(part.allocator(), copy_of(part.get())?)?)),
        Cond::Compare(left, compared, right) => {
            Ok(Cond::Compare(left.copied()?, *compared, right.copied()?))
        }
        Cond::IsNull(sum, negated) => Ok(Cond::IsNull(sum.copied()?, *negated)),
        Cond::Like(sum, pattern, negated) => {
            Ok(Cond::Like(sum.copied()?, pattern.copied()?, *negated))
        }
    }
}

impl Copied for Cond {
    fn copied(&self) -> Result<Self, AllocError> {
        copy_of(self)
    }
}
