// What atoms, products and sums come to.
ghost use Rattle.std.specs.Prelude.{◌≡◌, IfNone, IfSome, slice_get, option_copied, Some};
ghost use Rattle.std.specs.Str.{bytes_eq};
ghost use Rattle.rule_conditions.specs.Values.{num_or_null, text_or_null, cell_or_null, place_of, cell_named, prop_of, prop_named, atom_value, times, plus, minus, product_value, first_term, term_added, sum_value, terms_value};
ghost use Rattle.rule_conditions.specs.Operands.{seen};

use crate::{Atom, Facts, Product, Sum, Term};
use payload_records::{Datum, Field, List, Prop};

/// What a part of a condition comes to.
#[derive(Clone, Copy)]
pub(crate) enum Operand<'a> {
    /// Nothing.
    Null,
    /// A whole number.
    Num(i64),
    /// A text of at least one byte.
    Text(&'a str),
}

fn num_or_null<'a>(number: Option<i64>) -> Operand<'a>
    ensures none { IfNone number (seen result ≡ Datum.Null) }
    ensures some { IfSome number (λ n. seen result ≡ Datum.Num n) }
{
    match number {
        Some(number) => Operand::Num(number),
        None => Operand::Null,
    }
}

fn text_or_null(text: &str) -> Operand<'_>
    ensures { seen result ≡ text_or_null text.now }
{
    if text.is_empty() {
        Operand::Null
    } else {
        Operand::Text(text)
    }
}

fn of_cell(cell: &Datum) -> Operand<'_>
    ensures { seen result ≡ cell_or_null cell.now }
{
    match cell {
        Datum::Null => Operand::Null,
        Datum::Num(number) => Operand::Num(*number),
        Datum::Text(text) => text_or_null(text.as_str()),
    }
}

fn place_of(fields: &List<Field>, name: &str) -> Option<usize>
    ensures { result ≡ place_of fields.now name.now }
{
    fields.iter().position(|field| field.name.as_str() == name)
}

fn cell_named<'a>(fields: &List<Field>, cells: &'a List<Datum>, name: &str) -> Operand<'a>
    ensures { seen result ≡ cell_named fields.now cells.now name.now }
{
    let Some(place) = place_of(fields, name) else {
        return Operand::Null;
    };
    match cells.get(place) {
        Some(cell) => of_cell(cell),
        None => Operand::Null,
    }
}

fn prop_of<'a>(props: &'a List<Prop>, name: &str) -> Option<&'a Prop>
    ensures { option_copied result ≡ prop_of props.now name.now }
{
    props.iter().find(|prop| prop.name.as_str() == name)
}

fn prop_named<'a>(props: &'a List<Prop>, name: &str) -> Operand<'a>
    ensures { seen result ≡ prop_named props.now name.now }
{
    match prop_of(props, name) {
        Some(prop) => of_cell(&prop.value),
        None => Operand::Null,
    }
}

fn of_atom<'a>(fields: &List<Field>, facts: &'a Facts, atom: &'a Atom) -> Operand<'a>
    ensures { seen result ≡ atom_value fields.now facts.now atom.now }
{
    match atom {
        Atom::Number(number) => Operand::Num(*number),
        Atom::Text(text) => text_or_null(text.as_str()),
        Atom::Null => Operand::Null,
        Atom::Priority => Operand::Num(facts.priority),
        Atom::Corr => match &facts.corr {
            Some(corr) => text_or_null(corr.as_str()),
            None => Operand::Null,
        },
        Atom::Cell(name) => cell_named(fields, &facts.cells.cells, name.as_str()),
        Atom::Prop(name) => prop_named(&facts.props, name.as_str()),
    }
}

impl<'a> Operand<'a> {
    fn times(self, other: Operand<'a>) -> Operand<'a>
        ensures { seen result ≡ times (seen self.entry) (seen other.entry) }
    {
        match (self, other) {
            (Operand::Num(left), Operand::Num(right)) => num_or_null(left.checked_mul(right)),
            _ => Operand::Null,
        }
    }

    fn plus(self, other: Operand<'a>) -> Operand<'a>
        ensures { seen result ≡ plus (seen self.entry) (seen other.entry) }
    {
        match (self, other) {
            (Operand::Num(left), Operand::Num(right)) => num_or_null(left.checked_add(right)),
            _ => Operand::Null,
        }
    }

    fn minus(self, other: Operand<'a>) -> Operand<'a>
        ensures { seen result ≡ minus (seen self.entry) (seen other.entry) }
    {
        match (self, other) {
            (Operand::Num(left), Operand::Num(right)) => num_or_null(left.checked_sub(right)),
            _ => Operand::Null,
        }
    }
}

fn of_product<'a>(fields: &List<Field>, facts: &'a Facts, product: &'a Product) -> Operand<'a>
    ensures { seen result ≡ product_value fields.now facts.now product.now.atoms }
{
    let mut atoms = product.atoms.iter();
    let Some(first) = atoms.next() else {
        return Operand::Null;
    };
    let mut value = of_atom(fields, facts, first);
    for atom in atoms {
        value = value.times(of_atom(fields, facts, atom));
    }
    value
}

fn of_first<'a>(fields: &List<Field>, facts: &'a Facts, term: &'a Term) -> Operand<'a>
    ensures { seen result ≡ first_term fields.now facts.now term.now }
{
    let value = of_product(fields, facts, &term.product);
    if term.minus {
        Operand::Num(0).minus(value)
    } else {
        value
    }
}

impl<'a> Operand<'a> {
    fn with_term(self, fields: &List<Field>, facts: &'a Facts, term: &'a Term) -> Operand<'a>
        ensures { seen result ≡ term_added fields.now facts.now (seen self.entry) term.now }
    {
        let value = of_product(fields, facts, &term.product);
        if term.minus {
            self.minus(value)
        } else {
            self.plus(value)
        }
    }
}

/// What a sum comes to: null where an operand of more than one is null, or where a step leaves 64
/// bits. It takes no memory.
pub(crate) fn of_sum<'a>(fields: &List<Field>, facts: &'a Facts, sum: &'a Sum) -> Operand<'a>
    ensures { seen result ≡ sum_value fields.now facts.now sum.now }
{
    let mut terms = sum.terms.iter();
    let Some(first) = terms.next() else {
        return Operand::Null;
    };
    let mut value = of_first(fields, facts, first);
    for term in terms {
        value = value.with_term(fields, facts, term);
    }
    value
}
