// What is wrong with a condition for a record type.
ghost use Rattle.std.specs.Prelude.{◌≡◌, ◌≢◌, IfErr, OnOk, None, Some, option_copied};
ghost use Rattle.rule_conditions.specs.Check.{field_named, atom_kind, operand_fault, atom_fault, atoms_fault, terms_fault, are_several, is_computed, first_kind, only_kind, sum_kind, sum_fault, sides_fault, like_fault, cond_fault};
ghost use Rattle.rule_conditions.specs.Faults.{fault_told};

use crate::{Atom, Cond, Term};
use payload_records::{Copied, Field, Kind, List, Name, RecordType};

/// Why a condition does not go with a record type.
#[derive(Debug, PartialEq, Eq, Drop)]
pub enum CondFault {
    /// The type has no field of this name.
    Field(Name),
    /// A text is computed with, the sides of a comparison are of two kinds, or a number stands
    /// before LIKE.
    Kind,
    /// There was no memory for the answer.
    Memory,
}

/// A fault as it is found, before memory is taken for its name.
#[derive(Clone, Copy)]
enum Found<'a> {
    /// The type has no field of this name.
    Field(&'a Name),
    /// Operands are of kinds that do not go together.
    Kind,
}

fn field_named<'a>(fields: &'a List<Field>, name: &Name) -> Option<&'a Field>
    ensures { option_copied result ≡ field_named fields.now name.now }
{
    fields
        .iter()
        .find(|field| field.name.as_str() == name.as_str())
}

fn kind_of(fields: &List<Field>, atom: &Atom) -> Option<Kind>
    ensures { result ≡ atom_kind fields.now atom.now }
{
    match atom {
        Atom::Number(_) | Atom::Priority => Some(Kind::Num),
        Atom::Text(_) | Atom::Corr => Some(Kind::Text),
        Atom::Null | Atom::Prop(_) => None,
        Atom::Cell(name) => match field_named(fields, name) {
            Some(field) => Some(field.kind),
            None => None,
        },
    }
}

fn of_operand<'a>(computed: bool, kind: Option<Kind>) -> Option<Found<'a>>
    ensures { fault_told result ≡ operand_fault computed kind }
{
    match kind {
        Some(Kind::Text) if computed => Some(Found::Kind),
        _ => None,
    }
}

fn of_atom<'a>(fields: &List<Field>, computed: bool, atom: &'a Atom) -> Option<Found<'a>>
    ensures { fault_told result ≡ atom_fault fields.now computed atom.now }
{
    match atom {
        Atom::Cell(name) => match field_named(fields, name) {
            Some(field) => of_operand(computed, Some(field.kind)),
            None => Some(Found::Field(name)),
        },
        _ => of_operand(computed, kind_of(fields, atom)),
    }
}

fn of_atoms<'a>(fields: &List<Field>, computed: bool, atoms: &'a List<Atom>) -> Option<Found<'a>>
    ensures { fault_told result ≡ atoms_fault fields.now computed atoms.now }
{
    for atom in atoms {
        let found = of_atom(fields, computed, atom);
        if found.is_some() {
            return found;
        }
    }
    None
}

fn of_terms<'a>(fields: &List<Field>, computed: bool, terms: &'a List<Term>) -> Option<Found<'a>>
    ensures { fault_told result ≡ terms_fault fields.now computed terms.now }
{
    for term in terms {
        let found = of_atoms(fields, computed, &term.product.atoms);
        if found.is_some() {
            return found;
        }
    }
    None
}

fn are_several(atoms: &List<Atom>) -> bool
    ensures { result ≡ are_several atoms.now }
{
    atoms.len() > 1
}

fn is_computed(terms: &List<Term>) -> bool
    ensures { result ≡ is_computed terms.now }
{
    match terms.get(0) {
        Some(only) if terms.len() == 1 => only.minus || are_several(&only.product.atoms),
        Some(_) => true,
        None => false,
    }
}

fn first_kind(fields: &List<Field>, atoms: &List<Atom>) -> Option<Kind>
    ensures { result ≡ first_kind fields.now atoms.now }
{
    match atoms.get(0) {
        Some(first) => kind_of(fields, first),
        None => None,
    }
}

fn sum_kind(fields: &List<Field>, terms: &List<Term>) -> Option<Kind>
    ensures { result ≡ sum_kind fields.now terms.now }
{
    if is_computed(terms) {
        return Some(Kind::Num);
    }
    match terms.get(0) {
        Some(only) => first_kind(fields, &only.product.atoms),
        None => None,
    }
}

fn of_sum<'a>(fields: &List<Field>, terms: &'a List<Term>) -> Option<Found<'a>>
    ensures { fault_told result ≡ sum_fault fields.now terms.now }
{
    of_terms(fields, is_computed(terms), terms)
}

fn of_sides<'a>(left: Option<Kind>, right: Option<Kind>) -> Option<Found<'a>>
    ensures { fault_told result ≡ sides_fault left right }
{
    match (left, right) {
        (Some(Kind::Num), Some(Kind::Text)) | (Some(Kind::Text), Some(Kind::Num)) => {
            Some(Found::Kind)
        }
        _ => None,
    }
}

fn of_liked<'a>(kind: Option<Kind>) -> Option<Found<'a>>
    ensures { fault_told result ≡ like_fault kind }
{
    match kind {
        Some(Kind::Num) => Some(Found::Kind),
        _ => None,
    }
}

fn found_in<'a>(fields: &List<Field>, condition: &'a Cond) -> Option<Found<'a>>
    ensures { fault_told result ≡ cond_fault fields.now condition.now }
{
    match condition {
        Cond::Any(parts) | Cond::All(parts) => {
            for part in parts {
                let found = found_in(fields, part);
                if found.is_some() {
                    return found;
                }
            }
            None
        }
        Cond::Not(part) => found_in(fields, part.get()),
        Cond::Compare(left, _, right) => of_sum(fields, &left.terms)
            .or(of_sum(fields, &right.terms))
            .or(of_sides(
                sum_kind(fields, &left.terms),
                sum_kind(fields, &right.terms),
            )),
        Cond::IsNull(sum, _) => of_sum(fields, &sum.terms),
        Cond::Like(sum, _, _) => {
            of_sum(fields, &sum.terms).or(of_liked(sum_kind(fields, &sum.terms)))
        }
    }
}

/// Tells the first fault of a condition for a record type, from left to right: a field that the
/// type has not, or operands of kinds that do not go together. Memory is taken for the name in the
/// answer alone.
pub fn check(condition: &Cond, kind: &RecordType) -> Result<(), CondFault>
    ensures right { OnOk result (cond_fault kind.now condition.now ≡ None) }
    ensures fault { IfErr result (λ e. e ≢ CondFault.Memory
        → cond_fault kind.now condition.now ≡ Some e) }
{
    match found_in(kind.fields(), condition) {
        None => Ok(()),
        Some(Found::Kind) => Err(CondFault::Kind),
        Some(Found::Field(name)) => match name.copied() {
            Ok(name) => Err(CondFault::Field(name)),
            Err(_) => Err(CondFault::Memory),
        },
    }
}
