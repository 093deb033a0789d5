// The truth of a condition over the facts of a message.
ghost use Rattle.std.specs.Prelude.{◌≡◌, ◌==◌, length};
ghost use Rattle.rule_conditions.specs.Truth.{holds, compared, is_null, liked, truth_of};
ghost use Rattle.rule_conditions.specs.Operands.{seen};

use crate::operand::{Operand, of_sum};
use crate::{Cmp, Cond, Facts, Truth, like};
use payload_records::{Field, List, RecordType};
use std::cmp::Ordering;

fn holds(how: Cmp, order: Ordering) -> bool
    ensures { result ≡ holds how order }
{
    match how {
        Cmp::Equal => order.is_eq(),
        Cmp::Unequal => order.is_ne(),
        Cmp::Less => order.is_lt(),
        Cmp::LessEqual => order.is_le(),
        Cmp::Greater => order.is_gt(),
        Cmp::GreaterEqual => order.is_ge(),
    }
}

fn compared(left: Operand<'_>, how: Cmp, right: Operand<'_>) -> Truth
    ensures { result ≡ compared (seen left.entry) how (seen right.entry) }
{
    match (left, right) {
        (Operand::Num(left), Operand::Num(right)) => Truth::of(holds(how, left.cmp(&right))),
        (Operand::Text(left), Operand::Text(right)) => Truth::of(holds(how, left.cmp(right))),
        _ => Truth::Unknown,
    }
}

fn is_null(operand: Operand<'_>) -> bool
    ensures { result ≡ is_null (seen operand.entry) }
{
    match operand {
        Operand::Null => true,
        Operand::Num(_) | Operand::Text(_) => false,
    }
}

fn liked(operand: Operand<'_>, pattern: &str) -> Truth
    ensures { result ≡ liked (seen operand.entry) pattern.now }
{
    match operand {
        Operand::Text(text) if !pattern.is_empty() => Truth::of(like(text, pattern)),
        _ => Truth::Unknown,
    }
}

fn judged(condition: &Cond, facts: &Facts, fields: &List<Field>) -> Truth
    ensures { result ≡ truth_of fields.now facts.now condition.now }
{
    match condition {
        Cond::Any(parts) => {
            let mut met = Truth::False;
            for part in parts {
                met = met.either(judged(part, facts, fields));
            }
            met
        }
        Cond::All(parts) => {
            let mut met = Truth::True;
            for part in parts {
                met = met.both(judged(part, facts, fields));
            }
            met
        }
        Cond::Not(part) => judged(part.get(), facts, fields).negated(),
        Cond::Compare(left, how, right) => compared(
            of_sum(fields, facts, left),
            *how,
            of_sum(fields, facts, right),
        ),
        Cond::IsNull(sum, not_null) => {
            Truth::of(is_null(of_sum(fields, facts, sum))).negated_if(*not_null)
        }
        Cond::Like(sum, pattern, not_like) => {
            liked(of_sum(fields, facts, sum), pattern.as_str()).negated_if(*not_like)
        }
    }
}

/// The truth of a condition over the facts of a message whose payload is of a record type. A null
/// makes a comparison unknown, and NOT, AND and OR follow the three-valued tables. It takes no
/// memory.
pub fn truth(condition: &Cond, facts: &Facts, kind: &RecordType) -> Truth
    ensures { result ≡ truth_of kind.now facts.now condition.now }
{
    judged(condition, facts, kind.fields())
}
