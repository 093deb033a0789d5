// Conditions read from texts, and checked against a record type.
ghost use Rattle.std.specs.Prelude.{◌≡◌, Ok, IfOk, IfErr, option_copied};
ghost use Rattle.queue_rows.specs.Conditions.{condition_for, optional_condition};
ghost use Rattle.rule_checks.specs.Told.{IsToldOf};

use crate::fault::CheckFault;
use payload_records::{RecordType, Text};
use queue_rows::ConditionFault;
use rule_conditions::{Cond, CondFault, check};
use rule_text::{ReadFault, read};
use std::alloc::Global;

fn condition_for(alloc: Global, text: &Text, kind: &RecordType) -> Result<Cond, CheckFault>
    ensures ok { IfOk result (λ condition. condition_for kind.now text.now ≡ Ok condition) }
    ensures told { IfErr result (λ e. IsToldOf e (condition_for kind.now text.now)) }
{
    let condition = match read(alloc, text.as_str()) {
        Ok(condition) => condition,
        Err(ReadFault::Bad { at }) => return Err(CheckFault::Refused(ConditionFault::At(at))),
        Err(ReadFault::Memory) => return Err(CheckFault::Memory),
    };
    match check(&condition, kind) {
        Ok(()) => Ok(condition),
        Err(CondFault::Field(name)) => Err(CheckFault::Refused(ConditionFault::Field(name))),
        Err(CondFault::Kind) => Err(CheckFault::Refused(ConditionFault::Kind)),
        Err(CondFault::Memory) => Err(CheckFault::Memory),
    }
}

/// The condition that a text is, checked against a record type; None where there is no text. A text that is no condition is
/// refused with the number of its first bytes that begin one, and a condition that does not fit the type with its first
/// fault from left to right.
#[tactic(auto, unfolding(queue_rows::specs::Conditions::optional_condition))]
pub fn read_checked(
    alloc: Global,
    text: Option<&Text>,
    kind: &RecordType,
) -> Result<Option<Cond>, CheckFault>
    ensures ok { IfOk result
        (λ condition. optional_condition kind.now (option_copied text.entry) ≡ Ok condition) }
    ensures told { IfErr result (λ e. IsToldOf e (optional_condition kind.now (option_copied text.entry))) }
{
    match text {
        None => Ok(None),
        Some(text) => Ok(Some(condition_for(alloc, text, kind)?)),
    }
}
