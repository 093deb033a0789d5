// Whether a message meets a condition.
ghost use Rattle.std.specs.Prelude.{◌≡◌, option_copied};
ghost use Rattle.queue_rows.specs.Conditions.{is_met};

use payload_records::RecordType;
use rule_conditions::{Cond, Facts, Truth, truth};

/// Whether a condition is true of a message whose payload is of a record type, as it also is where there is none. One that
/// is unknown is not. It takes no memory.
pub fn is_met(condition: Option<&Cond>, facts: &Facts, kind: &RecordType) -> bool
    ensures { result ≡ is_met kind.now facts.now (option_copied condition.entry) }
{
    match condition {
        None => true,
        Some(condition) => matches!(truth(condition, facts, kind), Truth::True),
    }
}
