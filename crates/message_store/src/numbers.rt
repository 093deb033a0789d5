// Whether the numbers of messages can be counted.
ghost use Rattle.std.specs.Prelude.{All, OnOk};
ghost use Rattle.message_store.specs.Numbers.{HasNumbers};

use payload_records::List;
use queue_rows::Change;
use std::alloc::AllocError;

const LIMIT: u64 = 1 << 63;

fn check_number(change: &Change) -> Result<(), AllocError>
    ensures { OnOk result (HasNumbers change.now) }
{
    match change {
        Change::Enqueued(row) if row.get().id >= LIMIT || row.get().group >= LIMIT => {
            Err(AllocError)
        }
        _ => Ok(()),
    }
}

/// Past a greatest number there is no memory for more messages.
pub(crate) fn check_numbers(changes: &List<Change>) -> Result<(), AllocError>
    ensures { OnOk result (All HasNumbers changes.now) }
{
    for change in changes {
        check_number(change)?;
    }
    Ok(())
}
