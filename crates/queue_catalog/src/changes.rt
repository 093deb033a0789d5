// Short lists of changes.
ghost use Rattle.std.specs.Prelude.{◌≡◌, ◌∷◌, [], IfOk};

use payload_records::List;
use queue_rows::Change;
use std::alloc::{AllocError, Global};

/// A list of one change.
pub(crate) fn one(alloc: Global, change: Change) -> Result<List<Change>, AllocError>
    ensures { IfOk result (λ changes. changes ≡ change ∷ []) }
{
    match Vec::with_capacity(alloc, 1) {
        Ok(mut changes) => {
            changes.push(change)?;
            Ok(List::from_vec(changes))
        }
        Err(AllocError) => {
            drop(change);
            Err(AllocError)
        }
    }
}

/// A list of two changes.
pub(crate) fn two(alloc: Global, first: Change, second: Change) -> Result<List<Change>, AllocError>
    ensures { IfOk result (λ changes. changes ≡ first ∷ second ∷ []) }
{
    match one(alloc, first) {
        Ok(mut changes) => {
            changes.push(second)?;
            Ok(changes)
        }
        Err(AllocError) => {
            drop(second);
            Err(AllocError)
        }
    }
}
