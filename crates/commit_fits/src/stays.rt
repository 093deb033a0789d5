// Tables that stay valid by a commit.
ghost use Rattle.std.specs.Prelude.{◌≡◌, IfOk};
ghost use Rattle.commit_fits.specs.Told.{TellsValid, TellsFit};

use crate::named::leaves_all_right;
use fit_laws::fit_is_local;
use payload_records::List;
use queue_rows::{Change, MessageTables};
use std::alloc::{AllocError, Global};
use valid_tables::is_valid;

/// Whether tables are valid that valid ones have become by a commit of these changes, where each change named what was
/// there as it came. Where each was also local then (`is_local`), which is said by `local`, the rows are looked at that the changes name; else
/// all rows are. The error is want of memory.
pub fn stays_valid<T: MessageTables>(
    alloc: Global,
    tables: &T,
    changes: &List<Change>,
    local: bool,
) -> Result<bool, AllocError>
    ensures valid { IfOk result (TellsValid (T.tables tables.now) changes.now local) }
    ensures fits { IfOk result (TellsFit (T.tables tables.now) changes.now local) }
{
    fit_is_local();
    if local {
        return leaves_all_right(tables, changes);
    }
    is_valid(alloc, tables.tables())
}
