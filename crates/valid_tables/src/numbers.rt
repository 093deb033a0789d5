// The numbers of a database, and lengths of time.
ghost use Rattle.std.specs.Prelude.{◌≡◌};
ghost use Rattle.queue_rows.specs.Valid.{has_right_numbers};
ghost use Rattle.queue_rows.specs.Within.{is_time, is_span};

use aq_base::{MOMENT_LIMIT, NEXT_LIMIT, TIME_LIMIT};
use queue_rows::Tables;

/// Whether the next id and group are at least 1, the next id at most 2^61, the next group at most the next id, and the
/// latest moment at most 2^62.
pub fn has_right_numbers(tables: &Tables) -> bool
    ensures { result ≡ has_right_numbers tables.now }
{
    1 <= tables.next
        && tables.next <= NEXT_LIMIT
        && 1 <= tables.transaction
        && tables.transaction <= tables.next
        && tables.latest <= MOMENT_LIMIT
}

/// Whether so many seconds may be a retry delay, a retention or a latency.
pub(crate) fn is_time(seconds: u64) -> bool
    ensures { result ≡ is_time seconds }
{
    seconds <= TIME_LIMIT
}

/// Whether so many seconds may be a duration or a period.
pub(crate) fn is_span(seconds: u64) -> bool
    ensures { result ≡ is_span seconds }
{
    1 <= seconds && is_time(seconds)
}
