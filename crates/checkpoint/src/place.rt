// Where a new area goes.
ghost use Rattle.std.specs.Prelude.{◌≡◌, ◌≤◌, ◌<◌, ◌+◌, ◌^◌};
ghost use Rattle.redo_journal.specs.Journaled.{IsArea};
ghost use Rattle.checkpoint.specs.Compaction.{other_side, side_byte, new_root};

use redo_journal::{Active, Side};

// Where the first area of a journal begins.
const FIRST_ROOT: u64 = 24;

/// The side that is not active.
pub(crate) fn other_side(side: Side) -> Side
    ensures { result ≡ other_side side }
{
    match side {
        Side::A => Side::B,
        Side::B => Side::A,
    }
}

/// How a header tells that a side is active.
pub(crate) fn side_byte(side: Side) -> u8
    ensures { result ≡ side_byte side }
{
    match side {
        Side::A => 0,
        Side::B => 1,
    }
}

/// Where a new area of so many bytes begins: behind the active one, or in front of area B where there is
/// room.
pub(crate) fn new_root(active: Active, size: u64) -> u64
    requires area { IsArea active }
    requires limit { size < 2 ^ 63 }
    ensures { result ≡ new_root active size }
{
    match active.side {
        Side::B if FIRST_ROOT + size <= active.root => FIRST_ROOT,
        _ => active.gate + 1,
    }
}
