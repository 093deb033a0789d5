// The lanes of messages, and the lowest lane of a queue.
ghost use Rattle.std.specs.Prelude.{◌≡◌};
ghost use Rattle.queue_rows.specs.Tables.{lane_of, lowered_by};

use crate::QueueRow;
use place_keys::Place;

/// The lane of a place: its first number, or 0 where it has none. It takes no memory.
pub fn lane_of(place: &Place) -> i64
    ensures { result ≡ lane_of place.now }
{
    match place.numbers() {
        [lane, ..] => *lane,
        [] => 0,
    }
}

impl QueueRow {
    /// Its lowest lane follows a message that is put into it at that place, unless its messages stand in groups. It
    /// takes no memory.
    pub fn lower(&mut self, is_grouped: bool, place: &Place)
        ensures { self.new ≡ lowered_by is_grouped place.now self.old }
    {
        if !is_grouped {
            self.lowest = self.lowest.min(lane_of(place));
        }
    }
}
