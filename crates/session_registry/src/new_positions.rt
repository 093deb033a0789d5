// What a call makes of the positions of its session.
use payload_records::{Boxed, List};
use queue_rows::Position;

/// The positions that a session has after a call.
#[derive(Drop)]
pub enum NewPositions {
    /// Those that it had.
    Same,
    /// Those that it had, but for this one at that place.
    Replaced {
        /// The place among them, counted from 0.
        at: usize,
        /// The position there.
        position: Boxed<Position>,
    },
    /// These.
    Others(List<Position>),
}
