// How turns end.

/// How a turn ended.
#[derive(Clone, Copy, Debug, PartialEq, Eq)]
pub enum TurnEnd {
    /// It did what its actor had to do.
    Done,
    /// The session's statement waits, and is tried again in its next turn.
    Parked,
    /// The timer or the propagator had nothing to do.
    Idle,
    /// The session had ended before the turn; or, for the timer and the propagator, no session goes on.
    Ended,
    /// A call on a disk failed: in this turn, which was broken off there, or before it, and then at most a reading was taken. Where one has
    /// failed no turn ends otherwise.
    Halted,
    /// Memory ran out, and the turn was broken off.
    Memory,
}
