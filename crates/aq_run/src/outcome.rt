// How a call of the program ends.
use queue_rows::History;

/// How a call of the program ended: its status, what the run did, the disks and the clock.
#[derive(Drop)]
pub struct Outcome<D, C> {
    /// 0 where all was done, 1 for words that are no command, 2 for a bad line, 3 where the input could not
    /// be read, 4 where memory ran out, 5 where a disk failed, 6 where a disk is damaged, 7 where the output
    /// could not be written.
    pub status: u8,
    /// What was done, which is nothing where no run began.
    pub history: History,
    /// The disk of the database home.
    pub home: D,
    /// The disk of the database away.
    pub away: D,
    /// The clock.
    pub clock: C,
}
