// What calls take.
use crate::fault::Fault;
use std::time::{Clock, Duration, Instant};

/// The least of what some rounds took, since other programs only add to it.
#[derive(Clone, Copy)]
pub struct Least {
    pub taken: u64,
}

impl Least {
    /// That of no rounds.
    pub const NONE: Least = Least { taken: u64::MAX };

    /// One more round.
    pub fn note(&mut self, taken: u64) {
        self.taken = self.taken.min(taken);
    }

    /// Prints it behind the name of what was measured.
    pub fn print<R: Print>(self, rt: &R, name: &str) -> Result<(), Fault> {
        println!(rt; "{name} {}", self.taken)?;
        Ok(())
    }
}

pub fn nanoseconds(time: Duration) -> u64 {
    u64::try_from(time.as_nanos()).unwrap_or(u64::MAX)
}

/// Nanoseconds since then.
pub fn since<R: Clock>(rt: &R, begun: Instant) -> Result<u64, Fault> {
    Ok(nanoseconds(begun.elapsed(rt)?))
}

/// Tenths of nanoseconds a call since then.
pub fn a_call<R: Clock>(rt: &R, begun: Instant, calls: u64) -> Result<u64, Fault> {
    Ok(since(rt, begun)?.saturating_mul(10) / calls.max(1))
}

/// How many hundredths of the second number the first one is.
pub fn hundredths(part: u64, whole: u64) -> u64 {
    part.saturating_mul(100) / whole.max(1)
}
