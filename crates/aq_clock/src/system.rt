// The machine's clock. No clause says what it reads.
ghost use Rattle.std.specs.Prelude.{None};
ghost use Rattle.aq_clock.specs.Clock.{untold};

use crate::Clock;
use std::rt;

/// The machine's seconds since 1970. Where the machine has no answer, the reading before it is given again.
#[derive(Drop)]
pub struct SystemClock<R: rt::Clock + Drop> {
    machine: R,
    last: u64,
}

impl<R: rt::Clock + Drop> SystemClock<R> {
    /// The clock of a machine.
    pub fn new(machine: R) -> SystemClock<R> {
        SystemClock { machine, last: 0 }
    }
}

impl<R: rt::Clock + Drop> Clock for SystemClock<R> {
    ghost given = { λ _. None };

    ghost plan = { λ _. None };

    ghost as_planned = { λ c readings rule given plan. absurd (untold readings given) };

    fn now(&mut self) -> u64 {
        if let Ok(since) = self.machine.since_1970() {
            self.last = since.as_secs();
        }
        self.last
    }
}
