// A clock that steps by one.
ghost use Rattle.std.specs.Prelude.{◌≡◌, Some, []};
ghost use Rattle.aq_clock.specs.Clock.{step_reading, told, told_as_planned};

use crate::Clock;

/// A clock whose k-th reading is k above its start, and at most 2^62.
#[derive(Drop)]
pub struct StepClock {
    start: u64,
    taken: u64,
}

/// The highest reading of a clock that steps.
pub const STEP_LIMIT: u64 = 1 << 62;

impl StepClock {
    /// A clock that has given no reading yet.
    pub fn from(start: u64) -> StepClock
        ensures given { ⟦<StepClock as Clock>⟧.given result ≡ Some [] }
        ensures plan { ⟦<StepClock as Clock>⟧.plan result ≡ Some (step_reading start) }
    {
        StepClock { start, taken: 0 }
    }
}

impl Clock for StepClock {
    ghost given = { λ c. told (step_reading c.start) c.taken };

    ghost plan = { λ c. Some (step_reading c.start) };

    ghost as_planned = { λ c readings rule given plan.
        told_as_planned (step_reading c.start) c.taken readings rule given plan };

    fn now(&mut self) -> u64 {
        let number = self.taken;
        self.taken = number.saturating_add(1);
        self.start
            .saturating_add(number)
            .saturating_add(1)
            .min(STEP_LIMIT)
    }
}
