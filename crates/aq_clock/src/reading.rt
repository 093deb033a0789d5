// The contract of a clock.
ghost use Rattle.std.specs.Prelude.{◌≡◌, List, ℕ, Option, Some, length};
ghost use Rattle.std.specs.Option.{ForSome};
ghost use Rattle.aq_clock.specs.Clock.{first_readings, HasReading, TellsOn};

/// A source of readings, in seconds. A reading may be lower than an earlier one.
pub trait Clock {
    /// The readings given so far, where the clock tells them.
    ghost given: { Self → Option (List ℕ) };

    /// The reading of each number, counted from 0, where the clock tells it beforehand.
    ghost plan: { Self → Option (ℕ → ℕ) };

    /// A reading. It cannot fail.
    fn now(&mut self) -> u64
        // The readings are those from before, and this one.
        ensures reading { ForSome (given self.new) (HasReading (given self.old) result) }

        // A clock that tells its readings goes on to, also behind 2^63 of them.
        ensures tells { ForSome (given self.old) (TellsOn (given self.new)) }
        ensures planned { plan self.new ≡ plan self.old };

    /// The readings given are the first of the plan.
    ghost as_planned: { (clock : Self) (readings : List ℕ) (rule : ℕ → ℕ) →
        given clock ≡ Some readings → plan clock ≡ Some rule
        → readings ≡ first_readings rule (length readings) };
}
