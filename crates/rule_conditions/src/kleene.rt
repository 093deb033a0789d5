// Three-valued truth.
ghost use Rattle.std.specs.Prelude.{◌≡◌};
ghost use Rattle.rule_conditions.specs.Truth.{negated, negated_if, either, both, truth_of_bool};

/// What a condition says of a message.
#[derive(Clone, Copy, Debug, PartialEq, Eq)]
pub enum Truth {
    /// It is met.
    True,
    /// It is not met.
    False,
    /// Neither is known, since an operand is null.
    Unknown,
}

impl Truth {
    pub(crate) fn of(holds: bool) -> Truth
        ensures { result ≡ truth_of_bool holds }
    {
        if holds { Truth::True } else { Truth::False }
    }

    pub(crate) fn negated(self) -> Truth
        ensures { result ≡ negated self }
    {
        match self {
            Truth::True => Truth::False,
            Truth::False => Truth::True,
            Truth::Unknown => Truth::Unknown,
        }
    }

    pub(crate) fn negated_if(self, flag: bool) -> Truth
        ensures { result ≡ negated_if flag self }
    {
        if flag { self.negated() } else { self }
    }

    pub(crate) fn either(self, other: Truth) -> Truth
        ensures { result ≡ either self other }
    {
        match (self, other) {
            (Truth::True, _) | (_, Truth::True) => Truth::True,
            (Truth::False, Truth::False) => Truth::False,
            _ => Truth::Unknown,
        }
    }

    pub(crate) fn both(self, other: Truth) -> Truth
        ensures { result ≡ both self other }
    {
        match (self, other) {
            (Truth::False, _) | (_, Truth::False) => Truth::False,
            (Truth::True, Truth::True) => Truth::True,
            _ => Truth::Unknown,
        }
    }
}
