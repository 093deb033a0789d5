//! What a turnstile can hold.
ghost use Rattle.std.specs.Prelude.{ℕ, List};

/// A value with an opening, which stays, and a list of entries, which only grows.
/// A step that replaces the value keeps the opening and extends the list.
pub trait Grows {
    /// What the value began with.
    type Opening;

    /// One entry. It was made by an actor, who has a number.
    type Entry;

    ghost opening: { Self → Self.Opening };

    ghost entries: { Self → List Self.Entry };

    ghost actor: { Self.Entry → ℕ };
}
