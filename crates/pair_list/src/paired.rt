// Items that have pairs of numbers.
ghost use Rattle.std.specs.Prelude.{◌≡◌, ℕ};

/// An item that has a pair of numbers.
pub trait Paired: Sized {
    /// Its pair.
    ghost pair_of: { Self → ℕ × ℕ };

    /// Its pair. It takes no memory.
    fn pair(&self) -> (u64, u64)
        ensures { result ≡ pair_of self.now };
}
