// Numbers that look random, and are the same at each run.
ghost use Rattle.std.specs.Prelude.{◌≤◌};

/// The number behind this one. Its upper half is what looks random.
pub fn next(number: u64) -> u64 {
    number
        .wrapping_mul(6_364_136_223_846_793_005)
        .wrapping_add(1_442_695_040_888_963_407)
}

/// An index among so many, or their end.
pub fn place(number: u64, rows: usize) -> usize
    ensures { result ≤ rows }
{
    (number as usize) % rows.saturating_add(1)
}
