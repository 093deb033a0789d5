// Numbers that look random, and are the same at each run.
ghost use Rattle.std.specs.Prelude.{◌≤◌};

/// A number of its own for each number, which looks random.
pub fn mixed(number: u64) -> u64 {
    let number = (number ^ (number >> 30)).wrapping_mul(0xbf58_476d_1ce4_e5b9);
    let number = (number ^ (number >> 27)).wrapping_mul(0x94d0_49bb_1331_11eb);
    number ^ (number >> 31)
}

/// An index among so many, or their end.
pub fn place(number: u64, rows: usize) -> usize
    ensures { result ≤ rows }
{
    (mixed(number) as usize) % rows.saturating_add(1)
}
