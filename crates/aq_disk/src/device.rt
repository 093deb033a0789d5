// The contract of a disk, the crash included.
ghost use Rattle.std.specs.Prelude.{◌≡◌, ◌<◌, ◌≤◌, ◌+◌, ◌-◌, ◌^◌, ◌⊎◌, List, ℕ, Option, Some, None, length, option_map, IfOk, OnOk, OnErr, IsErr, is_err, Bool};
ghost use Rattle.std.specs.Option.{ForSome};
ghost use Rattle.aq_disk.specs.Causes.{HasCause};
ghost use Rattle.aq_disk.specs.Disk.{after_write, count_read, after_read, next_call, Torn, TellsTorn, IsRefused, Only, Follows, Allows, Keeps, SameImages, KeepsEarlier};

/// A call on a disk failed. Its count of faults has risen.
#[derive(Clone, Copy, Debug, PartialEq, Eq)]
pub struct Failed;

/// The most bytes that a disk may have.
pub const LENGTH_LIMIT: u64 = 1 << 62;

/// Bytes that are read and written at places, and that a crash may tear until they are synced.
///
/// The calls `len`, `read`, `write_at` and `sync` are numbered from 1, and a crash inside or after call n leaves
/// an image of call number n - 1 or n. Between two syncs each written range, also of a failed write, and the part
/// past the old end may hold any bytes, and bytes outside stay. After a sync that succeeds a crash leaves what a
/// read gives.
pub trait Disk {
    /// The bytes as a read gives them, where the disk tells them.
    ghost seen: { Self → Option (List ℕ) };

    /// The images that a crash may leave at a call number up to now, where the disk tells them.
    ghost is_image: { Self → ℕ → List ℕ → Type 0 };

    /// How many calls were made. At 2^64 - 1 it stands still.
    ghost calls: { Self → ℕ };

    /// How many of them failed. It never falls, and at 2^64 - 1 it stands still.
    ghost faults: { Self → ℕ };

    /// What else a disk says of a call: of a `len` and a `read`, of a write, and of a sync. The disks before and after
    /// it are told, and whether it failed.
    ghost says_of_look: { Self → Self → Bool → Type 0 } = { λ _ _ _. Unit {0} };

    ghost says_of_write: { Self → Self → ℕ → List ℕ → Bool → Type 0 } = { λ _ _ _ _ _. Unit {0} };

    ghost says_of_sync: { Self → Self → Bool → Type 0 } = { λ _ _ _. Unit {0} };

    /// The number of bytes.
    fn len(&mut self) -> Result<u64, Failed>
        ensures count { IfOk result (λ n. ForSome (seen self.old) (λ bytes. n ≡ length bytes)) }
        ensures limit { IfOk result (λ n. n ≤ 2 ^ 62) }
        ensures bytes { seen self.new ≡ seen self.old }
        ensures crash { SameImages (is_image self.old (calls self.old)) (is_image self.new (calls self.new)) }
        ensures earlier { KeepsEarlier (calls self.old) (is_image self.old) (is_image self.new) }
        ensures number { calls self.new ≡ next_call (calls self.old) }
        ensures at_end { calls self.old ≡ 2 ^ 64 - 1 → IsErr result }
        ensures cause { HasCause (faults self.old) (faults self.new) result }
        ensures more { says_of_look self.old self.new (is_err result) };

    /// Reads from a place on, and answers how many bytes it read: fewer than asked only at the end.
    /// After `Failed` the buffer may hold anything.
    fn read(&mut self, at: u64, into: &mut [u8]) -> Result<usize, Failed>
        ensures count { IfOk result
            (λ n. ForSome (seen self.old) (λ bytes. n ≡ count_read at into.old bytes)) }
        ensures read { OnOk result
            (ForSome (seen self.old) (λ bytes. into.new ≡ after_read at into.old bytes)) }
        ensures bound { IfOk result (λ n. n ≤ length into.old) }
        ensures bytes { seen self.new ≡ seen self.old }
        ensures crash { SameImages (is_image self.old (calls self.old)) (is_image self.new (calls self.new)) }
        ensures earlier { KeepsEarlier (calls self.old) (is_image self.old) (is_image self.new) }
        ensures number { calls self.new ≡ next_call (calls self.old) }
        ensures at_end { calls self.old ≡ 2 ^ 64 - 1 → IsErr result }
        ensures cause { HasCause (faults self.old) (faults self.new) result }
        ensures more { says_of_look self.old self.new (is_err result) };

    /// Writes over what is there, and past the end. After `Failed` the range may hold any bytes, and so may the
    /// part past the old end.
    fn write_at(&mut self, at: u64, from: &[u8]) -> Result<(), Failed>
        requires { ForSome (seen self.old) (λ bytes. at ≤ length bytes) }
        ensures bytes { OnOk result (seen self.new ≡ option_map (after_write at from.now) (seen self.old)) }
        ensures torn { OnErr result (TellsTorn at (length from.now) (seen self.old) (seen self.new)) }
        ensures silent { seen self.old ≡ None → seen self.new ≡ None }

        // Until a sync a crash leaves an image from before with any bytes in the range, and each of these.
        ensures crash { Follows (Torn at (length from.now))
            (is_image self.old (calls self.old)) (is_image self.new (calls self.new)) }
        ensures any_bytes { OnOk result (Allows (Torn at (length from.now))
            (is_image self.old (calls self.old)) (is_image self.new (calls self.new))) }
        ensures lost { Keeps (is_image self.old (calls self.old)) (is_image self.new (calls self.new)) }

        // It fails, and writes nothing, past the limit and at the end of the call numbers.
        ensures refused { IsRefused at (length from.now) (calls self.old)
            → IsErr result × (seen self.new ≡ seen self.old)
            × SameImages (is_image self.old (calls self.old)) (is_image self.new (calls self.new)) }

        ensures earlier { KeepsEarlier (calls self.old) (is_image self.old) (is_image self.new) }
        ensures number { calls self.new ≡ next_call (calls self.old) }
        ensures cause { HasCause (faults self.old) (faults self.new) result }
        ensures more { says_of_write self.old self.new at from.now (is_err result) };

    /// After it, a crash leaves what a read gives.
    fn sync(&mut self) -> Result<(), Failed>
        ensures durable { OnOk result
            (ForSome (seen self.old) (λ bytes. Only bytes (is_image self.new (calls self.new)))) }
        ensures bytes { seen self.new ≡ seen self.old }
        ensures crash { OnErr result
            (SameImages (is_image self.old (calls self.old)) (is_image self.new (calls self.new))) }
        ensures earlier { KeepsEarlier (calls self.old) (is_image self.old) (is_image self.new) }
        ensures number { calls self.new ≡ next_call (calls self.old) }
        ensures at_end { calls self.old ≡ 2 ^ 64 - 1 → IsErr result }
        ensures cause { HasCause (faults self.old) (faults self.new) result }
        ensures more { says_of_sync self.old self.new (is_err result) };

    /// How many calls were made.
    fn calls(&self) -> u64
        ensures { result ≡ calls self.now };

    /// How many calls failed.
    fn faults(&self) -> u64
        ensures { result ≡ faults self.now };

    /// A disk as it reads is one of its images.
    ghost reads_an_image: { (disk : Self) (bytes : List ℕ)
        → seen disk ≡ Some bytes → is_image disk (calls disk) bytes };

    /// A told length is within the limit.
    ghost told_limit: { (disk : Self) (bytes : List ℕ) → seen disk ≡ Some bytes → length bytes ≤ 2 ^ 62 };
}
