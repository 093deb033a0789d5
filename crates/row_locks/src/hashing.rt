// A hasher of numbers.
ghost use Rattle.std.specs.Prelude.{◌≡◌, slice_index};
ghost use Rattle.std.specs.Int.{w64, from_le_bytes};
ghost use Rattle.row_locks.specs.Hashing.{mixed, written};

use std::hash::Hasher;

const MULTIPLIER: u64 = 0x9e37_79b9_7f4a_7c15;

/// A hasher of numbers of at most 64 bits: one multiplication takes in each. Of longer bytes it sees the first eight alone.
#[derive(Clone, Copy)]
pub(crate) struct NumberHasher {
    state: u64,
}

impl Default for NumberHasher {
    ghost is_default = { λ h. h.state ≡ 0x243f_6a88_85a3_08d3 };

    fn default() -> NumberHasher {
        NumberHasher {
            state: 0x243f_6a88_85a3_08d3,
        }
    }
}

fn mixed(state: u64, number: u64) -> u64
    ensures { result ≡ mixed state number }
{
    (state ^ number).wrapping_mul(MULTIPLIER)
}

fn byte_at(bytes: &[u8], at: usize) -> u8
    ensures { result ≡ slice_index bytes.now at }
{
    match bytes.get(at) {
        Some(byte) => *byte,
        None => 0,
    }
}

fn number_of(bytes: &[u8]) -> u64
    ensures { result ≡ from_le_bytes w64 bytes.now }
{
    u64::from_le_bytes([
        byte_at(bytes, 0),
        byte_at(bytes, 1),
        byte_at(bytes, 2),
        byte_at(bytes, 3),
        byte_at(bytes, 4),
        byte_at(bytes, 5),
        byte_at(bytes, 6),
        byte_at(bytes, 7),
    ])
}

impl Hasher for NumberHasher {
    ghost write = { written };

    ghost finish = { λ h. h.state };

    fn finish(&self) -> u64 {
        self.state
    }

    fn write(&mut self, bytes: &[u8]) {
        self.state = mixed(self.state, number_of(bytes));
    }

    fn write_u32(&mut self, i: u32) {
        self.state = mixed(self.state, u64::from(i));
    }

    fn write_u64(&mut self, i: u64) {
        self.state = mixed(self.state, i);
    }

    fn write_usize(&mut self, i: usize) {
        self.state = mixed(self.state, i as u64);
    }
}
