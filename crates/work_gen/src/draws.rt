// Draws: numbers that follow from one another.
ghost use Rattle.std.specs.Prelude.{◌≡◌, ◌%◌, ◌<◌};
ghost use Rattle.work_gen.specs.Draws.{next_number, draw_of};

const FACTOR: u64 = 6_364_136_223_846_793_005;

const SUMMAND: u64 = 1_442_695_040_888_963_407;

/// The number that a draw comes from.
#[derive(Clone, Copy)]
pub struct Draws {
    /// The number.
    pub number: u64,
}

fn next_number(number: u64) -> u64
    ensures { result ≡ next_number number }
{
    number.wrapping_mul(FACTOR).wrapping_add(SUMMAND)
}

impl Draws {
    /// The next draw, modulo a number.
    pub fn below(&mut self, bound: u64) -> u64
        requires { 0 < bound }
        ensures after { self.new.number ≡ next_number self.old.number }
        ensures draw { result ≡ draw_of self.new.number % bound }
    {
        self.number = next_number(self.number);
        (self.number >> 33) % bound
    }
}
