//! Numbers that stand for chance.

ghost use Rattle.std.specs.Prelude.{◌<◌};

/// Numbers as if by chance, the same in each run.
#[derive(Drop)]
pub struct Chance(u64);

impl Chance {
    /// Numbers that rest on this seed alone.
    pub fn seeded(seed: u64) -> Self {
        // No seed may leave zero behind, from which no other number comes.
        Chance(seed.wrapping_mul(0x9e37_79b9_7f4a_7c15) | 1)
    }

    /// A number below this one.
    pub fn below(&mut self, bound: u64) -> u64
        requires { 0 < bound }
        ensures { result < bound }
    {
        self.0 ^= self.0 << 13;
        self.0 ^= self.0 >> 7;
        self.0 ^= self.0 << 17;
        (self.0 >> 8) % bound
    }
}
