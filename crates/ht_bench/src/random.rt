//! Numbers that look random, the same in each run.

/// A linear congruential generator with Knuth's constants. Its upper bits are given.
#[derive(Drop)]
pub struct Random {
    state: u64,
}

impl Random {
    /// The generator that starts at a seed.
    pub fn new(seed: u64) -> Self {
        Random { state: seed }
    }

    /// The next number, below 2^31.
    pub fn draw(&mut self) -> u64 {
        self.state = self
            .state
            .wrapping_mul(6_364_136_223_846_793_005)
            .wrapping_add(1_442_695_040_888_963_407);
        self.state >> 33
    }
}
