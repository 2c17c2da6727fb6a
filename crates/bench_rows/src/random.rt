//! Numbers in no order.

/// A linear congruential generator. It gives the same numbers in each run.
#[derive(Drop)]
pub struct Random {
    state: u64,
}

impl Random {
    pub fn new() -> Random {
        Random { state: 1 }
    }

    /// Gives a number below the limit, and 0 if that is 0.
    pub fn below(&mut self, limit: u64) -> u64 {
        self.state = self
            .state
            .wrapping_mul(6_364_136_223_846_793_005)
            .wrapping_add(1_442_695_040_888_963_407);
        if limit == 0 {
            return 0;
        }
        (self.state >> 33) % limit
    }
}
