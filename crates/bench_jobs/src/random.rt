//! Numbers that look random, from a seed.

/// A generator of numbers: Marsaglia's xorshift with 64 bits, whose state a multiplication scrambles.
#[derive(Clone, Copy)]
pub(crate) struct Random {
    state: u64,
}

impl Random {
    /// Each seed gives another sequence.
    pub(crate) fn new(seed: u64) -> Random {
        let state = seed.wrapping_add(1).wrapping_mul(0x9e37_79b9_7f4a_7c15) | 1;
        let mut random = Random { state };
        for _ in 0..8 {
            random.next();
        }
        random
    }

    /// The next number, of 64 bits.
    pub(crate) fn next(&mut self) -> u64 {
        let mut x = self.state;
        x ^= x >> 12;
        x ^= x << 25;
        x ^= x >> 27;
        self.state = x;
        x.wrapping_mul(0x2545_f491_4f6c_dd1d) >> 3
    }
}
