/// Numbers that look random, and are the same for the same seed.
#[derive(Clone, Copy)]
pub struct Chance {
    state: u64,
}

impl Chance {
    /// The numbers of a seed.
    pub fn new(seed: u64) -> Chance {
        Chance { state: seed }
    }

    /// The next number, of 64 bits.
    pub fn wide(&mut self) -> u64 {
        let high = self.step();
        let low = self.step();
        high ^ (low >> 32)
    }

    /// The next number below this one, which is 1 to 2^32.
    pub fn below(&mut self, bound: u64) -> u64 {
        (self.step() >> 32) % bound.max(1)
    }

    /// The same, where the bound is at most 2^32.
    pub fn word(&mut self, bound: u64) -> u32 {
        u32::try_from(self.below(bound)).unwrap_or(0)
    }

    /// The same, where the bound is at most 2^16.
    pub fn short(&mut self, bound: u64) -> u16 {
        u16::try_from(self.below(bound)).unwrap_or(0)
    }

    /// The same, where the bound is at most 2^8.
    pub fn byte(&mut self, bound: u64) -> u8 {
        u8::try_from(self.below(bound)).unwrap_or(0)
    }

    /// Whether one of so many comes up.
    pub fn hits(&mut self, of: u64) -> bool {
        self.below(of) == 0
    }

    fn step(&mut self) -> u64 {
        let product = self.state.wrapping_mul(6_364_136_223_846_793_005);
        self.state = product.wrapping_add(1_442_695_040_888_963_407);
        self.state
    }
}
