/// Marsaglia's xorshift, with 64 bits of state.
#[derive(Drop)]
pub(crate) struct Words {
    state: u64,
}

impl Words {
    pub(crate) fn new() -> Words {
        Words {
            state: 0x9e37_79b9_7f4a_7c15,
        }
    }

    pub(crate) fn next(&mut self) -> u64 {
        self.state ^= self.state << 13;
        self.state ^= self.state >> 7;
        self.state ^= self.state << 17;
        self.state
    }
}
