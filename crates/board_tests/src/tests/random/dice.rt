// A source of numbers that look random, the same in every run.
#[derive(Clone, Copy)]
pub(super) struct Dice {
    state: u64,
}

impl Dice {
    pub(super) fn new(seed: u32) -> Dice {
        Dice { state: seed as u64 }
    }

    // The next number: the upper half of a linear congruential generator's state.
    fn next(&mut self) -> [u8; 4] {
        self.state = self
            .state
            .wrapping_mul(6_364_136_223_846_793_005)
            .wrapping_add(1_442_695_040_888_963_407);
        let bytes = self.state.to_be_bytes();
        [bytes[0], bytes[1], bytes[2], bytes[3]]
    }

    // A number below n, or 0 if there is none.
    pub(super) fn below(&mut self, n: u32) -> u32 {
        let drawn = u32::from_be_bytes(self.next());
        if n == 0 { 0 } else { drawn % n }
    }

    pub(super) fn byte(&mut self) -> u8 {
        self.next()[0]
    }
}
