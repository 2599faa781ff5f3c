// The rolling sponge's state: one word.
ghost use Rattle.std.specs.Prelude.{◌≡◌};
ghost use Rattle.sponge.specs.Rolls.{rolling_steps, zero_rolling};

use crate::Sponge;

#[derive(Clone, Copy)]
pub struct Rolling {
    s: u32,
}

impl Rolling {
    pub fn new() -> Rolling
        ensures { result ≡ zero_rolling }
    {
        Rolling { s: 0 }
    }
}

impl Sponge for Rolling {
    ghost steps = { rolling_steps };

    fn take(&mut self, n: u32) {
        self.s = self
            .s
            .wrapping_mul(1664525)
            .wrapping_add(n)
            .wrapping_add(1013904223);
    }

    fn give(&mut self) -> u32 {
        self.take(0);
        self.s
    }
}
