// The duplex sponge's state: eight words, and the place at which the next number is added.
// Each impl names its own definitions, since those name the struct.
ghost use Rattle.std.specs.Prelude.{◌≡◌, ◌<◌};

use crate::Sponge;
use crate::mix::mix;

#[derive(Clone, Copy)]
pub struct Duplex {
    words: [u32; 8],
    q: usize,
    ghost ok: { q < 4 },
}

impl Duplex {
    ghost use Rattle.sponge.specs.Duplexes.{zero_duplex};

    pub fn new() -> Duplex
        ensures words { result.words ≡ zero_duplex.words }
        ensures place { result.q ≡ zero_duplex.q }
    {
        Duplex {
            words: [0; 8],
            q: 0,
        }
    }
}

impl Sponge for Duplex {
    ghost use Rattle.sponge.specs.Duplexes.{duplex_steps};

    ghost steps = { duplex_steps };

    fn take(&mut self, n: u32) {
        let q = self.q;
        self.words[q] = self.words[q].wrapping_add(n);
        if q == 3 {
            mix(&mut self.words);
            self.q = 0;
        } else {
            self.q = q + 1;
        }
    }

    fn give(&mut self) -> u32 {
        mix(&mut self.words);
        self.q = 0;
        self.words[0]
    }
}
