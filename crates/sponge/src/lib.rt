// Sponges: a state that takes 32-bit numbers and gives 32-bit words.
#![tactic(auto)]

ghost use Rattle.std.specs.Prelude.{◌≡◌, ℕ};
ghost use Rattle.sponge.specs.Steps.{Steps, passing};

mod duplex;
mod mix;
mod rolling;

pub use duplex::Duplex;
pub use rolling::Rolling;

// The state is all that a sponge means: it fixes, with the number where one is taken, the next state and the word.
pub trait Sponge: Copy {
    ghost steps: { Steps Self };

    fn take(&mut self, n: u32)
        ensures { self.new ≡ steps.taken self.old n };

    fn give(&mut self) -> u32
        ensures word { result ≡ steps.word self.old }
        ensures left { self.new ≡ steps.given self.old };

    // Whether, after the witness is taken, the next word has that many low zeros; above 20 bits none passes.
    fn passes(&self, witness: u32, bits: usize) -> bool
        ensures { result ≡ passing steps self.now witness bits }
    {
        if bits > 20 {
            return false;
        }
        let mut after = *self;
        after.take(witness);
        let word = after.give();
        word % (1u32 << bits) == 0
    }
}
