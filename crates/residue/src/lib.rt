// The numbers below a prime P, one text for every P.
#![tactic(auto)]

ghost use Rattle.std.specs.Prelude.{◌≡◌, ◌<◌, Some, decimal};
ghost use Rattle.residue.specs.Prime.{Prime};

pub mod arith;
pub mod moduli;
pub mod roots;

use std::fmt;

// The one thing to show of a modulus.
pub trait Modulus<const P: u32> {
    ghost prime: { Prime P };
}

#[derive(Clone, Copy, PartialEq, Eq)]
pub struct Residue<const P: u32> {
    value: u32,
    ghost below: { value < P },
}

impl<const P: u32> Residue<P> {
    pub fn value(self) -> u32
        ensures { result ≡ self.entry.value }
    {
        self.value
    }
}

// Its number, in decimal.
impl<const P: u32> fmt::Display for Residue<P> {
    ghost output = { λ x. Some (decimal x.value) };

    fn fmt<W: fmt::Write>(&self, f: &mut fmt::Formatter<W>) -> fmt::Result {
        write!(f, "{}", self.value)
    }
}
