// A generator of each of the two fields: 3 modulo 17, and 31 modulo 15 * 2^27 + 1.
// Not one impl for every P: a prime has a generator of its own, and a trait that gives it would be TwoAdic once more.
ghost use Rattle.residue.specs.Laws.TwoAdic.{three, thirty_one, seventeens_adic, residues_adic};

use crate::moduli::{BabyBear, Seventeen};
use field::roots::TwoAdic;
use field::traits::Field;

impl TwoAdic for Seventeen {
    ghost generated = { three };

    ghost odd = { 1 };

    ghost bits = { 4 };

    ghost apart = { 3 };

    ghost adic = { seventeens_adic };

    fn greatest_bits() -> u32 {
        4
    }

    fn apart_bits() -> u32 {
        3
    }

    #[tactic(auto, using(crate::specs::Moduli::seventeens_nat))]
    fn generator() -> Self {
        Seventeen::from_u32(3)
    }

    fn top_root() -> Self {
        Seventeen::from_u32(3)
    }
}

impl TwoAdic for BabyBear {
    ghost generated = { thirty_one };

    ghost odd = { 15 };

    ghost bits = { 27 };

    ghost apart = { 27 };

    ghost adic = { residues_adic };

    fn greatest_bits() -> u32 {
        27
    }

    fn apart_bits() -> u32 {
        27
    }

    #[tactic(auto, using(crate::specs::Moduli::residues_nat))]
    fn generator() -> Self {
        BabyBear::from_u32(31)
    }

    // 31^15
    fn top_root() -> Self {
        BabyBear::from_u32(440564289)
    }
}
