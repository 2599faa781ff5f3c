// Pairs are an extension of the residues, with the basis 1, √11.
ghost use Rattle.std.specs.Prelude.{◌≡◌};
ghost use Rattle.pair.specs.BabyBearPairs.{pairs, pairs_basis, pairs_extend};
ghost use Rattle.residue.specs.Moduli.{residues};

use crate::Pair;
use field::extension::Extension;
use field::traits::Field;
use residue::moduli::BabyBear;

impl Extension<BabyBear> for Pair<BabyBear> {
    ghost dim = { 2 };

    ghost embedded = { λ x. record { base = x; root = residues.zero } };

    ghost basis = { pairs_basis };

    ghost extends = { pairs_extend };

    fn dimension() -> usize {
        2
    }

    fn embed(x: BabyBear) -> Self {
        Pair {
            base: x,
            root: BabyBear::zero(),
        }
    }

    fn basis_element(k: usize) -> Self {
        if k == 0 {
            return Self::one();
        }
        square_root()
    }

    fn combine(coefficients: &[Self]) -> Option<Self> {
        let [x, y] = coefficients else {
            return None;
        };
        Some(plus_root(*x, *y))
    }

    fn from_words(words: &[u32]) -> Option<Self> {
        let [v, w] = words else {
            return None;
        };
        Some(plus_root(Self::from_u32(*v), Self::from_u32(*w)))
    }
}

// √11
fn square_root() -> Pair<BabyBear>
    ensures { result ≡ pairs_basis 1 }
{
    Pair {
        base: BabyBear::zero(),
        root: BabyBear::one(),
    }
}

// x + y * √11
fn plus_root(x: Pair<BabyBear>, y: Pair<BabyBear>) -> Pair<BabyBear>
    ensures { result ≡ pairs.add x (pairs.mul y (pairs_basis 1)) }
{
    x + y * square_root()
}
