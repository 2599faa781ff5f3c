// Pairs of residues of 2013265921 under √11 are a field.
ghost use Rattle.std.specs.Prelude.{◌≡◌};
ghost use Rattle.algebra.specs.Ring.{sub};
ghost use Rattle.residue.specs.Laws.Residue.{residue_equality};
ghost use Rattle.pair.specs.BabyBearPairs.{eleven as w, pairs, pairs_inverse, pairs_laws};
ghost use Rattle.pair.specs.Laws.Pair.{pair_equality};
ghost use Rattle.std.proofs.Common.{rules};

use crate::Pair;
use field::traits::Field;
use residue::moduli::BabyBear;
use std::ops::{Add, Mul, Neg, Sub};

#[tactic(auto, using(residue::specs::Moduli::residues_nat))]
fn eleven() -> BabyBear
    ensures { result ≡ w }
{
    BabyBear::from_u32(11)
}

impl Add for Pair<BabyBear> {
    type Output = Self;

    ghost add_gives = { λ a b r. r ≡ pairs.add a b };

    fn add(self, rhs: Self) -> Self {
        Pair {
            base: self.base + rhs.base,
            root: self.root + rhs.root,
        }
    }
}

impl Neg for Pair<BabyBear> {
    type Output = Self;

    ghost neg_gives = { λ a r. r ≡ pairs.neg a };

    fn neg(self) -> Self {
        Pair {
            base: -self.base,
            root: -self.root,
        }
    }
}

impl Sub for Pair<BabyBear> {
    type Output = Self;

    ghost sub_gives = { λ a b r. r ≡ sub pairs a b };

    // As residues do: std's trait has no body to share.
    fn sub(self, rhs: Self) -> Self {
        self + -rhs
    }
}

impl Mul for Pair<BabyBear> {
    type Output = Self;

    ghost mul_gives = { λ a b r. r ≡ pairs.mul a b };

    fn mul(self, rhs: Self) -> Self {
        Pair {
            base: self.base * rhs.base + eleven() * (self.root * rhs.root),
            root: self.base * rhs.root + self.root * rhs.base,
        }
    }
}

impl Field for Pair<BabyBear> {
    ghost ops = { pairs };

    ghost inverted = { pairs_inverse };

    ghost laws = { pairs_laws };

    ghost equality = { pair_equality residue_equality };

    ghost sums = { Prim.search rules };

    ghost differences = { Prim.search rules };

    ghost products = { Prim.search rules };

    ghost negatives = { Prim.search rules };

    ghost any_sum = { Prim.search rules };

    ghost any_difference = { Prim.search rules };

    ghost any_product = { Prim.search rules };

    ghost any_negative = { Prim.search rules };

    fn zero() -> Self {
        Pair {
            base: BabyBear::zero(),
            root: BabyBear::zero(),
        }
    }

    fn one() -> Self {
        Pair {
            base: BabyBear::one(),
            root: BabyBear::zero(),
        }
    }

    #[tactic(auto, using(crate::specs::BabyBearPairs::pairs_nat))]
    fn from_u32(n: u32) -> Self {
        Pair {
            base: BabyBear::from_u32(n),
            root: BabyBear::zero(),
        }
    }

    fn inverse(self) -> Option<Self> {
        let norm = self.base * self.base - eleven() * (self.root * self.root);
        let inverse = norm.inverse()?;
        Some(Pair {
            base: self.base * inverse,
            root: -self.root * inverse,
        })
    }
}
