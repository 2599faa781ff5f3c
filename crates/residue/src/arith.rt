// Residues are a field, numbered by the numbers below P.
ghost use Rattle.std.specs.Prelude.{◌≡◌};
ghost use Rattle.algebra.specs.Ring.{sub};
ghost use Rattle.residue.specs.Residue.{reduced, residue_ops, residue_inverse};
ghost use Rattle.residue.specs.Laws.Residue.{residue_laws, residue_equality, residue_numbered};
ghost use Rattle.std.proofs.Common.{rules};

use crate::{Modulus, Residue};
use field::traits::{Field, PrimeField};
use std::ops::{Add, Mul, Neg, Sub};

impl<const P: u32> Residue<P>
where
    Self: Modulus<P>,
{
    // n modulo P: no From, since it makes one residue of many numbers.
    fn of(n: u64) -> Self
        ensures { result ≡ reduced P ⟦<Self as Modulus<P>>⟧.prime.above_one n }
    {
        Residue {
            value: (n % P as u64) as u32,
        }
    }
}

impl<const P: u32> Add for Residue<P>
where
    Self: Modulus<P>,
{
    type Output = Self;

    ghost add_gives = { λ a b r. r ≡ (residue_ops P ⟦<Self as Modulus<P>>⟧.prime.above_one).add a b };

    fn add(self, rhs: Self) -> Self {
        Self::of(self.value as u64 + rhs.value as u64)
    }
}

impl<const P: u32> Neg for Residue<P>
where
    Self: Modulus<P>,
{
    type Output = Self;

    ghost neg_gives = { λ a r. r ≡ (residue_ops P ⟦<Self as Modulus<P>>⟧.prime.above_one).neg a };

    fn neg(self) -> Self {
        Self::of((P - self.value) as u64)
    }
}

impl<const P: u32> Sub for Residue<P>
where
    Self: Modulus<P>,
{
    type Output = Self;

    ghost sub_gives = { λ a b r. r ≡ sub (residue_ops P ⟦<Self as Modulus<P>>⟧.prime.above_one) a b };

    // So in each field: std's trait has no body to share.
    fn sub(self, rhs: Self) -> Self {
        self + -rhs
    }
}

impl<const P: u32> Mul for Residue<P>
where
    Self: Modulus<P>,
{
    type Output = Self;

    ghost mul_gives = { λ a b r. r ≡ (residue_ops P ⟦<Self as Modulus<P>>⟧.prime.above_one).mul a b };

    fn mul(self, rhs: Self) -> Self {
        Self::of(self.value as u64 * rhs.value as u64)
    }
}

impl<const P: u32> Field for Residue<P>
where
    Self: Modulus<P>,
{
    ghost ops = { residue_ops P ⟦<Self as Modulus<P>>⟧.prime.above_one };

    ghost inverted = { residue_inverse P ⟦<Self as Modulus<P>>⟧.prime.above_one };

    ghost laws = { residue_laws P ⟦<Self as Modulus<P>>⟧.prime.above_one ⟦<Self as Modulus<P>>⟧.prime };

    ghost equality = { residue_equality };

    ghost sums = { Prim.search rules };

    ghost differences = { Prim.search rules };

    ghost products = { Prim.search rules };

    ghost negatives = { Prim.search rules };

    ghost any_sum = { Prim.search rules };

    ghost any_difference = { Prim.search rules };

    ghost any_product = { Prim.search rules };

    ghost any_negative = { Prim.search rules };

    fn zero() -> Self {
        Self::of(0)
    }

    fn one() -> Self {
        Self::of(1)
    }

    #[tactic(auto, using(crate::specs::Laws::Residue::nat_is))]
    fn from_u32(n: u32) -> Self {
        Self::of(n as u64)
    }

    // While self * found is left modulo P, the next left is P % left.
    fn inverse(self) -> Option<Self> {
        if self.value == 0 {
            return None;
        }
        let mut left = self.value;
        let mut found = Residue { value: 1 };
        while left > 1 {
            let factor = Residue {
                value: P - P / left,
            };
            found = found * factor;
            left = P % left;
        }
        Some(found)
    }
}

impl<const P: u32> PrimeField for Residue<P>
where
    Self: Modulus<P>,
{
    ghost modulus = { P };

    ghost numbered = { λ x. x.value };

    ghost numbers = { residue_numbered P ⟦<Self as Modulus<P>>⟧.prime.above_one ⟦<Self as Modulus<P>>⟧.prime };

    fn order() -> u32 {
        P
    }

    fn number(self) -> u32 {
        self.value()
    }
}
