// What a field is to code: operations whose meaning is a record over the type, and an inverse, with their laws.
ghost use Rattle.std.specs.Prelude.{◌≡◌, ℕ, Option};
ghost use Rattle.std.specs.Bool.{Decides};
ghost use Rattle.algebra.specs.Ring.{RingOps, nat, sub};
ghost use Rattle.algebra.specs.Field.{FieldLaws};
ghost use Rattle.field.specs.Numbers.{Numbered, numbered_by};

use std::ops::{Add, Mul, Neg, Sub};

pub trait Field: Copy
    + Eq
    + Add<Self, Output = Self>
    + Sub<Self, Output = Self>
    + Mul<Self, Output = Self>
    + Neg<Output = Self> {
    ghost ops: { RingOps Self };

    ghost inverted: { Self → Option Self };

    // A commutative ring; zero has no inverse, and every other element has one.
    ghost laws: { FieldLaws ops inverted };

    fn zero() -> Self
        ensures { result ≡ ops.zero };

    fn one() -> Self
        ensures { result ≡ ops.one };

    // 1 + .. + 1, n times: n modulo the characteristic. A bound From<u32> would need a law to say so.
    fn from_u32(n: u32) -> Self
        ensures { result ≡ nat ops n };

    fn inverse(self) -> Option<Self>
        ensures { result ≡ inverted self };

    fn equals(self, other: Self) -> bool
        ensures { Decides result (self ≡ other) }
    {
        self == other
    }

    // `==` tells whether two elements are the same.
    ghost equality: { (a b : Self) → Decides (Self.PartialEq.eq a b) (a ≡ b) };

    // The operators are the ring's, for any two elements.
    ghost sums: { (a b r : Self) → Self.Add.add_gives a b r → r ≡ ops.add a b };

    ghost differences: { (a b r : Self) → Self.Sub.sub_gives a b r → r ≡ sub ops a b };

    ghost products: { (a b r : Self) → Self.Mul.mul_gives a b r → r ≡ ops.mul a b };

    ghost negatives: { (a r : Self) → Self.Neg.neg_gives a r → r ≡ ops.neg a };

    ghost any_sum: { (a b : Self) → Self.Add.can_add a b };

    ghost any_difference: { (a b : Self) → Self.Sub.can_sub a b };

    ghost any_product: { (a b : Self) → Self.Mul.can_mul a b };

    ghost any_negative: { (a : Self) → Self.Neg.can_neg a };
}

// The field of the numbers below a prime.
pub trait PrimeField: Field {
    ghost modulus: { ℕ };

    ghost numbered: { Self → ℕ };

    fn order() -> u32
        ensures { result ≡ modulus };

    fn number(self) -> u32
        ensures { result ≡ numbered self };

    // The element of that number, which is below the modulus. A bound TryFrom<u32> would need a law to say so.
    fn from_number(n: u32) -> Option<Self>
        ensures { result ≡ numbered_by Self.Field.ops modulus n }
    {
        (n < Self::order()).then(|| Self::from_u32(n))
    }

    // Elements and the numbers below the modulus name each other.
    ghost numbers: { Numbered Self.Field.ops modulus numbered };
}
