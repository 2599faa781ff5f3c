// Cosets of a group of 2^bits roots of unity.
#![tactic(auto)]

pub mod arith;

ghost use Rattle.std.specs.Prelude.{◌≡◌, ◌≢◌, ◌≤◌, ⊤};

use field::roots::TwoAdic;
use std::alloc::AllocError;
use std::marker::PhantomData;

// The points are shift * g^i, where g has the order 2^bits.
pub struct Coset<F: TwoAdic, E> {
    shift: F,
    bits: u32,
    // The field above F.
    above: PhantomData<E>,
    ghost shifted: { shift ≢ F.Field.ops.zero },
    ghost fits: { bits ≤ F.TwoAdic.bits },
}

// By hand: a struct whose ghost field names a bound has no derived copy.
impl<F: TwoAdic, E> Clone for Coset<F, E> {
    ghost is_clone = { λ x y. y ≡ x };

    ghost is_infallible = { λ _. ⊤ };

    fn clone(&self) -> Result<Coset<F, E>, AllocError> {
        Ok(Coset {
            shift: self.shift,
            bits: self.bits,
            above: PhantomData,
        })
    }
}

impl<F: TwoAdic, E> Copy for Coset<F, E> {}
