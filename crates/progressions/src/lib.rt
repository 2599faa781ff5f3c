// Progressions: points at even steps.
#![tactic(auto)]

pub mod arith;

ghost use Rattle.std.specs.Prelude.{◌≡◌, ◌≢◌, ◌≤◌, ⊤};
ghost use Rattle.progressions.specs.Fitting.{fitting};

use field::traits::PrimeField;
use std::alloc::AllocError;
use std::marker::PhantomData;

// The points are start + i * step, for i below 2^bits.
pub struct Progression<F: PrimeField, E> {
    start: F,
    step: F,
    bits: u32,
    // The field above F.
    above: PhantomData<E>,
    ghost stepped: { step ≢ F.Field.ops.zero },
    ghost fits: { bits ≤ fitting F.PrimeField.modulus 10 },
}

// By hand: a struct whose ghost field names a bound has no derived copy.
impl<F: PrimeField, E> Clone for Progression<F, E> {
    ghost is_clone = { λ x y. y ≡ x };

    ghost is_infallible = { λ _. ⊤ };

    fn clone(&self) -> Result<Progression<F, E>, AllocError> {
        Ok(Progression {
            start: self.start,
            step: self.step,
            bits: self.bits,
            above: PhantomData,
        })
    }
}

impl<F: PrimeField, E> Copy for Progression<F, E> {}
