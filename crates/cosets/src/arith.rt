// Cosets are domains.
pub mod period;

ghost use Rattle.std.specs.Prelude.{◌≡◌, ℕ, ◌≢◌, ◌≤◌, ◌^◌, Some};
ghost use Rattle.algebra.specs.Domain.{coset as turned_points};
ghost use Rattle.algebra.specs.Field.{total};
ghost use Rattle.algebra.specs.Ring.{pow, sub};
ghost use Rattle.cosets.specs.Coset.{made, placed, natural_of, Divided, step_of, points_of, scale_of, turned_of, transition_of, vanish_of, first_of, last_of, following_of, beside_of, pieces_of};
ghost use Rattle.cosets.specs.Laws.Coset.{coset_points_distinct, coset_doubled, coset_scaled, coset_separate, coset_parted, coset_unparted};
ghost use Rattle.domain.specs.Logarithm.{log_within};
ghost use Rattle.domain.specs.Selected.{selected};
ghost use Rattle.field.specs.TwoAdic.{root};

use crate::Coset;
use domain::powers;
use domain::selectors::Selectors;
use domain::traits::{Domain, Points};
use field::extension::Extension;
use field::roots;
use field::roots::TwoAdic;
use field::traits::Field;
use std::marker::PhantomData;

// g, which the type says that F has.
fn step<F: TwoAdic, E: Copy>(d: Coset<F, E>) -> F
    ensures { result ≡ step_of d }
{
    roots::root_of_unity(d.bits).unwrap()
}

// shift * g^i.
fn turned_by<F: TwoAdic, E: Copy>(d: Coset<F, E>, i: usize) -> F
    ensures { result ≡ F.Field.ops.mul d.shift (pow F.Field.ops (step_of d) i) }
{
    d.shift * powers::power(step(d), i)
}

// The shift of a coset that has no point of d.
fn outside<F: TwoAdic, E: Copy>(d: Coset<F, E>) -> F
    ensures { result ≡ F.Field.ops.mul F.TwoAdic.generated d.shift }
{
    F::generator() * d.shift
}

fn at<F: TwoAdic, E: Copy>(shift: F, bits: u32) -> Coset<F, E>
    requires shifted { shift ≢ F.Field.ops.zero }
    requires fits { bits ≤ F.TwoAdic.bits }
    ensures shift { result.shift ≡ shift }
    ensures bits { result.bits ≡ bits }
    ensures made { Some result ≡ made shift bits }
{
    Coset {
        shift,
        bits,
        above: PhantomData,
    }
}

// Absent where the shift is zero, or F has no root of the order 2^bits.
fn made<F: TwoAdic, E: Copy>(shift: F, bits: u32) -> Option<Coset<F, E>>
    ensures { result ≡ made shift bits }
{
    if shift == F::zero() {
        return None;
    }
    if bits > F::greatest_bits() {
        return None;
    }
    Some(at(shift, bits))
}

// The logarithm of a size that F has.
fn log_size<F: TwoAdic>(size: usize) -> Option<u32>
    ensures { result ≡ log_within F.TwoAdic.bits size }
{
    powers::log_within(F::greatest_bits(), size)
}

// shift * g^i, for i below the size. Absent where the shift is zero, or where the size is no power of two or none that F has a root of.
pub fn coset<F: TwoAdic, E: Extension<F>>(shift: F, size: usize) -> Option<Coset<F, E>>
    ensures value { result ≡ placed shift size }
    ensures points { (d : _) → result ≡ Some d → ((bits : ℕ) × (size ≡ 2 ^ bits) × (points_of d ≡ turned_points F.Field.ops shift (root F.Field.ops F.TwoAdic.generated F.TwoAdic.odd F.TwoAdic.bits bits) size)) }
{
    let bits = log_size::<F>(size)?;
    made(shift, bits)
}

// 1, g, g^2 and so on, 2^bits points. Absent where F has no root of that order.
pub fn natural<F: TwoAdic, E: Extension<F>>(bits: u32) -> Option<Coset<F, E>>
    ensures { result ≡ natural_of bits }
{
    made(F::one(), bits)
}

// z over the shift.
fn turned<F: TwoAdic, E: Extension<F>>(d: Coset<F, E>, z: E) -> E
    ensures { result ≡ turned_of E.Field.own E.Extension.own d z }
{
    z * E::embed(powers::inverse_or_zero(d.shift))
}

fn vanish<F: TwoAdic, E: Extension<F>>(d: Coset<F, E>, z: E) -> E
    ensures { result ≡ vanish_of E.Field.own E.Extension.own d z }
{
    powers::squared(turned(d, z), d.bits) - E::one()
}

// The selectors at z; where they are present, u is neither 1 nor 1/g, and first and last times what they were divided by is V.
pub fn selectors<F: TwoAdic, E: Extension<F>>(d: Coset<F, E>, z: E) -> Option<Selectors<E>>
    ensures value { result ≡ selected (first_of E.Field.own E.Extension.own d z) (last_of E.Field.own E.Extension.own d z) (transition_of E.Field.own E.Extension.own d z) (E.Field.inverted (vanish_of E.Field.own E.Extension.own d z)) }
    ensures divided { (s : Selectors E) → result ≡ Some s → Divided E.Field.own E.Extension.own d z s }
{
    let v = vanish(d, z);
    let inverse = v.inverse()?;
    let back = E::embed(powers::inverse_or_zero(step(d)));
    Some(chosen(v, turned(d, z), back, inverse))
}

// V / (u - 1), V / (u - back), u - back and the inverse of V.
fn chosen<E: Field>(v: E, u: E, back: E, inverse: E) -> Selectors<E>
    ensures { result ≡ record { first = E.ops.mul v (total E.ops E.inverted (sub E.ops u E.ops.one)); last = E.ops.mul v (total E.ops E.inverted (sub E.ops u back)); transition = sub E.ops u back; inverse = inverse } }
{
    let transition = u - back;
    Selectors {
        first: v * powers::inverse_or_zero(u - E::one()),
        last: v * powers::inverse_or_zero(transition),
        transition,
        inverse,
    }
}

impl<F: TwoAdic, E: Extension<F>> Points for Coset<F, E> {
    type Base = F;

    type Ext = E;

    ghost points = { points_of };

    fn size(self) -> usize {
        1 << self.bits
    }

    fn point(self, i: usize) -> F {
        if i >= self.size() {
            return F::zero();
        }
        turned_by(self, i)
    }
}

impl<F: TwoAdic, E: Extension<F>> Domain for Coset<F, E> {
    ghost scale = { scale_of };

    ghost first = { first_of E.Field.own E.Extension.own };

    ghost last = { last_of E.Field.own E.Extension.own };

    ghost transition = { transition_of E.Field.own E.Extension.own };

    ghost following = { following_of E.Field.own E.Extension.own };

    ghost beside = { beside_of };

    ghost pieces = { pieces_of };

    ghost degree = { 0 };

    ghost distinct = { coset_points_distinct F.TwoAdic.own F.PrimeField.own F.Field.own F.TwoAdic.adic };

    ghost doubled = { coset_doubled F.TwoAdic.own F.PrimeField.own F.Field.own F.TwoAdic.adic };

    ghost scaled = { coset_scaled F.TwoAdic.own F.PrimeField.own F.Field.own F.TwoAdic.adic };

    ghost separate = { coset_separate F.TwoAdic.own F.PrimeField.own F.Field.own F.TwoAdic.adic };

    ghost parted = { coset_parted F.TwoAdic.own F.PrimeField.own F.Field.own F.TwoAdic.adic };

    ghost unparted = { coset_unparted F.TwoAdic.own F.PrimeField.own F.Field.own F.TwoAdic.adic };

    fn first_point(self) -> F {
        self.shift
    }

    fn vanishing_at(self, z: E) -> E {
        vanish(self, z)
    }

    fn selectors_at(self, z: E) -> Option<Selectors<E>> {
        selectors(self, z)
    }

    fn next_point(self, z: E) -> Option<E> {
        Some(E::embed(step(self)) * z)
    }

    fn disjoint(self, size: usize) -> Option<Self> {
        let bits = powers::log_within(F::apart_bits(), size)?;
        if self.bits > F::apart_bits() {
            return None;
        }
        Some(at(outside(self), bits))
    }

    fn piece(self, i: usize, k: usize) -> Option<Self> {
        let less = powers::log_within(self.bits, k)?;
        if i >= k {
            return None;
        }
        Some(at(turned_by(self, i), self.bits - less))
    }

    fn transition_degree() -> u32 {
        0
    }
}
