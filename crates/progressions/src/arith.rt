// Progressions are domains.
ghost use Rattle.std.specs.Prelude.{◌≡◌, ◌^◌, ◌<◌, ◌≢◌, ◌≤◌, Some};
ghost use Rattle.progressions.specs.Fitting.{fitting};
ghost use Rattle.progressions.specs.Progression.{made, placed, natural_of, or_one, term as term_at, terms, points_of, first_of, last_of, transition_of, following_of, beside_of, pieces_of};
ghost use Rattle.progressions.specs.Laws.Progression.{progression_distinct, progression_doubled, progression_separate, progression_parted, progression_unparted};
ghost use Rattle.std.proofs.Common.{rules};

use crate::Progression;
use domain::periodic::Periodic;
use domain::selectors::Selectors;
use domain::traits::{Domain, Points};
use domain::{powers, products};
use field::extension::Extension;
use field::traits::{Field, PrimeField};
use std::marker::PhantomData;

// The largest b up to 10 with 2^b at most the number of elements.
#[tactic(auto, using(crate::specs::Laws::Terms::fitting_is))]
fn most_bits<F: PrimeField>() -> u32
    ensures { result ≡ fitting F.PrimeField.modulus 10 }
{
    F::order().ilog2().min(10)
}

fn count<F: PrimeField, E: Copy>(d: Progression<F, E>) -> u32
    ensures is { result ≡ 2 ^ d.bits }
    ensures some { 0 < result }
    ensures few { result ≤ 1024 }
{
    1 << d.bits
}

fn term<F: PrimeField, E: Copy>(d: Progression<F, E>, i: u32) -> F
    ensures { result ≡ term_at F.Field.ops d.start d.step i }
{
    d.start + F::from_u32(i) * d.step
}

// A step that is not zero. Modulo 2 the step of every second point is zero, and the one point that is left needs none.
fn stepped<F: Field>(step: F) -> F
    ensures { result ≡ or_one F.Field.own step }
{
    if step == F::zero() { F::one() } else { step }
}

fn at<F: PrimeField, E: Copy>(start: F, step: F, bits: u32) -> Progression<F, E>
    requires stepped { step ≢ F.Field.ops.zero }
    requires fits { bits ≤ fitting F.PrimeField.modulus 10 }
    ensures { Some result ≡ made start step bits }
{
    Progression {
        start,
        step,
        bits,
        above: PhantomData,
    }
}

// start + i * step, for i below the size. Absent where the step is zero, or the size is no power of two, above 1,024 or above F's.
#[tactic(auto, using(domain::proofs::Logs::log_most, crate::specs::Laws::Progression::found_points))]
pub fn progression<F: PrimeField, E: Extension<F>>(
    start: F,
    step: F,
    size: usize,
) -> Option<Progression<F, E>>
    ensures value { result ≡ placed start step size }
    ensures points { (d : _) → result ≡ Some d → points_of d ≡ terms F.Field.ops start step 0 size }
{
    if step == F::zero() {
        return None;
    }
    let bits = powers::log_within(most_bits::<F>(), size)?;
    Some(at(start, step, bits))
}

// 0, 1, 2 and so on, 2^bits points. Absent where these are more than 1,024 or more than F has.
pub fn natural<F: PrimeField, E: Extension<F>>(bits: u32) -> Option<Progression<F, E>>
    ensures { result ≡ natural_of bits }
{
    if bits > most_bits::<F>() {
        return None;
    }
    Some(at(F::zero(), F::one(), bits))
}

// 1 at the first point, and 0 at the others.
fn first<F: PrimeField, E: Extension<F>>(d: Progression<F, E>, z: E) -> E
    ensures { result ≡ first_of E.Field.own E.Extension.own d z }
{
    products::basis(d, E::embed(d.point(0)), 1, d.size(), z)
}

// 1 at the last point, and 0 at the others.
fn last<F: PrimeField, E: Extension<F>>(d: Progression<F, E>, z: E) -> E
    ensures { result ≡ last_of E.Field.own E.Extension.own d z }
{
    let others = d.size() - 1;
    products::basis(d, E::embed(d.point(others)), 0, others, z)
}

impl<F: PrimeField, E: Extension<F>> Points for Progression<F, E> {
    type Base = F;

    type Ext = E;

    ghost points = { points_of };

    fn size(self) -> usize {
        count(self) as usize
    }

    fn point(self, i: usize) -> F {
        if i >= self.size() {
            return F::zero();
        }
        term(self, i as u32)
    }
}

impl<F: PrimeField, E: Extension<F>> Domain for Progression<F, E> {
    ghost scale = { λ _. F.Field.ops.one };

    ghost first = { first_of E.Field.own E.Extension.own };

    ghost last = { last_of E.Field.own E.Extension.own };

    ghost transition = { transition_of E.Field.own E.Extension.own };

    ghost following = { following_of E.Field.own E.Extension.own };

    ghost beside = { beside_of };

    ghost pieces = { pieces_of };

    ghost degree = { 1 };

    ghost distinct = { progression_distinct F.PrimeField.own F.Field.own F.PrimeField.numbers };

    ghost doubled = { progression_doubled F.PrimeField.own F.Field.own F.PrimeField.numbers };

    ghost scaled = { Prim.search rules };

    ghost separate = { progression_separate F.PrimeField.own F.Field.own F.PrimeField.numbers };

    ghost parted = { progression_parted F.PrimeField.own F.Field.own F.PrimeField.numbers };

    ghost unparted = { progression_unparted F.PrimeField.own F.Field.own F.PrimeField.numbers };

    fn first_point(self) -> F {
        term(self, 0)
    }

    fn vanishing_at(self, z: E) -> E {
        products::vanishing(self, 0, self.size(), z)
    }

    fn selectors_at(self, z: E) -> Option<Selectors<E>> {
        let inverse = self.vanishing_at(z).inverse()?;
        let last = last(self, z);
        Some(Selectors {
            first: first(self, z),
            last,
            transition: E::one() - last,
            inverse,
        })
    }

    fn next_point(self, z: E) -> Option<E> {
        if self.bits == 0 {
            return None;
        }
        Some(z + E::embed(self.step))
    }

    fn disjoint(self, size: usize) -> Option<Self> {
        let bits = powers::log_within(10, size)?;
        let own = count(self);
        if own as usize + size > F::order() as usize {
            return None;
        }
        Some(at(term(self, own), self.step, bits))
    }

    fn piece(self, i: usize, k: usize) -> Option<Self> {
        let less = powers::log_within(self.bits, k)?;
        if i >= k {
            return None;
        }
        let step = stepped(F::from_u32(k as u32) * self.step);
        Some(at(term(self, i as u32), step, self.bits - less))
    }

    fn transition_degree() -> u32 {
        1
    }
}

impl<F: PrimeField, E: Extension<F>> Periodic for Progression<F, E> {}
