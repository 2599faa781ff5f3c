// Periodic columns on a coset, by P values and log n squarings.
ghost use Rattle.std.specs.Prelude.{◌≡◌, ◌^◌, length, slice_index_or};
ghost use Rattle.algebra.specs.Ring.{pow};
ghost use Rattle.cosets.specs.Coset.{points_of};
ghost use Rattle.cosets.specs.Sums.{sums, geometric as geometric_sum};
ghost use Rattle.domain.specs.Periodic.{interpolated};

use super::{at, step};
use crate::Coset;
use domain::periodic::Periodic;
use domain::powers;
use field::extension::Extension;
use field::roots::TwoAdic;
use field::traits::Field;

// 1 + t + .. + t^(2^k - 1), which is the product of 1 + t^(2^l) over l below k.
fn geometric<E: Field>(t: E, k: u32) -> E
    ensures { result ≡ geometric_sum E.ops t (2 ^ k) }
{
    let mut value = E::one();
    let mut power = t;
    for _ in 0..k {
        value = value * (E::one() + power);
        power = power * power;
    }
    value
}

// The sum of column[j] times the powers of w * inverse * back^j below 2^bits.
fn weighted<F: TwoAdic, E: Extension<F>>(inverse: F, back: F, bits: u32, column: &[F], w: E) -> E
    ensures { result ≡ sums E.Field.ops (length column.now) (λ j. E.Field.ops.mul (E.Extension.embedded (slice_index_or column.now j F.Field.ops.zero)) (geometric_sum E.Field.ops (E.Field.ops.mul w (E.Extension.embedded (F.Field.ops.mul inverse (pow F.Field.ops back j)))) (2 ^ bits))) }
{
    let mut value = E::zero();
    let mut at = inverse;
    for x in column {
        value = value + E::embed(*x) * geometric(w * E::embed(at), bits);
        at = at * back;
    }
    value
}

// The value at w of the polynomial through a column of as many values as d has points.
// With x point j and P the size, the polynomial that is 1 at x and 0 at the other points is the sum of the powers of w / x below P, over P.
fn value_at<F: TwoAdic, E: Extension<F>>(d: Coset<F, E>, column: &[F], w: E) -> E
    requires { length column.now ≡ 2 ^ d.bits }
    ensures { result ≡ interpolated F.Field.own E.Field.own E.Extension.own (points_of d) column.now w }
{
    let inverse = powers::inverse_or_zero(d.shift);
    let back = powers::inverse_or_zero(step(d));
    let size = F::from_u32(1 << d.bits);
    weighted(inverse, back, d.bits, column, w) * E::embed(powers::inverse_or_zero(size))
}

// With n = P m, the column is one of the coset of P points at shift^m, and its value is taken at z^m.
impl<F: TwoAdic, E: Extension<F>> Periodic for Coset<F, E> {
    fn periodic_value(self, column: &[F], z: E) -> Option<E> {
        let less = powers::log_within(63, column.len())?;
        if less > self.bits {
            return None;
        }
        let rest = self.bits - less;
        let small = at(powers::squared(self.shift, rest), less);
        Some(value_at(small, column, powers::squared(z, rest)))
    }
}
