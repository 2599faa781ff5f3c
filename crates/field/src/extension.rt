// A field over a field: its dimension, the smaller field's elements in it, and a basis.
ghost use Rattle.std.specs.Prelude.{◌≡◌, ℕ, map};
ghost use Rattle.field.specs.Extension.{Extends, combined};
ghost use Rattle.algebra.specs.Ring.{nat};
ghost use Rattle.std.proofs.Common.{rules};

use crate::traits::Field;

pub trait Extension<F: Field>: Field {
    ghost dim: { ℕ };

    ghost embedded: { F → Self };

    ghost basis: { ℕ → Self };

    fn dimension() -> usize
        ensures { result ≡ dim };

    // A bound From<F> would need a law to say that it is the embedding.
    fn embed(x: F) -> Self
        ensures { result ≡ embedded x };

    fn basis_element(k: usize) -> Self
        ensures { result ≡ basis k };

    // The sum of coefficient k times basis element k; nothing unless there are exactly as many as the dimension.
    fn combine(coefficients: &[Self]) -> Option<Self>
        ensures { result ≡ combined Self.Field.ops dim basis coefficients.now };

    // The same of the numbers, each modulo the characteristic.
    fn from_words(words: &[u32]) -> Option<Self>
        ensures { result ≡ combined Self.Field.ops dim basis (map (nat Self.Field.ops) words.now) };

    // Sums and products are kept, and the first basis element is one.
    ghost extends: { Extends F.Field.ops Self.Field.ops embedded basis };
}

// Every field is over itself.
impl<F: Field> Extension<F> for F {
    ghost dim = { 1 };

    ghost embedded = { λ x. x };

    ghost basis = { λ _. F.Field.ops.one };

    ghost extends = { Prim.search rules };

    fn dimension() -> usize {
        1
    }

    fn embed(x: F) -> F {
        x
    }

    fn basis_element(_k: usize) -> F {
        F::one()
    }

    fn combine(coefficients: &[F]) -> Option<F> {
        let [x] = coefficients else {
            return None;
        };
        Some(*x)
    }

    fn from_words(words: &[u32]) -> Option<F> {
        let [n] = words else {
            return None;
        };
        Some(F::from_u32(*n))
    }
}
