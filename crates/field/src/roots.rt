// Prime fields with a known generator, and their roots of unity.
ghost use Rattle.std.specs.Prelude.{◌≡◌, ℕ, ◌^◌, ◌≤◌};
ghost use Rattle.algebra.specs.Ring.{pow};
ghost use Rattle.field.specs.TwoAdic.{TwoAdicLaws, HasOrder, root, root_within};

use crate::traits::PrimeField;

// A fixed element whose power odd * 2^(bits - 1) is -1, so that its powers have roots of unity of each order up to 2^bits.
pub trait TwoAdic: PrimeField {
    ghost generated: { Self };

    ghost odd: { ℕ };

    ghost bits: { ℕ };

    // The generator is in no group of 2^apart elements.
    ghost apart: { ℕ };

    // Functions and no constants: beside a constant stands a ghost member of its own, so an impl would say each number once more.
    fn greatest_bits() -> u32
        ensures { result ≡ bits };

    fn apart_bits() -> u32
        ensures { result ≡ apart };

    fn generator() -> Self
        ensures { result ≡ generated };

    // Of order 2^bits.
    fn top_root() -> Self
        ensures { result ≡ pow Self.Field.ops generated odd };

    ghost adic: { TwoAdicLaws Self.Field.ops generated odd bits apart };
}

// The root of unity of order 2^k, which is the generator's power odd * 2^(bits - k); nothing where k passes the greatest.
pub fn root_of_unity<F: TwoAdic>(k: u32) -> Option<F>
    ensures value { result ≡ root_within F.Field.ops F.generated F.odd F.bits k }
    ensures order { k ≤ F.bits → HasOrder F.Field.ops (root F.Field.ops F.generated F.odd F.bits k) (2 ^ k) }
{
    if k > F::greatest_bits() {
        return None;
    }
    let mut root = F::top_root();
    for _ in k..F::greatest_bits() {
        root = root * root;
    }
    Some(root)
}
