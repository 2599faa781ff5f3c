// Powers, inverses and logarithms.
ghost use Rattle.std.specs.Prelude.{◌≡◌, ◌%◌, ◌^◌};
ghost use Rattle.algebra.specs.Field.{total};
ghost use Rattle.algebra.specs.Ring.{pow};
ghost use Rattle.domain.specs.Logarithm.{log_within};

use field::traits::Field;

// x squared k times.
#[tactic(auto, using(crate::proofs::Steps::pow_first, crate::proofs::Steps::pow_twice))]
pub fn squared<E: Field>(x: E, k: u32) -> E
    ensures { result ≡ pow E.ops x (2 ^ k) }
{
    let mut value = x;
    for _ in 0..k {
        value = value * value;
    }
    value
}

#[tactic(auto, using(crate::proofs::Steps::pow_one_more, crate::proofs::Steps::pow_none))]
fn power_of_parity<E: Field>(x: E, n: usize) -> E
    ensures { result ≡ pow E.ops x (n % 2) }
{
    if n % 2 == 1 { x } else { E::one() }
}

// By squaring, over the bits of n from the lowest: what is left of n is halved, and no index is counted.
#[tactic(auto, using(crate::proofs::Steps::pow_end))]
pub fn power<E: Field>(x: E, n: usize) -> E
    ensures { result ≡ pow E.ops x n }
{
    let mut value = E::one();
    let mut square = x;
    let mut left = n;
    while left > 0 {
        value = value * power_of_parity(square, left);
        square = square * square;
        left /= 2;
    }
    value
}

// The inverse, and zero at zero.
pub fn inverse_or_zero<E: Field>(x: E) -> E
    ensures { result ≡ total E.ops E.inverted x }
{
    x.inverse().unwrap_or(E::zero())
}

// log n, where n is a power of two and the logarithm is at most `most`.
#[tactic(auto, using(crate::proofs::Logs::log_of_zero, crate::proofs::Logs::log_of_power, crate::proofs::Logs::log_of_other))]
pub fn log_within(most: u32, n: usize) -> Option<u32>
    ensures { result ≡ log_within most n }
{
    let log = n.checked_ilog2()?;
    if !n.is_power_of_two() {
        return None;
    }
    (log <= most).then_some(log)
}
