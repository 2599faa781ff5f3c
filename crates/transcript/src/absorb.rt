// Commitments, numbers, bytes and field elements, taken into a sponge.
ghost use Rattle.std.specs.Prelude.{◌≡◌, List, ℕ, map};
ghost use Rattle.std.specs.Iterator.{Drains, IsFinite};
ghost use Rattle.transcript.specs.Takes.{takes, commit, be8};
ghost use Rattle.transcript.specs.Seed.{number_bytes};

use field::traits::PrimeField;
use sponge::Sponge;

// Two halves, the high one first.
pub(crate) fn take_commitment<S: Sponge>(sponge: &mut S, commitment: u64)
    ensures { sponge.new ≡ commit S.steps commitment sponge.old }
{
    sponge.take((commitment >> 32) as u32);
    sponge.take((commitment % 4294967296) as u32);
}

fn take_each<S: Sponge, I: Iterator<Item = u32> + Drop>(sponge: &mut S, numbers: I)
    requires can { I.can_next numbers }
    requires ends { IsFinite (I.remaining numbers) }
    ensures { (ns : List ℕ) × Drains I.next_gives numbers ns × (sponge.new ≡ takes S.steps ns sponge.old) }
{
    for n in numbers {
        sponge.take(n);
    }
}

pub(crate) fn take_bytes<S: Sponge>(sponge: &mut S, bytes: &[u8])
    ensures { sponge.new ≡ takes S.steps bytes.now sponge.old }
{
    take_each(sponge, bytes.iter().map(|b| u32::from(*b)));
}

// Each element by its number.
pub(crate) fn take_values<S: Sponge, F: PrimeField>(sponge: &mut S, values: &[F])
    ensures { sponge.new ≡ takes S.steps (map F.numbered values.now) sponge.old }
{
    take_each(sponge, values.iter().map(|x| x.number()));
}

// Eight bytes, big-endian.
pub(crate) fn take_number<S: Sponge>(sponge: &mut S, n: u64)
    ensures { sponge.new ≡ takes S.steps (be8 n) sponge.old }
{
    take_bytes(sponge, &n.to_be_bytes());
}

pub(crate) fn take_numbers<S: Sponge>(sponge: &mut S, numbers: &[u64])
    ensures { sponge.new ≡ takes S.steps (number_bytes numbers.now) sponge.old }
{
    for n in numbers {
        take_number(sponge, *n);
    }
}
