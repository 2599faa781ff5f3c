// How the tests write elements down: a residue by its number, a pair by two.
use field::traits::{Field, PrimeField};
use pair::Pair;
use residue::moduli::BabyBear;

pub(crate) fn number<F: PrimeField>(x: Option<F>) -> Option<u32> {
    x.map(F::number)
}

pub(crate) fn parts(x: Option<Pair<BabyBear>>) -> Option<(u32, u32)> {
    x.map(|x| (x.base.number(), x.root.number()))
}

pub(crate) fn pair(base: u32, root: u32) -> Pair<BabyBear> {
    Pair {
        base: BabyBear::from_u32(base),
        root: BabyBear::from_u32(root),
    }
}
