// Domains: cosets and progressions modulo 17 with their numbers, and sizes and refusals at both primes.
ghost use Rattle.examples.specs.Domains.{CosetOfFour, Column, Factors, ProgressionOfFour};

// Nothing here runs: the contract has the numbers.
pub fn worked_domains()
    ensures coset { CosetOfFour }
    ensures column { Column }
    ensures factors { Factors }
    ensures progression { ProgressionOfFour }
{}

#[cfg(test)]
mod tests {
    use crate::told::{number, pair, parts};
    use cosets::{Coset, arith as coset};
    use domain::periodic::Periodic;
    use domain::split;
    use domain::split::Unsplit;
    use domain::traits::{Domain, Points};
    use field::extension::Extension;
    use field::traits::{Field, PrimeField};
    use pair::Pair;
    use progressions::{Progression, arith as progression};
    use residue::moduli::{BabyBear, Seventeen};
    use std::test::Fail;

    type Turn = Coset<Seventeen, Seventeen>;

    type Line = Progression<Seventeen, Seventeen>;

    type BigTurn = Coset<BabyBear, Pair<BabyBear>>;

    type BigLine = Progression<BabyBear, Pair<BabyBear>>;

    // The size, the first point and the last.
    fn shape<D: Domain>(d: Option<D>) -> Option<(usize, u32, u32)> {
        let d = d?;
        let n = d.size();
        let last = n.checked_sub(1)?;
        Some((n, d.first_point().number(), d.point(last).number()))
    }

    fn beside<D: Domain>(d: Option<D>, size: usize) -> Option<(usize, u32, u32)> {
        shape(d?.disjoint(size))
    }

    fn part<D: Domain>(d: Option<D>, i: usize, k: usize) -> Option<(usize, u32, u32)> {
        shape(d?.piece(i, k))
    }

    // A name for each, so that a test names no fields.
    fn turn(size: usize) -> Option<Turn> {
        coset::coset(Seventeen::one(), size)
    }

    fn line(size: usize) -> Option<Line> {
        progression::progression(Seventeen::zero(), Seventeen::one(), size)
    }

    fn big_turn(size: usize) -> Option<BigTurn> {
        coset::coset(BabyBear::one(), size)
    }

    fn big_line(size: usize) -> Option<BigLine> {
        progression::progression(BabyBear::zero(), BabyBear::one(), size)
    }

    #[test]
    fn cosets_modulo_17(rt: HostRuntime) {
        assert_eq!(rt; shape(turn(1)), Some((1, 1, 1)));
        assert_eq!(rt; shape(turn(2)), Some((2, 1, 16)));
        assert_eq!(rt; shape(turn(8)), Some((8, 1, 2)));
        assert_eq!(rt; shape(turn(16)), Some((16, 1, 6)));
        assert_eq!(rt; shape(turn(32)), None);
        assert_eq!(rt; shape(turn(3)), None);
        assert_eq!(rt; shape(turn(0)), None);
        let zero: Option<Turn> = coset::coset(Seventeen::zero(), 4);
        assert_eq!(rt; shape(zero), None);
        let natural: Option<Turn> = coset::natural(4);
        assert_eq!(rt; shape(natural), Some((16, 1, 6)));
        let large: Option<Turn> = coset::natural(5);
        assert_eq!(rt; shape(large), None);
    }

    #[test]
    fn disjoint_cosets(rt: HostRuntime) {
        assert_eq!(rt; beside(turn(8), 8), Some((8, 3, 6)));
        assert_eq!(rt; beside(turn(8), 16), None);
        assert_eq!(rt; beside(turn(16), 1), None);
        assert_eq!(rt; beside(turn(4), 3), None);
        assert_eq!(rt; beside(turn(4), 0), None);
        assert_eq!(rt; beside(big_turn(134217728), 1), Some((1, 31, 31)));
        assert_eq!(rt; beside(big_turn(1), 268435456), None);
    }

    #[test]
    fn pieces_of_cosets(rt: HostRuntime) {
        assert_eq!(rt; part(turn(4), 0, 1), Some((4, 1, 4)));
        assert_eq!(rt; part(turn(4), 1, 2), Some((2, 13, 4)));
        assert_eq!(rt; part(turn(4), 3, 4), Some((1, 4, 4)));
        assert_eq!(rt; part(turn(4), 2, 2), None);
        assert_eq!(rt; part(turn(4), 0, 3), None);
        assert_eq!(rt; part(turn(4), 0, 0), None);
        assert_eq!(rt; part(turn(4), 0, 8), None);
    }

    #[test]
    fn progressions_modulo_17(rt: HostRuntime) {
        assert_eq!(rt; shape(line(1)), Some((1, 0, 0)));
        assert_eq!(rt; shape(line(2)), Some((2, 0, 1)));
        assert_eq!(rt; shape(line(16)), Some((16, 0, 15)));
        assert_eq!(rt; shape(line(32)), None);
        assert_eq!(rt; shape(line(6)), None);
        assert_eq!(rt; shape(line(0)), None);
        let flat: Option<Line> = progression::progression(Seventeen::one(), Seventeen::zero(), 4);
        assert_eq!(rt; shape(flat), None);
        let natural: Option<Line> = progression::natural(3);
        assert_eq!(rt; shape(natural), Some((8, 0, 7)));
        let large: Option<Line> = progression::natural(5);
        assert_eq!(rt; shape(large), None);
    }

    #[test]
    fn disjoint_progressions(rt: HostRuntime) {
        assert_eq!(rt; beside(line(8), 8), Some((8, 8, 15)));
        assert_eq!(rt; beside(line(16), 1), Some((1, 16, 16)));
        assert_eq!(rt; beside(line(16), 2), None);
        assert_eq!(rt; beside(line(1), 3), None);
        assert_eq!(rt; part(line(8), 1, 4), Some((2, 1, 5)));
        assert_eq!(rt; part(line(8), 4, 4), None);
        assert_eq!(rt; beside(big_line(1024), 1024), Some((1024, 1024, 2047)));
        assert_eq!(rt; beside(big_line(1), 2048), None);
    }

    #[test]
    fn large_sizes(rt: HostRuntime) -> Result<(), Fail> {
        assert_eq!(rt; shape(big_turn(2)), Some((2, 1, 2013265920)));
        assert_eq!(rt; shape(big_turn(268435456)), None);
        assert_eq!(rt; shape(big_line(1024)), Some((1024, 0, 1023)));
        assert_eq!(rt; shape(big_line(2048)), None);
        let Some(large) = big_turn(134217728) else {
            return Err(Fail::new("a coset was expected"));
        };
        assert_eq!(rt; large.size(), 134217728);
        Ok(())
    }

    fn vanishing<D: Domain>(d: Option<D>, z: D::Ext) -> Option<D::Ext> {
        d.map(|d| d.vanishing_at(z))
    }

    fn first<D: Domain>(d: Option<D>, z: D::Ext) -> Option<D::Ext> {
        d?.selectors_at(z).map(|s| s.first)
    }

    fn next<D: Domain>(d: Option<D>, z: D::Ext) -> Option<D::Ext> {
        d?.next_point(z)
    }

    fn column<D: Periodic>(d: Option<D>, values: &[D::Base], z: D::Ext) -> Option<D::Ext> {
        d?.periodic_value(values, z)
    }

    #[test]
    fn values_at_points_modulo_17(rt: HostRuntime) {
        let two = Seventeen::from_u32(2);
        let four = Seventeen::from_u32(4);
        assert_eq!(rt; number(vanishing(turn(4), two)), Some(15));
        assert_eq!(rt; number(first(turn(4), two)), Some(15));
        assert_eq!(rt; number(first(turn(4), four)), None);
        assert_eq!(rt; number(next(turn(4), two)), Some(9));
        assert_eq!(rt; number(next(turn(1), two)), Some(2));
        assert_eq!(rt; number(vanishing(line(4), four)), Some(7));
        assert_eq!(rt; number(first(line(4), two)), None);
        assert_eq!(rt; number(next(line(4), two)), Some(3));
        assert_eq!(rt; number(next(line(1), two)), None);
    }

    #[test]
    fn columns_modulo_17(rt: HostRuntime) {
        let one = Seventeen::one();
        let zero = Seventeen::zero();
        let two = Seventeen::from_u32(2);
        assert_eq!(rt; number(column(turn(4), &[one, zero], two)), Some(11));
        assert_eq!(rt;
            number(column(turn(4), &[one, zero], Seventeen::from_u32(13))),
            Some(0)
        );
        assert_eq!(rt; number(column(turn(16), &[two], one)), Some(2));
        assert_eq!(rt;
            number(column(turn(2), &[one, zero, zero, zero], two)),
            None
        );
        assert_eq!(rt; number(column(turn(4), &[one, zero, zero], two)), None);
        assert_eq!(rt; number(column(turn(4), &[], two)), None);
        assert_eq!(rt; number(column(line(4), &[one, zero], two)), Some(1));
        assert_eq!(rt; number(column(line(2), &[one, zero], two)), Some(16));
    }

    #[test]
    fn values_at_pairs(rt: HostRuntime) {
        // √11
        let z = pair(0, 1);
        assert_eq!(rt; parts(vanishing(big_turn(2), z)), Some((10, 0)));
        assert_eq!(rt; parts(next(big_turn(2), z)), Some((0, 2013265920)));
        assert_eq!(rt;
            parts(column(big_turn(4), &[BabyBear::one(), BabyBear::zero()], z)),
            Some((6, 0))
        );
        assert_eq!(rt; parts(vanishing(big_line(2), z)), Some((11, 2013265920)));
        assert_eq!(rt; parts(next(big_line(2), z)), Some((1, 1)));
    }

    // What the split answers, and the first points that the places then have.
    fn three_places(k: usize) -> Option<(Result<(), Unsplit>, [u32; 3])> {
        let d = turn(4)?;
        let mut places = [d; 3];
        let split = split::split(d, k, &mut places);
        Some((split, places.map(|d| d.first_point().number())))
    }

    #[test]
    fn splits_into_a_slice(rt: HostRuntime) {
        assert_eq!(rt; three_places(1), Some((Ok(()), [1, 1, 1])));
        assert_eq!(rt; three_places(2), Some((Ok(()), [1, 13, 1])));
        assert_eq!(rt; three_places(4), Some((Err(Unsplit::FewPlaces), [1, 1, 1])));
        assert_eq!(rt; three_places(3), Some((Err(Unsplit::Uneven), [1, 1, 1])));
        assert_eq!(rt; three_places(0), Some((Err(Unsplit::NoPieces), [1, 1, 1])));
    }
}
