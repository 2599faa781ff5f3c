// Fields: inverses modulo 17, products of pairs, roots of unity and values of polynomials, with their numbers.
#[cfg(test)]
mod tests {
    use crate::told::{number, pair, parts};
    use field::extension::Extension;
    use field::traits::{Field, PrimeField};
    use field::{horner, roots};
    use pair::Pair;
    use residue::moduli::{BabyBear, Seventeen};
    use std::process::Abort;

    // The inverses of 1 to 16 modulo 17.
    const INVERSES: [u32; 16] = [1, 9, 6, 13, 7, 3, 5, 15, 2, 12, 14, 10, 4, 11, 8, 16];

    fn check_pair(rt: &impl Abort, x: Pair<BabyBear>, base: u32, root: u32) {
        assert_eq!(rt; x.base.number(), base);
        assert_eq!(rt; x.root.number(), root);
    }

    #[test]
    fn inverses_modulo_17(rt: HostRuntime) {
        assert_eq!(rt; number(Seventeen::zero().inverse()), None);
        for (n, inverse) in (1..17u32).zip(INVERSES) {
            assert_eq!(rt; number(Seventeen::from_u32(n).inverse()), Some(inverse));
        }
    }

    #[test]
    fn numbers_and_reduction(rt: HostRuntime) {
        assert_eq!(rt; Seventeen::order(), 17);
        assert_eq!(rt; BabyBear::order(), 2013265921);
        assert_eq!(rt; number(Seventeen::from_number(17)), None);
        assert_eq!(rt; number(BabyBear::from_number(2013265921)), None);
        assert_eq!(rt; number(BabyBear::from_number(4294967295)), None);
        assert_eq!(rt; number(Seventeen::from_number(16)), Some(16));
        assert_eq!(rt; Seventeen::from_u32(4294967295).number(), 0);
        assert_eq!(rt; BabyBear::from_u32(4294967295).number(), 268435453);
        assert_eq!(rt;
            (Seventeen::from_u32(3) - Seventeen::from_u32(5)).number(),
            15
        );
        assert_eq!(rt; (-Seventeen::zero()).number(), 0);
    }

    #[test]
    fn large_products(rt: HostRuntime) {
        let last = BabyBear::from_u32(2013265920);
        assert_eq!(rt; (last * last).number(), 1);
        assert_eq!(rt;
            (BabyBear::from_u32(123456789) * BabyBear::from_u32(987654321)).number(),
            6500116
        );
        assert_eq!(rt; number(BabyBear::from_u32(3).inverse()), Some(1342177281));
    }

    #[test]
    fn products_of_pairs(rt: HostRuntime) {
        check_pair(&rt, pair(0, 1) * pair(0, 1), 11, 0);
        check_pair(&rt, pair(3, 4) * pair(5, 6), 279, 38);
        check_pair(&rt, pair(2013265920, 1) * pair(1, 1), 10, 0);
        check_pair(&rt, pair(3, 4) - pair(5, 6), 2013265919, 2013265919);
        check_pair(&rt, -pair(3, 4), 2013265918, 2013265917);
        assert_eq!(rt; parts(pair(3, 4).inverse()), Some((1169382002, 1796267199)));
        assert_eq!(rt; parts(pair(0, 0).inverse()), None);
        assert!(rt; !pair(3, 4).equals(pair(3, 5)));
    }

    #[test]
    fn elements_from_words(rt: HostRuntime) {
        assert_eq!(rt;
            parts(<Pair<BabyBear> as Extension<BabyBear>>::from_words(&[2013265922, 4294967295])),
            Some((1, 268435453))
        );
        assert_eq!(rt;
            parts(<Pair<BabyBear> as Extension<BabyBear>>::from_words(&[1])),
            None
        );
        assert_eq!(rt;
            parts(<Pair<BabyBear> as Extension<BabyBear>>::from_words(&[1, 2, 3])),
            None
        );
        assert_eq!(rt;
            parts(<Pair<BabyBear> as Extension<BabyBear>>::combine(&[pair(1, 2), pair(3, 4)])),
            Some((45, 5))
        );
        assert_eq!(rt;
            parts(<Pair<BabyBear> as Extension<BabyBear>>::combine(&[pair(1, 2)])),
            None
        );
        check_pair(
            &rt,
            <Pair<BabyBear> as Extension<BabyBear>>::embed(BabyBear::from_u32(7)),
            7,
            0,
        );
        check_pair(
            &rt,
            <Pair<BabyBear> as Extension<BabyBear>>::basis_element(0),
            1,
            0,
        );
        check_pair(
            &rt,
            <Pair<BabyBear> as Extension<BabyBear>>::basis_element(1),
            0,
            1,
        );
    }

    #[test]
    fn a_field_over_itself(rt: HostRuntime) {
        assert_eq!(rt;
            number(<Seventeen as Extension<Seventeen>>::from_words(&[40])),
            Some(6)
        );
        assert_eq!(rt;
            number(<Seventeen as Extension<Seventeen>>::from_words(&[])),
            None
        );
        assert_eq!(rt;
            number(<Seventeen as Extension<Seventeen>>::combine(&[Seventeen::from_u32(9)])),
            Some(9)
        );
    }

    #[test]
    fn roots_of_unity_modulo_17(rt: HostRuntime) {
        assert_eq!(rt; number(roots::root_of_unity::<Seventeen>(0)), Some(1));
        assert_eq!(rt; number(roots::root_of_unity::<Seventeen>(1)), Some(16));
        assert_eq!(rt; number(roots::root_of_unity::<Seventeen>(2)), Some(13));
        assert_eq!(rt; number(roots::root_of_unity::<Seventeen>(4)), Some(3));
        assert_eq!(rt; number(roots::root_of_unity::<Seventeen>(5)), None);
    }

    #[test]
    fn roots_of_unity_of_the_second_prime(rt: HostRuntime) {
        assert_eq!(rt;
            number(roots::root_of_unity::<BabyBear>(1)),
            Some(2013265920)
        );
        assert_eq!(rt;
            number(roots::root_of_unity::<BabyBear>(27)),
            Some(440564289)
        );
        assert_eq!(rt; number(roots::root_of_unity::<BabyBear>(28)), None);
    }

    #[test]
    fn values_of_polynomials(rt: HostRuntime) {
        let cubic = [
            Seventeen::from_u32(1),
            Seventeen::from_u32(2),
            Seventeen::from_u32(3),
            Seventeen::from_u32(4),
        ];
        assert_eq!(rt; horner::eval(&cubic, Seventeen::from_u32(2)).number(), 15);
        assert_eq!(rt; horner::eval(&cubic, Seventeen::zero()).number(), 1);
        let line = [BabyBear::from_u32(5), BabyBear::from_u32(3)];
        check_pair(
            &rt,
            horner::eval_above::<BabyBear, Pair<BabyBear>>(&line, pair(2, 1)),
            11,
            3,
        );
    }
}
