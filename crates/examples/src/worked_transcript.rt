// Sponges and transcripts, with the numbers that tools/sponge_vectors.py computes from the rules.
ghost use Rattle.std.specs.Prelude.{◌<◌, ◌≤◌, length};

#[cfg(test)]
mod tests {
    use field::traits::{Field, PrimeField};
    use pair::Pair;
    use rehearsal::rehearse::{Rehearsal, rehearse};
    use rehearsal::request::Request;
    use rehearsal::standing::{Drawn, Standing};
    use residue::moduli::{BabyBear, Seventeen};
    use sponge::{Duplex, Rolling, Sponge};
    use std::process::Abort;
    use transcript::challenge::Challenge;
    use transcript::input::{ConstraintInput, OodInput};
    use transcript::seed::seed_length;
    use transcript::shape::StarkShape;

    fn take_all<S: Sponge>(sponge: &mut S, numbers: &[u32]) {
        for n in numbers {
            sponge.take(*n);
        }
    }

    // Three words of a new sponge, two once it took 1 to 4, and one once it took five numbers.
    fn check_words<S: Sponge>(rt: &impl Abort, new: S, words: [u32; 6]) {
        let [first, second, third, fourth, fifth, sixth] = words;
        let mut sponge = new;
        assert_eq!(rt; sponge.give(), first);
        assert_eq!(rt; sponge.give(), second);
        assert_eq!(rt; sponge.give(), third);
        let mut sponge = new;
        take_all(&mut sponge, &[1, 2, 3, 4]);
        assert_eq!(rt; sponge.give(), fourth);
        assert_eq!(rt; sponge.give(), fifth);
        let mut sponge = new;
        take_all(&mut sponge, &[4294967295, 7, 4294967295, 0, 5]);
        assert_eq!(rt; sponge.give(), sixth);
    }

    #[test]
    fn rolling_words(rt: HostRuntime) {
        check_words(
            &rt,
            Rolling::new(),
            [
                1013904223, 1196435762, 3519870697, 275615725, 3346837608, 2283570892,
            ],
        );
    }

    #[test]
    fn duplex_words(rt: HostRuntime) {
        check_words(
            &rt,
            Duplex::new(),
            [
                3694449955, 562918573, 3579597592, 2379111717, 2167255149, 1039412061,
            ],
        );
    }

    // Asking leaves the sponge; 3 bits pass at 6, 14, 22 .., and none passes above 20.
    #[test]
    fn witnesses(rt: HostRuntime) {
        let mut sponge = Rolling::new();
        sponge.take(9);
        assert!(rt; !sponge.passes(5, 3));
        assert!(rt; sponge.passes(6, 3));
        assert!(rt; sponge.passes(14, 3));
        assert!(rt; !sponge.passes(15, 3));
        assert!(rt; sponge.passes(0, 0));
        assert!(rt; !sponge.passes(6, 21));
        let mut other = Rolling::new();
        other.take(9);
        assert_eq!(rt; sponge.give(), other.give());
        let mut sponge = Duplex::new();
        sponge.take(9);
        assert!(rt; sponge.passes(5, 3));
        assert!(rt; !sponge.passes(6, 3));
    }

    // Shapes are written out, with no default: the seed binds each of the numbers.
    fn shape(ood_pow_bits: usize) -> StarkShape {
        StarkShape {
            log_ext_degree: 3,
            log_degree: 3,
            main_width: 9,
            preprocessed_width: 0,
            num_public_values: 2,
            num_periodic_columns: 0,
            num_quotient_chunks: 2,
            opens_main_next_row: true,
            opens_preprocessed_next_row: false,
            has_randomization: false,
            ood_pow_bits,
        }
    }

    // All ten steps, and no public values.
    fn full_shape() -> StarkShape {
        StarkShape {
            log_ext_degree: 4,
            log_degree: 3,
            main_width: 2,
            preprocessed_width: 1,
            num_public_values: 0,
            num_periodic_columns: 1,
            num_quotient_chunks: 4,
            opens_main_next_row: false,
            opens_preprocessed_next_row: false,
            has_randomization: true,
            ood_pow_bits: 5,
        }
    }

    #[test]
    fn seed_lengths(rt: HostRuntime) {
        assert_eq!(rt; seed_length(&shape(0)), 164);
        assert_eq!(rt; seed_length(&shape(2)), 173);
        assert_eq!(rt; seed_length(&full_shape()), 191);
    }

    // What both ends are given, but for a prover's budget and a verifier's witness.
    #[derive(Clone, Copy)]
    struct Sent {
        trace: u64,
        preprocessed: Option<u64>,
        // So many of the two values, which each field makes for itself.
        count: usize,
        random: Option<u64>,
    }

    const PLAIN: Sent = Sent {
        trace: 1,
        preprocessed: None,
        count: 2,
        random: None,
    };

    // A first attempt with one public value is refused and changes nothing.
    fn asked<F>(sent: Sent, values: &[F], last: u32) -> [Request<'_, F>; 6]
        requires one { 0 < length values.now }
        requires enough { sent.count ≤ length values.now }
    {
        [
            Request::Constraint(ConstraintInput {
                trace: 5,
                preprocessed: None,
                public_values: &values[0..1],
            }),
            Request::Constraint(ConstraintInput {
                trace: sent.trace,
                preprocessed: sent.preprocessed,
                public_values: &values[0..sent.count],
            }),
            Request::OutOfDomain(OodInput {
                quotient: 2,
                random: sent.random,
                last,
            }),
            Request::Begin,
            Request::End,
            Request::Finish,
        ]
    }

    fn drawn_17(end: Standing<Seventeen>) -> Option<(u32, u32, u32)> {
        let Standing::Done(drawn) = end else {
            return None;
        };
        Some((drawn.alpha.number(), drawn.zeta.number(), drawn.witness))
    }

    fn drawn_pairs(end: Standing<Pair<BabyBear>>) -> Option<([u32; 4], u32)> {
        let Standing::Done(
            Drawn {
                alpha,
                zeta,
                witness,
            },
        ) = end
        else {
            return None;
        };
        let numbers = [alpha.base, alpha.root, zeta.base, zeta.root].map(BabyBear::number);
        Some((numbers, witness))
    }

    // A prover's budget is 100.
    fn rehearsed<S: Sponge, F: PrimeField, E: Challenge<F>>(
        start: S,
        shape: StarkShape,
        sent: Sent,
        values: &[F],
        witness: u32,
    ) -> Rehearsal<E>
        requires one { 0 < length values.now }
        requires enough { sent.count ≤ length values.now }
    {
        let mut prover = start;
        let mut verifier = start;
        rehearse::<S, F, E>(
            &mut prover,
            &mut verifier,
            shape,
            &asked(sent, values, 100),
            &asked(sent, values, witness),
        )
    }

    fn over_17<S: Sponge>(start: S, shape: StarkShape, witness: u32) -> Rehearsal<Seventeen> {
        let values = [Seventeen::from_u32(3), Seventeen::from_u32(5)];
        rehearsed::<S, Seventeen, Seventeen>(start, shape, PLAIN, &values, witness)
    }

    fn over_pairs<S: Sponge>(
        start: S,
        shape: StarkShape,
        sent: Sent,
        witness: u32,
    ) -> Rehearsal<Pair<BabyBear>>
        requires { sent.count ≤ 2 }
    {
        let values = [BabyBear::from_u32(3), BabyBear::from_u32(5)];
        rehearsed::<S, BabyBear, Pair<BabyBear>>(start, shape, sent, &values, witness)
    }

    #[test]
    fn runs_over_17(rt: HostRuntime) {
        let both = over_17(Rolling::new(), shape(0), 0);
        assert_eq!(rt; drawn_17(both.prover), Some((12, 14, 0)));
        assert_eq!(rt; drawn_17(both.verifier), Some((12, 14, 0)));
        let both = over_17(Rolling::new(), shape(2), 3);
        assert_eq!(rt; drawn_17(both.prover), Some((16, 0, 3)));
        assert_eq!(rt; drawn_17(both.verifier), Some((16, 0, 3)));
        let both = over_17(Duplex::new(), shape(0), 0);
        assert_eq!(rt; drawn_17(both.prover), Some((13, 12, 0)));
        assert_eq!(rt; drawn_17(both.verifier), Some((13, 12, 0)));
    }

    #[test]
    fn runs_over_pairs(rt: HostRuntime) {
        let sent = Sent {
            trace: 1099511627777,
            preprocessed: None,
            count: 2,
            random: None,
        };
        let both = over_pairs(Rolling::new(), shape(2), sent, 0);
        assert_eq!(rt;
            drawn_pairs(both.prover),
            Some(([1042144763, 132659996, 1561355283, 1140759126], 0))
        );
        assert_eq!(rt;
            drawn_pairs(both.verifier),
            Some(([1042144763, 132659996, 1561355283, 1140759126], 0))
        );
        let both = over_pairs(Duplex::new(), shape(0), sent, 0);
        assert_eq!(rt;
            drawn_pairs(both.prover),
            Some(([1109003428, 831691266, 1341711865, 509015938], 0))
        );
        assert_eq!(rt;
            drawn_pairs(both.verifier),
            Some(([1109003428, 831691266, 1341711865, 509015938], 0))
        );
        let sent = Sent {
            trace: 1099511627777,
            preprocessed: Some(7),
            count: 0,
            random: Some(9),
        };
        let both = over_pairs(Rolling::new(), full_shape(), sent, 6);
        assert_eq!(rt;
            drawn_pairs(both.prover),
            Some(([1979478314, 1685155456, 1593610750, 190117714], 6))
        );
        assert_eq!(rt;
            drawn_pairs(both.verifier),
            Some(([1979478314, 1685155456, 1593610750, 190117714], 6))
        );
    }

    fn failure(end: Standing<Seventeen>) -> Option<u32> {
        let Standing::Ended(failure) = end else {
            return None;
        };
        Some(failure.number())
    }

    // A witness that does not pass, a spent budget, and a preprocessed commitment that nothing describes.
    #[test]
    fn refusals(rt: HostRuntime) {
        assert_eq!(rt;
            failure(over_17(Rolling::new(), shape(2), 0).verifier),
            Some(18)
        );
        assert_eq!(rt;
            failure(over_17(Rolling::new(), shape(21), 0).prover),
            Some(27)
        );
        let values = [Seventeen::from_u32(3), Seventeen::from_u32(5)];
        let mut prover = Rolling::new();
        let mut verifier = Rolling::new();
        let unexpected = [Request::Constraint(ConstraintInput {
            trace: 1,
            preprocessed: Some(4),
            public_values: &values,
        })];
        let miscounted = [Request::Constraint(ConstraintInput {
            trace: 1,
            preprocessed: Some(4),
            public_values: &values[0..1],
        })];
        let both = rehearse::<Rolling, Seventeen, Seventeen>(
            &mut prover,
            &mut verifier,
            shape(0),
            &unexpected,
            &miscounted,
        );
        assert_eq!(rt; failure(both.prover), Some(28));
        assert!(rt; matches!(both.verifier, Standing::Start));
    }
}
