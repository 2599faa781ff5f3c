// AIRs: folds, degrees and chunk counts, rows that are too short, and tables of stations modulo 17.
ghost use Rattle.std.specs.Prelude.{◌≡◌, ◌≤◌, [], ◌∷◌, refl};
ghost use Rattle.examples.specs.Airs.{declaring, three, three_layout};

use air::builder::{Air, AirBuilder, Layout, Rows};
use air::folder::fold_constraints;
use air::opened::OpenedRows;
use airs::station::StationAir;
use field::traits::{Field, PrimeField};
use residue::moduli::Seventeen;
use symbolic::{constraint_degree, get_log_num_quotient_chunks};

// The constraints 4, 0 and 2.
#[derive(Clone, Copy)]
struct Three;

impl<F: Field> Air<F> for Three {
    ghost declared = { λ _. three_layout };

    ghost periodics = { λ _. [] };

    ghost constraints = { λ _. three };

    ghost sound = { λ _. record { within = refl; counted = refl } };

    fn layout(&self) -> Layout {
        Layout::default()
    }

    fn periodic_column(&self, _column: usize) -> &[F] {
        &[]
    }

    fn eval<R: Rows, B: AirBuilder<R::Expr>>(&self, rows: &R, builder: &mut B) {
        builder.assert_zero(rows.number(4));
        builder.assert_zero(rows.number(0));
        builder.assert_zero(rows.number(2));
    }
}

// No constraint, and a degree.
#[derive(Clone, Copy)]
struct Declaring {
    degree: Option<u32>,
}

impl<F: Field> Air<F> for Declaring {
    ghost declared = { λ a. declaring a.degree };

    ghost periodics = { λ _. [] };

    ghost constraints = { λ _. [] };

    ghost sound = { λ _. record { within = refl; counted = refl } };

    fn layout(&self) -> Layout {
        Layout {
            max_constraint_degree: self.degree,
            ..Layout::default()
        }
    }

    fn periodic_column(&self, _column: usize) -> &[F] {
        &[]
    }

    fn eval<R: Rows, B: AirBuilder<R::Expr>>(&self, _rows: &R, _builder: &mut B) {}
}

// ((0 * 3 + 4) * 3 + 0) * 3 + 2 modulo 17; the rows are empty.
fn three_by_three<'a>(none: &'a [Seventeen]) -> Option<u32>
    ensures { result ≡ Some 4 }
{
    let rows = OpenedRows {
        main: none,
        main_next: None,
        preprocessed: none,
        preprocessed_next: None,
        public_values: none,
        periodic_values: none,
        is_first_row: Seventeen::zero(),
        is_last_row: Seventeen::zero(),
        is_transition: Seventeen::zero(),
    };
    let folded = fold_constraints(&Three, &rows, Seventeen::from_u32(3)).ok()?;
    Some(folded.number())
}

// On a coset the transition selector has degree 0, and on a progression 1.
fn station_degree(transition: u32) -> u32
    requires { transition ≤ 1 }
    ensures { result ≡ 2 }
{
    constraint_degree::<Seventeen, StationAir>(&StationAir, transition)
}

// 2^32 chunks for the greatest degree, under zero knowledge.
fn most_chunks() -> usize
    ensures { result ≡ 32 }
{
    get_log_num_quotient_chunks::<Seventeen, Declaring>(
        &Declaring {
            degree: Some(4294967295),
        },
        0,
        true,
    )
}

#[cfg(test)]
mod tests {
    use super::*;
    use crate::told::number;
    use air::picker::constraint_value;
    use airs::weight::WeightAir;
    use symbolic::log2_ceil;
    use walk::{StationRow, Table, WalkEnds};

    // A station, and eight bits from a byte, written out as the row is.
    fn row(station: u32, byte: u32) -> StationRow<Seventeen> {
        let words = [
            station,
            byte & 1,
            (byte >> 1) & 1,
            (byte >> 2) & 1,
            (byte >> 3) & 1,
            (byte >> 4) & 1,
            (byte >> 5) & 1,
            (byte >> 6) & 1,
            (byte >> 7) & 1,
        ];
        StationRow {
            cells: words.map(Seventeen::from_u32),
        }
    }

    // The bits 1, 1, 2 and zeros.
    fn bit_two_is_two(station: u32) -> StationRow<Seventeen> {
        StationRow {
            cells: [station, 1, 1, 2, 0, 0, 0, 0, 0].map(Seventeen::from_u32),
        }
    }

    fn ends(from: u32, to: u32) -> WalkEnds<Seventeen> {
        WalkEnds {
            values: [from, to].map(Seventeen::from_u32),
        }
    }

    fn failure(rows: &[StationRow<Seventeen>], from: u32, to: u32) -> Option<(usize, usize)> {
        let ends = ends(from, to);
        let table = Table { rows, ends: &ends };
        let failure = table.first_failure()?;
        Some((failure.row, failure.constraint))
    }

    // The weight AIR's one constraint, folded by 3; nothing where it is refused.
    fn weigh<'a>(
        main: &'a [Seventeen],
        preprocessed: &'a [Seventeen],
        periodic_values: &'a [Seventeen],
    ) -> Option<u32> {
        let rows = OpenedRows {
            main,
            main_next: None,
            preprocessed,
            preprocessed_next: None,
            public_values: main,
            periodic_values,
            is_first_row: Seventeen::zero(),
            is_last_row: Seventeen::zero(),
            is_transition: Seventeen::one(),
        };
        let folded = fold_constraints(&WeightAir::new(), &rows, Seventeen::from_u32(3)).ok()?;
        Some(folded.number())
    }

    #[test]
    fn folds(rt: HostRuntime) {
        assert_eq!(rt; three_by_three(&[]), Some(4));
        let w = [Seventeen::from_u32(3)];
        let k = [Seventeen::one()];
        assert_eq!(rt;
            weigh(&[Seventeen::from_u32(5), Seventeen::from_u32(16)], &w, &k),
            Some(0)
        );
        assert_eq!(rt;
            weigh(&[Seventeen::from_u32(5), Seventeen::zero()], &w, &k),
            Some(1)
        );
        assert_eq!(rt; weigh(&[Seventeen::from_u32(5)], &w, &k), None);
        assert_eq!(rt;
            weigh(&[Seventeen::from_u32(5), Seventeen::from_u32(16)], &[], &k),
            None
        );
        assert_eq!(rt;
            weigh(&[Seventeen::from_u32(5), Seventeen::from_u32(16)], &w, &[]),
            None
        );
    }

    #[test]
    fn the_period_of_the_weight_air(rt: HostRuntime) {
        let air = WeightAir::<Seventeen>::new();
        let k = air.periodic_column(0);
        assert!(rt; k.len() == 2);
        assert_eq!(rt; k[0].number(), 1);
        assert_eq!(rt; k[1].number(), 0);
        let none = air.periodic_column(1);
        assert_eq!(rt; none.len(), 0);
    }

    #[test]
    fn degrees(rt: HostRuntime) {
        assert_eq!(rt; station_degree(0), 2);
        assert_eq!(rt; station_degree(1), 2);
        assert_eq!(rt;
            constraint_degree::<Seventeen, StationAir>(&StationAir, 4294967294),
            4294967295
        );
        assert_eq!(rt;
            constraint_degree::<Seventeen, StationAir>(&StationAir, 4294967295),
            4294967295
        );
        assert_eq!(rt;
            constraint_degree::<Seventeen, WeightAir<Seventeen>>(&WeightAir::new(), 0),
            2
        );
        assert_eq!(rt; constraint_degree::<Seventeen, Three>(&Three, 5), 0);
    }

    fn chunks(degree: Option<u32>, is_zk: bool) -> usize {
        get_log_num_quotient_chunks::<Seventeen, Declaring>(&Declaring { degree }, 0, is_zk)
    }

    #[test]
    fn chunk_counts(rt: HostRuntime) {
        assert_eq!(rt; most_chunks(), 32);
        assert_eq!(rt; chunks(Some(4294967295), false), 32);
        assert_eq!(rt; chunks(Some(2147483649), false), 31);
        assert_eq!(rt; chunks(Some(2147483649), true), 32);
        assert_eq!(rt; chunks(None, false), 0);
        assert_eq!(rt; chunks(None, true), 0);
        assert_eq!(rt; chunks(Some(2), false), 0);
        assert_eq!(rt; chunks(Some(2), true), 1);
        assert_eq!(rt; chunks(Some(3), false), 1);
        assert_eq!(rt; chunks(Some(3), true), 2);
        assert_eq!(rt; chunks(Some(5), false), 2);
        assert_eq!(rt; log2_ceil(0), 0);
        assert_eq!(rt; log2_ceil(18446744073709551615), 64);
    }

    // From 2 over 8 and 9 to 0: steps of 6, 1 and 8.
    #[test]
    fn a_walk(rt: HostRuntime) {
        let rows = [row(2, 5), row(8, 0), row(9, 7), row(0, 0)];
        assert_eq!(rt; failure(&rows, 2, 0), None);
        assert_eq!(rt; failure(&rows, 3, 0), Some((0, 9)));
        assert_eq!(rt; failure(&rows, 2, 1), Some((3, 10)));
        assert_eq!(rt; failure(&rows[..3], 2, 9), None);
        assert_eq!(rt; failure(&rows[..1], 2, 2), None);
        assert_eq!(rt; failure(&[], 2, 2), None);
    }

    #[test]
    fn a_wrong_step_and_a_wrong_bit(rt: HostRuntime) {
        let rows = [row(2, 5), row(8, 1), bit_two_is_two(9), row(0, 0)];
        assert_eq!(rt; failure(&rows, 2, 0), Some((1, 8)));
        let ends = ends(2, 0);
        let table = Table {
            rows: &rows,
            ends: &ends,
        };
        assert_eq!(rt; table.failing_constraint(2, 0), Some(2));
        assert_eq!(rt; table.failing_constraint(2, 3), Some(8));
        assert_eq!(rt; table.failing_constraint(2, 9), None);
        assert_eq!(rt; number(table.constraint_in_row(2, 2)), Some(2));
        assert_eq!(rt; number(table.constraint_in_row(2, 11)), None);
        assert_eq!(rt; number(table.constraint_in_row(4, 0)), None);
        assert!(rt; table.vanishes_in_row(4, 0));
    }

    // Modulo 17 the bit 4 alone spells -1, so that a step of 1 + 16 goes nowhere: the walk comes to 5 twice.
    #[test]
    fn a_station_twice_modulo_17(rt: HostRuntime) {
        let rows = [row(5, 16), row(5, 0)];
        assert_eq!(rt; failure(&rows, 5, 5), None);
    }

    // The next row is absent and reads as zero.
    #[test]
    fn an_absent_next_row(rt: HostRuntime) {
        let main = row(16, 0).cells;
        let publics = [Seventeen::zero(), Seventeen::zero()];
        assert_eq!(rt; number(alone(&main, &publics, 8)), Some(0));
        assert_eq!(rt; number(alone(&main, &publics, 9)), Some(16));
        assert_eq!(rt; number(alone(&main, &publics, 11)), None);
        assert_eq!(rt; number(alone(&main, &[], 8)), None);
    }

    fn alone<'a>(
        main: &'a [Seventeen],
        public_values: &'a [Seventeen],
        constraint: usize,
    ) -> Option<Seventeen> {
        let rows = OpenedRows {
            main,
            main_next: None,
            preprocessed: main,
            preprocessed_next: None,
            public_values,
            periodic_values: main,
            is_first_row: Seventeen::one(),
            is_last_row: Seventeen::zero(),
            is_transition: Seventeen::one(),
        };
        constraint_value(&StationAir, &rows, constraint).ok()?
    }
}
