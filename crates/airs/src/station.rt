// The station AIR: a walk from public value 0 to public value 1, over stations each 1 to 256 past the one before.
// Column 0 is the station, and columns 1 to 8 are the bits of the step to the next, less 1.
ghost use Rattle.std.specs.Prelude.{◌≡◌, [], refl};
ghost use Rattle.airs.specs.Station.{byte as the_byte, station, station_layout};
ghost use Rattle.expression.specs.Expression.{meaning};

use air::builder::{Air, AirBuilder, Layout, Rows, assert_bools};
use field::traits::Field;

// The number that the bits write, the lowest first. Inlined, so that it is not formed where nothing reads it, and its coefficients are numbers to the compiler.
#[inline(always)]
fn byte<R: Rows>(rows: &R) -> R::Expr
    ensures { result ≡ meaning R.Expr.Algebra.operations (R.reads rows.now) the_byte }
{
    let mut sum = rows.number(1) * rows.main(1);
    for bit in 1..8usize {
        sum = sum + rows.number(1 << bit) * rows.main(bit + 1);
    }
    sum
}

#[derive(Clone, Copy)]
pub struct StationAir;

impl<F: Field> Air<F> for StationAir {
    ghost declared = { λ _. station_layout };

    ghost periodics = { λ _. [] };

    ghost constraints = { λ _. station };

    ghost sound = { λ _. record { within = refl; counted = refl } };

    fn layout(&self) -> Layout {
        Layout {
            width: 9,
            num_public_values: 2,
            main_next: true,
            ..Layout::default()
        }
    }

    fn periodic_column(&self, _column: usize) -> &[F] {
        &[]
    }

    fn eval<R: Rows, B: AirBuilder<R::Expr>>(&self, rows: &R, builder: &mut B) {
        assert_bools(rows, builder, 1..9);
        let station = rows.main(0);
        let step = rows.main_next(0) - station - rows.number(1);
        builder.assert_zero(rows.is_transition() * (step - byte(rows)));
        builder.assert_zero(rows.is_first_row() * (station - rows.public_value(0)));
        builder.assert_zero(rows.is_last_row() * (station - rows.public_value(1)));
    }
}
