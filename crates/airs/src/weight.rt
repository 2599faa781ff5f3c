// The weight AIR: s is r times the preprocessed w, plus the periodic k, which is 1 and 0 by turns.
ghost use Rattle.std.specs.Prelude.{◌≡◌, [], ◌∷◌, refl};
ghost use Rattle.airs.specs.Weight.{weight, weight_layout};

use air::builder::{Air, AirBuilder, Layout, Rows};
use field::traits::Field;

#[derive(Clone, Copy)]
pub struct WeightAir<F> {
    k: [F; 2],
}

impl<F: Field> WeightAir<F> {
    pub fn new() -> WeightAir<F>
        ensures { result.k ≡ F.ops.one ∷ F.ops.zero ∷ [] }
    {
        WeightAir {
            k: [F::one(), F::zero()],
        }
    }
}

impl<F: Field> Air<F> for WeightAir<F> {
    ghost declared = { λ _. weight_layout };

    ghost periodics = { λ a. a.k ∷ [] };

    ghost constraints = { λ _. weight };

    ghost sound = { λ _. record { within = refl; counted = refl } };

    fn layout(&self) -> Layout {
        Layout {
            width: 2,
            preprocessed_width: 1,
            num_periodic_columns: 1,
            ..Layout::default()
        }
    }

    fn periodic_column(&self, column: usize) -> &[F] {
        if column == 0 { &self.k } else { &[] }
    }

    fn eval<R: Rows, B: AirBuilder<R::Expr>>(&self, rows: &R, builder: &mut B) {
        let r = rows.main(0);
        let s = rows.main(1);
        builder.assert_zero(s - r * rows.preprocessed(0) - rows.periodic_value(0));
    }
}
