// The value of one constraint of an AIR over opened rows.
ghost use Rattle.std.specs.Prelude.{◌≡◌};
ghost use Rattle.air.specs.Picker.{constraint_or_refusal, picked};

use crate::builder::{Air, AirBuilder};
use crate::opened::{AirInputsTooShort, OpenedRows, assert_over};
use field::extension::Extension;
use field::traits::Field;

// What is left to pass before the wanted constraint, and its value once it came.
// It counts down by hand: the AIR calls it for each constraint, and there is nothing to go through.
#[derive(Clone, Copy)]
pub struct ConstraintPicker<E> {
    left: usize,
    found: Option<E>,
}

impl<E: Field> AirBuilder<E> for ConstraintPicker<E> {
    ghost step = { picked };

    fn assert_zero(&mut self, x: E) {
        if self.found.is_none() {
            if self.left == 0 {
                self.found = Some(x);
            } else {
                self.left -= 1;
            }
        }
    }
}

// The value of one of the AIR's constraints over the rows; nothing past the last.
pub fn constraint_value<F: Field, E: Extension<F>, A: Air<F>>(
    air: &A,
    rows: &OpenedRows<F, E>,
    index: usize,
) -> Result<Option<E>, AirInputsTooShort>
    ensures { result ≡ constraint_or_refusal E.Field.ops E.embedded (A.declared air.now) (A.constraints air.now) rows.now index }
{
    let picker = ConstraintPicker {
        left: index,
        found: None,
    };
    Ok(assert_over(air, rows, picker)?.found)
}
