// The verifier's folder: an AIR's constraints over opened rows, folded into one value.
ghost use Rattle.std.specs.Prelude.{◌≡◌};
ghost use Rattle.air.specs.Folder.{DeclaredSuffices, fold_or_refusal, horner};

use crate::builder::{Air, AirBuilder};
use crate::opened::{AirInputsTooShort, OpenedRows, assert_over};
use field::extension::Extension;
use field::traits::Field;

// The constraints so far, folded by alpha.
#[derive(Clone, Copy)]
pub struct VerifierConstraintFolder<E> {
    alpha: E,
    accumulator: E,
}

impl<E: Field> AirBuilder<E> for VerifierConstraintFolder<E> {
    ghost step = { horner E.Field.ops };

    fn assert_zero(&mut self, x: E) {
        self.accumulator = self.accumulator * self.alpha + x;
    }
}

// A theorem, for the contract below.
fn declared_suffices<F: Field, E: Field, A: Air<F>>(air: &A)
    ensures { DeclaredSuffices E.Field.ops (A.declared air.now) (A.constraints air.now) }
{}

// The AIR's constraints over the rows, folded by alpha from zero. No cell but the declared ones has a part in it.
pub fn fold_constraints<F: Field, E: Extension<F>, A: Air<F>>(
    air: &A,
    rows: &OpenedRows<F, E>,
    alpha: E,
) -> Result<E, AirInputsTooShort>
    ensures value { result ≡ fold_or_refusal E.Field.ops E.embedded (A.declared air.now) (A.constraints air.now) rows.now alpha }
    ensures declared { DeclaredSuffices E.Field.ops (A.declared air.now) (A.constraints air.now) }
{
    declared_suffices::<F, E, A>(air);
    let folder = VerifierConstraintFolder {
        alpha,
        accumulator: E::zero(),
    };
    Ok(assert_over(air, rows, folder)?.accumulator)
}
