// A challenge: as many words as the field has dimensions, each modulo the base field's order.
ghost use Rattle.std.specs.Prelude.{◌≡◌};
ghost use Rattle.transcript.specs.Takes.{Draws, challenge, drawn, over};
ghost use Rattle.std.proofs.Common.{refl};

use field::extension::Extension;
use field::traits::{Field, PrimeField};
use sponge::Sponge;

// An extension of F, with what a challenge in it is made of.
pub trait Challenge<F: PrimeField>: Extension<F> {
    ghost draws: { Draws Self };

    ghost over_words: { draws ≡ over F.modulus Self.Field.ops Self.dim Self.basis };
}

impl<F: PrimeField, E: Extension<F>> Challenge<F> for E {
    ghost draws = { over F.modulus E.Field.ops E.dim E.basis };

    ghost over_words = { refl };
}

pub fn draw_challenge<S: Sponge, F: PrimeField, E: Challenge<F>>(sponge: &mut S) -> E
    ensures value { result ≡ challenge S.steps E.draws sponge.old }
    ensures left { sponge.new ≡ drawn S.steps E.draws sponge.old }
{
    let mut value = E::zero();
    for k in 0..E::dimension() {
        let word = sponge.give() % F::order();
        value = value + E::from_u32(word) * E::basis_element(k);
    }
    value
}
