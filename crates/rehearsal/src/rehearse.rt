// Both ends, each driven over its own list of requests.
ghost use Rattle.std.specs.Prelude.{map};
ghost use Rattle.rehearsal.specs.Driven.{meant};
ghost use Rattle.rehearsal.specs.Agreement.{Rehearsed};

use crate::request::Request;
use crate::run::drive;
use crate::standing::Standing;
use field::traits::PrimeField;
use sponge::Sponge;
use transcript::challenge::Challenge;
use transcript::role::{Prover, Verifier};
use transcript::shape::StarkShape;

#[derive(Clone, Copy)]
pub struct Rehearsal<E> {
    pub prover: Standing<E>,
    pub verifier: Standing<E>,
}

// Drives a new prover's end and a new verifier's end of one shape, each over its own requests and its own sponge.
// A request that an end's state does not allow changes nothing.
pub fn rehearse<S: Sponge, F: PrimeField, E: Challenge<F>>(
    prover_sponge: &mut S,
    verifier_sponge: &mut S,
    shape: StarkShape,
    asked: &[Request<F>],
    replied: &[Request<F>],
) -> Rehearsal<E>
    ensures { Rehearsed S.steps E.draws shape prover_sponge.old verifier_sponge.old (map (meant F.numbered) asked.now) (map (meant F.numbered) replied.now) result prover_sponge.new verifier_sponge.new }
{
    let prover = drive::<Prover, S, F, E>(prover_sponge, shape, asked);
    let verifier = drive::<Verifier, S, F, E>(verifier_sponge, shape, replied);
    Rehearsal { prover, verifier }
}
