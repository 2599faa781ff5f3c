// The two phases over a shape and a sponge: the constraint phase is steps 1 to 4, the out-of-domain phase steps 5 to 8.
ghost use Rattle.std.specs.Prelude.{◌≡◌};
ghost use Rattle.transcript.specs.Takes.{commit_if};
ghost use Rattle.transcript.specs.Schedule.{sent};
ghost use Rattle.transcript.specs.Phases.{misplaced, unless, random_fault, committed, constraint_answer, constraint_left, ood_answer, ood_left};

use crate::absorb::{take_commitment, take_values};
use crate::challenge::{Challenge, draw_challenge};
use crate::failure::StarkTranscriptFailure;
use crate::input::{ConstraintInput, OodInput};
use crate::role::{Ground, Role};
use crate::shape::StarkShape;
use field::traits::PrimeField;
use sponge::Sponge;

// Zeta, with the witness and the numbers that a prover tried for it; a verifier tries none.
#[derive(Clone, Copy)]
pub struct OodDraw<E> {
    pub zeta: E,
    pub witness: u32,
    pub tries: u32,
}

// A commitment that the run may describe.
fn take_optional<S: Sponge>(
    sponge: &mut S,
    described: bool,
    commitment: Option<u64>,
    missing: StarkTranscriptFailure,
    unexpected: StarkTranscriptFailure,
) -> Result<(), StarkTranscriptFailure>
    ensures fault { result ≡ unless (misplaced described commitment missing unexpected) }
    ensures left { sponge.new ≡ commit_if S.steps described commitment sponge.old }
{
    match (described, commitment) {
        (true, Some(commitment)) => {
            take_commitment(sponge, commitment);
            Ok(())
        }
        (true, None) => Err(missing),
        (false, Some(_)) => Err(unexpected),
        (false, None) => Ok(()),
    }
}

// Alpha. The wrong number of public values leaves everything as it was; another refusal ends the run.
pub fn constraint_phase<S: Sponge, F: PrimeField, E: Challenge<F>>(
    shape: StarkShape,
    sponge: &mut S,
    input: ConstraintInput<F>,
) -> Result<E, StarkTranscriptFailure>
    ensures answer { result ≡ constraint_answer S.steps E.draws shape (sent F.numbered input.entry) sponge.old }
    ensures left { sponge.new ≡ constraint_left S.steps E.draws shape (sent F.numbered input.entry) sponge.old }
{
    if input.public_values.len() != shape.num_public_values {
        return Err(StarkTranscriptFailure::PublicCount);
    }
    take_commitment(sponge, input.trace);
    let width = shape.preprocessed_width;
    take_optional(
        sponge,
        width > 0,
        input.preprocessed,
        StarkTranscriptFailure::MissingPreprocessedCommitment { width },
        StarkTranscriptFailure::UnexpectedPreprocessedCommitment,
    )?;
    take_values(sponge, input.public_values);
    Ok(draw_challenge::<S, F, E>(sponge))
}

// Steps 5 and 6.
fn take_quotient<S: Sponge>(
    shape: StarkShape,
    sponge: &mut S,
    input: OodInput,
) -> Result<(), StarkTranscriptFailure>
    ensures fault { result ≡ unless (random_fault shape input.random) }
    ensures left { sponge.new ≡ committed S.steps shape input.quotient input.random sponge.old }
{
    take_commitment(sponge, input.quotient);
    take_optional(
        sponge,
        shape.has_randomization,
        input.random,
        StarkTranscriptFailure::MissingRandomCommitment,
        StarkTranscriptFailure::UnexpectedRandomCommitment,
    )
}

pub fn ood_phase<R: Role, S: Sponge, F: PrimeField, E: Challenge<F>>(
    shape: StarkShape,
    sponge: &mut S,
    input: OodInput,
) -> Result<OodDraw<E>, StarkTranscriptFailure>
    ensures answer { result ≡ ood_answer S.steps E.draws shape R.role input.quotient input.random input.last sponge.old }
    ensures left { sponge.new ≡ ood_left S.steps E.draws shape R.role input.quotient input.random input.last sponge.old }
{
    take_quotient(shape, sponge, input)?;
    let Ground { witness, tries } = R::grind::<S, F>(sponge, shape.ood_pow_bits, input.last)?;
    let zeta = draw_challenge::<S, F, E>(sponge);
    Ok(OodDraw {
        zeta,
        witness,
        tries,
    })
}
