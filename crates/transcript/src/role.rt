// The two roles of an end: a prover looks for the witness of step 7, and a verifier checks the one that it is given.
ghost use Rattle.std.specs.Prelude.{◌≡◌};
ghost use Rattle.transcript.specs.Roles.{Role as RoleName, prover, verifier};
ghost use Rattle.transcript.specs.Phases.{ground_answer, ground_left};

use crate::failure::StarkTranscriptFailure;
use crate::witness::{check_witness, least_witness};
use field::traits::PrimeField;
use sponge::Sponge;

// A witness, with the numbers that were tried for it.
#[derive(Clone, Copy)]
pub struct Ground {
    pub witness: u32,
    pub tries: u32,
}

pub trait Role {
    ghost role: { RoleName };

    // Step 7.
    fn grind<S: Sponge, F: PrimeField>(
        sponge: &mut S,
        bits: usize,
        last: u32,
    ) -> Result<Ground, StarkTranscriptFailure>
        ensures answer { result ≡ ground_answer S.steps F.modulus bits last sponge.old role }
        ensures left { sponge.new ≡ ground_left S.steps F.modulus bits last sponge.old role };
}

pub struct Prover;

pub struct Verifier;

impl Role for Prover {
    ghost role = { prover };

    // Tries the numbers below the budget and the order of F.
    fn grind<S: Sponge, F: PrimeField>(
        sponge: &mut S,
        bits: usize,
        budget: u32,
    ) -> Result<Ground, StarkTranscriptFailure> {
        if bits == 0 {
            return Ok(Ground {
                witness: 0,
                tries: 0,
            });
        }
        let witness = least_witness(sponge, bits, budget.min(F::order())).ok_or(
            StarkTranscriptFailure::GrindBudgetSpent,
        )?;
        check_witness(sponge, witness, bits);
        Ok(Ground {
            witness,
            tries: witness + 1,
        })
    }
}

impl Role for Verifier {
    ghost role = { verifier };

    fn grind<S: Sponge, F: PrimeField>(
        sponge: &mut S,
        bits: usize,
        witness: u32,
    ) -> Result<Ground, StarkTranscriptFailure> {
        if bits > 0 && !check_witness(sponge, witness, bits) {
            return Err(StarkTranscriptFailure::OodPowWitness { bits });
        }
        Ok(Ground { witness, tries: 0 })
    }
}
