// The witness of step 7: looked for, and checked.
ghost use Rattle.std.specs.Prelude.{◌≡◌};
ghost use Rattle.sponge.specs.Steps.{passing, checked};
ghost use Rattle.transcript.specs.Phases.{least, Under};

use sponge::Sponge;

// The least witness below the limit that passes.
pub(crate) fn least_witness<S: Sponge>(sponge: &S, bits: usize, limit: u32) -> Option<u32>
    ensures least { result ≡ least (λ w. passing S.steps sponge.now w bits) limit }
    ensures below { Under result limit }
{
    (0..limit).find(|w| sponge.passes(*w, bits))
}

// The check of a witness, which takes it and lets a word be given. It answers whether it passed and no failure, since a prover knows.
pub(crate) fn check_witness<S: Sponge>(sponge: &mut S, witness: u32, bits: usize) -> bool
    ensures passed { result ≡ passing S.steps sponge.old witness bits }
    ensures left { sponge.new ≡ checked S.steps sponge.old witness }
{
    let passed = sponge.passes(witness, bits);
    sponge.take(witness);
    sponge.give();
    passed
}
