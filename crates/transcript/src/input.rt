// What a caller gives to each phase.

#[derive_where(Clone, Copy)]
pub struct ConstraintInput<'a, F> {
    pub trace: u64,
    pub preprocessed: Option<u64>,
    pub public_values: &'a [F],
}

// `last` is a prover's budget, and a verifier's witness.
#[derive(Clone, Copy)]
pub struct OodInput {
    pub quotient: u64,
    pub random: Option<u64>,
    pub last: u32,
}
