// What a phase refuses for, with its number, as docs/VERIFIER.md lists them: the subject names a refusal by a number, so it is no code for a type.
ghost use Rattle.std.specs.Prelude.{◌≡◌};
ghost use Rattle.transcript.specs.Failures.{number_of};

#[derive(Clone, Copy)]
pub enum StarkTranscriptFailure {
    MissingPreprocessedCommitment { width: usize },
    UnexpectedPreprocessedCommitment,
    MissingRandomCommitment,
    UnexpectedRandomCommitment,
    OodPowWitness { bits: usize },
    PublicCount,
    GrindBudgetSpent,
}

impl StarkTranscriptFailure {
    pub fn number(self) -> u32
        ensures { result ≡ number_of self }
    {
        match self {
            StarkTranscriptFailure::OodPowWitness { .. } => 18,
            StarkTranscriptFailure::PublicCount => 26,
            StarkTranscriptFailure::GrindBudgetSpent => 27,
            _ => 28,
        }
    }
}
