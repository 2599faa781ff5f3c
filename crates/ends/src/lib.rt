// The two ends of a transcript, as states that allow only the order constraint phase, out-of-domain phase, bracket, finish.
#![tactic(auto)]

mod abort;
pub mod end;
pub mod prover;
pub mod verifier;
