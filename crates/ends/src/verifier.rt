// A verifier's end in each of its states.
use crate::end::{Bracket, Closed, End, Mid, Ready, Start};
use transcript::role::Verifier;

pub type VerifierStart = End<Verifier, Start>;

pub type VerifierMid = End<Verifier, Mid>;

pub type VerifierReady = End<Verifier, Ready>;

pub type VerifierBracket = End<Verifier, Bracket>;

pub type VerifierClosed = End<Verifier, Closed>;
