// A prover's end in each of its states.
use crate::end::{Bracket, Closed, End, Mid, Ready, Start};
use transcript::role::Prover;

pub type ProverStart = End<Prover, Start>;

pub type ProverMid = End<Prover, Mid>;

pub type ProverReady = End<Prover, Ready>;

pub type ProverBracket = End<Prover, Bracket>;

pub type ProverClosed = End<Prover, Closed>;
