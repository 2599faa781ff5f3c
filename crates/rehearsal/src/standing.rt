// How far an end came, with what it drew.
use transcript::failure::StarkTranscriptFailure;

// Both challenges, and the witness.
#[derive(Clone, Copy)]
pub struct Drawn<E> {
    pub alpha: E,
    pub zeta: E,
    pub witness: u32,
}

#[derive(Clone, Copy)]
pub enum Standing<E> {
    Start,
    Mid(E),
    Ready(Drawn<E>),
    Open(Drawn<E>),
    Closed(Drawn<E>),
    Done(Drawn<E>),
    Ended(StarkTranscriptFailure),
}
