// The calls of an end, as a list of requests holds them.
use transcript::input::{ConstraintInput, OodInput};

// `C` is what the constraint phase is given. A parameter stands for it, since an enum that itself refers to field elements with an invariant
// gets no proof where it is made.
#[derive(Clone, Copy)]
pub enum RequestOf<C> {
    Constraint(C),
    OutOfDomain(OodInput),
    Begin,
    End,
    Finish,
}

pub type Request<'a, F> = RequestOf<ConstraintInput<'a, F>>;
