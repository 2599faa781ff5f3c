// An end of a transcript: each state is moved into the next, holds the shape, and is lent the sponge at each call.
ghost use Rattle.std.specs.Prelude.{◌≡◌};
ghost use Rattle.transcript.specs.Takes.{takes};
ghost use Rattle.transcript.specs.Seed.{seed};
ghost use Rattle.transcript.specs.Schedule.{sent};
ghost use Rattle.transcript.specs.Phases.{constraint_answer, constraint_left, ood_answer, ood_left};
ghost use Rattle.ends.specs.Ends.{end_of, stopped_by, after_alpha, after_zeta};

use field::traits::PrimeField;
use sponge::Sponge;
use std::marker::PhantomData;
use transcript::challenge::Challenge;
use transcript::failure::StarkTranscriptFailure;
use transcript::input::{ConstraintInput, OodInput};
use transcript::phases::{OodDraw, constraint_phase, ood_phase};
use transcript::role::Role;
use transcript::seed::take_seed;
use transcript::shape::StarkShape;

// The end of a role in a state of its run.
pub struct End<R, P> {
    shape: StarkShape,
    role: PhantomData<R>,
    state: PhantomData<P>,
}

pub struct Start;

pub struct Mid;

pub struct Ready;

// The opened bracket: only `end` takes it.
pub struct Bracket;

pub struct Closed;

// A refusal that hands the end back, or one that ends the run.
pub enum Stopped<E> {
    Refused(E, StarkTranscriptFailure),
    Ended(StarkTranscriptFailure),
}

impl<R, P> End<R, P> {
    fn of(shape: StarkShape) -> End<R, P>
        ensures { result ≡ end_of shape }
    {
        End {
            shape,
            role: PhantomData,
            state: PhantomData,
        }
    }

    // Takes the end apart.
    pub(crate) fn shape(self) -> StarkShape
        ensures { result ≡ self.shape }
    {
        let End {
            shape,
            role: _,
            state: _,
        } = self;
        shape
    }
}

// What a refusal of the constraint phase makes of the end.
fn halt<R>(shape: StarkShape, failure: StarkTranscriptFailure) -> Stopped<End<R, Start>>
    ensures { result ≡ stopped_by shape failure }
{
    match failure {
        StarkTranscriptFailure::PublicCount => Stopped::Refused(End::of(shape), failure),
        _ => Stopped::Ended(failure),
    }
}

impl<R> End<R, Start> {
    pub fn new<S: Sponge>(sponge: &mut S, shape: StarkShape) -> End<R, Start>
        ensures end { result.shape ≡ shape }
        ensures left { sponge.new ≡ takes S.steps (seed shape) sponge.old }
    {
        take_seed(sponge, &shape);
        End::of(shape)
    }

    // A wrong number of public values hands the end back, and another refusal ends the run.
    pub fn constraint_phase<S: Sponge, F: PrimeField, E: Challenge<F>>(
        self,
        sponge: &mut S,
        input: ConstraintInput<F>,
    ) -> Result<(End<R, Mid>, E), Stopped<End<R, Start>>>
        ensures answer { result ≡ after_alpha self.shape (constraint_answer S.steps E.draws self.shape (sent F.numbered input.entry) sponge.old) }
        ensures left { sponge.new ≡ constraint_left S.steps E.draws self.shape (sent F.numbered input.entry) sponge.old }
    {
        let shape = self.shape();
        let passed = constraint_phase::<S, F, E>(shape, sponge, input);
        let alpha = passed.map_err(|failure| halt(shape, failure))?;
        Ok((End::of(shape), alpha))
    }
}

impl<R: Role> End<R, Mid> {
    pub fn ood_phase<S: Sponge, F: PrimeField, E: Challenge<F>>(
        self,
        sponge: &mut S,
        input: OodInput,
    ) -> Result<(End<R, Ready>, OodDraw<E>), StarkTranscriptFailure>
        ensures answer { result ≡ after_zeta self.shape (ood_answer S.steps E.draws self.shape R.role input.quotient input.random input.last sponge.old) }
        ensures left { sponge.new ≡ ood_left S.steps E.draws self.shape R.role input.quotient input.random input.last sponge.old }
    {
        let shape = self.shape();
        let draw = ood_phase::<R, S, F, E>(shape, sponge, input)?;
        Ok((End::of(shape), draw))
    }
}

impl<R> End<R, Ready> {
    // Opens the bracket; the sponge is the caller's until the bracket is closed.
    pub fn begin(self) -> End<R, Bracket>
        ensures { result.shape ≡ self.shape }
    {
        End::<R, Bracket>::of(self.shape())
    }
}

impl<R> End<R, Bracket> {
    pub fn end(self) -> End<R, Closed>
        ensures { result.shape ≡ self.shape }
    {
        End::<R, Closed>::of(self.shape())
    }
}

impl<R> End<R, Closed> {
    // Ends the run, and answers the shape that it was of.
    pub fn finish(self) -> StarkShape
        ensures { result ≡ self.shape }
    {
        self.shape()
    }
}
