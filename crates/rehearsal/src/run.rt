// An end driven over a list of requests.
ghost use Rattle.std.specs.Prelude.{◌≡◌, map};
ghost use Rattle.transcript.specs.Schedule.{sent};
ghost use Rattle.rehearsal.specs.Runs.{constraint, out_of_domain, sponge_of, run as run_of};
ghost use Rattle.rehearsal.specs.Driven.{meant, standing, Goes, run_opens, run_closes, run_finishes, shows};

use crate::request::Request;
use crate::standing::{Drawn, Standing};
use ends::end::{Bracket, Closed, End, Mid, Ready, Start, Stopped};
use field::traits::PrimeField;
use sponge::Sponge;
use transcript::challenge::Challenge;
use transcript::failure::StarkTranscriptFailure;
use transcript::input::{ConstraintInput, OodInput};
use transcript::role::Role;
use transcript::shape::StarkShape;

// The end of a role, with what it drew.
pub(crate) enum Run<R, E> {
    Start(End<R, Start>),
    Mid(End<R, Mid>, E),
    Ready(End<R, Ready>, Drawn<E>),
    Open(End<R, Bracket>, Drawn<E>),
    Closed(End<R, Closed>, Drawn<E>),
    Done(Drawn<E>),
    Ended(StarkTranscriptFailure),
}

fn constraint_request<R: Role, S: Sponge, F: PrimeField, E: Challenge<F>>(
    run: Run<R, E>,
    sponge: &mut S,
    input: ConstraintInput<F>,
) -> Run<R, E>
    ensures { Goes S.steps E.draws R.role (constraint (sent F.numbered input.entry)) run sponge.old result sponge.new }
{
    match run {
        Run::Start(end) => match end.constraint_phase::<S, F, E>(sponge, input) {
            Ok((mid, alpha)) => Run::Mid(mid, alpha),
            Err(Stopped::Refused(start, _)) => Run::Start(start),
            Err(Stopped::Ended(failure)) => Run::Ended(failure),
        },
        other => other,
    }
}

fn ood_request<R: Role, S: Sponge, F: PrimeField, E: Challenge<F>>(
    run: Run<R, E>,
    sponge: &mut S,
    input: OodInput,
) -> Run<R, E>
    ensures { Goes S.steps E.draws R.role (out_of_domain input.quotient input.random input.last) run sponge.old result sponge.new }
{
    match run {
        Run::Mid(end, alpha) => match end.ood_phase::<S, F, E>(sponge, input) {
            Ok((ready, draw)) => Run::Ready(
                ready,
                Drawn {
                    alpha,
                    zeta: draw.zeta,
                    witness: draw.witness,
                },
            ),
            Err(failure) => Run::Ended(failure),
        },
        other => other,
    }
}

fn begin_request<R, E: Copy>(run: Run<R, E>) -> Run<R, E>
    ensures { result ≡ run_opens run }
{
    match run {
        Run::Ready(end, drawn) => Run::Open(end.begin(), drawn),
        other => other,
    }
}

fn end_request<R, E: Copy>(run: Run<R, E>) -> Run<R, E>
    ensures { result ≡ run_closes run }
{
    match run {
        Run::Open(bracket, drawn) => Run::Closed(bracket.end(), drawn),
        other => other,
    }
}

fn finish_request<R, E: Copy>(run: Run<R, E>) -> Run<R, E>
    ensures { result ≡ run_finishes run }
{
    match run {
        Run::Closed(end, drawn) => {
            end.finish();
            Run::Done(drawn)
        }
        other => other,
    }
}

fn one_request<R: Role, S: Sponge, F: PrimeField, E: Challenge<F>>(
    run: Run<R, E>,
    sponge: &mut S,
    request: Request<F>,
) -> Run<R, E>
    ensures { Goes S.steps E.draws R.role (meant F.numbered request.entry) run sponge.old result sponge.new }
{
    match request {
        Request::Constraint(input) => constraint_request::<R, S, F, E>(run, sponge, input),
        Request::OutOfDomain(input) => ood_request::<R, S, F, E>(run, sponge, input),
        Request::Begin => begin_request(run),
        Request::End => end_request(run),
        Request::Finish => finish_request(run),
    }
}

// Takes the end apart; an open bracket is closed first.
fn shown<R, E: Copy>(run: Run<R, E>) -> Standing<E>
    ensures { result ≡ shows run }
{
    match run {
        Run::Start(end) => {
            end.abort();
            Standing::Start
        }
        Run::Mid(end, alpha) => {
            end.abort();
            Standing::Mid(alpha)
        }
        Run::Ready(end, drawn) => {
            end.abort();
            Standing::Ready(drawn)
        }
        Run::Open(bracket, drawn) => {
            bracket.end().finish();
            Standing::Open(drawn)
        }
        Run::Closed(end, drawn) => {
            end.finish();
            Standing::Closed(drawn)
        }
        Run::Done(drawn) => Standing::Done(drawn),
        Run::Ended(failure) => Standing::Ended(failure),
    }
}

// Drives a new end over the requests, in their order.
pub(crate) fn drive<R: Role, S: Sponge, F: PrimeField, E: Challenge<F>>(
    sponge: &mut S,
    shape: StarkShape,
    requests: &[Request<F>],
) -> Standing<E>
    ensures run { result ≡ standing (run_of S.steps E.draws shape R.role sponge.old (map (meant F.numbered) requests.now)) }
    ensures left { sponge.new ≡ sponge_of (run_of S.steps E.draws shape R.role sponge.old (map (meant F.numbered) requests.now)) }
{
    let mut run: Run<R, E> = Run::Start(End::new(sponge, shape));
    for request in requests {
        run = one_request::<R, S, F, E>(run, sponge, *request);
    }
    shown(run)
}
