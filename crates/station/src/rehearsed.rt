// Rehearses a prover's and a verifier's end over the first and the last station, with stand-in commitments.
use field::traits::PrimeField;
use pair::Pair;
use rehearsal::rehearse::rehearse;
use rehearsal::request::Request;
use rehearsal::standing::{Drawn, Standing};
use residue::moduli::BabyBear;
use sponge::Duplex;
use transcript::input::{ConstraintInput, OodInput};
use transcript::shape::StarkShape;

// Columns 0 to 8 for the trace, and columns 9 and 10 for one chunk, as first column * 256 + count.
const TRACE: u64 = 9;

const QUOTIENT: u64 = 2306;

// The station AIR on 2^6 rows: nine columns, two public values, a next row, one chunk.
// Written out, with no default: the seed binds each of the numbers.
fn station_shape() -> StarkShape {
    StarkShape {
        log_ext_degree: 6,
        log_degree: 6,
        main_width: 9,
        preprocessed_width: 0,
        num_public_values: 2,
        num_periodic_columns: 0,
        num_quotient_chunks: 1,
        opens_main_next_row: true,
        opens_preprocessed_next_row: false,
        has_randomization: false,
        ood_pow_bits: 0,
    }
}

fn requests(public_values: &[BabyBear]) -> [Request<'_, BabyBear>; 5] {
    [
        Request::Constraint(ConstraintInput {
            trace: TRACE,
            preprocessed: None,
            public_values,
        }),
        Request::OutOfDomain(OodInput {
            quotient: QUOTIENT,
            random: None,
            last: 0,
        }),
        Request::Begin,
        Request::End,
        Request::Finish,
    ]
}

pub(crate) fn tell_rehearsal(rt: &HostRuntime, rows: &[u32]) -> anyhow::Result<()> {
    let (Some(first), Some(last)) = (rows.first(), rows.last()) else {
        return Ok(());
    };
    match (BabyBear::from_number(*first), BabyBear::from_number(*last)) {
        (Some(first), Some(last)) => rehearse_ends(rt, &[first, last]),
        _ => {
            println!(rt;
                "no rehearsal: a public value is not below {}",
                BabyBear::order()
            )?;
            Ok(())
        }
    }
}

fn rehearse_ends(rt: &HostRuntime, public_values: &[BabyBear]) -> anyhow::Result<()> {
    let mut prover = Duplex::new();
    let mut verifier = Duplex::new();
    let requests = requests(public_values);
    let both = rehearse::<Duplex, BabyBear, Pair<BabyBear>>(
        &mut prover,
        &mut verifier,
        station_shape(),
        &requests,
        &requests,
    );
    tell_end(rt, "prover", both.prover)?;
    tell_end(rt, "verifier", both.verifier)
}

fn tell_end(rt: &HostRuntime, name: &str, end: Standing<Pair<BabyBear>>) -> anyhow::Result<()> {
    match end {
        Standing::Done(Drawn { alpha, zeta, .. }) => {
            println!(rt; "{name}: alpha {alpha}, zeta {zeta}")?;
        }
        _ => println!(rt; "{name}: did not finish")?,
    }
    Ok(())
}
