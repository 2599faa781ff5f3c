// The seed: what a new end takes before anything is sent.
ghost use Rattle.std.specs.Prelude.{◌≡◌, ◌≤◌, ◌++◌, length};
ghost use Rattle.transcript.specs.Takes.{takes, be8};
ghost use Rattle.transcript.specs.Seed.{counted_steps, number_bytes, instance, part, codes, step_lengths as lengths_of, seed, SeedLengths};

use crate::absorb::{take_bytes, take_number, take_numbers};
use crate::shape::StarkShape;
use sponge::Sponge;

// The lengths of the steps by their codes, from 1 on: none where the shape does not have the step.
fn step_lengths(shape: &StarkShape) -> [Option<u64>; 10]
    ensures { result ≡ lengths_of shape.now }
{
    [
        Some(1),
        (shape.preprocessed_width > 0).then_some(1),
        Some(shape.num_public_values as u64),
        Some(1),
        Some(1),
        shape.has_randomization.then_some(1),
        (shape.ood_pow_bits > 0).then_some(shape.ood_pow_bits as u64),
        Some(1),
        Some(0),
        Some(0),
    ]
}

// How many steps the shape has, which fixes the length of its seed.
fn step_count(shape: &StarkShape) -> usize
    ensures count { result ≡ length (codes shape.now) }
    ensures few { result ≤ 10 }
{
    step_lengths(shape)
        .iter()
        .filter(|length| length.is_some())
        .count()
}

// One step of the description, where the shape has it: its code and its length.
fn take_step<S: Sponge>(sponge: &mut S, code: u32, length: Option<u64>)
    ensures { sponge.new ≡ takes S.steps (part code length) sponge.old }
{
    if let Some(length) = length {
        sponge.take(code);
        take_number(sponge, length);
    }
}

fn take_steps<S: Sponge>(sponge: &mut S, shape: &StarkShape)
    ensures { sponge.new ≡ takes S.steps (counted_steps shape.now) sponge.old }
{
    take_number(sponge, step_count(shape) as u64);
    for (place, length) in step_lengths(shape).iter().enumerate() {
        take_step(sponge, place as u32 + 1, *length);
    }
}

// The instance numbers, with their count.
fn take_instance<S: Sponge>(sponge: &mut S, shape: &StarkShape)
    ensures { sponge.new ≡ takes S.steps (be8 8 ++ number_bytes (instance shape.now)) sponge.old }
{
    let numbers = [
        shape.log_ext_degree as u64,
        shape.log_degree as u64,
        shape.main_width as u64,
        shape.preprocessed_width as u64,
        shape.num_periodic_columns as u64,
        shape.num_quotient_chunks as u64,
        u64::from(shape.opens_main_next_row),
        u64::from(shape.opens_preprocessed_next_row),
    ];
    take_number(sponge, numbers.len() as u64);
    take_numbers(sponge, &numbers);
}

pub fn take_seed<S: Sponge>(sponge: &mut S, shape: &StarkShape)
    ensures { sponge.new ≡ takes S.steps (seed shape.now) sponge.old }
{
    let name = b"p3-uni-stark";
    sponge.take(1);
    take_number(sponge, name.len() as u64);
    take_bytes(sponge, name);
    take_steps(sponge, shape);
    take_instance(sponge, shape);
}

// 101 bytes and nine for each step: 164 for seven steps, 191 for ten.
pub fn seed_length(shape: &StarkShape) -> usize
    ensures length { result ≡ length (seed shape.now) }
    ensures table { SeedLengths }
{
    101 + 9 * step_count(shape)
}
