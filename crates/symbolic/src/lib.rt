// The degree counter: an AIR's constraints over degrees in the place of values, and the number of chunks that a quotient takes.
#![tactic(auto)]

ghost use Rattle.std.specs.Prelude.{◌≡◌};
ghost use Rattle.expression.specs.Degree.{largest_degree, leaf_degree};
ghost use Rattle.symbolic.specs.Degrees.{counted, degree_operations, larger, of_degree};
ghost use Rattle.symbolic.specs.Chunks.{RoundedUp, chunks_needed, log_chunks, log2_ceil};
ghost use Rattle.std.proofs.Common.{rules};

use air::builder::{Air, AirBuilder, Algebra, Rows};
use expression::Leaf;
use field::traits::Field;
use std::ops::{Add, Mul, Sub};

// A degree, which stops at 4294967295.
#[derive(Clone, Copy, PartialEq, Eq, PartialOrd, Ord)]
pub struct Degree {
    value: u32,
}

impl Add<Degree> for Degree {
    type Output = Degree;

    ghost add_gives = { λ a b r. r ≡ larger a b };

    fn add(self, rhs: Degree) -> Degree {
        self.max(rhs)
    }
}

impl Sub<Degree> for Degree {
    type Output = Degree;

    // A difference has the degree of a sum; the two are traits of std, each with its own block.
    ghost sub_gives = { λ a b r. r ≡ larger a b };

    fn sub(self, rhs: Degree) -> Degree {
        self.max(rhs)
    }
}

impl Mul<Degree> for Degree {
    type Output = Degree;

    ghost mul_gives = { λ a b r. r ≡ degree_operations.times a b };

    fn mul(self, rhs: Degree) -> Degree {
        Degree {
            value: self.value.saturating_add(rhs.value),
        }
    }
}

impl Algebra for Degree {
    ghost operations = { degree_operations };

    ghost sums = { Prim.search rules };

    ghost differences = { Prim.search rules };

    ghost products = { Prim.search rules };

    ghost any_sum = { Prim.search rules };

    ghost any_difference = { Prim.search rules };

    ghost any_product = { Prim.search rules };
}

// Rows of which only the degrees matter.
#[derive(Clone, Copy)]
pub struct DegreeRows {
    pub transition: u32,
}

impl Rows for DegreeRows {
    type Expr = Degree;

    ghost reads = { λ s l. of_degree (leaf_degree s.transition l) };

    fn read(&self, leaf: Leaf) -> Degree {
        let value = match leaf {
            Leaf::Main(_)
            | Leaf::MainNext(_)
            | Leaf::Preprocessed(_)
            | Leaf::PreprocessedNext(_)
            | Leaf::Periodic(_)
            | Leaf::IsFirst
            | Leaf::IsLast => 1,
            Leaf::IsTransition => self.transition,
            Leaf::Public(_) | Leaf::Number(_) => 0,
        };
        Degree { value }
    }
}

// The largest degree so far.
#[derive(Clone, Copy)]
pub struct DegreeCounter {
    largest: Degree,
}

impl AirBuilder<Degree> for DegreeCounter {
    ghost step = { counted };

    fn assert_zero(&mut self, x: Degree) {
        self.largest = self.largest.max(x);
    }
}

// The largest degree of the AIR's constraints, where the transition selector has the one given.
pub fn constraint_degree<F: Field, A: Air<F>>(air: &A, transition: u32) -> u32
    ensures { result ≡ largest_degree transition 0 (A.constraints air.now) }
{
    let rows = DegreeRows { transition };
    let mut counter = DegreeCounter {
        largest: Degree { value: 0 },
    };
    air.eval(&rows, &mut counter);
    counter.largest.value
}

// A theorem, for the contract below.
fn digits_round_up(n: u64)
    ensures { RoundedUp n (log2_ceil n) }
{}

// The rounded-up logarithm of n; 0 at 0.
pub fn log2_ceil(n: u64) -> usize
    ensures value { result ≡ log2_ceil n }
    ensures least { RoundedUp n result }
{
    digits_round_up(n);
    (64 - n.saturating_sub(1).leading_zeros()) as usize
}

// With d the larger of the counted and the declared degree: max(d + zk, 2) - 1.
fn chunks_needed<F: Field, A: Air<F>>(air: &A, transition: u32, is_zk: bool) -> u64
    ensures value { result ≡ chunks_needed (A.declared air.now) transition is_zk (A.constraints air.now) }
{
    let declared = air.layout().max_constraint_degree.unwrap_or(0);
    let degree = u64::from(constraint_degree(air, transition).max(declared));
    (degree + u64::from(is_zk)).max(2) - 1
}

// The rounded-up logarithm of the number of chunks that the quotient takes, where the transition selector has the degree given.
pub fn get_log_num_quotient_chunks<F: Field, A: Air<F>>(
    air: &A,
    transition: u32,
    is_zk: bool,
) -> usize
    ensures value { result ≡ log_chunks (A.declared air.now) transition is_zk (A.constraints air.now) }
    ensures least { RoundedUp (chunks_needed (A.declared air.now) transition is_zk (A.constraints air.now)) result }
{
    log2_ceil(chunks_needed(air, transition, is_zk))
}
