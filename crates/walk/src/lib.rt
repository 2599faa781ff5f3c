// A table of stations: the values of the station AIR's constraints on its rows, and the first that is not zero.
#![tactic(auto)]

ghost use Rattle.std.specs.Prelude.{◌≡◌, ◌+◌, ◌-◌, ◌*◌, ◌<◌, ◌≤◌, true, [], length, MatchOption, nat_le, slice_index_or};
ghost use Rattle.std.specs.Bool.{Decides};
ghost use Rattle.air.specs.Opened.{cells, next_covers};
ghost use Rattle.walk.specs.Table.{FirstFailing, Found, ReadsRow, WalkIn, ZeroIn, flag as one_if, none, table_of, value_in};
ghost use Rattle.airs.specs.Station.{station_layout};
ghost use Rattle.walk.specs.Walk.{Apart, StationLaw};

use air::opened::OpenedRows;
use air::picker::constraint_value;
use airs::station::StationAir;
use field::traits::{Field, PrimeField};

// A station, then the bits of the step to the next one, less 1, the lowest first.
#[derive(Clone, Copy)]
pub struct StationRow<F> {
    pub cells: [F; 9],
}

// Where a walk starts, and where it ends.
#[derive(Clone, Copy)]
pub struct WalkEnds<F> {
    pub values: [F; 2],
}

// The rows that may be a walk, and the ends that it is to have.
#[derive(Clone, Copy)]
pub struct Table<'a, F> {
    pub rows: &'a [StationRow<F>],
    pub ends: &'a WalkEnds<F>,
}

#[derive(Clone, Copy)]
pub struct Failure {
    pub row: usize,
    pub constraint: usize,
}

fn flag<F: Field>(test: bool) -> F
    ensures { result ≡ one_if F.ops test }
{
    if test { F::one() } else { F::zero() }
}

impl<'a, F: Field> Table<'a, F> {
    // The cells of a row; nothing past the last. A slice and not [F; 9], which no caller could show to fit in memory.
    fn cells(self, row: usize) -> Option<&'a [F]>
        ensures same { cells result ≡ slice_index_or (table_of self.entry.rows.now) row [] }
        ensures nine { next_covers 9 result ≡ true }
        ensures there { none result ≡ nat_le (length self.entry.rows.now) row }
    {
        Some(&self.rows.get(row)?.cells)
    }

    // What the station AIR reads in a row: no preprocessed trace and no periodic column. Nothing past the last row.
    fn opened(self, row: usize) -> Option<OpenedRows<'a, F, F>>
        ensures { MatchOption result (length self.entry.rows.now ≤ row) (ReadsRow F.ops self.entry.rows.now self.entry.ends.now row) }
    {
        let main = self.cells(row)?;
        let is_last = row + 1 == self.rows.len();
        Some(OpenedRows {
            main,
            main_next: self.cells(row + 1),
            preprocessed: &[],
            preprocessed_next: None,
            public_values: &self.ends.values,
            periodic_values: &[],
            is_first_row: flag(row == 0),
            is_last_row: flag(is_last),
            is_transition: flag(!is_last),
        })
    }

    // The value of a constraint on a row; nothing past the last of either.
    pub fn constraint_in_row(self, row: usize, constraint: usize) -> Option<F>
        ensures { result ≡ value_in F.ops self.entry.rows.now self.entry.ends.now row constraint }
    {
        constraint_value(&StationAir, &self.opened(row)?, constraint).ok()?
    }

    // Whether a constraint is zero on a row, or is not there.
    pub fn vanishes_in_row(self, row: usize, constraint: usize) -> bool
        ensures { Decides result (ZeroIn F.ops self.entry.rows.now self.entry.ends.now row constraint) }
    {
        self.constraint_in_row(row, constraint)
            .is_none_or(|value| value == F::zero())
    }

    // The first constraint, from one on, that is not zero on a row.
    pub fn failing_constraint(self, row: usize, from: usize) -> Option<usize>
        ensures { FirstFailing (ZeroIn F.ops self.entry.rows.now self.entry.ends.now row) from 11 result }
    {
        (from..11).find(|constraint| !self.vanishes_in_row(row, *constraint))
    }

    // The first row, and the first constraint on it, that is not zero. Over any field; the theorem below is over prime fields.
    fn search_rows(self) -> Option<Failure>
        ensures { Found F.ops self.entry.rows.now self.entry.ends.now result }
    {
        // By number: the place is the answer. `find_map` over a range proves less of what it finds.
        for row in 0..self.rows.len() {
            if let Some(constraint) = self.failing_constraint(row, 0) {
                return Some(Failure { row, constraint });
            }
        }
        None
    }
}

impl<F: PrimeField> Table<'_, F> {
    // The first row, and the first constraint on it, that is not zero; nothing exactly where the table is a walk.
    pub fn first_failure(self) -> Option<Failure>
        ensures found { Found F.Field.ops self.entry.rows.now self.entry.ends.now result }
        ensures walk { Decides (none result) (WalkIn F.Field.ops self.entry.rows.now self.entry.ends.now F.numbered) }
        ensures apart { none result ≡ true → 256 * (length self.entry.rows.now - 1) < F.modulus → Apart F.Field.ops (table_of self.entry.rows.now) }
        ensures law { StationLaw F.Field.ops F.modulus F.numbered }
    {
        self.search_rows()
    }
}
