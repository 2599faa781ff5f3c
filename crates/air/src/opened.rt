// What was opened at a point, as an AIR reads it.
ghost use Rattle.std.specs.Prelude.{◌≡◌, map, slice_index_or};
ghost use Rattle.expression.specs.Expression.{asserted, values};
ghost use Rattle.air.specs.Folder.{if_covered};
ghost use Rattle.air.specs.Opened.{cells, covers, next_covers, opened};

use crate::builder::{Air, AirBuilder, Layout, Rows};
use expression::Leaf;
use field::extension::Extension;
use field::traits::Field;

// Two rows of each trace, of which a next one may be absent, the public values, the periodic columns and the selectors.
#[derive_where(Clone, Copy; E)]
pub struct OpenedRows<'a, F, E> {
    pub main: &'a [E],
    pub main_next: Option<&'a [E]>,
    pub preprocessed: &'a [E],
    pub preprocessed_next: Option<&'a [E]>,
    pub public_values: &'a [F],
    pub periodic_values: &'a [E],
    pub is_first_row: E,
    pub is_last_row: E,
    pub is_transition: E,
}

// A row or a list is shorter than the AIR declares.
#[derive(Clone, Copy)]
pub struct AirInputsTooShort;

// An element of a row or a list, in the larger field; zero past the end.
fn cell<F: Field, E: Extension<F>>(row: &[F], column: usize) -> E
    ensures { result ≡ slice_index_or (map E.embedded row.now) column E.Field.ops.zero }
{
    row.get(column).map_or(E::zero(), |x| E::embed(*x))
}

// The same of a row that may be absent.
fn cell_if_any<E: Field>(row: Option<&[E]>, column: usize) -> E
    ensures { result ≡ slice_index_or (cells row.entry) column E.ops.zero }
{
    row.map_or(E::zero(), |row| cell(row, column))
}

// Whether a row, where there is one, has n cells.
fn next_covers<E>(row: Option<&[E]>, n: usize) -> bool
    ensures { result ≡ next_covers n row.entry }
{
    row.is_none_or(|row| n <= row.len())
}

impl<F, E> OpenedRows<'_, F, E> {
    // Whether no row or list is shorter than declared.
    pub fn covers(&self, layout: &Layout) -> bool
        ensures { result ≡ covers layout.now self.now }
    {
        layout.width <= self.main.len()
            && layout.preprocessed_width <= self.preprocessed.len()
            && layout.num_public_values <= self.public_values.len()
            && layout.num_periodic_columns <= self.periodic_values.len()
            && next_covers(self.main_next, layout.width)
            && next_covers(self.preprocessed_next, layout.preprocessed_width)
    }
}

impl<F: Field, E: Extension<F>> Rows for OpenedRows<'_, F, E> {
    type Expr = E;

    ghost reads = { opened E.Field.ops E.Extension.embedded };

    fn read(&self, leaf: Leaf) -> E {
        match leaf {
            Leaf::Main(column) => cell(self.main, column),
            Leaf::MainNext(column) => cell_if_any(self.main_next, column),
            Leaf::Preprocessed(column) => cell(self.preprocessed, column),
            Leaf::PreprocessedNext(column) => cell_if_any(self.preprocessed_next, column),
            Leaf::Public(index) => cell(self.public_values, index),
            Leaf::Periodic(column) => cell(self.periodic_values, column),
            Leaf::IsFirst => self.is_first_row,
            Leaf::IsLast => self.is_last_row,
            Leaf::IsTransition => self.is_transition,
            Leaf::Number(n) => E::from_u32(n),
        }
    }
}

// What the builder becomes when the AIR's constraints over the rows are asserted to it, each in turn.
pub(crate) fn assert_over<F: Field, E: Extension<F>, A: Air<F>, B: AirBuilder<E> + Drop>(
    air: &A,
    rows: &OpenedRows<F, E>,
    mut builder: B,
) -> Result<B, AirInputsTooShort>
    ensures { result ≡ if_covered (A.declared air.now) rows.now (asserted B.step (values E.Field.ops) (opened E.Field.ops E.embedded rows.now) builder (A.constraints air.now)) }
{
    if !rows.covers(&air.layout()) {
        return Err(AirInputsTooShort);
    }
    air.eval(rows, &mut builder);
    Ok(builder)
}
