// An AIR, and what a builder gives it: rows to read from, and a place to assert its constraints.
ghost use Rattle.std.specs.Prelude.{◌≡◌, ◌-◌, List, [], slice_index_or};
ghost use Rattle.expression.specs.declared.Leaf.{Leaf};
ghost use Rattle.expression.specs.Expression.{Expression, Operations, asserted, booleans, values};
ghost use Rattle.air.specs.Sound.{Sound};
ghost use Rattle.air.specs.declared.builder.Layout.{Layout};

use expression::Leaf;
use field::traits::Field;
use std::ops::{Add, Mul, Range, Sub};

// What an AIR reads, at most; the number of its boundary cells; and a degree, where it declares one. The default reads nothing.
#[derive(Clone, Copy, Default)]
pub struct Layout {
    pub width: usize,
    pub preprocessed_width: usize,
    pub num_public_values: usize,
    pub num_periodic_columns: usize,
    // Whether the next row is read, of the main and of the preprocessed trace.
    pub main_next: bool,
    pub preprocessed_next: bool,
    pub boundary_io: usize,
    pub max_constraint_degree: Option<u32>,
}

// Values with a sum, a difference and a product, each of any two.
pub trait Algebra: Copy
    + Add<Self, Output = Self>
    + Sub<Self, Output = Self>
    + Mul<Self, Output = Self> {
    ghost operations: { Operations Self };

    ghost sums: { (a b r : Self) → Self.Add.add_gives a b r → r ≡ operations.plus a b };

    ghost differences: { (a b r : Self) → Self.Sub.sub_gives a b r → r ≡ operations.minus a b };

    ghost products: { (a b r : Self) → Self.Mul.mul_gives a b r → r ≡ operations.times a b };

    ghost any_sum: { (a b : Self) → Self.Add.can_add a b };

    ghost any_difference: { (a b : Self) → Self.Sub.can_sub a b };

    ghost any_product: { (a b : Self) → Self.Mul.can_mul a b };
}

// The elements of a field.
impl<E: Field> Algebra for E {
    ghost operations = { values E.ops };

    ghost sums = { E.Field.sums };

    ghost differences = { E.Field.differences };

    ghost products = { E.Field.products };

    ghost any_sum = { E.Field.any_sum };

    ghost any_difference = { E.Field.any_difference };

    ghost any_product = { E.Field.any_product };
}

// What each leaf of an expression is read as. The named readers read by the leaf, and no implementation has others.
pub trait Rows {
    type Expr: Algebra;

    ghost reads: { Self → Leaf → Self.Expr };

    fn read(&self, leaf: Leaf) -> Self::Expr
        ensures { result ≡ reads self.now leaf };

    final fn main(&self, column: usize) -> Self::Expr
        ensures { result ≡ reads self.now (Leaf.Main column) }
    {
        self.read(Leaf::Main(column))
    }

    final fn main_next(&self, column: usize) -> Self::Expr
        ensures { result ≡ reads self.now (Leaf.MainNext column) }
    {
        self.read(Leaf::MainNext(column))
    }

    final fn preprocessed(&self, column: usize) -> Self::Expr
        ensures { result ≡ reads self.now (Leaf.Preprocessed column) }
    {
        self.read(Leaf::Preprocessed(column))
    }

    final fn preprocessed_next(&self, column: usize) -> Self::Expr
        ensures { result ≡ reads self.now (Leaf.PreprocessedNext column) }
    {
        self.read(Leaf::PreprocessedNext(column))
    }

    final fn public_value(&self, index: usize) -> Self::Expr
        ensures { result ≡ reads self.now (Leaf.Public index) }
    {
        self.read(Leaf::Public(index))
    }

    final fn periodic_value(&self, column: usize) -> Self::Expr
        ensures { result ≡ reads self.now (Leaf.Periodic column) }
    {
        self.read(Leaf::Periodic(column))
    }

    final fn is_first_row(&self) -> Self::Expr
        ensures { result ≡ reads self.now Leaf.IsFirst }
    {
        self.read(Leaf::IsFirst)
    }

    final fn is_last_row(&self) -> Self::Expr
        ensures { result ≡ reads self.now Leaf.IsLast }
    {
        self.read(Leaf::IsLast)
    }

    final fn is_transition(&self) -> Self::Expr
        ensures { result ≡ reads self.now Leaf.IsTransition }
    {
        self.read(Leaf::IsTransition)
    }

    final fn number(&self, n: u32) -> Self::Expr
        ensures { result ≡ reads self.now (Leaf.Number n) }
    {
        self.read(Leaf::Number(n))
    }
}

// What takes an AIR's constraints, one after another.
pub trait AirBuilder<E> {
    ghost step: { Self → E → Self };

    fn assert_zero(&mut self, x: E)
        ensures { self.new ≡ step self.old x };
}

// A list of constraints over a field. `eval` asserts each in turn, over any rows and to any builder.
pub trait Air<F: Field> {
    ghost declared: { Self → Layout };

    ghost periodics: { Self → List (List F) };

    ghost constraints: { Self → List Expression };

    // Nothing undeclared is read.
    ghost sound: { (a : Self) → Sound (declared a) (periodics a) (constraints a) };

    fn layout(&self) -> Layout
        ensures { result ≡ declared self.now };

    // The values of a periodic column over one period; none past the last column.
    fn periodic_column(&self, column: usize) -> &[F]
        ensures { result.now ≡ slice_index_or (periodics self.now) column [] };

    fn eval<R: Rows, B: AirBuilder<R::Expr>>(&self, rows: &R, builder: &mut B)
        ensures { builder.new ≡ asserted B.step R.Expr.Algebra.operations (R.reads rows.now) builder.old (constraints self.now) };
}

// Asserts of each of the columns that it is 0 or 1.
pub fn assert_bools<R: Rows, B: AirBuilder<R::Expr>>(
    rows: &R,
    builder: &mut B,
    columns: Range<usize>,
)
    ensures { builder.new ≡ asserted B.step R.Expr.Algebra.operations (R.reads rows.now) builder.old (booleans columns.start (columns.end - columns.start)) }
{
    for column in columns {
        let bit = rows.main(column);
        builder.assert_zero(bit * (bit - rows.number(1)));
    }
}
