// What a domain is: distinct points in order, as many as a power of two.
ghost use Rattle.std.specs.Prelude.{◌≡◌, ℕ, ◌%◌, ◌<◌, ◌≢◌, List, length, Some, None, Option, slice_index_or};
ghost use Rattle.algebra.specs.Domain.{Apart};
ghost use Rattle.algebra.specs.Polynomial.{Distinct};
ghost use Rattle.domain.specs.Pieces.{PowerOfTwo, PieceOf};
ghost use Rattle.domain.specs.Selected.{vanishing_at, selected};

use crate::selectors::Selectors;
use field::extension::Extension;
use field::traits::{Field, PrimeField};

// Points of a prime field in order, and a field above it.
// A trait below `Domain`, so that a domain's own methods may call what is written over points.
pub trait Points: Copy {
    type Base: PrimeField;

    type Ext: Extension<Self::Base>;

    ghost points: { Self → List Self.Base };

    fn size(self) -> usize
        ensures { result ≡ length (points self) };

    // Zero past the last point.
    fn point(self, i: usize) -> Self::Base
        ensures { result ≡ slice_index_or (points self) i Self.Base.Field.ops.zero };
}

pub trait Domain: Points {
    // V(z) is this times the product of z - p over the points p.
    ghost scale: { Self → Self.Base };

    ghost first: { Self → Self.Ext → Self.Ext };

    ghost last: { Self → Self.Ext → Self.Ext };

    ghost transition: { Self → Self.Ext → Self.Ext };

    ghost following: { Self → Self.Ext → Option Self.Ext };

    ghost beside: { Self → ℕ → Option Self };

    ghost pieces: { Self → ℕ → ℕ → Option Self };

    ghost degree: { ℕ };

    fn first_point(self) -> Self::Base
        ensures { result ≡ slice_index_or (Self.points self) 0 Self.Base.Field.ops.zero };

    fn vanishing_at(self, z: Self::Ext) -> Self::Ext
        ensures { result ≡ vanishing_at Self.Ext.Field.ops Self.Ext.Extension.embedded (scale self) (Self.points self) z };

    // Absent exactly where V(z) is zero.
    fn selectors_at(self, z: Self::Ext) -> Option<Selectors<Self::Ext>>
        ensures { result ≡ selected (first self z) (last self z) (transition self z) (Self.Ext.Field.inverted (vanishing_at Self.Ext.Field.ops Self.Ext.Extension.embedded (scale self) (Self.points self) z)) };

    fn next_point(self, z: Self::Ext) -> Option<Self::Ext>
        ensures { result ≡ following self z };

    // Of the asked size, and shares no point with self.
    fn disjoint(self, size: usize) -> Option<Self>
        ensures { result ≡ beside self size };

    // Every k-th point from point i on.
    fn piece(self, i: usize, k: usize) -> Option<Self>
        ensures { result ≡ pieces self i k };

    fn transition_degree() -> u32
        ensures { result ≡ degree };

    ghost distinct: { (d : Self) → Distinct (Self.points d) };

    ghost doubled: { (d : Self) → PowerOfTwo (length (Self.points d)) };

    ghost scaled: { (d : Self) → scale d ≢ Self.Base.Field.ops.zero };

    ghost separate: { (d e : Self) (n : ℕ) → beside d n ≡ Some e → (length (Self.points e) ≡ n) × Apart (Self.points d) (Self.points e) };

    ghost parted: { (d e : Self) (i k : ℕ) → pieces d i k ≡ Some e → PieceOf Self.Base.Field.ops.zero (Self.points d) i k (Self.points e) };

    ghost unparted: { (d : Self) (i k : ℕ) → i < k → length (Self.points d) % k ≡ 0 → pieces d i k ≢ None };
}
