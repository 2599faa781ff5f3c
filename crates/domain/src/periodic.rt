// Periodic columns: their values between the points of a domain.
ghost use Rattle.std.specs.Prelude.{◌≡◌, ◌%◌, ◌<◌, length, slice_index_or};
ghost use Rattle.domain.specs.Periodic.{interpolated as through, Through, periodic};

use crate::traits::Domain;
use crate::{powers, products};
use field::extension::Extension;
use field::traits::Field;

// The column's value at point i.
fn repeated<F: Field>(column: &[F], i: usize) -> F
    requires { 0 < length column.now }
    ensures { result ≡ slice_index_or column.now (i % length column.now) F.ops.zero }
{
    column[i % column.len()]
}

// Lagrange's sum.
fn interpolated<D: Domain>(d: D, column: &[D::Base], z: D::Ext) -> D::Ext
    requires { 0 < length column.now }
    ensures { result ≡ through D.Base.Field.own D.Ext.Field.own D.Ext.Extension.own (D.Points.points d) column.now z }
{
    let size = d.size();
    let mut value = <D::Ext as Field>::zero();
    for i in (0..size).rev() {
        let at = <D::Ext as Extension<D::Base>>::embed(d.point(i));
        let before = products::basis(d, at, 0, i, z);
        let after = products::basis(d, at, i + 1, size, z);
        let sample = <D::Ext as Extension<D::Base>>::embed(repeated(column, i));
        value = sample * (before * after) + value;
    }
    value
}

// A domain reads periodic columns. The default body is Lagrange's sum over all points.
pub trait Periodic: Domain {
    // The value at z of the polynomial of degree below n that takes column[i mod P] at point i.
    // Absent unless P is a power of two and at most n.
    fn periodic_value(self, column: &[Self::Base], z: Self::Ext) -> Option<Self::Ext>
        ensures through { Through Self.Base.Field.own Self.Ext.Field.own Self.Ext.Extension.own (Self.Points.points self) column.now }
        ensures value { result ≡ periodic Self.Base.Field.own Self.Ext.Field.own Self.Ext.Extension.own (Self.Points.points self) column.now z }
    {
        let _log = powers::log_within(63, column.len())?;
        if column.len() > self.size() {
            return None;
        }
        Some(interpolated(self, column, z))
    }
}
