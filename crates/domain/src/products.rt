// Products over the points of a domain, in the field above.
ghost use Rattle.std.specs.Prelude.{◌≡◌, ◌-◌};
ghost use Rattle.algebra.specs.Domain.{vanishing};
ghost use Rattle.algebra.specs.Field.{total};
ghost use Rattle.algebra.specs.Lagrange.{basis};
ghost use Rattle.domain.specs.Points.{later};

use crate::powers;
use crate::traits::Points;
use field::extension::Extension;
use field::traits::Field;

// The product of z - p over the points p from number `from` on and before number `to`.
#[tactic(auto, using(crate::proofs::Ratios::later_none))]
pub fn vanishing<D: Points>(d: D, from: usize, to: usize, z: D::Ext) -> D::Ext
    ensures { result ≡ vanishing D.Ext.Field.ops (later D.Base.Field.own D.Ext.Extension.own (D.Points.points d) from (to - from)) z }
{
    let mut value = <D::Ext as Field>::one();
    for i in from..to {
        value = value * (z - <D::Ext as Extension<D::Base>>::embed(d.point(i)));
    }
    value
}

// The product of (z - p) / (a - p) over these points, by one inverse.
// Inlined: the a of most callers is an embedded point, and what is zero in it then costs nothing.
#[inline(always)]
#[tactic(auto, using(crate::proofs::Ratios::ratio_taken))]
pub fn basis<D: Points>(d: D, a: D::Ext, from: usize, to: usize, z: D::Ext) -> D::Ext
    ensures { result ≡ basis D.Ext.Field.ops (total D.Ext.Field.ops D.Ext.Field.inverted) a (later D.Base.Field.own D.Ext.Extension.own (D.Points.points d) from (to - from)) z }
{
    if from >= to {
        return <D::Ext as Field>::one();
    }
    let first = <D::Ext as Extension<D::Base>>::embed(d.point(from));
    let mut above = z - first;
    let mut below = a - first;
    for i in from + 1..to {
        let point = <D::Ext as Extension<D::Base>>::embed(d.point(i));
        above = above * (z - point);
        below = below * (a - point);
    }
    above * powers::inverse_or_zero(below)
}
