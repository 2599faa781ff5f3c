// The bench's side: a list of stations laid out as rows of the station AIR's columns. It is no part of the verifier.
#![tactic(auto)]

ghost use Rattle.std.specs.Prelude.{map, ◌∷◌, [], ◌≡◌, ◌/◌, ◌%◌, ◌<◌};
ghost use Rattle.algebra.specs.Ring.{nat};
ghost use Rattle.bench.specs.Layout.{gap, weights};

use field::traits::Field;
use walk::StationRow;

// The bit of that weight.
fn bit<F: Field>(n: u32, weight: u32) -> F
    requires { 0 < weight }
    ensures { result ≡ nat F.ops (n / weight % 2) }
{
    F::from_u32(n / weight % 2)
}

// The row of a station, with the next one: its number, and the bits of the step less 1, modulo 256.
// A step that does not rise has no bits set, and so has the last row, which is its own next one.
pub fn station_row<F: Field>(station: u32, next: u32) -> StationRow<F>
    ensures { result.cells ≡ nat F.ops station ∷ map (λ w. nat F.ops (gap station next / w % 2)) weights }
{
    let n = next.saturating_sub(station).saturating_sub(1) % 256;
    // Written out: an array's `map` over the words gets no proof for a function whose result alone names the type, and a loop that fills the array
    // is no plainer.
    StationRow {
        cells: [
            F::from_u32(station),
            bit(n, 1),
            bit(n, 2),
            bit(n, 4),
            bit(n, 8),
            bit(n, 16),
            bit(n, 32),
            bit(n, 64),
            bit(n, 128),
        ],
    }
}
