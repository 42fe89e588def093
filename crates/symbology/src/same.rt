// Equal figures: floats are equal if their bits are or both are NaN.
ghost use Rattle.std.specs.Prelude.{◌≡◌};
ghost use Rattle.symbology.specs.Merge.{same_geometry, same_figures};

use crate::figures::{Figures, Geometry};
use wire::float::same_f32;

// No derive: `==` of floats tells two NaNs apart.
fn same_geometry(a: Geometry, b: Geometry) -> bool
    ensures { result ≡ same_geometry a b }
{
    match (a, b) {
        (Geometry::RangeScale(m), Geometry::RangeScale(n)) => m == n,
        (
            Geometry::Gates {
                gate_width_m,
                first_gate_m,
            },
            Geometry::Gates {
                gate_width_m: width,
                first_gate_m: start,
            },
        ) => same_f32(gate_width_m, width) && same_f32(first_gate_m, start),
        _ => false,
    }
}

#[tactic(auto, unfolding(crate::specs::Merge::same_figures))]
pub fn same_figures(a: Figures, b: Figures) -> bool
    ensures { result ≡ same_figures a b }
{
    a.packet == b.packet
        && a.n_radials == b.n_radials
        && a.n_bins == b.n_bins
        && same_geometry(a.geometry, b.geometry)
}
