// A body's grid, where a radial's data stand, and the plans: what a check hands to the writing.
ghost use Rattle.std.specs.Prelude.{◌*◌, ◌≤◌};

use crate::figures::Figures;

// Figures that were tested: so few radials and cells that any count of either can be formed.
#[derive(Clone, Copy)]
pub struct Grid {
    pub figures: Figures,
    ghost few: { figures.n_radials ≤ 100000 },
    ghost fits: { figures.n_radials * figures.n_bins ≤ 4000000 },
}

// The radials of packet 28: how many, and of how many bins once the first has told it.
#[derive(Clone, Copy)]
pub struct Radials28 {
    pub n_radials: usize,
    pub n_bins: Option<usize>,
    ghost few: { n_radials ≤ 100000 },
}

// A radial's centre in degrees, and the place of its data.
#[derive(Clone, Copy)]
pub struct Place {
    pub centre: f64,
    pub from: usize,
    pub to: usize,
}

// A reading that was checked: its grid, the position of the first radial in the part that holds them, and the position after the last.
#[derive(Clone, Copy)]
pub struct Plan {
    pub grid: Grid,
    pub at: usize,
    pub next: usize,
}

// The same of a body, whose radials stand from `at` on in its part from..to.
#[derive(Clone, Copy)]
pub struct BodyPlan {
    pub grid: Grid,
    pub from: usize,
    pub to: usize,
    pub at: usize,
}

// How many places the buffers for the centres and the codes have.
#[derive(Clone, Copy)]
pub struct Room {
    pub azimuths: usize,
    pub codes: usize,
}
