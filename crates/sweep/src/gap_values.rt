// The values of a picture with gaps, once its codes and marks are written.
ghost use Rattle.std.specs.Prelude.{◌≡◌, ◌*◌, ◌≤◌, length, take};
ghost use Rattle.wire.specs.Result.{accepted, answer, then};
ghost use Rattle.scale.specs.Physical.{declared_scale, fill_of};
ghost use Rattle.sweep.specs.Sweep.{sweep_with};
ghost use Rattle.sweep.specs.GapSweep.{blanked, blanked_row, blanked_lent};

use crate::plan::Head;
use crate::sweep::Sweep;
use scale::physical::Scheme;
use symbology::figures::Figures;
use wire::error::Level3DecodeError;

// The mark of a row that is no gap. Marks are bytes, as C lends them.
const WHOLE: u8 = 0;

// NaN at every place of a row that is marked.
#[tactic(auto, unfolding(crate::specs::GapSweep::blanked_row))]
fn blank_if(mark: u8, row: &mut [f32])
    ensures { row.new ≡ blanked_row mark row.old }
{
    if mark != WHOLE {
        row.fill(wire::float::nan32());
    }
}

// NaN over the rows that are marked.
fn blank_gaps(marks: &[u8], n_bins: usize, physical: &mut [f32])
    requires { length marks.now * n_bins ≤ length physical.old }
    ensures { physical.new ≡ blanked n_bins marks.now physical.old }
{
    // Counted by hand: no clause tells what is written through `chunks_mut`.
    let mut cell: usize = 0;
    for mark in marks {
        let end = cell + n_bins;
        blank_if(*mark, &mut physical[cell..end]);
        cell = end;
    }
}

// The values of the codes, NaN over the rows that are marked.
#[tactic(auto, unfolding(scale::specs::Physical::fill_of))]
pub fn fill_cells(
    file: &[u8],
    scheme: Scheme,
    block: usize,
    figures: Figures,
    codes: &[u16],
    marks: &[u8],
    physical: &mut [f32],
) -> Result<(), Level3DecodeError>
    requires { (figures.n_radials * figures.n_bins ≤ length codes.now) × (figures.n_radials ≤ length marks.now)
        × (figures.n_radials * figures.n_bins ≤ length physical.old) }
    ensures result_value { answer result ≡ then (fill_of scheme file.now block
        (take (figures.n_radials * figures.n_bins) codes.now) (length physical.old)) (λ _. accepted tt) }
    ensures physical_after { physical.new ≡ blanked_lent (fill_of scheme file.now block
        (take (figures.n_radials * figures.n_bins) codes.now) (length physical.old))
        figures.n_bins (take figures.n_radials marks.now) physical.old }
{
    let cells = figures.n_radials * figures.n_bins;
    scale::physical::fill_physical(scheme, file, block, &codes[..cells], physical)?;
    blank_gaps(&marks[..figures.n_radials], figures.n_bins, physical);
    Ok(())
}

// The values, and the answer.
#[tactic(auto, unfolding(scale::specs::Physical::declared_scale, scale::specs::Physical::fill_of))]
pub fn fill_values(
    file: &[u8],
    scheme: Scheme,
    head: Head,
    figures: Figures,
    codes: &[u16],
    marks: &[u8],
    physical: &mut [f32],
) -> Result<Sweep, Level3DecodeError>
    requires { (figures.n_radials * figures.n_bins ≤ length codes.now) × (figures.n_radials ≤ length marks.now)
        × (figures.n_radials * figures.n_bins ≤ length physical.old) }
    ensures result_value { answer result ≡ then (fill_of scheme file.now head.block
        (take (figures.n_radials * figures.n_bins) codes.now) (length physical.old))
        (λ _. sweep_with head (declared_scale head.scaling) figures) }
    ensures physical_after { physical.new ≡ blanked_lent (fill_of scheme file.now head.block
        (take (figures.n_radials * figures.n_bins) codes.now) (length physical.old))
        figures.n_bins (take figures.n_radials marks.now) physical.old }
{
    fill_cells(file, scheme, head.block, figures, codes, marks, physical)?;
    crate::sweep::accepted(head, figures)
}
