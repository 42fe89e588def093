// The sweep reading with gaps: a radial whose data make no row leaves a gap in the picture, and a mark. Order: as the sweep reading's; 36
// covers the mark buffer, after the physical one.
// The parameters are those of the C entries, one by one.
ghost use Rattle.std.specs.Prelude.{◌≡◌, ◌*◌, length, take, nat_lt};
ghost use Rattle.wire.specs.Result.{accepted, answer, then};
ghost use Rattle.sweep.specs.GapSweep.{gap_buffers, GapRan, gap_room, gap_values_of, blanked_lent};

use crate::sweep::Sweep;
use scale::physical::Scheme;
use symbology::figures::Figures;
use wire::error::{Buffer, Level3DecodeError};

// The sweep of a file and its unpacked body, with gaps. Acceptance leaves the picture in the front of the buffers, and a mark for each
// radial: 1 where its data make no row, which then has codes 0 and values NaN; else 0. A refusal writes nothing.
pub fn read_sweep_with_gaps(
    file: &[u8],
    clock: u64,
    scheme: Scheme,
    body: &[u8],
    azimuths: &mut [f64],
    codes: &mut [u16],
    physical: &mut [f32],
    marks: &mut [u8],
) -> Result<Sweep, Level3DecodeError>
    ensures { GapRan scheme file.now clock body.now
        (gap_buffers azimuths.old codes.old physical.old marks.old)
        (gap_buffers azimuths.new codes.new physical.new marks.new) result }
{
    let head = crate::plan::read_head(scheme, file, clock)?;
    let terms = crate::plan::terms_for(head.scaling, physical.len());
    let figures = symbology::symbology::decode_with_gaps(body, terms, azimuths, codes, marks)?;
    crate::gap_values::fill_values(file, scheme, head, figures, codes, marks, physical)
}

// Whether a buffer has fewer places than a picture of these figures has cells.
fn is_short(places: usize, figures: Figures) -> bool
    ensures { result ≡ nat_lt places (figures.n_radials * figures.n_bins) }
{
    match figures.n_radials.checked_mul(figures.n_bins) {
        None => true,
        Some(cells) => places < cells,
    }
}

// 36 for a picture of these figures.
#[tactic(auto, unfolding(crate::specs::GapSweep::gap_room))]
fn test_room(
    figures: Figures,
    codes: usize,
    physical: usize,
    marks: usize,
) -> Result<(), Level3DecodeError>
    ensures { answer result ≡ gap_room codes physical marks figures }
{
    if is_short(codes, figures) {
        return Err(Level3DecodeError::BufferTooShort {
            buffer: Buffer::Codes,
        });
    }
    if is_short(physical, figures) {
        return Err(Level3DecodeError::BufferTooShort {
            buffer: Buffer::Physical,
        });
    }
    if marks < figures.n_radials {
        return Err(Level3DecodeError::BufferTooShort {
            buffer: Buffer::Marks,
        });
    }
    Ok(())
}

// The values of a picture with gaps, for a caller that lets the body go before it takes a buffer for them: the picture has these figures, its
// codes and marks are written, and the file's block starts at `block`. A refusal writes nothing.
#[tactic(auto, unfolding(crate::specs::GapSweep::gap_values_of, crate::specs::GapSweep::gap_room))]
pub fn fill_with_gaps(
    scheme: Scheme,
    file: &[u8],
    block: usize,
    figures: Figures,
    codes: &[u16],
    marks: &[u8],
    physical: &mut [f32],
) -> Result<(), Level3DecodeError>
    ensures result_value { answer result ≡ then
        (gap_values_of scheme file.now block figures codes.now (length physical.old) (length marks.now)) (λ _. accepted tt) }
    ensures physical_after { physical.new ≡ blanked_lent
        (gap_values_of scheme file.now block figures codes.now (length physical.old) (length marks.now))
        figures.n_bins (take figures.n_radials marks.now) physical.old }
{
    test_room(figures, codes.len(), physical.len(), marks.len())?;
    crate::gap_values::fill_cells(file, scheme, block, figures, codes, marks, physical)
}
