// The totals of a plan over the codes of any picture: one that was merged, or read before. Order: 36 of the codes, 37, 38, 39, 36 of the
// totals.
ghost use Rattle.std.specs.Prelude.{◌≡◌, ◌*◌, length, nat_lt};
ghost use Rattle.wire.specs.Result.{answer, lent};
ghost use Rattle.fields.specs.Picture.{picture_totals, fields_in};

use crate::totals::Grid;
use scale::scaling::PrecipScale;
use wire::error::{Buffer, Level3DecodeError};

// Whether there are fewer codes than the picture has cells.
fn is_short(codes: usize, radials: usize, bins: usize) -> bool
    ensures { result ≡ nat_lt codes (radials * bins) }
{
    match radials.checked_mul(bins) {
        None => true,
        Some(cells) => codes < cells,
    }
}

// One total for each field of the plan, in plan order, in the front of the totals; the answer is how many. The codes are those of a picture
// of so many radials and bins, row after row, and the scale is that of the precipitation family. A refusal writes nothing.
pub fn picture_totals(
    codes: &[u16],
    radials: usize,
    bins: usize,
    scale: PrecipScale,
    plan: &[u8],
    totals: &mut [u64],
) -> Result<usize, Level3DecodeError>
    ensures result_value { answer result ≡ fields_in (picture_totals codes.now radials bins scale plan.now (length totals.old)) }
    ensures totals_after { totals.new ≡ lent (picture_totals codes.now radials bins scale plan.now (length totals.old)) (λ t. t) totals.old }
{
    if is_short(codes.len(), radials, bins) {
        return Err(Level3DecodeError::BufferTooShort {
            buffer: Buffer::Codes,
        });
    }
    let fields = crate::plan::check_plan(plan, radials, bins)?;
    if totals.len() < fields {
        return Err(Level3DecodeError::BufferTooShort {
            buffer: Buffer::Totals,
        });
    }
    let grid = Grid {
        codes,
        radials,
        bins,
        floor: u16::from(scale.floor),
        ceiling: scale.ceiling,
    };
    grid.write_totals(plan, &mut totals[..fields]);
    Ok(fields)
}
