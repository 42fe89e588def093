// Two receptions, one picture. Order: the first body's reading with gaps up to 36, the second's, 43, 44, 36.
// The parameters are those of the C entries, one by one.
ghost use Rattle.sweep.specs.GapSweep.{gap_buffers};
ghost use Rattle.sweep.specs.MergeSweep.{MergeRan};

use crate::sweep::Sweep;
use scale::physical::Scheme;
use symbology::symbology::merge_pictures;
use wire::error::Level3DecodeError;

// The sweep of a file and two receptions of its unpacked body, each read with gaps. A row is the first's if whole there, else the second's if
// whole, else a gap. Acceptance leaves the picture and the marks as the reading with gaps does. A refusal writes nothing.
pub fn merge_receptions(
    file: &[u8],
    clock: u64,
    scheme: Scheme,
    first: &[u8],
    second: &[u8],
    azimuths: &mut [f64],
    codes: &mut [u16],
    physical: &mut [f32],
    marks: &mut [u8],
) -> Result<Sweep, Level3DecodeError>
    ensures { MergeRan scheme file.now clock first.now second.now
        (gap_buffers azimuths.old codes.old physical.old marks.old)
        (gap_buffers azimuths.new codes.new physical.new marks.new) result }
{
    let head = crate::plan::read_head(scheme, file, clock)?;
    let terms = crate::plan::terms_for(head.scaling, physical.len());
    let figures = merge_pictures(first, second, terms, azimuths, codes, marks)?;
    crate::gap_values::fill_values(file, scheme, head, figures, codes, marks, physical)
}
