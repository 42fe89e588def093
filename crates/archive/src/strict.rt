// The sweep reading by the archive profile. Order: token, header, fields, scan time (4, 6, 5), scale fields, symbology, 45, 46, 10, 9, 36.
// The parameters are those of the C entries, one by one.
ghost use Rattle.sweep.specs.Sweep.{buffers};
ghost use Rattle.archive.specs.Archive.{StrictRan};

use scale::physical::Scheme;
use sweep::sweep::Sweep;
use wire::error::Level3DecodeError;

// The sweep of a file and its unpacked body, which must carry no stray bytes. Head and body are tested first, and then read as `read_sweep`
// reads them. A refusal writes nothing.
pub fn read_sweep_strict(
    file: &[u8],
    clock: u64,
    scheme: Scheme,
    body: &[u8],
    azimuths: &mut [f64],
    codes: &mut [u16],
    physical: &mut [f32],
) -> Result<Sweep, Level3DecodeError>
    ensures { StrictRan scheme file.now clock body.now
        (buffers azimuths.old codes.old physical.old)
        (buffers azimuths.new codes.new physical.new) result }
{
    sweep::plan::read_head(scheme, file, clock)?;
    crate::surplus::check_exact(body)?;
    sweep::sweep::read_sweep(file, clock, scheme, body, azimuths, codes, physical)
}
