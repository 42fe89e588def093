// The sweep reading. Order: token, header, fields, scan time (4, 6, 5), scale fields, symbology, 10, 9, 36.
// The parameters are those of the C entries, one by one.
ghost use Rattle.std.specs.Prelude.{◌≡◌};
ghost use Rattle.scale.specs.Physical.{declared_scale};
ghost use Rattle.wire.specs.Result.{answer};
ghost use Rattle.sweep.specs.Sweep.{sweep_in, sweep_of, sweep_with, buffers, Ran};

use crate::plan::Head;
use head::pdb::PdbFields;
use scale::physical::Scheme;
use scale::scaling::DeclaredLinearScale;
use symbology::figures::Figures;
use wire::error::Level3DecodeError;

// What acceptance gives beside the picture. The token stands at `token` in the file: product there, site three bytes on.
#[derive(Clone, Copy)]
pub struct Sweep {
    pub token: usize,
    pub fields: PdbFields,
    pub time: u64,
    pub declared: Option<DeclaredLinearScale>,
    pub figures: Figures,
}

// What acceptance gives of a head and a picture's figures.
pub(crate) fn accepted(head: Head, figures: Figures) -> Result<Sweep, Level3DecodeError>
    ensures { answer result ≡ sweep_with head (declared_scale head.scaling) figures }
{
    let declared = scale::physical::declared_scale(head.scaling)?;
    Ok(Sweep {
        token: head.token,
        fields: head.fields,
        time: head.time,
        declared,
        figures,
    })
}

// What the sweep reading answers with buffers of so many places; nothing is written.
pub fn check_sweep(
    file: &[u8],
    clock: u64,
    scheme: Scheme,
    body: &[u8],
    azimuths: usize,
    codes: usize,
    physical: usize,
) -> Result<Sweep, Level3DecodeError>
    ensures { answer result ≡ sweep_in (sweep_of scheme file.now clock body.now azimuths codes physical) }
{
    let head = crate::plan::read_head(scheme, file, clock)?;
    let terms = crate::plan::terms_for(head.scaling, physical);
    let figures = symbology::symbology::check_for(body, terms, azimuths, codes)?;
    accepted(head, figures)
}

// The sweep of a file and its unpacked body. Acceptance leaves the picture in the front of the buffers: the centres in degrees, the codes
// by row and their physical values. A refusal writes nothing.
pub fn read_sweep(
    file: &[u8],
    clock: u64,
    scheme: Scheme,
    body: &[u8],
    azimuths: &mut [f64],
    codes: &mut [u16],
    physical: &mut [f32],
) -> Result<Sweep, Level3DecodeError>
    ensures { Ran scheme file.now clock body.now
        (buffers azimuths.old codes.old physical.old)
        (buffers azimuths.new codes.new physical.new) result }
{
    let head = crate::plan::read_head(scheme, file, clock)?;
    let terms = crate::plan::terms_for(head.scaling, physical.len());
    let figures = symbology::symbology::decode_for(body, terms, azimuths, codes)?;
    let cells = figures.n_radials * figures.n_bins;
    scale::physical::fill_physical(scheme, file, head.block, &codes[..cells], physical)?;
    accepted(head, figures)
}
