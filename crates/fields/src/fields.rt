// The sweep reading with the totals of a field plan. Order: the refusals of the sweep (10 for any scheme but precipitation), 37, 38, 39, 36 for
// the totals buffer.
// The parameters are those of the C entries, one by one.
ghost use Rattle.std.specs.Prelude.{◌≡◌, []};
ghost use Rattle.wire.specs.Refusal.{kind};
ghost use Rattle.wire.specs.Result.{accepted, answer, refused, then};
ghost use Rattle.symbology.specs.Answers.{picture_of};
ghost use Rattle.fields.specs.Fields.{totals_of, checked_in, checked_on, totals_buffers, TotalsRan};

use crate::picture::picture_totals;
use scale::physical::{Scaling, Scheme};
use scale::scaling::PrecipScale;
use sweep::sweep::Sweep;
use wire::error::{Buffer, Level3DecodeError};

// What acceptance gives beside the picture and the totals: the sweep, and how many fields the plan has.
#[derive(Clone, Copy)]
pub struct SweepTotals {
    pub sweep: Sweep,
    pub fields: usize,
}

// The same with the scale of the sweep's codes.
#[derive(Clone, Copy)]
pub struct Checked {
    pub sweep: Sweep,
    pub scale: PrecipScale,
    pub fields: usize,
}

// Another scheme: 10, after what symbology refuses.
fn other_scheme(body: &[u8]) -> Result<Checked, Level3DecodeError>
    ensures { answer result ≡ then (picture_of body.now) (λ _. refused (kind 10 [])) }
{
    symbology::symbology::check(body)?;
    Err(Level3DecodeError::SchemeMismatch)
}

// The plan over a sweep: 37, 38, 39, 36.
#[tactic(auto, unfolding(crate::specs::Fields::checked_on))]
fn check_plan_on(
    s: Sweep,
    scale: PrecipScale,
    plan: &[u8],
    totals: usize,
) -> Result<Checked, Level3DecodeError>
    ensures { answer result ≡ checked_on plan.now totals scale (accepted s) }
{
    let n = crate::plan::check_plan(plan, s.figures.n_radials, s.figures.n_bins)?;
    if totals < n {
        return Err(Level3DecodeError::BufferTooShort {
            buffer: Buffer::Totals,
        });
    }
    Ok(Checked {
        sweep: s,
        scale,
        fields: n,
    })
}

// All tests, with buffers of so many places; nothing is written.
pub fn check_totals(
    file: &[u8],
    clock: u64,
    scheme: Scheme,
    body: &[u8],
    plan: &[u8],
    azimuths: usize,
    codes: usize,
    physical: usize,
    totals: usize,
) -> Result<Checked, Level3DecodeError>
    ensures { answer result ≡ checked_in (totals_of scheme file.now clock body.now plan.now
        azimuths codes physical totals) }
{
    let head = sweep::plan::read_head(scheme, file, clock)?;
    match head.scaling {
        Scaling::Precip(scale) => {
            let s = sweep::sweep::check_sweep(
                file, clock, scheme, body, azimuths, codes, physical,
            )?;
            check_plan_on(s, scale, plan, totals)
        }
        Scaling::Linear(_) | Scaling::Legacy { .. } | Scaling::Class => other_scheme(body),
    }
}

// The sweep of a file and its unpacked body, with a total for each field of the plan. Acceptance leaves the picture in the front of its
// buffers, as `read_sweep` does, and the totals in plan order in the front of theirs. A refusal writes nothing.
pub fn read_sweep_with_totals(
    file: &[u8],
    clock: u64,
    scheme: Scheme,
    body: &[u8],
    plan: &[u8],
    azimuths: &mut [f64],
    codes: &mut [u16],
    physical: &mut [f32],
    totals: &mut [u64],
) -> Result<SweepTotals, Level3DecodeError>
    ensures { TotalsRan scheme file.now clock body.now plan.now
        (totals_buffers azimuths.old codes.old physical.old totals.old)
        (totals_buffers azimuths.new codes.new physical.new totals.new) result }
{
    let done = check_totals(
        file,
        clock,
        scheme,
        body,
        plan,
        azimuths.len(),
        codes.len(),
        physical.len(),
        totals.len(),
    )?;
    sweep::sweep::read_sweep(file, clock, scheme, body, azimuths, codes, physical)?;
    let figures = done.sweep.figures;
    let cells = figures.n_radials * figures.n_bins;
    let fields = picture_totals(
        &codes[..cells],
        figures.n_radials,
        figures.n_bins,
        done.scale,
        plan,
        totals,
    )?;
    Ok(SweepTotals {
        sweep: done.sweep,
        fields,
    })
}
