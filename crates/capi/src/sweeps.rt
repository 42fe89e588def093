// The sweep reading: without gaps, by the archive profile, with gaps, of two receptions, with the totals of a field plan.
ghost use Rattle.std.specs.Prelude.{◌≡◌, if◌then◌else◌};
ghost use Rattle.sweep.specs.Sweep.{buffers};
ghost use Rattle.sweep.specs.GapSweep.{gap_buffers};
ghost use Rattle.fields.specs.Fields.{totals_buffers};
ghost use Rattle.capi.specs.Report.{failed, short};
ghost use Rattle.capi.specs.Entries.{scheme_said, sweep_said, strict_said, SweepLeaves, gaps_said, merge_said, GapsLeave, totals_said, TotalsLeave, asked_of};

use crate::report::{is_short, write_answer};
use scale::physical::Scheme;

// The scheme that is asked for, or the number with which an entry fails.
#[tactic(auto, unfolding(crate::specs::Report::choice))]
fn scheme_of(number: u32, parameter: f32) -> Result<Scheme, u32>
    ensures { asked_of result ≡ scheme_said number parameter }
{
    match number {
        0 => Ok(Scheme::Halfword),
        1 => Ok(Scheme::Float),
        2 => Ok(Scheme::Precipitation { factor: parameter }),
        3 => Ok(Scheme::Legacy {
            post_scale: parameter,
        }),
        4 => Ok(Scheme::Class),
        _ => Err(101),
    }
}

// The same for a report of these lengths: 100 comes first.
pub(crate) fn asked_scheme(
    number: u32,
    parameter: f32,
    ints: usize,
    floats: usize,
) -> Result<Scheme, u32>
    ensures { asked_of result ≡ (if short ints floats then failed 100 else scheme_said number parameter) }
{
    if is_short(ints, floats) {
        return Err(100);
    }
    scheme_of(number, parameter)
}

pub fn l3_sweep(
    file: &[u8],
    clock: u64,
    scheme: u32,
    parameter: f32,
    body: &[u8],
    azimuths: &mut [f64],
    codes: &mut [u16],
    physical: &mut [f32],
    ints: &mut [u64],
    floats: &mut [f64],
) -> u32
    ensures { SweepLeaves (sweep_said scheme parameter file.now clock body.now) result
        (buffers azimuths.old codes.old physical.old)
        (buffers azimuths.new codes.new physical.new)
        ints.old ints.new floats.old floats.new }
{
    let asked = match asked_scheme(scheme, parameter, ints.len(), floats.len()) {
        Ok(s) => s,
        Err(number) => return number,
    };
    let answer = sweep::sweep::read_sweep(file, clock, asked, body, azimuths, codes, physical);
    write_answer(answer, ints, floats)
}

pub fn l3_strict(
    file: &[u8],
    clock: u64,
    scheme: u32,
    parameter: f32,
    body: &[u8],
    azimuths: &mut [f64],
    codes: &mut [u16],
    physical: &mut [f32],
    ints: &mut [u64],
    floats: &mut [f64],
) -> u32
    ensures { SweepLeaves (strict_said scheme parameter file.now clock body.now) result
        (buffers azimuths.old codes.old physical.old)
        (buffers azimuths.new codes.new physical.new)
        ints.old ints.new floats.old floats.new }
{
    let asked = match asked_scheme(scheme, parameter, ints.len(), floats.len()) {
        Ok(s) => s,
        Err(number) => return number,
    };
    let answer = archive::strict::read_sweep_strict(
        file, clock, asked, body, azimuths, codes, physical,
    );
    write_answer(answer, ints, floats)
}

pub fn l3_gaps(
    file: &[u8],
    clock: u64,
    scheme: u32,
    parameter: f32,
    body: &[u8],
    azimuths: &mut [f64],
    codes: &mut [u16],
    physical: &mut [f32],
    marks: &mut [u8],
    ints: &mut [u64],
    floats: &mut [f64],
) -> u32
    ensures { GapsLeave (gaps_said scheme parameter file.now clock body.now) result
        (gap_buffers azimuths.old codes.old physical.old marks.old)
        (gap_buffers azimuths.new codes.new physical.new marks.new)
        ints.old ints.new floats.old floats.new }
{
    let asked = match asked_scheme(scheme, parameter, ints.len(), floats.len()) {
        Ok(s) => s,
        Err(number) => return number,
    };
    let answer = sweep::with_gaps::read_sweep_with_gaps(
        file, clock, asked, body, azimuths, codes, physical, marks,
    );
    write_answer(answer, ints, floats)
}

// By hand: its parameters are C's; l3_totals is like it in form alone.
pub fn l3_merge(
    file: &[u8],
    clock: u64,
    scheme: u32,
    parameter: f32,
    first: &[u8],
    second: &[u8],
    azimuths: &mut [f64],
    codes: &mut [u16],
    physical: &mut [f32],
    marks: &mut [u8],
    ints: &mut [u64],
    floats: &mut [f64],
) -> u32
    ensures { GapsLeave (merge_said scheme parameter file.now clock first.now second.now) result
        (gap_buffers azimuths.old codes.old physical.old marks.old)
        (gap_buffers azimuths.new codes.new physical.new marks.new)
        ints.old ints.new floats.old floats.new }
{
    let asked = match asked_scheme(scheme, parameter, ints.len(), floats.len()) {
        Ok(s) => s,
        Err(number) => return number,
    };
    let answer = sweep::merge::merge_receptions(
        file, clock, asked, first, second, azimuths, codes, physical, marks,
    );
    write_answer(answer, ints, floats)
}

// By hand: its parameters are C's; l3_merge is like it in form alone.
pub fn l3_totals(
    file: &[u8],
    clock: u64,
    scheme: u32,
    parameter: f32,
    body: &[u8],
    plan: &[u8],
    azimuths: &mut [f64],
    codes: &mut [u16],
    physical: &mut [f32],
    totals: &mut [u64],
    ints: &mut [u64],
    floats: &mut [f64],
) -> u32
    ensures { TotalsLeave (totals_said scheme parameter file.now clock body.now plan.now) result
        (totals_buffers azimuths.old codes.old physical.old totals.old)
        (totals_buffers azimuths.new codes.new physical.new totals.new)
        ints.old ints.new floats.old floats.new }
{
    let asked = match asked_scheme(scheme, parameter, ints.len(), floats.len()) {
        Ok(s) => s,
        Err(number) => return number,
    };
    let answer = fields::fields::read_sweep_with_totals(
        file, clock, asked, body, plan, azimuths, codes, physical, totals,
    );
    write_answer(answer, ints, floats)
}
