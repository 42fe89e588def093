// The sweep reading on the program's buffers, with or without gaps, and its answer in words. A reading lets the body go once its codes are
// written, and takes the buffer of the physical values then: the program never holds both.
ghost use Rattle.std.specs.Prelude.{◌≡◌, ◌≤◌, if◌then◌else◌, Err, IfOk};
ghost use Rattle.wire.specs.Result.{answer};
ghost use Rattle.scale.specs.Physical.{declared_scale};
ghost use Rattle.symbology.specs.Answers.{decode_for, gap_decode_for, Decodes, DecodesWithGaps};
ghost use Rattle.sweep.specs.Sweep.{buffers, sweep_with};
ghost use Rattle.sweep.specs.GapSweep.{gap_buffers, GapRan};
ghost use Rattle.show.specs.InPart.{ReadInPart};
ghost use Rattle.show.specs.BlankValues.{blank_values, Leaves};

use crate::picture::Lent;
use crate::refusals::Refusal;
use crate::rooms;
use crate::text::Text;
use scale::physical::Scheme;
use std::alloc::{AllocError, Global};
use std::io;
use std::io::Write;
use sweep::plan::Head;
use sweep::sweep::Sweep;
use symbology::figures::{Figures, Terms};
use wire::error::Level3DecodeError;

// What a reading answers, and the physical values that it leaves, where there is memory for them.
#[derive(Drop)]
struct Given {
    said: Result<Sweep, Level3DecodeError>,
    values: Result<Vec<f32>, AllocError>,
}

// The values before a reading.
fn blank(alloc: Global) -> Result<Vec<f32>, AllocError>
    ensures { IfOk result (λ v. v.items ≡ blank_values 720000) }
{
    rooms::physical(alloc)
}

// A refusal writes no value.
fn refused(alloc: Global, e: Level3DecodeError) -> Given
    ensures said { result.said ≡ Err e }
    ensures values { IfOk result.values (λ v. v.items ≡ blank_values 720000) }
{
    Given {
        said: Err(e),
        values: blank(alloc),
    }
}

// The codes of a body, which is let go.
fn decode(
    body: Vec<u8>,
    terms: Terms,
    azimuths: &mut [f64],
    codes: &mut [u16],
) -> Result<Figures, Level3DecodeError>
    ensures { Decodes (decode_for terms body.items)
        azimuths.old azimuths.new codes.old codes.new result }
{
    symbology::symbology::decode_for(&body, terms, azimuths, codes)
}

// The codes and the marks of a body, which is let go.
fn decode_with_gaps(
    body: Vec<u8>,
    terms: Terms,
    azimuths: &mut [f64],
    codes: &mut [u16],
    marks: &mut [u8],
) -> Result<Figures, Level3DecodeError>
    ensures { DecodesWithGaps (gap_decode_for terms body.items) azimuths.old azimuths.new
        codes.old codes.new marks.old marks.new result }
{
    symbology::symbology::decode_with_gaps(&body, terms, azimuths, codes, marks)
}

// As sweep's `accepted` does, which is no public function: it would hand on whatever head it is given.
fn accepted(head: Head, figures: Figures) -> Result<Sweep, Level3DecodeError>
    ensures { answer result ≡ sweep_with head (declared_scale head.scaling) figures }
{
    let declared = scale::physical::declared_scale(head.scaling)?;
    Ok(Sweep {
        token: head.token,
        fields: head.fields,
        time: head.time,
        declared,
        figures,
    })
}

// The sweep reading as it is with room for as many physical values as codes. The values are those that there is room for, the first ones.
fn read(
    alloc: Global,
    file: &[u8],
    clock: u64,
    scheme: Scheme,
    body: Vec<u8>,
    azimuths: &mut [f64],
    codes: &mut [u16],
) -> Given
    ensures { Leaves (λ ph. ReadInPart scheme file.now clock body.items
        (buffers azimuths.old codes.old (blank_values 720000))
        (buffers azimuths.new codes.new ph) result.said)
        (λ ph. IfOk result.values (λ v. v.items ≡ ph)) }
{
    let head = match sweep::plan::read_head(scheme, file, clock) {
        Ok(head) => head,
        Err(e) => {
            drop(body);
            return refused(alloc, e);
        }
    };
    let terms = sweep::plan::terms_for(head.scaling, codes.len());
    let figures = match decode(body, terms, azimuths, codes) {
        Ok(figures) => figures,
        Err(e) => return refused(alloc, e),
    };
    let mut values = match blank(alloc) {
        Ok(values) => values,
        Err(e) => {
            return Given {
                said: accepted(head, figures),
                values: Err(e),
            };
        }
    };
    let cells = figures.n_radials * figures.n_bins;
    let n = cells.min(values.len());
    if let Err(e) = scale::physical::fill_physical(
        scheme,
        file,
        head.block,
        &codes[..n],
        &mut values,
    ) {
        return Given {
            said: Err(e),
            values: Ok(values),
        };
    }
    Given {
        said: accepted(head, figures),
        values: Ok(values),
    }
}

// The sweep reading with gaps. It takes the values of all cells: without room for them it is refused with 36.
fn read_with_gaps(
    alloc: Global,
    file: &[u8],
    clock: u64,
    scheme: Scheme,
    body: Vec<u8>,
    azimuths: &mut [f64],
    codes: &mut [u16],
    marks: &mut [u8],
) -> Given
    ensures { Leaves (λ ph. GapRan scheme file.now clock body.items
        (gap_buffers azimuths.old codes.old (blank_values 720000) marks.old)
        (gap_buffers azimuths.new codes.new ph marks.new) result.said)
        (λ ph. IfOk result.values (λ v. v.items ≡ ph)) }
{
    let head = match sweep::plan::read_head(scheme, file, clock) {
        Ok(head) => head,
        Err(e) => {
            drop(body);
            return refused(alloc, e);
        }
    };
    let terms = sweep::plan::terms_for(head.scaling, rooms::VALUES);
    let figures = match decode_with_gaps(body, terms, azimuths, codes, marks) {
        Ok(figures) => figures,
        Err(e) => return refused(alloc, e),
    };
    let mut values = match blank(alloc) {
        Ok(values) => values,
        Err(e) => {
            return Given {
                said: accepted(head, figures),
                values: Err(e),
            };
        }
    };
    if let Err(e) = sweep::with_gaps::fill_with_gaps(
        scheme,
        file,
        head.block,
        figures,
        codes,
        marks,
        &mut values,
    ) {
        return Given {
            said: Err(e),
            values: Ok(values),
        };
    }
    Given {
        said: accepted(head, figures),
        values: Ok(values),
    }
}

// How many marks are lent and shown: none without gaps.
fn shown_marks(gaps: bool) -> usize
    ensures value { result ≡ (if gaps then 4096 else 0) }
    ensures upper_bound { result ≤ 4096 }
{
    if gaps { 4096 } else { 0 }
}

// How a body is to be read.
#[derive(Clone, Copy)]
pub struct Asked {
    pub scheme: Scheme,
    pub clock: u64,
    pub gaps: bool,
}

// The reading that was asked for.
fn read_asked(
    alloc: Global,
    asked: Asked,
    file: &[u8],
    body: Vec<u8>,
    azimuths: &mut [f64],
    codes: &mut [u16],
    marks: &mut [u8],
) -> Given {
    let Asked {
        scheme,
        clock,
        gaps,
    } = asked;
    if gaps {
        return read_with_gaps(alloc, file, clock, scheme, body, azimuths, codes, marks);
    }
    read(alloc, file, clock, scheme, body, azimuths, codes)
}

// How the program ends: with a sweep or a head, with a refusal, or with what standard error says.
#[derive(Clone, Copy)]
pub enum Ending {
    Shown,
    Refused,
    Failed,
}

pub fn show(
    out: &mut Text,
    alloc: Global,
    asked: Asked,
    file: &[u8],
    body: Vec<u8>,
) -> io::Result<Ending> {
    let mut azimuths = rooms::azimuths(alloc)?;
    let mut codes = rooms::codes(alloc)?;
    let mut marks = rooms::zeros(alloc, shown_marks(asked.gaps))?;
    let Given { said, values } = read_asked(
        alloc,
        asked,
        file,
        body,
        &mut azimuths,
        &mut codes,
        &mut marks,
    );
    let values = values?;
    match said {
        Err(e) => {
            writeln!(out, "refused: {}", Refusal(e))?;
            Ok(Ending::Refused)
        }
        Ok(s) => {
            let lent = Lent {
                azimuths: &azimuths,
                codes: &codes,
                physical: &values,
                marks: &marks,
            };
            crate::picture::print(out, s, file, lent)?;
            Ok(Ending::Shown)
        }
    }
}
