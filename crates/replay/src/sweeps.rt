// The sweep reading: without gaps, by the archive profile, with gaps, of two receptions, with the totals of a field plan.
ghost use Rattle.std.specs.Prelude.{◌≤◌};

use crate::body::first;
use crate::case::Case;
use crate::kinds::{Reading, Scheme};
use crate::lent::{ROOM, Report, check, filled};
use crate::print::{Commas, Row, Single};
use crate::text::Text;
use std::alloc::AllocError;
use std::io;
use std::io::Write;

impl Reading {
    // The word of the file; that of the body is the next, and then that of the second body or of the plan. The lengths of the buffers stand
    // before it.
    fn file_word(self) -> usize
        ensures { result ≤ 8 }
    {
        match self {
            Reading::Plain | Reading::Strict => 7,
            Reading::Gaps | Reading::Merge | Reading::Plan => 8,
        }
    }
}

// What is lent to a reading.
#[derive(Drop)]
struct Lent {
    azimuths: Vec<f64>,
    codes: Vec<u16>,
    physical: Vec<f32>,
    marks: Vec<u8>,
    totals: Vec<u64>,
}

// How many places of each the library writes; it writes as many of `codes` as of `physical`.
#[derive(Clone, Copy, Default)]
struct Written {
    azimuths: usize,
    cells: usize,
    marks: usize,
    totals: usize,
}

impl Written {
    fn of(reading: Reading, report: &Report) -> Written {
        let azimuths = report.radials();
        let cells = report.cells();
        let marks = match reading {
            Reading::Gaps | Reading::Merge => azimuths,
            Reading::Plain | Reading::Strict | Reading::Plan => 0,
        };
        let totals = match reading {
            Reading::Plan => report.size(14),
            Reading::Plain | Reading::Strict | Reading::Gaps | Reading::Merge => 0,
        };
        Written {
            azimuths,
            cells,
            marks,
            totals,
        }
    }
}

impl Lent {
    // Buffers of the lengths that the line says; none where one is over what there is room for.
    fn new(case: Case, reading: Reading) -> Result<Option<Lent>, AllocError> {
        let azimuths = case.size(4);
        let codes = case.size(5);
        let physical = case.size(6);
        let (marks, totals) = match reading {
            Reading::Plain | Reading::Strict => (0, 0),
            Reading::Gaps | Reading::Merge => (case.size(7), 0),
            Reading::Plan => (0, case.size(7)),
        };
        let most = azimuths.max(codes).max(physical).max(marks).max(totals);
        if ROOM < most {
            return Ok(None);
        }
        Ok(Some(Lent {
            azimuths: filled(case.alloc, azimuths)?,
            codes: filled(case.alloc, codes)?,
            physical: filled(case.alloc, physical)?,
            marks: filled(case.alloc, marks)?,
            totals: filled(case.alloc, totals)?,
        }))
    }

    // Says where the library wrote a place that it must keep.
    fn check(&self, out: &mut Text, written: Written) -> io::Result<()> {
        check(out, "azimuths", &self.azimuths, written.azimuths)?;
        check(out, "codes", &self.codes, written.cells)?;
        check(out, "physical", &self.physical, written.cells)?;
        check(out, "marks", &self.marks, written.marks)?;
        check(out, "totals", &self.totals, written.totals)
    }
}

fn print_scale(out: &mut Text, report: &Report) -> io::Result<()> {
    if report.ints[10] == 0 {
        return out.write_all(b" scale=none");
    }
    write!(
        out,
        " scale={},{},{},{}",
        Single(report.floats[6]),
        Single(report.floats[7]),
        report.ints[11],
        report.ints[12]
    )
}

fn print_sweep(out: &mut Text, file: &[u8], report: &Report, lent: &Lent) -> io::Result<()> {
    out.write_all(b"A tok=")?;
    crate::small::print_token(out, file, report.size(0), 0, 6)?;
    out.write_all(b" ")?;
    crate::small::print_fields(out, report)?;
    write!(out, " time={}", report.ints[5])?;
    print_scale(out, report)?;
    out.write_all(b" ")?;
    crate::body::print_picture(out, report, &lent.azimuths, &lent.codes)?;
    write!(out, " phys={}", Row(first(&lent.physical, report.cells())))
}

// What a reading gives beside the sweep.
fn print_more(out: &mut Text, reading: Reading, written: Written, lent: &Lent) -> io::Result<()> {
    match reading {
        Reading::Plain | Reading::Strict => Ok(()),
        Reading::Gaps | Reading::Merge => {
            write!(out, " marks={}", Row(first(&lent.marks, written.marks)))
        }
        Reading::Plan => {
            write!(
                out,
                " totals={}",
                Commas(first(&lent.totals, written.totals))
            )
        }
    }
}

// The library's answer. Its entries are made for C, and take each buffer by itself.
fn ask(
    case: Case,
    reading: Reading,
    scheme: Scheme,
    file: &[u8],
    lent: &mut Lent,
    report: &mut Report,
) -> Result<u32, AllocError> {
    let clock = crate::words::clock(case.word(2));
    let scheme = u32::from(scheme);
    let parameter = crate::hex::float(crate::kinds::parameter(case.word(3)));
    let at = reading.file_word();
    let body = case.bytes(at + 1)?;
    let more = match reading {
        Reading::Plain | Reading::Strict | Reading::Gaps => Vec::new(case.alloc),
        Reading::Merge | Reading::Plan => case.bytes(at + 2)?,
    };
    Ok(match reading {
        Reading::Plain => capi::sweeps::l3_sweep(
            file,
            clock,
            scheme,
            parameter,
            &body,
            &mut lent.azimuths,
            &mut lent.codes,
            &mut lent.physical,
            &mut report.ints,
            &mut report.floats,
        ),
        Reading::Strict => capi::sweeps::l3_strict(
            file,
            clock,
            scheme,
            parameter,
            &body,
            &mut lent.azimuths,
            &mut lent.codes,
            &mut lent.physical,
            &mut report.ints,
            &mut report.floats,
        ),
        Reading::Gaps => capi::sweeps::l3_gaps(
            file,
            clock,
            scheme,
            parameter,
            &body,
            &mut lent.azimuths,
            &mut lent.codes,
            &mut lent.physical,
            &mut lent.marks,
            &mut report.ints,
            &mut report.floats,
        ),
        Reading::Merge => capi::sweeps::l3_merge(
            file,
            clock,
            scheme,
            parameter,
            &body,
            &more,
            &mut lent.azimuths,
            &mut lent.codes,
            &mut lent.physical,
            &mut lent.marks,
            &mut report.ints,
            &mut report.floats,
        ),
        Reading::Plan => capi::sweeps::l3_totals(
            file,
            clock,
            scheme,
            parameter,
            &body,
            &more,
            &mut lent.azimuths,
            &mut lent.codes,
            &mut lent.physical,
            &mut lent.totals,
            &mut report.ints,
            &mut report.floats,
        ),
    })
}

pub fn answer(out: &mut Text, case: Case, reading: Reading) -> io::Result<()> {
    let Some(scheme) = Scheme::of(case.word(3)) else {
        return out.write_all(b"?");
    };
    let Some(mut lent) = Lent::new(case, reading)? else {
        return out.write_all(b"? too large");
    };
    let file = case.bytes(reading.file_word())?;
    let mut report = Report::new();
    let number = ask(case, reading, scheme, &file, &mut lent, &mut report)?;
    // The library's number; 0 is acceptance.
    if number != 0 {
        crate::refusal::print(out, number, &report)?;
        lent.check(out, Written::default())?;
    } else {
        let written = Written::of(reading, &report);
        print_sweep(out, &file, &report, &lent)?;
        print_more(out, reading, written, &lent)?;
        lent.check(out, written)?;
    }
    report.check(out)
}
