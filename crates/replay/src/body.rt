// The picture of a symbology body, and its export.
ghost use Rattle.std.specs.Prelude.{◌≡◌, take};

use crate::case::Case;
use crate::lent::{ROOM, Report, check, filled};
use crate::print::{Row, Single};
use crate::text::Text;
use std::io;
use std::io::Write;

fn print_packet(out: &mut Text, n: u64) -> io::Result<()> {
    if n == 0xaf1f {
        return out.write_all(b"packet=AF1F");
    }
    write!(out, "packet={n}")
}

fn print_geometry(out: &mut Text, report: &Report) -> io::Result<()> {
    if report.ints[6] == 28 {
        return write!(
            out,
            " gw={} fg={}",
            Single(report.floats[4]),
            Single(report.floats[5])
        );
    }
    write!(out, " rs={}", report.ints[9])
}

// The first n of what was lent, or all.
pub fn first<T>(places: &[T], n: usize) -> &[T]
    ensures { result.now ≡ take n places.now }
{
    places.get(..n).unwrap_or(places)
}

pub fn print_picture(
    out: &mut Text,
    report: &Report,
    azimuths: &[f64],
    codes: &[u16],
) -> io::Result<()> {
    print_packet(out, report.ints[6])?;
    write!(out, " nr={} nb={}", report.ints[7], report.ints[8])?;
    print_geometry(out, report)?;
    write!(
        out,
        " az={} codes={}",
        Row(first(azimuths, report.radials())),
        Row(first(codes, report.cells()))
    )
}

// What the library answers, and that it wrote nothing else. A picture of more cells than there is room for is not answered.
pub fn symbology(out: &mut Text, case: Case) -> io::Result<()> {
    let body = case.bytes(2)?;
    let mut azimuths = filled(case.alloc, ROOM)?;
    let mut codes = filled(case.alloc, ROOM)?;
    let mut report = Report::new();
    let number = capi::body::l3_symbology(
        &body,
        &mut azimuths,
        &mut codes,
        &mut report.ints,
        &mut report.floats,
    );
    // The library's number; 0 is acceptance.
    if number == 36 {
        out.write_all(b"? too large")?;
    } else if number != 0 {
        crate::refusal::print(out, number, &report)?;
        check(out, "azimuths", &azimuths, 0)?;
        check(out, "codes", &codes, 0)?;
    } else {
        out.write_all(b"A ")?;
        print_picture(out, &report, &azimuths, &codes)?;
        check(out, "azimuths", &azimuths, report.radials())?;
        check(out, "codes", &codes, report.cells())?;
    }
    report.check(out)
}

// The body that the library writes to a part of the buffer, and that it wrote nothing else.
pub fn export16(out: &mut Text, case: Case) -> io::Result<()> {
    let room = case.size(2);
    let body = case.bytes(3)?;
    if ROOM < room {
        return out.write_all(b"? too large");
    }
    let mut output = filled(case.alloc, room)?;
    let mut report = Report::new();
    let number = capi::exports::l3_export16(
        &body,
        &mut output,
        &mut report.ints,
        &mut report.floats,
    );
    // The library's number; 0 is acceptance.
    if number != 0 {
        crate::refusal::print(out, number, &report)?;
        check(out, "output", &output, 0)?;
    } else {
        let n = report.size(0);
        match output.get(..n) {
            None => out.write_all(b"?")?,
            Some(written) => {
                write!(out, "A {n} {}", Row(written))?;
                check(out, "output", &output, n)?;
            }
        }
    }
    report.check(out)
}
