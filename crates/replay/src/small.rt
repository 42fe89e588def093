// The readings that lend nothing but the report.
use crate::case::Case;
use crate::kinds::FieldKind;
use crate::lent::Report;
use crate::print::{Cell, Single};
use crate::refusal::ask;
use crate::text::Text;
use std::io;
use std::io::Write;

// The token at a place, from byte `from` on: its product, its site, or both.
pub fn print_token(
    out: &mut Text,
    file: &[u8],
    at: usize,
    from: usize,
    n: usize,
) -> io::Result<()> {
    let token = file
        .get(at.saturating_add(from)..)
        .and_then(|rest| rest.get(..n));
    out.write_all(token.unwrap_or(b"?"))
}

// The fields of the description block.
pub fn print_fields(out: &mut Text, report: &Report) -> io::Result<()> {
    let ints = &report.ints;
    let floats = &report.floats;
    write!(
        out,
        "lat={} lon={} h={} pc={} vcp={} days={} secs={} el={}",
        Cell(floats[0]),
        Cell(floats[1]),
        Cell(floats[2]),
        ints[1].cast_signed(),
        ints[2],
        ints[3],
        ints[4].cast_signed(),
        Cell(floats[3])
    )
}

fn print_number(out: &mut Text, report: &Report) -> io::Result<()> {
    write!(out, "A {}", report.ints[0].cast_signed())
}

fn print_pair(out: &mut Text, low: f64, high: f64) -> io::Result<()> {
    write!(out, "A f{} f{}", Single(low), Single(high))
}

fn print_linear(out: &mut Text, report: &Report) -> io::Result<()> {
    print_pair(out, report.floats[6], report.floats[7])?;
    write!(out, " {}", report.ints[11])
}

fn print_precip(out: &mut Text, report: &Report) -> io::Result<()> {
    print_pair(out, report.floats[6], report.floats[7])?;
    write!(out, " {}", report.ints[12])?;
    match report.ints[13] {
        u64::MAX => out.write_all(b" none"),
        ceiling => write!(out, " {ceiling}"),
    }
}

// What the numbers of a product's scheme, moment and unit stand for.
fn scheme(n: u64) -> &'static str {
    match n {
        0 => "H",
        1 => "F",
        2 => "P",
        3 => "L",
        4 => "C",
        _ => "?",
    }
}

fn moment(n: u64) -> &'static str {
    match n {
        0 => "DBZH",
        1 => "VRADH",
        2 => "WRADH",
        3 => "SRMV",
        4 => "ZDR",
        5 => "RHOHV",
        6 => "KDP",
        7 => "HCLASS",
        8 => "ACCUM",
        9 => "RATE",
        _ => "?",
    }
}

fn unit(n: u64) -> &'static str {
    match n {
        0 => "dBZ",
        1 => "m/s",
        2 => "dB",
        3 => "ratio",
        4 => "deg/km",
        5 => "class",
        6 => "mm",
        7 => "mm/h",
        _ => "?",
    }
}

fn print_product(out: &mut Text, report: &Report) -> io::Result<()> {
    let ints = &report.ints;
    if ints[0] == 0 {
        return out.write_all(b"A unknown");
    }
    write!(out, "A scheme={}", scheme(ints[1]))?;
    if matches!(ints[1], 2 | 3) {
        write!(out, ":{}", Single(report.floats[0]))?;
    }
    write!(out, " moment={} unit={}", moment(ints[2]), unit(ints[3]))?;
    match ints[4] {
        0 => out.write_all(b" gate=-")?,
        gate => write!(out, " gate={gate}")?,
    }
    write!(out, " elevation={}", ints[5])
}

pub fn token(out: &mut Text, case: Case) -> io::Result<()> {
    let file = case.bytes(2)?;
    ask(
        out,
        |r| capi::header::l3_token(&file, &mut r.ints, &mut r.floats),
        |out, r| {
            out.write_all(b"A ")?;
            print_token(out, &file, r.size(0), 0, 3)?;
            out.write_all(b" ")?;
            print_token(out, &file, r.size(0), 3, 3)
        },
    )
}

pub fn header(out: &mut Text, case: Case) -> io::Result<()> {
    let file = case.bytes(2)?;
    ask(
        out,
        |r| capi::header::l3_message_header(&file, &mut r.ints, &mut r.floats),
        print_number,
    )
}

pub fn trailing(out: &mut Text, case: Case) -> io::Result<()> {
    let bytes = case.bytes(2)?;
    ask(
        out,
        |r| capi::body::l3_trailing(&bytes, &mut r.ints, &mut r.floats),
        |out, _| out.write_all(b"A"),
    )
}

pub fn time(out: &mut Text, case: Case) -> io::Result<()> {
    let clock = crate::words::clock(case.word(2));
    let days = crate::words::unsigned16(case.word(3));
    let seconds = crate::words::signed32(case.word(4));
    ask(
        out,
        |r| capi::header::l3_scan_time(days, seconds, clock, &mut r.ints, &mut r.floats),
        print_number,
    )
}

// Year, month and day.
pub fn date(out: &mut Text, case: Case) -> io::Result<()> {
    let days = crate::words::unsigned16(case.word(2));
    ask(
        out,
        |r| capi::dates::l3_date(days, &mut r.ints, &mut r.floats),
        |out, r| write!(out, "A {} {} {}", r.ints[0], r.ints[1], r.ints[2]),
    )
}

pub fn field(out: &mut Text, case: Case) -> io::Result<()> {
    let file = case.bytes(2)?;
    let block = case.size(3);
    let index = case.size(4);
    let Some(kind) = FieldKind::of(case.word(5)) else {
        return out.write_all(b"?");
    };
    ask(
        out,
        |r| {
            capi::pdb::l3_field(
                &file,
                block,
                index,
                u32::from(kind),
                &mut r.ints,
                &mut r.floats,
            )
        },
        |out, r| match kind {
            FieldKind::Pair => print_pair(out, r.floats[0], r.floats[1]),
            _ => print_number(out, r),
        },
    )
}

pub fn block(out: &mut Text, case: Case) -> io::Result<()> {
    let file = case.bytes(2)?;
    let block = case.size(3);
    ask(
        out,
        |r| capi::pdb::l3_pdb(&file, block, &mut r.ints, &mut r.floats),
        |out, r| {
            out.write_all(b"A ")?;
            print_fields(out, r)
        },
    )
}

// A linear scale, as an entry of the library reads it from the file.
pub fn linear<F>(out: &mut Text, case: Case, entry: F) -> io::Result<()>
where
    F: FnOnce(&[u8], usize, &mut [u64], &mut [f64]) -> u32,
    requires { F.IsAlwaysCallable entry }
{
    let file = case.bytes(2)?;
    let block = case.size(3);
    ask(
        out,
        |r| entry(&file, block, &mut r.ints, &mut r.floats),
        print_linear,
    )
}

pub fn precip(out: &mut Text, case: Case) -> io::Result<()> {
    let file = case.bytes(2)?;
    let block = case.size(3);
    let factor = case.float(4);
    ask(
        out,
        |r| capi::scaling::l3_precip(&file, block, factor, &mut r.ints, &mut r.floats),
        print_precip,
    )
}

pub fn product(out: &mut Text, case: Case) -> io::Result<()> {
    let code = crate::words::signed16(case.word(2));
    ask(
        out,
        |r| capi::products::l3_product(code, &mut r.ints, &mut r.floats),
        print_product,
    )
}
