// Thresholds, levels, the known codes and the refusals' names, in arrays as C lends them.
use crate::case::Case;
use crate::lent::{Pattern, ROOM, Report, check, filled};
use crate::print::{Cell, Row};
use crate::text::Text;
use std::io;
use std::io::Write;

pub fn threshold(out: &mut Text, case: Case) -> io::Result<()> {
    let file = case.bytes(2)?;
    let block = case.size(3);
    let mut thresholds = [u8::PATTERN; 32];
    let mut report = Report::new();
    let number = capi::scaling::l3_threshold(
        &file,
        block,
        &mut thresholds,
        &mut report.ints,
        &mut report.floats,
    );
    // The library's number; 0 is acceptance.
    if number == 0 {
        write!(out, "A {}", Row(&thresholds))?;
    } else {
        crate::refusal::print(out, number, &report)?;
        check(out, "thresholds", &thresholds, 0)?;
    }
    report.check(out)
}

pub fn legacy(out: &mut Text, case: Case) -> io::Result<()> {
    let bytes = case.bytes(2)?;
    let mut levels = [f32::PATTERN; 16];
    let number = capi::scaling::l3_legacy16(&bytes, case.float(3), &mut levels);
    // The library's number; 0 is acceptance.
    if number != 0 {
        return write!(out, "R {number}");
    }
    out.write_all(b"A")?;
    for level in levels {
        write!(out, " {}", Cell(level))?;
    }
    Ok(())
}

pub fn known(out: &mut Text, case: Case) -> io::Result<()> {
    let number = capi::products::l3_known(crate::words::signed16(case.word(2)));
    write!(out, "A {number}")
}

pub fn codes(out: &mut Text) -> io::Result<()> {
    let mut table = [u16::PATTERN; 26];
    let number = capi::products::l3_codes(&mut table);
    // The library's number; 0 is acceptance.
    if number != 0 {
        return write!(out, "R {number}");
    }
    write!(out, "A {table:?}")
}

// A refusal's name. The library writes 32 places: zeros stand behind it.
pub fn name(out: &mut Text, case: Case) -> io::Result<()> {
    let places = case.size(3);
    if ROOM < places {
        return out.write_all(b"? too large");
    }
    let mut name = filled(case.alloc, places)?;
    let number = capi::names::l3_refusal_name(crate::words::unsigned32(case.word(2)), &mut name);
    // The library's number; 0 is acceptance.
    if number != 0 {
        write!(out, "R {number}")?;
        return check(out, "name", &name, 0);
    }
    let n = crate::words::letters(&name, 0);
    out.write_all(b"A ")?;
    out.write_all(&name[..n])?;
    if name.iter().take(32).skip(n).any(|b| *b != 0) {
        out.write_all(b" ?")?;
    }
    check(out, "name", &name, 32)
}
