// An accepted sweep in words: what the file says, the scale, the figures, and the first cells of the first radials.
ghost use Rattle.std.specs.Prelude.{◌≡◌, ◌^◌, ◌<◌, ◌≤◌, ◌==◌};
ghost use Rattle.show.specs.Gaps.{marked as markedIn, gap_at};

use crate::dates::{Day, Time};
use crate::floats::{Cell, Decimal, Double, Fine};
use crate::text::{Text, distance};
use head::pdb::PdbFields;
use scale::scaling::DeclaredLinearScale;
use std::fmt::Display;
use std::io;
use std::io::Write;
use sweep::plan::Head;
use sweep::sweep::Sweep;
use symbology::figures::{Figures, Geometry, Packet};

// A line: a name, a value at the right end of a column, and what stands behind it.
fn line<T: Display + Drop>(out: &mut Text, name: &str, value: T, unit: &str) -> io::Result<()> {
    writeln!(out, "{name:16}{value:>16}{unit}")
}

// Degrees from a whole number of parts, 10^places to a degree: exact, so that no float's digits are printed.
fn degrees_line(out: &mut Text, name: &str, z: i32, places: u8) -> io::Result<()>
    requires { 10 ^ places < 2 ^ 64 }
{
    let degrees = Decimal::new(z < 0, distance(z), places);
    line(out, name, degrees, " degrees")
}

// Metres from whole feet, exact too: a foot is 3,048 ten-thousandths.
fn height_line(out: &mut Text, feet: i32) -> io::Result<()> {
    let metres = Decimal::new(feet < 0, distance(feet) * 3048, 4);
    writeln!(out, "{:16}{metres:>16} m, {feet} feet", "height")
}

// A part of the file's token, which is of letters and digits.
fn word(file: &[u8], at: usize) -> &str {
    let bytes = file.get(at..).and_then(|rest| rest.get(..3));
    bytes
        .and_then(|word| str::from_utf8(word).ok())
        .unwrap_or("")
}

fn print_token(out: &mut Text, file: &[u8], at: usize) -> io::Result<()> {
    line(out, "product", word(file, at), "")?;
    line(out, "site", word(file, at.saturating_add(3)), "")
}

fn date_line(out: &mut Text, days: u16) -> io::Result<()> {
    match calendar::date::calendar_day(days) {
        Ok(d) => writeln!(out, "scan date             {}", Day(d)),
        // Day 0, which no accepted head has.
        Err(_) => line(out, "scan date", "-", ""),
    }
}

fn print_fields(out: &mut Text, f: PdbFields, time: u64) -> io::Result<()> {
    degrees_line(out, "latitude", f.lat_thousandths, 3)?;
    degrees_line(out, "longitude", f.lon_thousandths, 3)?;
    height_line(out, i32::from(f.height_feet))?;
    line(out, "product code", f.product_code, "")?;
    line(out, "vcp", f.vcp, "")?;
    degrees_line(out, "elevation", i32::from(f.elevation_tenths), 1)?;
    line(out, "scan days", f.scan_days, "")?;
    line(out, "scan seconds", f.scan_seconds, "")?;
    line(out, "scan time", time, " seconds since 1970")?;
    date_line(out, f.scan_days)?;
    // An accepted head has a second of the day, 0 to 86,399.
    let second = Time(xdr::xdr::at_least_0(f.scan_seconds));
    writeln!(out, "time of day             {second} UTC")
}

fn print_scale(out: &mut Text, s: DeclaredLinearScale) -> io::Result<()> {
    line(out, "scale minimum", Fine(s.value_min), "")?;
    line(out, "scale step", Fine(s.value_increment), "")?;
    line(out, "scale levels", s.n_levels, "")?;
    line(out, "scale floor", s.data_floor_code, "")
}

fn print_declared(out: &mut Text, declared: Option<DeclaredLinearScale>) -> io::Result<()> {
    match declared {
        Some(s) => print_scale(out, s),
        None => line(out, "scale", "none", ""),
    }
}

fn packet_name(p: Packet) -> &'static str {
    match p {
        Packet::Packet16 => "16",
        Packet::PacketAf1f => "AF1F",
        Packet::Packet28 => "28",
    }
}

fn print_figures(out: &mut Text, f: Figures) -> io::Result<()> {
    line(out, "packet", packet_name(f.packet), "")?;
    line(out, "radials", f.n_radials, "")?;
    line(out, "bins", f.n_bins, "")?;
    match f.geometry {
        Geometry::RangeScale(n) => line(out, "range scale", n, ""),
        Geometry::Gates {
            gate_width_m,
            first_gate_m,
        } => {
            line(out, "gate width", Fine(gate_width_m), " m")?;
            line(out, "first gate", Fine(first_gate_m), " m")
        }
    }
}

fn print_codes(out: &mut Text, codes: &[u16]) -> io::Result<()> {
    write!(out, "  codes ")?;
    for code in codes {
        write!(out, " {code:>8}")?;
    }
    writeln!(out)
}

fn print_values(out: &mut Text, physical: &[f32]) -> io::Result<()> {
    write!(out, "  values")?;
    for value in physical {
        write!(out, " {:>8}", Cell(*value))?;
    }
    writeln!(out)
}

// How many radials are marked as gaps.
#[tactic(auto, using(crate::proofs::Gaps::marked_is))]
fn marked(marks: &[u8]) -> usize
    ensures { result ≡ markedIn marks.now }
{
    marks.iter().filter(|mark| **mark != 0).count()
}

// Whether a radial is marked; past the marks' end none is.
fn is_gap(marks: &[u8], radial: usize) -> bool
    ensures { result ≡ gap_at marks.now radial }
{
    wire::bytes::byte_at(marks, radial) != 0
}

// What was read: an azimuth for each radial, and a row of cells for each. `marks` is empty where gaps were not asked for; else a mark
// past the last radial's is 0.
#[derive(Clone, Copy)]
pub struct Lent<'a> {
    pub azimuths: &'a [f64],
    pub codes: &'a [u16],
    pub physical: &'a [f32],
    pub marks: &'a [u8],
}

// The first n cells of a radial that stand from place `at` on.
fn print_cells(out: &mut Text, lent: Lent, at: usize, n: usize) -> io::Result<()> {
    if let Some(codes) = lent.codes.get(at..).and_then(|rest| rest.get(..n)) {
        print_codes(out, codes)?;
    }
    if let Some(values) = lent.physical.get(at..).and_then(|rest| rest.get(..n)) {
        print_values(out, values)?;
    }
    Ok(())
}

// The first radials, those of 4 that have cells.
fn print_radials(out: &mut Text, lent: Lent, radials: usize, bins: usize) -> io::Result<()> {
    let n = bins.min(8);
    let mut at = 0usize;
    for (radial, azimuth) in lent.azimuths.iter().enumerate().take(radials.min(4)) {
        let centre = Double(*azimuth);
        write!(out, "radial {radial}, centre {centre} degrees")?;
        if is_gap(lent.marks, radial) {
            writeln!(out, ": a gap")?;
        } else {
            writeln!(out)?;
            print_cells(out, lent, at, n)?;
        }
        if lent.codes.len().saturating_sub(at) < bins {
            return Ok(());
        }
        at += bins;
    }
    Ok(())
}

// Whether a sweep has more cells than there is room for.
fn is_over(radials: usize, bins: usize, room: usize) -> bool {
    if bins == 0 {
        return false;
    }
    room / bins < radials
}

// No radials: the radar has seen nothing.
fn is_clear(radials: usize) -> bool
    ensures { result ≡ (radials == 0) }
{
    radials == 0
}

// A head alone.
pub fn print_head(out: &mut Text, h: Head, file: &[u8]) -> io::Result<()> {
    print_token(out, file, h.token)?;
    print_fields(out, h.fields, h.time)
}

pub fn print(out: &mut Text, s: Sweep, file: &[u8], lent: Lent) -> io::Result<()> {
    print_token(out, file, s.token)?;
    print_fields(out, s.fields, s.time)?;
    print_declared(out, s.declared)?;
    print_figures(out, s.figures)?;
    if !lent.marks.is_empty() {
        line(out, "gaps", marked(lent.marks), "")?;
    }
    let radials = s.figures.n_radials;
    let bins = s.figures.n_bins;
    if is_clear(radials) {
        return writeln!(out, "\nclear scan: the radar has seen nothing");
    }
    writeln!(
        out,
        "\nthe first {} of {radials} radials, the first {} of {bins} bins",
        radials.min(4),
        bins.min(8)
    )?;
    let room = lent.physical.len();
    if is_over(radials, bins, room) {
        writeln!(
            out,
            "values are worked out for the first {room} cells alone"
        )?;
    }
    print_radials(out, lent, radials, bins)
}
