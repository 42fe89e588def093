// A refusal: its number, and its values out of the report. The number stays one, since an answer line has it as the library gave it.
use crate::lent::Report;
use crate::print::Single;
use crate::text::Text;
use std::io;
use std::io::Write;

// How many whole numbers a refusal has.
fn wholes(number: u32) -> usize {
    match number {
        3 | 5 | 11 | 12 | 14 | 17 | 20 | 27 | 28 | 35 | 36 | 37 | 38 | 39 | 44 | 45 => 1,
        4 | 13 | 15 | 19 | 24 | 25 | 26 | 29 | 30 => 2,
        21 | 22 | 23 | 31 | 32 | 34 => 3,
        16 | 18 | 33 => 4,
        _ => 0,
    }
}

fn has_float(number: u32) -> bool {
    matches!(number, 7 | 8 | 9 | 20)
}

fn item(n: u64) -> &'static str {
    match n {
        0 => "int",
        1 => "uint",
        2 => "float",
        3 => "string_body",
        4 => "padding",
        5 => "array_body",
        6 => "packet_body",
        _ => "?",
    }
}

fn buffer(n: u64) -> &'static str {
    match n {
        0 => "azimuths",
        1 => "codes",
        2 => "physical",
        3 => "marks",
        4 => "totals",
        5 => "output",
        _ => "?",
    }
}

// The first whole number: an item, a buffer, an index that takes all 64 bits, or signed as the others are.
fn print_first(out: &mut Text, number: u32, n: u64) -> io::Result<()> {
    match number {
        3 => write!(out, " {n}"),
        23 => write!(out, " {}", item(n)),
        36 => write!(out, " {}", buffer(n)),
        _ => write!(out, " {}", n.cast_signed()),
    }
}

// Asks an entry of the library, and writes its refusal, or what it accepted as `accepted` does.
pub fn ask<F, G>(out: &mut Text, entry: F, accepted: G) -> io::Result<()>
where
    F: FnOnce(&mut Report) -> u32,
    G: FnOnce(&mut Text, &Report) -> io::Result<()> + Drop,
    requires entry { F.IsAlwaysCallable entry }
    requires accepted { G.IsAlwaysCallable accepted }
{
    let mut report = Report::new();
    let number = entry(&mut report);
    if number == 0 {
        accepted(out, &report)?;
    } else {
        print(out, number, &report)?;
    }
    report.check(out)
}

pub fn print(out: &mut Text, number: u32, report: &Report) -> io::Result<()> {
    write!(out, "R {number}")?;
    for (k, n) in report.ints.iter().take(wholes(number)).enumerate() {
        if k == 0 {
            print_first(out, number, *n)?;
        } else {
            write!(out, " {}", n.cast_signed())?;
        }
    }
    if has_float(number) {
        write!(out, " f{}", Single(report.floats[0]))?;
    }
    Ok(())
}
