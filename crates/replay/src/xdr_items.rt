// XDR items, one after another.
use crate::case::Case;
use crate::kinds::Item;
use crate::lent::Report;
use crate::print::{Row, Single};
use crate::text::Text;
use std::io;
use std::io::Write;
use std::ops::ControlFlow;
use wire::bytes::i32_at;

// The payload from a place on, up to a length.
fn part(payload: &[u8], start: usize, n: usize) -> Option<&[u8]> {
    payload.get(start..)?.get(..n)
}

fn print_string(out: &mut Text, s: Option<&[u8]>) -> io::Result<()> {
    match s {
        None => out.write_all(b"?"),
        Some(s) if s.is_ascii() => write!(out, "s{}", Row(s)),
        Some(_) => out.write_all(b"s?"),
    }
}

// Not `Commas`: the numbers are read one by one from the payload.
fn print_array(out: &mut Text, s: Option<&[u8]>) -> io::Result<()> {
    let Some(s) = s else {
        return out.write_all(b"?");
    };
    out.write_all(b"a")?;
    for (i, number) in s.chunks_exact(4).enumerate() {
        if 0 < i {
            out.write_all(b",")?;
        }
        write!(out, "{}", i32_at(number, 0))?;
    }
    Ok(())
}

fn print_item(
    out: &mut Text,
    item: Item,
    payload: &[u8],
    at: usize,
    report: &Report,
) -> io::Result<()> {
    let first = report.ints[0];
    let start = report.size(0);
    let n = report.size(1);
    match item {
        Item::Int => write!(out, "i{}", first.cast_signed()),
        Item::Uint => write!(out, "u{first}"),
        Item::Float => write!(out, "f{}", Single(report.floats[0])),
        Item::String => print_string(out, part(payload, start, n)),
        Item::Array => print_array(out, part(payload, start, n.saturating_mul(4))),
        Item::List => write!(out, "l{}", i32_at(payload, at).max(0)),
    }
}

// Reads an item, and says where the next one begins; a refusal is the last.
fn read(
    out: &mut Text,
    item: Item,
    payload: &[u8],
    at: usize,
) -> io::Result<ControlFlow<usize, usize>> {
    let mut report = Report::new();
    let number = capi::items::l3_xdr(
        u32::from(item),
        payload,
        at,
        &mut report.ints,
        &mut report.floats,
    );
    out.write_all(b" ")?;
    let end = report.size(15);
    // The library's number; 0 is acceptance.
    if number == 0 {
        print_item(out, item, payload, at, &report)?;
        report.check(out)?;
        Ok(ControlFlow::Continue(end))
    } else {
        crate::refusal::print(out, number, &report)?;
        report.check(out)?;
        Ok(ControlFlow::Break(end))
    }
}

// Reads the items that the letters say, up to the first refusal; the position then.
fn read_all(out: &mut Text, letters: &[u8], payload: &[u8]) -> io::Result<usize> {
    let mut at = 0;
    for letter in letters {
        let Some(item) = Item::of(*letter) else {
            break;
        };
        match read(out, item, payload, at)? {
            ControlFlow::Continue(end) => at = end,
            ControlFlow::Break(end) => return Ok(end),
        }
    }
    Ok(at)
}

pub fn answer(out: &mut Text, case: Case) -> io::Result<()> {
    let payload = case.bytes(3)?;
    out.write_all(b"X")?;
    let at = read_all(out, case.word(2), &payload)?;
    write!(out, " pos={at}")
}
