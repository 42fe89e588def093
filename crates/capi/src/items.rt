// XDR items: one, read at a position, and one of each kind, read with one cursor.
ghost use Rattle.capi.specs.Report.{Leaves};
ghost use Rattle.capi.specs.Entries.{xdr_said, items_said};

use crate::report::{Reported, bad_argument, write_ended, write_report};
use xdr::xdr::XdrCursor;

#[tactic(auto, unfolding(crate::specs::Report::choice))]
pub fn l3_xdr(op: u32, payload: &[u8], at: usize, ints: &mut [u64], floats: &mut [f64]) -> u32
    ensures { Leaves (xdr_said op payload.now at) result ints.old ints.new floats.old floats.new }
{
    let mut cursor = XdrCursor::from(payload, at);
    match op {
        0 => write_ended(cursor.unpack_int(), cursor.position(), ints, floats),
        1 => write_ended(cursor.unpack_uint(), cursor.position(), ints, floats),
        2 => write_ended(cursor.unpack_float(), cursor.position(), ints, floats),
        3 => write_ended(cursor.unpack_string(), cursor.position(), ints, floats),
        4 => write_ended(cursor.unpack_int_array(), cursor.position(), ints, floats),
        5 => write_ended(cursor.skip_parameters(), cursor.position(), ints, floats),
        _ => bad_argument(ints.len(), floats.len()),
    }
}

#[tactic(auto, unfolding(crate::specs::Report::choice))]
pub fn l3_items(item: u32, payload: &[u8], ints: &mut [u64], floats: &mut [f64]) -> u32
    ensures { Leaves (items_said item payload.now) result ints.old ints.new floats.old floats.new }
{
    let read = xdr::each::read_each(payload);
    match item {
        0 => write_ended(read.int.answer, read.int.at, ints, floats),
        1 => write_ended(read.uint.answer, read.uint.at, ints, floats),
        2 => write_ended(read.float.answer, read.float.at, ints, floats),
        3 => write_ended(read.string.answer, read.string.at, ints, floats),
        4 => write_ended(read.array.answer, read.array.at, ints, floats),
        5 => write_ended(read.head.answer, read.head.at, ints, floats),
        6 => write_ended(read.list.answer, read.list.at, ints, floats),
        7 => write_report(read.left.report(), ints, floats),
        _ => bad_argument(ints.len(), floats.len()),
    }
}
