// Big-endian numbers at an offset.
ghost use Rattle.std.specs.Prelude.{◌≡◌};
ghost use Rattle.capi.specs.Report.{Leaves};
ghost use Rattle.capi.specs.Entries.{read_said};

use crate::report::{Reported, bad_argument, write_report};

#[tactic(auto, unfolding(crate::specs::Report::choice))]
pub fn l3_read(kind: u32, bytes: &[u8], offset: usize, ints: &mut [u64], floats: &mut [f64]) -> u32
    ensures { Leaves (read_said kind bytes.now offset)
        result ints.old ints.new floats.old floats.new }
{
    match kind {
        0 => write_report(
            wire::bytes::read_u16_be(bytes, offset).report(),
            ints,
            floats,
        ),
        1 => write_report(
            wire::bytes::read_i16_be(bytes, offset).report(),
            ints,
            floats,
        ),
        2 => write_report(
            wire::bytes::read_i32_be(bytes, offset).report(),
            ints,
            floats,
        ),
        _ => bad_argument(ints.len(), floats.len()),
    }
}
