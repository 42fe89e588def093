// The packet 16 body of an AF1F body.
ghost use Rattle.std.specs.Prelude.{◌≡◌};
ghost use Rattle.export.specs.Export.{export_of};
ghost use Rattle.capi.specs.Entries.{ExportLeaves};

use crate::report::{is_short, write_answer};

pub fn l3_export16(body: &[u8], output: &mut [u8], ints: &mut [u64], floats: &mut [f64]) -> u32
    ensures { ExportLeaves (export_of body.now) result output.old output.new
        ints.old ints.new floats.old floats.new }
{
    if is_short(ints.len(), floats.len()) {
        return 100;
    }
    write_answer(export::export::export_packet16(body, output), ints, floats)
}
