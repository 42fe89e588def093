// Fields of the product description block.
ghost use Rattle.std.specs.Prelude.{◌≡◌};
ghost use Rattle.head.specs.Pdb.{pdb_fields};
ghost use Rattle.capi.specs.Report.{report_of, said, Leaves};
ghost use Rattle.capi.specs.Places.{fields_report};
ghost use Rattle.capi.specs.Entries.{field_said};

use crate::report::{bad_argument, write_answer};

#[tactic(auto, unfolding(crate::specs::Report::choice))]
pub fn l3_field(
    file: &[u8],
    block: usize,
    index: usize,
    kind: u32,
    ints: &mut [u64],
    floats: &mut [f64],
) -> u32
    ensures { Leaves (field_said file.now block index kind)
        result ints.old ints.new floats.old floats.new }
{
    match kind {
        0 => write_answer(head::pdb::hw_i16(file, block, index), ints, floats),
        1 => write_answer(head::pdb::hw_u16(file, block, index), ints, floats),
        2 => write_answer(head::pdb::hw_i32(file, block, index), ints, floats),
        3 => write_answer(head::pdb::hw_f32_pair(file, block, index), ints, floats),
        _ => bad_argument(ints.len(), floats.len()),
    }
}

pub fn l3_pdb(file: &[u8], block: usize, ints: &mut [u64], floats: &mut [f64]) -> u32
    ensures { Leaves (said (report_of (pdb_fields file.now block) fields_report))
        result ints.old ints.new floats.old floats.new }
{
    write_answer(head::pdb::read_pdb_fields(file, block), ints, floats)
}
