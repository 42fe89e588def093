// Scale fields, thresholds, levels and physical values.
ghost use Rattle.std.specs.Prelude.{◌≡◌, length, take, drop};
ghost use Rattle.scale.specs.Pdb.{value_scaling_linear_hw, value_scaling_float, precip_family_scale};
ghost use Rattle.capi.specs.Report.{report_of, said, saying, room_first, Leaves, lent_by, plain_number, plain_after};
ghost use Rattle.capi.specs.Places.{no_report, linear_report, precip_report};
ghost use Rattle.capi.specs.Entries.{threshold_said, levels_said, physical_said};

use crate::report::{Reported, is_short, refusal_report, write_answer, write_report};
use crate::sweeps::asked_scheme;

pub fn l3_linear(file: &[u8], block: usize, ints: &mut [u64], floats: &mut [f64]) -> u32
    ensures { Leaves (said (report_of (value_scaling_linear_hw file.now block) linear_report))
        result ints.old ints.new floats.old floats.new }
{
    write_answer(
        scale::pdb::value_scaling_linear_hw(file, block),
        ints,
        floats,
    )
}

pub fn l3_float(file: &[u8], block: usize, ints: &mut [u64], floats: &mut [f64]) -> u32
    ensures { Leaves (said (report_of (value_scaling_float file.now block) linear_report))
        result ints.old ints.new floats.old floats.new }
{
    write_answer(scale::pdb::value_scaling_float(file, block), ints, floats)
}

// By hand: its parameters are C's; l3_charge is like it in form alone.
pub fn l3_precip(
    file: &[u8],
    block: usize,
    factor: f32,
    ints: &mut [u64],
    floats: &mut [f64],
) -> u32
    ensures { Leaves (said (report_of (precip_family_scale file.now block factor) precip_report))
        result ints.old ints.new floats.old floats.new }
{
    write_answer(
        scale::pdb::precip_family_scale(file, block, factor),
        ints,
        floats,
    )
}

#[tactic(auto, unfolding(crate::specs::Entries::threshold_said))]
pub fn l3_threshold(
    file: &[u8],
    block: usize,
    thresholds: &mut [u8],
    ints: &mut [u64],
    floats: &mut [f64],
) -> u32
    ensures leaves { Leaves (saying (λ a. report_of a no_report) (threshold_said file.now block (length thresholds.old)))
        result ints.old ints.new floats.old floats.new }
    ensures thresholds_after { thresholds.new
        ≡ lent_by (room_first ints.old floats.old (threshold_said file.now block (length thresholds.old)))
        (λ k. take 32 (drop k file.now)) thresholds.old }
{
    if is_short(ints.len(), floats.len()) {
        return 100;
    }
    if thresholds.len() != 32 {
        return 101;
    }
    match scale::pdb::threshold_data(file, block) {
        Ok(copy) => {
            thresholds.copy_from_slice(&copy.bytes);
            write_report(().report(), ints, floats)
        }
        Err(error) => write_report(refusal_report(error), ints, floats),
    }
}

#[tactic(auto, using(crate::proofs::Answers::over_all), unfolding(crate::specs::Entries::levels_said))]
pub fn l3_legacy16(thresholds: &[u8], post_scale: f32, levels: &mut [f32]) -> u32
    ensures value { result ≡ plain_number (levels_said thresholds.now post_scale (length levels.old)) }
    ensures levels_after { levels.new
        ≡ plain_after (levels_said thresholds.now post_scale (length levels.old)) levels.old }
{
    let Ok(bytes) = <&[u8; 32]>::try_from(thresholds) else {
        return 101;
    };
    if levels.len() != 16 {
        return 101;
    }
    levels.copy_from_slice(&scale::legacy16::decode_legacy16(bytes, post_scale));
    0
}

pub fn l3_physical(
    file: &[u8],
    block: usize,
    scheme: u32,
    parameter: f32,
    codes: &[u16],
    physical: &mut [f32],
    ints: &mut [u64],
    floats: &mut [f64],
) -> u32
    ensures leaves { Leaves (saying (λ a. report_of a no_report)
        (physical_said scheme parameter file.now block codes.now (length physical.old))) result
        ints.old ints.new floats.old floats.new }
    ensures physical_after { physical.new ≡ lent_by (room_first ints.old floats.old
        (physical_said scheme parameter file.now block codes.now (length physical.old)))
        (λ values. values) physical.old }
{
    let asked = match asked_scheme(scheme, parameter, ints.len(), floats.len()) {
        Ok(s) => s,
        Err(number) => return number,
    };
    let answer = scale::physical::fill_physical(asked, file, block, codes, physical);
    write_answer(answer, ints, floats)
}
