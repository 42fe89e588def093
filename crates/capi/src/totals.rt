// The totals of a field plan over the codes of any picture.
ghost use Rattle.std.specs.Prelude.{◌≡◌, length};
ghost use Rattle.wire.specs.Result.{answer, lent};
ghost use Rattle.fields.specs.Picture.{fields_in};
ghost use Rattle.capi.specs.Entries.{plan_totals, ExportLeaves};

use crate::report::{is_short, write_answer};
use wire::error::Level3DecodeError;

// By the precipitation scale of a description block: no total depends on its factor. The parameters are those of the C entry, one by one.
#[tactic(auto, using(scale::proofs::Constants::one))]
fn picture_totals(
    file: &[u8],
    block: usize,
    codes: &[u16],
    radials: usize,
    bins: usize,
    plan: &[u8],
    totals: &mut [u64],
) -> Result<usize, Level3DecodeError>
    ensures result_value { answer result ≡ fields_in (plan_totals file.now block codes.now radials bins plan.now (length totals.old)) }
    ensures totals_after { totals.new ≡ lent (plan_totals file.now block codes.now radials bins plan.now (length totals.old)) (λ t. t) totals.old }
{
    let scale = scale::pdb::precip_family_scale(file, block, 1.0)?;
    fields::picture::picture_totals(codes, radials, bins, scale, plan, totals)
}

pub fn l3_plan_totals(
    file: &[u8],
    block: usize,
    codes: &[u16],
    radials: usize,
    bins: usize,
    plan: &[u8],
    totals: &mut [u64],
    ints: &mut [u64],
    floats: &mut [f64],
) -> u32
    ensures { ExportLeaves (plan_totals file.now block codes.now radials bins plan.now) result totals.old totals.new
        ints.old ints.new floats.old floats.new }
{
    if is_short(ints.len(), floats.len()) {
        return 100;
    }
    let answer = picture_totals(file, block, codes, radials, bins, plan, totals);
    write_answer(answer, ints, floats)
}
