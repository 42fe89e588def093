// The rain charge of a total by tariff.
ghost use Rattle.std.specs.Prelude.{◌≡◌};
ghost use Rattle.tariff.specs.Tariff.{charge_of};
ghost use Rattle.capi.specs.Report.{report_of, said, Leaves};
ghost use Rattle.capi.specs.Places.{charge_report};

use crate::report::write_answer;

// By hand: its parameters are C's; l3_precip is like it in form alone.
pub fn l3_charge(
    total: u64,
    ends: &[u64],
    rates: &[u32],
    ints: &mut [u64],
    floats: &mut [f64],
) -> u32
    ensures { Leaves (said (report_of (charge_of total ends.now rates.now) charge_report))
        result ints.old ints.new floats.old floats.new }
{
    write_answer(
        tariff::charge::rain_charge(total, ends, rates),
        ints,
        floats,
    )
}
