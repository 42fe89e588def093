// The calendar day of a day number.
ghost use Rattle.std.specs.Prelude.{◌≡◌};
ghost use Rattle.calendar.specs.Calendar.{date_of};
ghost use Rattle.capi.specs.Report.{report_of, said, Leaves};
ghost use Rattle.capi.specs.Places.{date_report};

use crate::report::write_answer;

pub fn l3_date(days: u16, ints: &mut [u64], floats: &mut [f64]) -> u32
    ensures { Leaves (said (report_of (date_of days) date_report))
        result ints.old ints.new floats.old floats.new }
{
    write_answer(calendar::date::calendar_day(days), ints, floats)
}
