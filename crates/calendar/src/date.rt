// Dates, and the date of a day number.
ghost use Rattle.std.specs.Prelude.{◌≡◌};
ghost use Rattle.wire.specs.Result.{answer};
ghost use Rattle.calendar.specs.Calendar.{date_of};

use crate::starts::{month_of_day, month_start};
use wire::error::Level3DecodeError;

#[derive(Clone, Copy)]
pub struct Date {
    pub year: u16,
    pub month: u8,
    pub day: u8,
}

#[tactic(auto, using(crate::proofs::Search::day_small), unfolding(crate::specs::Calendar::date_of))]
pub fn calendar_day(days: u16) -> Result<Date, Level3DecodeError>
    ensures { answer result ≡ date_of days }
{
    if days == 0 {
        return Err(Level3DecodeError::ImplausibleScanTime {
            days: 0,
            seconds: 0,
        });
    }
    let k = month_of_day(days);
    let first = month_start(k);
    // In range by the proof: `try_from` would be a test that cannot fail.
    Ok(Date {
        year: (1970 + k / 12) as u16,
        month: (1 + k % 12) as u8,
        day: (days - first + 1) as u8,
    })
}
