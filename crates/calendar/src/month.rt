// The Gregorian length of a month.
ghost use Rattle.std.specs.Prelude.{◌≡◌, ◌≤◌};
ghost use Rattle.calendar.specs.Calendar.{leap, month_length};

#[tactic(auto, unfolding(crate::specs::Calendar::leap))]
fn is_leap(year: u16) -> bool
    ensures { result ≡ leap year }
{
    if year % 100 == 0 {
        year % 400 == 0
    } else {
        year % 4 == 0
    }
}

// Months are 1 to 12; any other number has 31.
#[tactic(auto, unfolding(crate::specs::Calendar::month_length))]
pub fn month_length(year: u16, month: u8) -> u16
    ensures value { result ≡ month_length year month }
    ensures upper_bound { result ≤ 31 }
{
    match month {
        2 => { if is_leap(year) { 29 } else { 28 } }
        4 | 6 | 9 | 11 => 30,
        _ => 31,
    }
}
