// A date and a time of day as text.
ghost use Rattle.std.specs.Prelude.{Some};
ghost use Rattle.show.specs.Dates.{two_of, date_text, time_text};

use calendar::date::Date;
use std::fmt;

// A number's last two decimal digits.
#[derive(Clone, Copy)]
struct Two(usize);

impl fmt::Display for Two {
    ghost output = { λ n. Some (two_of n.0) };

    fn fmt<W: fmt::Write>(&self, f: &mut fmt::Formatter<W>) -> fmt::Result {
        let last = self.0 % 100;
        write!(f, "{last:02}")
    }
}

#[derive(Clone, Copy)]
pub struct Day(pub Date);

impl fmt::Display for Day {
    ghost output = { λ d. Some (date_text d.0) };

    fn fmt<W: fmt::Write>(&self, f: &mut fmt::Formatter<W>) -> fmt::Result {
        let year = usize::from(self.0.year);
        let century = Two(year / 100);
        let year = Two(year);
        let month = Two(usize::from(self.0.month));
        let day = Two(usize::from(self.0.day));
        write!(f, "{century}{year}-{month}-{day}")
    }
}

// A time of day, by its second of the day.
#[derive(Clone, Copy)]
pub struct Time(pub usize);

impl fmt::Display for Time {
    ghost output = { λ t. Some (time_text t.0) };

    fn fmt<W: fmt::Write>(&self, f: &mut fmt::Formatter<W>) -> fmt::Result {
        let hour = Two(self.0 / 3600);
        let minute = Two(self.0 / 60 % 60);
        let second = Two(self.0 % 60);
        write!(f, "{hour}:{minute}:{second}")
    }
}
