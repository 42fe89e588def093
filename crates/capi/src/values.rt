// The reports of small values: nothing, a number, a signed number, a float, two floats, a part of the payload, a date, a charge.
ghost use Rattle.std.specs.Prelude.{◌≡◌};
ghost use Rattle.capi.specs.Places.{no_report, word_report, float_report, pair_report, found};
ghost use Rattle.capi.specs.Places.{part_report, date_report, charge_report};

use crate::report::{Report, Reported, Whole, wholes, with_float};
use calendar::date::Date;
use head::pdb::F32Pair;
use tariff::charge::Charge;
use xdr::xdr::Part;

impl Reported for () {
    ghost places = { no_report };

    fn report(self) -> Report {
        wholes(0, 0, 0, 0, 0)
    }
}

impl<T: Whole> Reported for T {
    ghost places = { word_report T.held };

    fn report(self) -> Report {
        wholes(0, self.word(), 0, 0, 0)
    }
}

impl Reported for f32 {
    ghost places = { float_report };

    fn report(self) -> Report {
        with_float(0, 0, self)
    }
}

impl Reported for F32Pair {
    ghost places = { pair_report };

    fn report(self) -> Report {
        let mut report = with_float(0, 0, self.scale);
        report.floats[1] = f64::from(self.offset);
        report
    }
}

impl<T: Whole> Reported for Option<T> {
    ghost places = { found T.held };

    fn report(self) -> Report {
        match self {
            Some(n) => wholes(0, 1, n.word(), 0, 0),
            None => wholes(0, 0, 0, 0, 0),
        }
    }
}

impl Reported for Part {
    ghost places = { part_report };

    fn report(self) -> Report {
        wholes(0, self.start.word(), self.len.word(), 0, 0)
    }
}

impl Reported for Date {
    ghost places = { date_report };

    fn report(self) -> Report {
        wholes(
            0,
            self.year.word(),
            u64::from(self.month),
            u64::from(self.day),
            0,
        )
    }
}

impl Reported for Charge {
    ghost places = { charge_report };

    fn report(self) -> Report {
        wholes(0, self.charge, self.remainder, 0, 0)
    }
}
