// A symbology body, and the bytes after it.
ghost use Rattle.std.specs.Prelude.{◌≡◌};
ghost use Rattle.symbology.specs.Answers.{decode_of};
ghost use Rattle.symbology.specs.Trailing.{trailing};
ghost use Rattle.capi.specs.Report.{report_of, said, Leaves};
ghost use Rattle.capi.specs.Places.{no_report, figures_report};
ghost use Rattle.capi.specs.Entries.{PictureLeaves};

use crate::report::{is_short, write_answer};

pub fn l3_trailing(bytes: &[u8], ints: &mut [u64], floats: &mut [f64]) -> u32
    ensures { Leaves (said (report_of (trailing bytes.now) no_report))
        result ints.old ints.new floats.old floats.new }
{
    write_answer(symbology::trailing::check_trailing(bytes), ints, floats)
}

pub fn l3_symbology(
    body: &[u8],
    azimuths: &mut [f64],
    codes: &mut [u16],
    ints: &mut [u64],
    floats: &mut [f64],
) -> u32
    ensures { PictureLeaves (decode_of body.now) result
        azimuths.old azimuths.new codes.old codes.new
        ints.old ints.new floats.old floats.new }
{
    if is_short(ints.len(), floats.len()) {
        return 100;
    }
    let answer = symbology::symbology::decode_symbology(body, azimuths, codes);
    write_answer(answer, ints, floats)
}
