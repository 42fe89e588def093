// The AWIPS token, the message header, the scan time.
ghost use Rattle.std.specs.Prelude.{◌≡◌};
ghost use Rattle.head.specs.Header.{token, message_header, scan_time};
ghost use Rattle.capi.specs.Report.{report_of, said, Leaves};
ghost use Rattle.capi.specs.Places.{number_report};

use crate::report::write_answer;

pub fn l3_token(file: &[u8], ints: &mut [u64], floats: &mut [f64]) -> u32
    ensures { Leaves (said (report_of (token file.now) number_report))
        result ints.old ints.new floats.old floats.new }
{
    write_answer(head::header::find_awips_token(file), ints, floats)
}

pub fn l3_message_header(file: &[u8], ints: &mut [u64], floats: &mut [f64]) -> u32
    ensures { Leaves (said (report_of (message_header file.now) number_report))
        result ints.old ints.new floats.old floats.new }
{
    write_answer(head::header::find_message_header(file), ints, floats)
}

pub fn l3_scan_time(
    days: u16,
    seconds: i32,
    clock: u64,
    ints: &mut [u64],
    floats: &mut [f64],
) -> u32
    ensures { Leaves (said (report_of (scan_time days seconds clock) number_report))
        result ints.old ints.new floats.old floats.new }
{
    write_answer(head::header::scan_time(days, seconds, clock), ints, floats)
}
