// What an entry reports: a number, 24 whole numbers and eight floats.
ghost use Rattle.std.specs.Prelude.{◌≡◌, ◌<◌, [], ◌∷◌, if◌then◌else◌};
ghost use Rattle.wire.specs.Refusal.{refusal_of};
ghost use Rattle.wire.specs.Result.{answer};
ghost use Rattle.xdr.specs.Cursor.{ended};
ghost use Rattle.capi.specs.Report.{whole_places, word, item_number, buffer_number, report, refusal_report, report_of, ended_report};
ghost use Rattle.capi.specs.Report.{with_place, with_position, said, short, Leaves};

use wire::error::{Buffer, Level3DecodeError, XdrItem};

// The places of a report: for whole numbers and for floats.
pub(crate) const INTS: usize = 24;

const FLOATS: usize = 8;

// 0 and an accepted value's places, or a refusal's number and its values. Other places hold 0.
#[derive(Clone, Copy)]
pub struct Report {
    pub number: u32,
    pub ints: [u64; INTS],
    pub floats: [f64; FLOATS],
}

// An accepted value that has a report.
pub trait Reported {
    ghost use Rattle.capi.specs.declared.report.Report.{Report};

    ghost places: { Self → Report };

    fn report(self) -> Report
        ensures { result ≡ places self };
}

// A whole number, which a report holds as a 64-bit word: two's complement.
pub trait Whole {
    ghost use Rattle.std.specs.Prelude.{ℕ};

    ghost held: { Self → ℕ };

    fn word(self) -> u64
        ensures { result ≡ held self };
}

impl Whole for u16 {
    ghost held = { λ n. n };

    fn word(self) -> u64 {
        u64::from(self)
    }
}

impl Whole for u32 {
    ghost held = { λ n. n };

    fn word(self) -> u64 {
        u64::from(self)
    }
}

impl Whole for u64 {
    ghost held = { λ n. n };

    fn word(self) -> u64 {
        self
    }
}

impl Whole for usize {
    ghost held = { λ n. n };

    fn word(self) -> u64 {
        // No `From` makes a `u64` of a `usize`.
        self as u64
    }
}

impl Whole for i16 {
    ghost held = { word };

    fn word(self) -> u64 {
        i64::from(self).cast_unsigned()
    }
}

impl Whole for i32 {
    ghost held = { word };

    fn word(self) -> u64 {
        i64::from(self).cast_unsigned()
    }
}

// C's numbers, here and below, one by one: the order of an enum of another crate promises nothing.
fn item_number(item: XdrItem) -> u64
    ensures { result ≡ item_number item }
{
    match item {
        XdrItem::Int => 0,
        XdrItem::Uint => 1,
        XdrItem::Float => 2,
        XdrItem::StringBody => 3,
        XdrItem::Padding => 4,
        XdrItem::ArrayBody => 5,
        XdrItem::PacketBody => 6,
    }
}

fn buffer_number(buffer: Buffer) -> u64
    ensures { result ≡ buffer_number buffer }
{
    match buffer {
        Buffer::Azimuths => 0,
        Buffer::Codes => 1,
        Buffer::Physical => 2,
        Buffer::Marks => 3,
        Buffer::Totals => 4,
        Buffer::Output => 5,
    }
}

// A number with up to four whole numbers.
#[tactic(auto, using(crate::proofs::Constants::nought))]
pub(crate) fn wholes(number: u32, a: u64, b: u64, c: u64, d: u64) -> Report
    ensures { result ≡ report number (a ∷ b ∷ c ∷ d ∷ []) [] }
{
    let mut ints = [0; INTS];
    ints[..4].copy_from_slice(&[a, b, c, d]);
    Report {
        number,
        ints,
        floats: [0.0; FLOATS],
    }
}

// A number with a whole number and an f32, widened.
pub(crate) fn with_float(number: u32, a: u64, x: f32) -> Report
    ensures { result ≡ report number (a ∷ []) (x ∷ []) }
{
    let mut report = wholes(number, a, 0, 0, 0);
    report.floats[0] = f64::from(x);
    report
}

pub(crate) fn refusal_report(error: Level3DecodeError) -> Report
    ensures { result ≡ refusal_report (refusal_of error) }
{
    match error {
        Level3DecodeError::NoAwipsToken => wholes(1, 0, 0, 0, 0),
        Level3DecodeError::NoMessageHeader => wholes(2, 0, 0, 0, 0),
        Level3DecodeError::PdbFieldOutOfBounds { index } => wholes(3, index.word(), 0, 0, 0),
        Level3DecodeError::ImplausibleScanTime { days, seconds } => wholes(
            4,
            days.word(),
            seconds.word(),
            0,
            0,
        ),
        Level3DecodeError::ScanTimeTooFarAhead { seconds } => wholes(5, seconds, 0, 0, 0),
        Level3DecodeError::ClockOutOfRange => wholes(6, 0, 0, 0, 0),
        Level3DecodeError::NonFiniteScale(x) => with_float(7, 0, x),
        Level3DecodeError::NonFiniteOffset(x) => with_float(8, 0, x),
        Level3DecodeError::NonPositiveIncrement(x) => with_float(9, 0, x),
        Level3DecodeError::SchemeMismatch => wholes(10, 0, 0, 0, 0),
        Level3DecodeError::UnexpectedTrailingBytes { trailing_len } => wholes(
            11,
            trailing_len.word(),
            0,
            0,
            0,
        ),
        Level3DecodeError::SymbologyTruncated { len } => wholes(12, len.word(), 0, 0, 0),
        Level3DecodeError::BadSymbologyHeader { divider, block_id } => wholes(
            13,
            divider.word(),
            block_id.word(),
            0,
            0,
        ),
        Level3DecodeError::UnsupportedPacketCode { code } => wholes(14, code.word(), 0, 0, 0),
        Level3DecodeError::EmptySweep { n_radials, n_bins } => wholes(
            15,
            n_radials.word(),
            n_bins.word(),
            0,
            0,
        ),
        Level3DecodeError::GridTooLarge {
            n_radials,
            n_bins,
            cells,
            max,
        } => wholes(
            16,
            n_radials.word(),
            n_bins.word(),
            cells.word(),
            max.word(),
        ),
        Level3DecodeError::NonZeroFirstBin(bin) => wholes(17, bin.word(), 0, 0, 0),
        Level3DecodeError::AllocationExceedsBody {
            n_radials,
            n_bins,
            needed,
            available,
        } => wholes(
            18,
            n_radials.word(),
            n_bins.word(),
            needed.word(),
            available.word(),
        ),
        Level3DecodeError::TruncatedAtRadial { radial, n_radials } => wholes(
            19,
            radial.word(),
            n_radials.word(),
            0,
            0,
        ),
        Level3DecodeError::ImplausibleRadialWidth { radial, width_deg } => with_float(
            20,
            radial.word(),
            width_deg,
        ),
        Level3DecodeError::RadialByteCountMismatch {
            radial,
            n_bytes,
            n_bins,
        } => wholes(21, radial.word(), n_bytes.word(), n_bins.word(), 0),
        Level3DecodeError::RleExpansionMismatch {
            radial,
            expanded,
            expected,
        } => wholes(22, radial.word(), expanded.word(), expected.word(), 0),
        Level3DecodeError::XdrTruncated {
            context,
            have,
            need,
        } => wholes(23, item_number(context), have.word(), need.word(), 0),
        Level3DecodeError::XdrStringTooLong { len, max } => wholes(
            24,
            len.word(),
            max.word(),
            0,
            0,
        ),
        Level3DecodeError::XdrArrayTooLong { len, max } => wholes(25, len.word(), max.word(), 0, 0),
        Level3DecodeError::XdrListTooLong { len, max } => wholes(26, len.word(), max.word(), 0, 0),
        Level3DecodeError::UnsupportedXdrComponent(kind) => wholes(27, kind.word(), 0, 0, 0),
        Level3DecodeError::UnexpectedXdrComponentCount(n) => wholes(28, n.word(), 0, 0, 0),
        Level3DecodeError::NonPositiveXdrGeometry { n_radials, n_bins } => wholes(
            29,
            n_radials.word(),
            n_bins.word(),
            0,
            0,
        ),
        Level3DecodeError::ImplausibleXdrRadialCount { n_radials, max } => wholes(
            30,
            n_radials.word(),
            max.word(),
            0,
            0,
        ),
        Level3DecodeError::XdrRadialBinCountMismatch {
            radial,
            n_bins,
            expected,
        } => wholes(31, radial.word(), n_bins.word(), expected.word(), 0),
        Level3DecodeError::XdrRadialDataLengthMismatch {
            radial,
            declared,
            num_bins,
        } => wholes(32, radial.word(), declared.word(), num_bins.word(), 0),
        Level3DecodeError::XdrGridTooLarge {
            n_radials,
            n_bins,
            cells,
            max,
        } => wholes(
            33,
            n_radials.word(),
            n_bins.word(),
            cells.word(),
            max.word(),
        ),
        Level3DecodeError::XdrRawLevelOutOfRange {
            radial,
            gate,
            value,
        } => wholes(34, radial.word(), gate.word(), value.word(), 0),
        Level3DecodeError::XdrTrailingBytes { remaining } => wholes(35, remaining.word(), 0, 0, 0),
        Level3DecodeError::BufferTooShort { buffer } => wholes(36, buffer_number(buffer), 0, 0, 0),
        Level3DecodeError::PlanMalformed { offset } => wholes(37, offset.word(), 0, 0, 0),
        Level3DecodeError::FieldRepeated { offset } => wholes(38, offset.word(), 0, 0, 0),
        Level3DecodeError::StripOutside { offset } => wholes(39, offset.word(), 0, 0, 0),
        Level3DecodeError::TariffMalformed => wholes(40, 0, 0, 0, 0),
        Level3DecodeError::TotalTooLarge => wholes(41, 0, 0, 0, 0),
        Level3DecodeError::RowTooLong => wholes(42, 0, 0, 0, 0),
        Level3DecodeError::DifferentSweeps => wholes(43, 0, 0, 0, 0),
        Level3DecodeError::RowsDisagree { radial } => wholes(44, radial.word(), 0, 0, 0),
        Level3DecodeError::SurplusInRow { radial } => wholes(45, radial.word(), 0, 0, 0),
        Level3DecodeError::SurplusAfterRadials => wholes(46, 0, 0, 0, 0),
    }
}

// The same with a number in one of the places for whole numbers.
pub(crate) fn with_place(report: Report, place: usize, n: usize) -> Report
    requires { place < whole_places }
    ensures { result ≡ with_place report place n }
{
    let mut ints = report.ints;
    ints[place] = n.word();
    Report { ints, ..report }
}

// The same with a position in its place.
pub(crate) fn with_position(report: Report, at: usize) -> Report
    ensures { result ≡ with_position report at }
{
    with_place(report, 15, at)
}

// Whether buffers of these lengths are too short for a report.
pub(crate) fn is_short(ints: usize, floats: usize) -> bool
    ensures { result ≡ short ints floats }
{
    ints < INTS || floats < FLOATS
}

// What an entry returns for an argument that it does not take.
pub(crate) fn bad_argument(ints: usize, floats: usize) -> u32
    ensures { result ≡ (if short ints floats then 100 else 101) }
{
    if is_short(ints, floats) { 100 } else { 101 }
}

// Writes a report, and returns its number.
pub(crate) fn write_report(report: Report, ints: &mut [u64], floats: &mut [f64]) -> u32
    ensures { Leaves (said report) result ints.old ints.new floats.old floats.new }
{
    if is_short(ints.len(), floats.len()) {
        return 100;
    }
    ints[..INTS].copy_from_slice(&report.ints);
    floats[..FLOATS].copy_from_slice(&report.floats);
    report.number
}

// Writes the report of a refusal. A function of its own, so that what is accepted is written where it is found.
fn write_refusal(error: Level3DecodeError, ints: &mut [u64], floats: &mut [f64]) -> u32
    ensures { Leaves (said (refusal_report (refusal_of error)))
        result ints.old ints.new floats.old floats.new }
{
    write_report(refusal_report(error), ints, floats)
}

// The same of an item, with the position where it stopped.
fn write_stopped(error: Level3DecodeError, at: usize, ints: &mut [u64], floats: &mut [f64]) -> u32
    ensures { Leaves (said (with_position (refusal_report (refusal_of error)) at))
        result ints.old ints.new floats.old floats.new }
{
    write_report(with_position(refusal_report(error), at), ints, floats)
}

// Writes the report of what a lower function answers.
pub(crate) fn write_answer<T: Reported>(
    given: Result<T, Level3DecodeError>,
    ints: &mut [u64],
    floats: &mut [f64],
) -> u32
    ensures { Leaves (said (report_of (answer given) T.places))
        result ints.old ints.new floats.old floats.new }
{
    match given {
        Ok(value) => write_report(value.report(), ints, floats),
        Err(error) => write_refusal(error, ints, floats),
    }
}

// The same of an item that a cursor read, with the position where it ended.
pub(crate) fn write_ended<T: Reported>(
    given: Result<T, Level3DecodeError>,
    at: usize,
    ints: &mut [u64],
    floats: &mut [f64],
) -> u32
    ensures { Leaves (said (ended_report (ended given at) T.places))
        result ints.old ints.new floats.old floats.new }
{
    match given {
        Ok(value) => write_report(with_position(value.report(), at), ints, floats),
        Err(error) => write_stopped(error, at, ints, floats),
    }
}
