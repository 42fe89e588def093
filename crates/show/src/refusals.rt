// A refusal as one line: its number, its name, and its values in words.
use crate::floats::Fine;
use crate::rooms::{CODES, RADIALS, VALUES};
use std::fmt;
use wire::error::{Buffer, Level3DecodeError, XdrItem};

// So many radials of so many bins.
#[derive(Clone, Copy)]
struct Grid {
    radials: usize,
    bins: usize,
}

impl fmt::Display for Grid {
    fn fmt<W: fmt::Write>(&self, f: &mut fmt::Formatter<W>) -> fmt::Result {
        let radials = self.radials;
        let bins = self.bins;
        write!(f, "{radials} radials by {bins} bins")
    }
}

fn item(i: XdrItem) -> &'static str {
    match i {
        XdrItem::Int => "an integer",
        XdrItem::Uint => "an unsigned integer",
        XdrItem::Float => "a float",
        XdrItem::StringBody => "a string's body",
        XdrItem::Padding => "padding",
        XdrItem::ArrayBody => "an array's body",
        XdrItem::PacketBody => "the packet's body",
    }
}

// A buffer, and how much of it this program has room for.
#[derive(Clone, Copy)]
struct Room(Buffer);

impl fmt::Display for Room {
    fn fmt<W: fmt::Write>(&self, f: &mut fmt::Formatter<W>) -> fmt::Result {
        match self.0 {
            Buffer::Azimuths => write!(f, "azimuths: this program has room for {RADIALS} radials"),
            Buffer::Codes => write!(f, "codes: this program has room for {CODES} cells"),
            Buffer::Physical => write!(f, "physical: this program has room for {VALUES} cells"),
            Buffer::Marks => write!(f, "marks: this program has room for {RADIALS} radials"),
            Buffer::Totals => write!(f, "totals: this program has room for none"),
            Buffer::Output => write!(f, "output: this program has room for none"),
        }
    }
}

#[derive(Clone, Copy)]
pub struct Refusal(pub Level3DecodeError);

impl fmt::Display for Refusal {
    fn fmt<W: fmt::Write>(&self, f: &mut fmt::Formatter<W>) -> fmt::Result {
        match self.0 {
            Level3DecodeError::NoAwipsToken => {
                write!(
                    f,
                    "1 NoAwipsToken: no piece of the first 128 bytes is six letters or digits"
                )
            }
            Level3DecodeError::NoMessageHeader => {
                write!(
                    f,
                    "2 NoMessageHeader: no known message code has -1 eighteen bytes on"
                )
            }
            Level3DecodeError::PdbFieldOutOfBounds { index } => {
                write!(
                    f,
                    "3 PdbFieldOutOfBounds: field {index} is not inside the file"
                )
            }
            Level3DecodeError::ImplausibleScanTime { days, seconds } => {
                write!(f, "4 ImplausibleScanTime: days {days}, seconds {seconds}")
            }
            Level3DecodeError::ScanTimeTooFarAhead { seconds } => {
                write!(
                    f,
                    "5 ScanTimeTooFarAhead: {seconds} seconds ahead of the clock"
                )
            }
            Level3DecodeError::ClockOutOfRange => {
                write!(f, "6 ClockOutOfRange: the clock is above 1099511627776")
            }
            Level3DecodeError::NonFiniteScale(x) => {
                write!(f, "7 NonFiniteScale: scale {}", Fine(x))
            }
            Level3DecodeError::NonFiniteOffset(x) => {
                write!(f, "8 NonFiniteOffset: offset {}", Fine(x))
            }
            Level3DecodeError::NonPositiveIncrement(x) => {
                write!(f, "9 NonPositiveIncrement: step {}", Fine(x))
            }
            Level3DecodeError::SchemeMismatch => {
                write!(f, "10 SchemeMismatch: the scheme is not for this packet")
            }
            Level3DecodeError::UnexpectedTrailingBytes { trailing_len } => {
                write!(f, "11 UnexpectedTrailingBytes: {trailing_len} bytes")
            }
            Level3DecodeError::SymbologyTruncated { len } => {
                write!(f, "12 SymbologyTruncated: the body has {len} bytes")
            }
            Level3DecodeError::BadSymbologyHeader { divider, block_id } => {
                write!(
                    f,
                    "13 BadSymbologyHeader: divider {divider} and block {block_id}, not -1 and 1"
                )
            }
            Level3DecodeError::UnsupportedPacketCode { code } => {
                write!(f, "14 UnsupportedPacketCode: packet code {code}")
            }
            Level3DecodeError::EmptySweep { n_radials, n_bins } => {
                let grid = Grid {
                    radials: n_radials,
                    bins: n_bins,
                };
                write!(f, "15 EmptySweep: {grid}")
            }
            Level3DecodeError::GridTooLarge {
                n_radials,
                n_bins,
                cells,
                max,
            } => {
                let grid = Grid {
                    radials: n_radials,
                    bins: n_bins,
                };
                write!(f, "16 GridTooLarge: {grid}, cells {cells}, over {max}")
            }
            Level3DecodeError::NonZeroFirstBin(n) => {
                write!(f, "17 NonZeroFirstBin: first bin {n}")
            }
            Level3DecodeError::AllocationExceedsBody {
                n_radials,
                n_bins,
                needed,
                available,
            } => {
                let grid = Grid {
                    radials: n_radials,
                    bins: n_bins,
                };
                write!(
                    f,
                    "18 AllocationExceedsBody: {grid} need {needed} bytes, {available} are there"
                )
            }
            Level3DecodeError::TruncatedAtRadial { radial, n_radials } => {
                write!(
                    f,
                    "19 TruncatedAtRadial: radial {radial} of {n_radials} has no six bytes"
                )
            }
            Level3DecodeError::ImplausibleRadialWidth { radial, width_deg } => {
                let width = Fine(width_deg);
                write!(
                    f,
                    "20 ImplausibleRadialWidth: radial {radial}, width {width} degrees"
                )
            }
            Level3DecodeError::RadialByteCountMismatch {
                radial,
                n_bytes,
                n_bins,
            } => {
                write!(
                    f,
                    "21 RadialByteCountMismatch: radial {radial}, count {n_bytes}, bins {n_bins}"
                )
            }
            Level3DecodeError::RleExpansionMismatch {
                radial,
                expanded,
                expected,
            } => {
                write!(
                    f,
                    "22 RleExpansionMismatch: radial {radial}, runs reach {expanded} of {expected} bins"
                )
            }
            Level3DecodeError::XdrTruncated {
                context,
                have,
                need,
            } => {
                let item = item(context);
                write!(
                    f,
                    "23 XdrTruncated: {item} needs {need} bytes, {have} are left"
                )
            }
            Level3DecodeError::XdrStringTooLong { len, max } => {
                write!(f, "24 XdrStringTooLong: length {len}, over {max}")
            }
            Level3DecodeError::XdrArrayTooLong { len, max } => {
                write!(f, "25 XdrArrayTooLong: length {len}, over {max}")
            }
            Level3DecodeError::XdrListTooLong { len, max } => {
                write!(f, "26 XdrListTooLong: count {len}, over {max}")
            }
            Level3DecodeError::UnsupportedXdrComponent(t) => {
                write!(f, "27 UnsupportedXdrComponent: component type {t}")
            }
            Level3DecodeError::UnexpectedXdrComponentCount(n) => {
                write!(f, "28 UnexpectedXdrComponentCount: {n} components, not 1")
            }
            Level3DecodeError::NonPositiveXdrGeometry { n_radials, n_bins } => {
                write!(
                    f,
                    "29 NonPositiveXdrGeometry: {n_radials} radials by {n_bins} bins"
                )
            }
            Level3DecodeError::ImplausibleXdrRadialCount { n_radials, max } => {
                write!(
                    f,
                    "30 ImplausibleXdrRadialCount: radials {n_radials}, over {max}"
                )
            }
            Level3DecodeError::XdrRadialBinCountMismatch {
                radial,
                n_bins,
                expected,
            } => {
                write!(
                    f,
                    "31 XdrRadialBinCountMismatch: radial {radial} has {n_bins} bins, radial 0 has {expected}"
                )
            }
            Level3DecodeError::XdrRadialDataLengthMismatch {
                radial,
                declared,
                num_bins,
            } => {
                write!(
                    f,
                    "32 XdrRadialDataLengthMismatch: radial {radial} has {declared} integers for {num_bins} bins"
                )
            }
            Level3DecodeError::XdrGridTooLarge {
                n_radials,
                n_bins,
                cells,
                max,
            } => {
                let grid = Grid {
                    radials: n_radials,
                    bins: n_bins,
                };
                write!(f, "33 XdrGridTooLarge: {grid}, cells {cells}, over {max}")
            }
            Level3DecodeError::XdrRawLevelOutOfRange {
                radial,
                gate,
                value,
            } => {
                write!(
                    f,
                    "34 XdrRawLevelOutOfRange: radial {radial}, gate {gate}, level {value}"
                )
            }
            Level3DecodeError::XdrTrailingBytes { remaining } => {
                write!(f, "35 XdrTrailingBytes: {remaining} bytes are left over")
            }
            Level3DecodeError::BufferTooShort { buffer } => {
                let room = Room(buffer);
                write!(
                    f,
                    "36 BufferTooShort: {room}, the library takes buffers of any length"
                )
            }
            Level3DecodeError::PlanMalformed { offset } => {
                write!(f, "37 PlanMalformed: the plan's record at byte {offset}")
            }
            Level3DecodeError::FieldRepeated { offset } => {
                write!(
                    f,
                    "38 FieldRepeated: a number named before, in the plan's record at byte {offset}"
                )
            }
            Level3DecodeError::StripOutside { offset } => {
                write!(
                    f,
                    "39 StripOutside: a strip that leaves the picture, in the plan's record at byte {offset}"
                )
            }
            Level3DecodeError::TariffMalformed => {
                write!(
                    f,
                    "40 TariffMalformed: the ends and rates are not those of a tariff"
                )
            }
            Level3DecodeError::TotalTooLarge => {
                write!(f, "41 TotalTooLarge: the total is above 1099511627776")
            }
            Level3DecodeError::RowTooLong => { write!(f, "42 RowTooLong: 65535 bins") }
            Level3DecodeError::DifferentSweeps => {
                write!(
                    f,
                    "43 DifferentSweeps: packet, counts, azimuths, range scale or gate figures of the bodies differ"
                )
            }
            Level3DecodeError::RowsDisagree { radial } => {
                write!(
                    f,
                    "44 RowsDisagree: rows of other codes in the bodies, at radial {radial}"
                )
            }
            Level3DecodeError::SurplusInRow { radial } => {
                write!(f, "45 SurplusInRow: more than its row in radial {radial}")
            }
            Level3DecodeError::SurplusAfterRadials => {
                write!(
                    f,
                    "46 SurplusAfterRadials: the body does not end with its last radial or payload"
                )
            }
        }
    }
}
