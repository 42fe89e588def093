// The kinds of refusal, in the order of their numbers: 1 to 46.
// specs/Refusal.antt gives the number and the values of each.

// The XDR item that was cut short.
#[derive(Clone, Copy)]
pub enum XdrItem {
    Int,
    Uint,
    Float,
    StringBody,
    Padding,
    ArrayBody,
    PacketBody,
}

// The first lent buffer that is too short.
#[derive(Clone, Copy)]
pub enum Buffer {
    Azimuths,
    Codes,
    Physical,
    Marks,
    Totals,
    Output,
}

#[derive(Clone, Copy)]
pub enum Level3DecodeError {
    NoAwipsToken,
    NoMessageHeader,
    PdbFieldOutOfBounds {
        index: usize,
    },
    ImplausibleScanTime {
        days: u16,
        seconds: i32,
    },
    ScanTimeTooFarAhead {
        seconds: u64,
    },
    ClockOutOfRange,
    NonFiniteScale(f32),
    NonFiniteOffset(f32),
    NonPositiveIncrement(f32),
    SchemeMismatch,
    UnexpectedTrailingBytes {
        trailing_len: usize,
    },
    SymbologyTruncated {
        len: usize,
    },
    BadSymbologyHeader {
        divider: i16,
        block_id: i16,
    },
    UnsupportedPacketCode {
        code: i16,
    },
    EmptySweep {
        n_radials: usize,
        n_bins: usize,
    },
    GridTooLarge {
        n_radials: usize,
        n_bins: usize,
        cells: usize,
        max: usize,
    },
    NonZeroFirstBin(usize),
    AllocationExceedsBody {
        n_radials: usize,
        n_bins: usize,
        needed: usize,
        available: usize,
    },
    TruncatedAtRadial {
        radial: usize,
        n_radials: usize,
    },
    ImplausibleRadialWidth {
        radial: usize,
        width_deg: f32,
    },
    RadialByteCountMismatch {
        radial: usize,
        n_bytes: usize,
        n_bins: usize,
    },
    RleExpansionMismatch {
        radial: usize,
        expanded: usize,
        expected: usize,
    },
    XdrTruncated {
        context: XdrItem,
        have: usize,
        need: usize,
    },
    XdrStringTooLong {
        len: u32,
        max: u32,
    },
    XdrArrayTooLong {
        len: u32,
        max: u32,
    },
    XdrListTooLong {
        len: i32,
        max: i32,
    },
    UnsupportedXdrComponent(i32),
    UnexpectedXdrComponentCount(usize),
    NonPositiveXdrGeometry {
        n_radials: i32,
        n_bins: i32,
    },
    ImplausibleXdrRadialCount {
        n_radials: i32,
        max: i32,
    },
    XdrRadialBinCountMismatch {
        radial: usize,
        n_bins: usize,
        expected: usize,
    },
    XdrRadialDataLengthMismatch {
        radial: usize,
        declared: usize,
        num_bins: usize,
    },
    XdrGridTooLarge {
        n_radials: usize,
        n_bins: usize,
        cells: usize,
        max: usize,
    },
    XdrRawLevelOutOfRange {
        radial: usize,
        gate: usize,
        value: i32,
    },
    XdrTrailingBytes {
        remaining: usize,
    },
    BufferTooShort {
        buffer: Buffer,
    },
    PlanMalformed {
        offset: usize,
    },
    FieldRepeated {
        offset: usize,
    },
    StripOutside {
        offset: usize,
    },
    TariffMalformed,
    TotalTooLarge,
    RowTooLong,
    DifferentSweeps,
    RowsDisagree {
        radial: usize,
    },
    SurplusInRow {
        radial: usize,
    },
    SurplusAfterRadials,
}
