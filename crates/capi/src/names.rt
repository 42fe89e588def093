// The names of the refusals, and the library's version.
ghost use Rattle.std.specs.Prelude.{◌≡◌, ◌≤◌, length, option_map};
ghost use Rattle.capi.specs.Report.{padded, plain_number, plain_after};
ghost use Rattle.capi.specs.Names.{name_of, name_places, name_said, version};

const NAME_PLACES: usize = 32;

// A refusal's name, by its number.
#[tactic(auto, unfolding(crate::specs::Names::name_of, crate::specs::Names::names))]
fn name_of(number: u32) -> Option<&'static [u8]>
    ensures { option_map (λ s. s.now) result ≡ name_of number }
{
    Some(match number {
        1 => b"NoAwipsToken".as_slice(),
        2 => b"NoMessageHeader".as_slice(),
        3 => b"PdbFieldOutOfBounds".as_slice(),
        4 => b"ImplausibleScanTime".as_slice(),
        5 => b"ScanTimeTooFarAhead".as_slice(),
        6 => b"ClockOutOfRange".as_slice(),
        7 => b"NonFiniteScale".as_slice(),
        8 => b"NonFiniteOffset".as_slice(),
        9 => b"NonPositiveIncrement".as_slice(),
        10 => b"SchemeMismatch".as_slice(),
        11 => b"UnexpectedTrailingBytes".as_slice(),
        12 => b"SymbologyTruncated".as_slice(),
        13 => b"BadSymbologyHeader".as_slice(),
        14 => b"UnsupportedPacketCode".as_slice(),
        15 => b"EmptySweep".as_slice(),
        16 => b"GridTooLarge".as_slice(),
        17 => b"NonZeroFirstBin".as_slice(),
        18 => b"AllocationExceedsBody".as_slice(),
        19 => b"TruncatedAtRadial".as_slice(),
        20 => b"ImplausibleRadialWidth".as_slice(),
        21 => b"RadialByteCountMismatch".as_slice(),
        22 => b"RleExpansionMismatch".as_slice(),
        23 => b"XdrTruncated".as_slice(),
        24 => b"XdrStringTooLong".as_slice(),
        25 => b"XdrArrayTooLong".as_slice(),
        26 => b"XdrListTooLong".as_slice(),
        27 => b"UnsupportedXdrComponent".as_slice(),
        28 => b"UnexpectedXdrComponentCount".as_slice(),
        29 => b"NonPositiveXdrGeometry".as_slice(),
        30 => b"ImplausibleXdrRadialCount".as_slice(),
        31 => b"XdrRadialBinCountMismatch".as_slice(),
        32 => b"XdrRadialDataLengthMismatch".as_slice(),
        33 => b"XdrGridTooLarge".as_slice(),
        34 => b"XdrRawLevelOutOfRange".as_slice(),
        35 => b"XdrTrailingBytes".as_slice(),
        36 => b"BufferTooShort".as_slice(),
        37 => b"PlanMalformed".as_slice(),
        38 => b"FieldRepeated".as_slice(),
        39 => b"StripOutside".as_slice(),
        40 => b"TariffMalformed".as_slice(),
        41 => b"TotalTooLarge".as_slice(),
        42 => b"RowTooLong".as_slice(),
        43 => b"DifferentSweeps".as_slice(),
        44 => b"RowsDisagree".as_slice(),
        45 => b"SurplusInRow".as_slice(),
        46 => b"SurplusAfterRadials".as_slice(),
        _ => return None,
    })
}

// A name with zeros behind it.
fn padded(text: &[u8]) -> [u8; NAME_PLACES]
    requires { length text.now ≤ name_places }
    ensures { result ≡ padded name_places 0 text.now }
{
    let mut name = [0; NAME_PLACES];
    name[..text.len()].copy_from_slice(text);
    name
}

pub fn l3_refusal_name(number: u32, name: &mut [u8]) -> u32
    ensures value { result ≡ plain_number (name_said number (length name.old)) }
    ensures name_after { name.new ≡ plain_after (name_said number (length name.old)) name.old }
{
    if name.len() < NAME_PLACES {
        return 101;
    }
    match name_of(number) {
        None => 101,
        Some(text) => {
            name[..NAME_PLACES].copy_from_slice(&padded(text));
            0
        }
    }
}

// Major, minor and patch, with two digits each for the last two.
pub fn l3_version() -> u32
    ensures { result ≡ version }
{
    40000
}
