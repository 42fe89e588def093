// Centres of radials in degrees, f64. Each operation rounds once, in the written order.
ghost use Rattle.std.specs.Prelude.{◌≡◌, ◌*◌, ◌%◌, ◌^◌, ◌<◌, ◌≤◌, false, if◌then◌else◌};
ghost use Rattle.std.specs.Float.{binary64};
ghost use Rattle.std.specs.Float.Ieee.{neg, rem, round};
ghost use Rattle.wire.specs.Float.{f64};
ghost use Rattle.symbology.specs.Centre.{centre, centre28, width_degrees};

// Packets 16 and AF1F: of start and width in tenths, from 0 up to but not including 360 degrees.
pub fn azimuth_centre_deg(start_angle: u16, delta: u16) -> f64
    ensures { result ≡ centre start_angle delta }
{
    let twentieths = (2 * u32::from(start_angle) + u32::from(delta)) % 7200;
    f64::from(twentieths) / 20.0
}

// What is left of n x 2^times after whole turns.
fn doubled(n: u64, times: u64) -> u64
    requires { n < 360 }
    ensures value { result ≡ n * 2 ^ times % 360 }
    ensures bound { result < 360 }
{
    let mut rest = n;
    for _ in 0..times {
        rest = rest * 2 % 360;
    }
    rest
}

// What is left of digits / 2^places.
fn fractional(digits: u64, places: u64) -> f64
    requires { (digits < 2 ^ 53) × (places ≤ 52) }
    ensures { result ≡ round binary64 false (digits % (360 * 2 ^ places)) (2 ^ places) }
{
    let unit = 1u64 << places;
    let rest = digits % (360 * unit);
    // No `From` makes a float of a `u64`.
    rest as f64 / unit as f64
}

// What is left of digits x 2^times.
fn whole(digits: u64, times: u64) -> f64
    ensures { result ≡ round binary64 false (digits * 2 ^ times % 360) 1 }
{
    // As above.
    doubled(digits % 360, times) as f64
}

fn signed(negative: bool, size: f64) -> f64
    ensures { result ≡ (if negative then neg size else size) }
{
    if negative { -size } else { size }
}

// x % 360, by the digits of x. The operator itself is C's `fmod`: a program that calls it starts only where the C library is as new
// as the one that it was linked with.
fn turned(x: f64) -> f64
    ensures { result ≡ rem binary64 x (f64 360 1) }
{
    if x.is_nan() {
        return x;
    }
    let bits = f64::to_bits(x);
    let field = bits % 0x8000_0000_0000_0000 / 0x10_0000_0000_0000;
    if field == 2047 {
        return 0.0 / 0.0;
    }
    // Below a degree; the quotient is x itself.
    if field < 1023 {
        return x / 1.0;
    }
    let negative = 0x8000_0000_0000_0000 <= bits;
    let digits = 0x10_0000_0000_0000 + bits % 0x10_0000_0000_0000;
    if field < 1075 {
        return signed(negative, fractional(digits, 1075 - field));
    }
    signed(negative, whole(digits, field - 1075))
}

// Packet 28: of azimuth and width as they stand in the packet.
pub fn azimuth_centre_28(azimuth: f32, width: f32) -> f64
    ensures { result ≡ centre28 azimuth width }
{
    turned(std::num::f32_to_f64_with_nan(azimuth) + std::num::f32_to_f64_with_nan(width) / 2.0)
}

// The width that 20 reports.
pub fn width_deg(width: u16) -> f32
    ensures { result ≡ width_degrees width }
{
    f32::from(width) / 10.0
}
