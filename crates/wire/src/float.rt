// The f32 of four big-endian bytes, for every bit pattern: each NaN pattern gives a NaN. Equal floats.
ghost use Rattle.std.specs.Prelude.{◌≡◌};
ghost use Rattle.std.specs.Float.{nan, binary32};
ghost use Rattle.std.specs.Float.Ieee.{of_bits};
ghost use Rattle.wire.specs.Float.{f32_at};
ghost use Rattle.wire.specs.SameFloat.{same_float};

pub fn nan32() -> f32
    ensures { result ≡ nan }
{
    0.0f32 / 0.0f32
}

// Below the sign's bit, the pattern of the infinity: what is above it is a NaN.
const INFINITY: u32 = 0x7f80_0000;

pub fn f32_from_bits(bits: u32) -> f32
    ensures { result ≡ of_bits binary32 bits }
{
    if bits % 0x8000_0000 > INFINITY {
        nan32()
    } else {
        f32::from_bits(bits)
    }
}

#[tactic(auto, unfolding(crate::specs::Float::f32_at))]
pub fn f32_at(s: &[u8], at: usize) -> f32
    ensures { result ≡ f32_at s.now at }
{
    f32_from_bits(crate::bytes::u32_at(s, at))
}

// Their bits are equal, or both are NaN.
pub fn same_f64(a: f64, b: f64) -> bool
    ensures { result ≡ same_float a b }
{
    if a.is_nan() {
        return b.is_nan();
    }
    if b.is_nan() {
        return false;
    }
    let x = f64::to_bits(a);
    let y = f64::to_bits(b);
    x == y
}

// The same of f32, each of which is an f64.
pub fn same_f32(a: f32, b: f32) -> bool
    ensures { result ≡ same_float a b }
{
    same_f64(
        std::num::f32_to_f64_with_nan(a),
        std::num::f32_to_f64_with_nan(b),
    )
}
