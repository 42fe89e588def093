// Floats in decimal. The rule: the nearest number of three decimals, the one further from 0 where two are as near, worked out of the
// float's whole digits and power of two, so that nothing else rounds. The sign is the float's own, also where all digits are 0. The
// figures of a scale, of gates and of refusals have six decimals below 2^23. From 2^52 on, and where six decimals would all be 0, a
// float is written exactly, as a whole number times a power of two. Infinities are inf and -inf, a NaN is nan.
//
// By hand: the library's `{:.3}` takes the even one where two are as near, and nothing is known of a float's text.
ghost use Rattle.std.specs.Prelude.{◌≡◌, ◌+◌, ◌/◌, ◌%◌, ◌^◌, ◌<◌};
ghost use Rattle.show.specs.Rounded.{rounded, millionths, thousandths};

use std::fmt;
use std::fmt::{Display, InlineText};

fn sign(negative: bool) -> &'static str {
    if negative { "-" } else { "" }
}

// A number of so many decimals. The sign stands also where all digits are 0.
#[derive(Clone, Copy)]
pub struct Decimal {
    negative: bool,
    whole: u64,
    rest: u64,
    places: usize,
}

impl Decimal {
    // Of so many parts, of which 10^places make a whole.
    pub fn new(negative: bool, parts: u64, places: u8) -> Decimal
        requires { 10 ^ places < 2 ^ 64 }
        ensures whole { result.whole ≡ parts / 10 ^ places }
        ensures rest { result.rest ≡ parts % 10 ^ places }
    {
        let unit = 10u64.pow(u32::from(places));
        Decimal {
            negative,
            whole: parts / unit,
            rest: parts % unit,
            places: usize::from(places),
        }
    }
}

impl Display for Decimal {
    fn fmt<W: fmt::Write>(&self, f: &mut fmt::Formatter<W>) -> fmt::Result {
        let sign = sign(self.negative);
        let whole = self.whole;
        let rest = self.rest;
        let places = self.places;
        f.pad(InlineText::<48>::of(format_args!("{sign}{whole}.{rest:0places$}")).as_str())
    }
}

// A float's distance from 0, in whole numbers.
#[derive(Clone, Copy)]
pub enum Size {
    // So many thousandths, rounded.
    Units(u64),
    // digits x 2^power
    Large { digits: u64, power: u32 },
    Infinite,
}

// The whole number nearest to n / 2^shift, the greater where two are as near.
fn nearest(n: u64, shift: u32) -> u64
    requires { (n < 2 ^ 63) × (0 < shift) }
    ensures { result ≡ rounded n shift }
{
    (n.unbounded_shr(shift - 1) + 1) / 2
}

// An f64's bits without the sign, in thousandths: digits x 2^(exponent - 1075).
#[tactic(auto, unfolding(crate::specs::Rounded::thousandths))]
fn size64(rest: u64) -> Size
    requires { rest < 2 ^ 63 }
    ensures { result ≡ thousandths rest }
{
    // In range by the proof: `try_from` would be a test that cannot fail.
    let exponent = (rest / 0x10_0000_0000_0000) as u32;
    let fraction = rest % 0x10_0000_0000_0000;
    if exponent == 0 {
        return Size::Units(nearest(fraction * 1000, 1074));
    }
    if exponent == 2047 {
        return Size::Infinite;
    }
    let digits = fraction + 0x10_0000_0000_0000;
    if exponent < 1075 {
        return Size::Units(nearest(digits * 1000, 1075 - exponent));
    }
    Size::Large {
        digits,
        power: exponent - 1075,
    }
}

// An f32's bits without the sign, below 2^23, in millionths: digits x 2^(exponent - 150).
#[tactic(auto, unfolding(crate::specs::Rounded::millionths))]
fn millionths32(rest: u32) -> u64
    requires { rest < 1258291200 }
    ensures { result ≡ millionths rest }
{
    let exponent = rest / 0x80_0000;
    let fraction = u64::from(rest % 0x80_0000);
    if exponent == 0 {
        return nearest(fraction * 1000000, 149);
    }
    nearest((fraction + 0x80_0000) * 1000000, 150 - exponent)
}

// An f64 with three decimals.
#[derive(Clone, Copy)]
pub struct Double(pub f64);

impl Display for Double {
    fn fmt<W: fmt::Write>(&self, f: &mut fmt::Formatter<W>) -> fmt::Result {
        if self.0.is_nan() {
            return f.pad("nan");
        }
        let bits = f64::to_bits(self.0);
        let negative = 0x8000_0000_0000_0000 <= bits;
        match size64(bits % 0x8000_0000_0000_0000) {
            Size::Units(n) => Decimal::new(negative, n, 3).fmt(f),
            Size::Infinite if negative => f.pad("-inf"),
            Size::Infinite => f.pad("inf"),
            Size::Large { digits, power } => { write!(f, "{}{digits} x 2^{power}", sign(negative)) }
        }
    }
}

// An f32 with three decimals, or - for a NaN: a cell's value, where it has one.
#[derive(Clone, Copy)]
pub struct Cell(pub f32);

impl Display for Cell {
    fn fmt<W: fmt::Write>(&self, f: &mut fmt::Formatter<W>) -> fmt::Result {
        if self.0.is_nan() {
            return f.pad("-");
        }
        // An f64 holds it exactly.
        Double(std::num::f32_to_f64_with_nan(self.0)).fmt(f)
    }
}

// An f32 below 2^23, from its bits without the sign, exactly: digits x 2^-power.
fn write_small<W: fmt::Write>(f: &mut fmt::Formatter<W>, rest: u32) -> fmt::Result
    requires { rest < 1258291200 }
{
    let exponent = rest / 0x80_0000;
    let fraction = rest % 0x80_0000;
    if exponent == 0 {
        return write!(f, "{fraction} x 2^-149");
    }
    write!(f, "{} x 2^-{}", fraction + 0x80_0000, 150 - exponent)
}

// An f32 with six decimals.
#[derive(Clone, Copy)]
pub struct Fine(pub f32);

impl Display for Fine {
    fn fmt<W: fmt::Write>(&self, f: &mut fmt::Formatter<W>) -> fmt::Result {
        if self.0.is_nan() {
            return f.pad("nan");
        }
        let bits = f32::to_bits(self.0);
        let negative = 0x8000_0000 <= bits;
        let rest = bits % 0x8000_0000;
        if 1258291200 <= rest {
            return Double(std::num::f32_to_f64_with_nan(self.0)).fmt(f);
        }
        match millionths32(rest) {
            0 if rest != 0 => {
                f.write_str(sign(negative))?;
                write_small(f, rest)
            }
            n => Decimal::new(negative, n, 6).fmt(f),
        }
    }
}
