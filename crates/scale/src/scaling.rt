// Scales out of the numbers that the description block holds, and the scale that a product declares.
// Each f32 operation rounds once, in the written order.
ghost use Rattle.std.specs.Prelude.{◌≡◌};
ghost use Rattle.std.specs.Float.Ieee.Scale.{finite};
ghost use Rattle.wire.specs.Result.{answer};
ghost use Rattle.scale.specs.Scaling.{linear_hw, linear_float, usable, plausible, floor_of, ceiling_of, scaled, level_count, linear_declared, precip_declared};

use wire::error::Level3DecodeError;

// The minimum, the step and the level count of the halfword and the float scheme.
#[derive(Clone, Copy)]
pub struct LinearScale {
    pub value_min: f32,
    pub value_increment: f32,
    pub n_levels: u16,
}

// The lowest valid code, and the highest, where there is one.
#[derive(Clone, Copy)]
pub struct PrecipScale {
    pub value_min: f32,
    pub value_increment: f32,
    pub floor: u8,
    pub ceiling: Option<u16>,
}

// The scale that a product declares.
#[derive(Clone, Copy)]
pub struct DeclaredLinearScale {
    pub value_min: f32,
    pub value_increment: f32,
    pub n_levels: u32,
    pub data_floor_code: u8,
}

// Whether x is neither a NaN nor an infinity.
#[tactic(auto, using(crate::proofs::Finite::finite_is))]
pub fn is_finite(x: f32) -> bool
    ensures { result ≡ finite x }
{
    x.is_finite()
}

// Whether a scale is neither zero nor non-finite.
pub fn is_usable(scale: f32) -> bool
    ensures { result ≡ usable scale }
{
    is_finite(scale) && scale != 0.0
}

// Halfwords 22 and 23 in tenths, 24 the level count.
pub fn linear_hw(min: i16, increment: i16, levels: u16) -> LinearScale
    ensures { result ≡ linear_hw min increment levels }
{
    LinearScale {
        value_min: f32::from(min) / 10.0,
        value_increment: f32::from(increment) / 10.0,
        n_levels: levels,
    }
}

#[tactic(auto, using(crate::proofs::Constants::one, crate::proofs::Constants::two))]
pub fn linear_float(scale: f32, offset: f32) -> LinearScale
    ensures { result ≡ linear_float scale offset }
{
    LinearScale {
        value_min: (2.0 - offset) / scale,
        value_increment: 1.0 / scale,
        n_levels: 254,
    }
}

// Whether the flags and the largest value make sense. The three are fields of the file, read one by one.
fn is_plausible(largest: u16, leading: u16, trailing: u16) -> bool
    ensures { result ≡ plausible largest leading trailing }
{
    leading <= 8 && trailing <= 8 && largest != 0
}

pub fn floor_of(largest: u16, leading: u16, trailing: u16) -> u8
    ensures { result ≡ floor_of largest leading trailing }
{
    if is_plausible(largest, leading, trailing) {
        // In range by the proof: `try_from` would be a test that cannot fail.
        leading as u8
    } else {
        1
    }
}

pub fn ceiling_of(largest: u16, leading: u16, trailing: u16) -> Option<u16>
    ensures { result ≡ ceiling_of largest leading trailing }
{
    if is_plausible(largest, leading, trailing) {
        Some(largest.saturating_sub(trailing))
    } else {
        None
    }
}

pub fn scaled_by(
    scale: f32,
    offset: f32,
    factor: f32,
    floor: u8,
    ceiling: Option<u16>,
) -> PrecipScale
    ensures { result ≡ scaled scale offset factor floor ceiling }
{
    let step = factor / scale;
    PrecipScale {
        value_min: f32::from(floor) * step + -offset * factor / scale,
        value_increment: step,
        floor,
        ceiling,
    }
}

// How many levels the precipitation family declares: the valid codes.
#[tactic(auto, using(crate::proofs::Valid::levels_open, crate::proofs::Valid::levels_capped))]
pub fn level_count(floor: u8, ceiling: Option<u16>) -> u32
    ensures { result ≡ level_count floor ceiling }
{
    match ceiling {
        Some(top) => (u32::from(top) + 1).saturating_sub(u32::from(floor)),
        None => 65536 - u32::from(floor),
    }
}

// Halfword and float: a step at or below 0 is refused; a NaN is not.
#[tactic(auto, using(crate::proofs::Constants::nought))]
pub fn linear_declared_scale(s: LinearScale) -> Result<DeclaredLinearScale, Level3DecodeError>
    ensures { answer result ≡ linear_declared s }
{
    let step = s.value_increment;
    if step <= 0.0 {
        return Err(Level3DecodeError::NonPositiveIncrement(step));
    }
    Ok(DeclaredLinearScale {
        value_min: s.value_min,
        value_increment: step,
        n_levels: u32::from(s.n_levels),
        data_floor_code: 2,
    })
}

pub fn precip_family_declared_scale(p: PrecipScale) -> DeclaredLinearScale
    ensures { result ≡ precip_declared p }
{
    DeclaredLinearScale {
        value_min: p.value_min,
        value_increment: p.value_increment,
        n_levels: level_count(p.floor, p.ceiling),
        data_floor_code: p.floor,
    }
}
