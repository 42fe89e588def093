// The physical value of a code under a scheme and the file's bytes, and a buffer filled with the values of a list of codes.
ghost use Rattle.std.specs.Prelude.{◌≡◌, ℕ, ◌≤◌, ◌<◌, length, pos, Float};
ghost use Rattle.wire.specs.Float.{whole32};
ghost use Rattle.wire.specs.Text.{all};
ghost use Rattle.wire.specs.Result.{accepted, answer, then, lent};
ghost use Rattle.scale.specs.Physical.{open_value, capped_value, class_value, has_level, level_of, scaled_level_of, value_in, value_of, filled, Gives};
ghost use Rattle.scale.specs.Physical.{scale_fields, declared_scale, fill_of, Ready};

use crate::scaling::{DeclaredLinearScale, LinearScale, PrecipScale};
use wire::error::{Buffer, Level3DecodeError};

// How raw codes are coded.
#[derive(Clone, Copy)]
pub enum Scheme {
    Halfword,
    Float,
    Precipitation { factor: f32 },
    Legacy { post_scale: f32 },
    Class,
}

// What is needed to value codes: the scale fields, read. Legacy has the place of its thresholds in the file.
#[derive(Clone, Copy)]
pub enum Scaling {
    Linear(LinearScale),
    Precip(PrecipScale),
    Legacy { at: usize, post_scale: f32 },
    Class,
}

// The scale fields of a scheme: 3, 7, 8.
#[tactic(auto, unfolding(crate::specs::Physical::scale_fields, crate::specs::Pdb::threshold_place))]
pub fn scale_fields(scheme: Scheme, file: &[u8], block: usize) -> Result<Scaling, Level3DecodeError>
    ensures { answer result ≡ scale_fields scheme file.now block }
{
    match scheme {
        Scheme::Halfword => {
            let scale = crate::pdb::value_scaling_linear_hw(file, block)?;
            Ok(Scaling::Linear(scale))
        }
        Scheme::Float => {
            let scale = crate::pdb::value_scaling_float(file, block)?;
            Ok(Scaling::Linear(scale))
        }
        Scheme::Precipitation { factor } => {
            let scale = crate::pdb::precip_family_scale(file, block, factor)?;
            Ok(Scaling::Precip(scale))
        }
        Scheme::Legacy { post_scale } => {
            let at = head::pdb::field_at(file.len(), block, 22, 32)?;
            Ok(Scaling::Legacy { at, post_scale })
        }
        Scheme::Class => Ok(Scaling::Class),
    }
}

// The scale that is declared: 9. Legacy and class declare none.
#[tactic(auto, unfolding(crate::specs::Physical::declared_scale))]
pub fn declared_scale(v: Scaling) -> Result<Option<DeclaredLinearScale>, Level3DecodeError>
    ensures { answer result ≡ declared_scale v }
{
    match v {
        Scaling::Linear(s) => {
            let declared = crate::scaling::linear_declared_scale(s)?;
            Ok(Some(declared))
        }
        Scaling::Precip(p) => Ok(Some(crate::scaling::precip_family_declared_scale(p))),
        Scaling::Legacy { .. } | Scaling::Class => Ok(None),
    }
}

// The float of a whole number, by its bits: 2^23 and so many more, less 2^23. It is what a cast gives, but the compiler takes a loop
// with a cast to a float one value at a time, and one without several at once.
fn whole(n: u16) -> f32
    ensures { result ≡ whole32 (pos n) }
{
    f32::from_bits(0x4b00_0000 + u32::from(n)) - 8388608.0
}

// Linear from the floor on.
fn open_value(min: f32, step: f32, floor: u16, code: u16) -> f32
    ensures { result ≡ open_value min step floor code }
{
    if code < floor {
        wire::float::nan32()
    } else {
        min + whole(code - floor) * step
    }
}

// Linear from the floor to the top.
fn capped_value(min: f32, step: f32, floor: u16, top: u16, code: u16) -> f32
    ensures { result ≡ capped_value min step floor top code }
{
    if top < code {
        wire::float::nan32()
    } else {
        open_value(min, step, floor, code)
    }
}

// Class: 0 is NaN.
pub fn class_int_physical(code: u16) -> f32
    ensures { result ≡ class_value code }
{
    if code == 0 {
        wire::float::nan32()
    } else {
        whole(code)
    }
}

// The level of a code, of the sixteen there are.
fn level_of(levels: &[f32; 16], code: u16) -> f32
    ensures { result ≡ level_of levels.now code }
{
    if code < 16 {
        levels[usize::from(code)]
    } else {
        wire::float::nan32()
    }
}

// The level of a code that has one, without a test.
fn known_level(levels: &[f32; 16], code: u16) -> f32
    ensures { code < 16 → result ≡ level_of levels.now code }
{
    levels[usize::from(code % 16)]
}

// Writes the value of each code to its place. The clause on the room stands in each function that fills: in a struct that held both
// slices each clause would have to say that they are still those two.
fn fill_with<F: Fn(u16) -> f32>(value: F, codes: &[u16], physical: &mut [f32])
    requires room { length codes.now ≤ length physical.old }
    requires callable { F.IsAlwaysCallable value }
    ensures { (f : ℕ → Float) → Gives (F.post value) f codes.now
        → physical.new ≡ filled f codes.now physical.old }
{
    for (i, code) in codes.iter().enumerate() {
        physical[i] = value(*code);
    }
}

fn fill_linear(
    min: f32,
    step: f32,
    floor: u16,
    ceiling: Option<u16>,
    codes: &[u16],
    physical: &mut [f32],
)
    requires { length codes.now ≤ length physical.old }
    ensures { physical.new ≡ filled (value_in min step floor ceiling) codes.now physical.old }
{
    match ceiling {
        Some(top) => {
            fill_with(
                |code| capped_value(min, step, floor, top, code),
                codes,
                physical,
            );
        }
        None => {
            fill_with(|code| open_value(min, step, floor, code), codes, physical);
        }
    }
}

// Whether every code has a level. The codes' bits are put together and tested once, so that the loop has no test.
fn have_levels(codes: &[u16]) -> bool
    ensures { result ≡ all has_level codes.now }
{
    codes.iter().fold(0, |bits, code| bits | *code) < 16
}

fn fill_levels(levels: &[f32; 16], post_scale: f32, codes: &[u16], physical: &mut [f32])
    requires { length codes.now ≤ length physical.old }
    ensures { physical.new ≡ filled (scaled_level_of levels.now post_scale) codes.now physical.old }
{
    if have_levels(codes) {
        fill_with(
            |code| known_level(levels, code) * post_scale,
            codes,
            physical,
        );
    } else {
        fill_with(|code| level_of(levels, code) * post_scale, codes, physical);
    }
}

#[tactic(auto, unfolding(crate::specs::Physical::value_of))]
fn fill(v: Scaling, file: &[u8], codes: &[u16], physical: &mut [f32])
    requires { Ready v file.now × (length codes.now ≤ length physical.old) }
    ensures { physical.new ≡ filled (value_of v file.now) codes.now physical.old }
{
    match v {
        Scaling::Linear(s) => {
            fill_linear(s.value_min, s.value_increment, 2, None, codes, physical);
        }
        Scaling::Precip(p) => {
            fill_linear(
                p.value_min,
                p.value_increment,
                u16::from(p.floor),
                p.ceiling,
                codes,
                physical,
            );
        }
        Scaling::Legacy { at, post_scale } => {
            let levels = crate::legacy16::unscaled_levels(file, at);
            fill_levels(&levels, post_scale, codes, physical);
        }
        Scaling::Class => {
            fill_with(class_int_physical, codes, physical);
        }
    }
}

// Writes the physical values of the codes to the front of the buffer: 3, 7, 8 as the scale fields have them, then 36.
pub fn fill_physical(
    scheme: Scheme,
    file: &[u8],
    block: usize,
    codes: &[u16],
    physical: &mut [f32],
) -> Result<(), Level3DecodeError>
    ensures result_value { answer result
        ≡ then (fill_of scheme file.now block codes.now (length physical.old)) (λ _. accepted tt) }
    ensures physical_after { physical.new
        ≡ lent (fill_of scheme file.now block codes.now (length physical.old))
        (λ values. values) physical.old }
{
    let v = scale_fields(scheme, file, block)?;
    if physical.len() < codes.len() {
        return Err(Level3DecodeError::BufferTooShort {
            buffer: Buffer::Physical,
        });
    }
    fill(v, file, codes, physical);
    Ok(())
}
