// The sixteen levels of the legacy scheme, a flag and a value byte each.
ghost use Rattle.std.specs.Prelude.{◌≡◌, ◌+◌, ◌≤◌, length};
ghost use Rattle.scale.specs.Legacy.{sign_of, scale_of, unscaled_level, unscaled_levels, levels_of};

#[tactic(auto, using(crate::proofs::Constants::one, crate::proofs::Constants::minus_one))]
fn sign_of(flag: u8) -> f32
    ensures { result ≡ sign_of flag }
{
    if flag / 0x01 % 2 == 1 {
        -1.0f32
    } else {
        1.0f32
    }
}

#[tactic(auto, using(crate::proofs::Constants::one, crate::proofs::Constants::ten, crate::proofs::Constants::twenty, crate::proofs::Constants::hundred))]
fn scale_of(flag: u8) -> f32
    ensures { result ≡ scale_of flag }
{
    if flag / 0x40 % 2 == 1 {
        return 1.0f32 / 100.0;
    }
    if flag / 0x10 % 2 == 1 {
        return 1.0f32 / 10.0;
    }
    if flag / 0x20 % 2 == 1 {
        return 1.0f32 / 20.0;
    }
    1.0f32
}

// The level of one flag and value, not yet multiplied by the post-scale.
fn unscaled_level(flag: u8, value: u8) -> f32
    ensures { result ≡ unscaled_level flag value }
{
    if flag / 0x80 % 2 == 1 {
        wire::float::nan32()
    } else {
        f32::from(value) * sign_of(flag) * scale_of(flag)
    }
}

// The levels of the 32 bytes from place `at` on, not yet multiplied. Sixteen by the ICD, and the library has no heap: an array.
pub(crate) fn unscaled_levels(t: &[u8], at: usize) -> [f32; 16]
    requires { at + 32 ≤ length t.now }
    ensures { result ≡ unscaled_levels t.now at }
{
    let mut levels = [0.0f32; 16];
    for k in 0..16 {
        levels[k] = unscaled_level(t[at + 2 * k], t[at + 2 * k + 1]);
    }
    levels
}

// A `for`: what an array's `map` promises does not show that its closure stays the same from call to call.
pub fn decode_legacy16(threshold_data: &[u8; 32], post_scale: f32) -> [f32; 16]
    ensures { result ≡ levels_of threshold_data.now 0 post_scale }
{
    let unscaled = unscaled_levels(threshold_data, 0);
    let mut levels = [0.0f32; 16];
    for k in 0..16 {
        levels[k] = unscaled[k] * post_scale;
    }
    levels
}
