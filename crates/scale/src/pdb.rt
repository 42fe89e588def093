// The scale fields of the description block.
ghost use Rattle.std.specs.Prelude.{◌≡◌, ◌+◌, ◌≤◌, length};
ghost use Rattle.wire.specs.Result.{answer};
ghost use Rattle.scale.specs.Pdb.{scale_pair, value_scaling_linear_hw, value_scaling_float, precip_family_scale, thirty_two, thresholds};

use crate::scaling::{LinearScale, PrecipScale};
use head::pdb::F32Pair;
use wire::error::Level3DecodeError;

#[tactic(auto, unfolding(crate::specs::Pdb::value_scaling_linear_hw))]
pub fn value_scaling_linear_hw(file: &[u8], block: usize) -> Result<LinearScale, Level3DecodeError>
    ensures { answer result ≡ value_scaling_linear_hw file.now block }
{
    let min = head::pdb::hw_i16(file, block, 22)?;
    let increment = head::pdb::hw_i16(file, block, 23)?;
    let levels = head::pdb::hw_u16(file, block, 24)?;
    Ok(crate::scaling::linear_hw(min, increment, levels))
}

// The float pair at field 22: 7 for a scale that is zero or not finite, 8 for an offset that is not finite.
#[tactic(auto, unfolding(crate::specs::Pdb::scale_pair))]
fn scale_pair(file: &[u8], block: usize) -> Result<F32Pair, Level3DecodeError>
    ensures { answer result ≡ scale_pair file.now block }
{
    let pair = head::pdb::hw_f32_pair(file, block, 22)?;
    if !crate::scaling::is_usable(pair.scale) {
        return Err(Level3DecodeError::NonFiniteScale(pair.scale));
    }
    if !crate::scaling::is_finite(pair.offset) {
        return Err(Level3DecodeError::NonFiniteOffset(pair.offset));
    }
    Ok(pair)
}

#[tactic(auto, unfolding(crate::specs::Pdb::value_scaling_float))]
pub fn value_scaling_float(file: &[u8], block: usize) -> Result<LinearScale, Level3DecodeError>
    ensures { answer result ≡ value_scaling_float file.now block }
{
    let pair = scale_pair(file, block)?;
    Ok(crate::scaling::linear_float(pair.scale, pair.offset))
}

#[tactic(auto, unfolding(crate::specs::Pdb::precip_family_scale))]
pub fn precip_family_scale(
    file: &[u8],
    block: usize,
    factor: f32,
) -> Result<PrecipScale, Level3DecodeError>
    ensures { answer result ≡ precip_family_scale file.now block factor }
{
    let pair = scale_pair(file, block)?;
    let largest = head::pdb::hw_u16(file, block, 27)?;
    let leading = head::pdb::hw_u16(file, block, 28)?;
    let trailing = head::pdb::hw_u16(file, block, 29)?;
    let floor = crate::scaling::floor_of(largest, leading, trailing);
    let ceiling = crate::scaling::ceiling_of(largest, leading, trailing);
    Ok(crate::scaling::scaled_by(pair.scale, pair.offset, factor, floor, ceiling))
}

// A copy of the 32 bytes from place k on.
fn copy_32(file: &[u8], k: usize) -> [u8; 32]
    requires { k + 32 ≤ length file.now }
    ensures { result ≡ thirty_two file.now k }
{
    let mut bytes = [0; 32];
    bytes.copy_from_slice(&file[k..k + 32]);
    bytes
}

// The thresholds: their place in the file, and a copy of them, 32 bytes by the ICD.
#[derive(Clone, Copy)]
pub struct Thresholds {
    pub at: usize,
    pub bytes: [u8; 32],
}

#[tactic(auto, using(head::proofs::Fields::field_inside), unfolding(crate::specs::Pdb::thresholds, crate::specs::Pdb::threshold_place))]
pub fn threshold_data(file: &[u8], block: usize) -> Result<Thresholds, Level3DecodeError>
    ensures { answer result ≡ thresholds file.now block }
{
    let at = head::pdb::field_at(file.len(), block, 22, 32)?;
    let bytes = copy_32(file, at);
    Ok(Thresholds { at, bytes })
}
