// The fields of the product description block: field i stands at the block's start + 2 * (i - 1). The file and the block's start stay two
// parameters: the entries for C take them so.
ghost use Rattle.std.specs.Prelude.{◌≡◌};
ghost use Rattle.wire.specs.Result.{answer};
ghost use Rattle.head.specs.Pdb.{field_at, hw_i16, hw_u16, hw_i32, hw_pair, thousandths, tenths, metres, pdb_fields};

use wire::error::Level3DecodeError;

#[derive(Clone, Copy)]
pub struct F32Pair {
    pub scale: f32,
    pub offset: f32,
}

// Latitude, longitude, height and elevation stand as floats, and at the end as the whole numbers read from the wire.
#[derive(Clone, Copy)]
pub struct PdbFields {
    pub lat: f64,
    pub lon: f64,
    pub height_m: f64,
    pub product_code: i16,
    pub vcp: u16,
    pub scan_days: u16,
    pub scan_seconds: i32,
    pub elevation_deg: f64,
    pub lat_thousandths: i32,
    pub lon_thousandths: i32,
    pub height_feet: i16,
    pub elevation_tenths: i16,
}

// The place of field `index`, which takes `width` bytes, in a file of `len` bytes.
#[tactic(auto, unfolding(crate::specs::Pdb::field_at))]
pub fn field_at(
    len: usize,
    block: usize,
    index: usize,
    width: usize,
) -> Result<usize, Level3DecodeError>
    ensures { answer result ≡ field_at len block index width }
{
    let out = Level3DecodeError::PdbFieldOutOfBounds { index };
    if index == 0 || len < block || (len - block) / 2 < index - 1 {
        return Err(out);
    }
    let at = block + 2 * (index - 1);
    if len - at < width { Err(out) } else { Ok(at) }
}

// The four readings at a field's place. One generic reading would take the width and the function that reads, and each of these would call
// it with both: no shorter.
#[tactic(auto, unfolding(crate::specs::Pdb::hw_i16))]
pub fn hw_i16(file: &[u8], block: usize, index: usize) -> Result<i16, Level3DecodeError>
    ensures { answer result ≡ hw_i16 file.now block index }
{
    let at = field_at(file.len(), block, index, 2)?;
    Ok(wire::bytes::i16_at(file, at))
}

#[tactic(auto, unfolding(crate::specs::Pdb::hw_u16))]
pub fn hw_u16(file: &[u8], block: usize, index: usize) -> Result<u16, Level3DecodeError>
    ensures { answer result ≡ hw_u16 file.now block index }
{
    let at = field_at(file.len(), block, index, 2)?;
    Ok(wire::bytes::u16_at(file, at))
}

#[tactic(auto, unfolding(crate::specs::Pdb::hw_i32))]
pub fn hw_i32(file: &[u8], block: usize, index: usize) -> Result<i32, Level3DecodeError>
    ensures { answer result ≡ hw_i32 file.now block index }
{
    let at = field_at(file.len(), block, index, 4)?;
    Ok(wire::bytes::i32_at(file, at))
}

// A scale and an offset, one after the other.
#[tactic(auto, using(crate::proofs::Fields::field_inside), unfolding(crate::specs::Pdb::hw_pair))]
pub fn hw_f32_pair(file: &[u8], block: usize, index: usize) -> Result<F32Pair, Level3DecodeError>
    ensures { answer result ≡ hw_pair file.now block index }
{
    let at = field_at(file.len(), block, index, 8)?;
    Ok(F32Pair {
        scale: wire::float::f32_at(file, at),
        offset: wire::float::f32_at(file, at + 4),
    })
}

// Alike but for the unit, here and below; a number for the unit would leave no name to read.
#[tactic(auto, using(crate::proofs::Constants::thousand))]
fn of_thousandths(x: i32) -> f64
    ensures { result ≡ thousandths x }
{
    f64::from(x) / 1000.0
}

#[tactic(auto, using(crate::proofs::Constants::ten))]
fn of_tenths(x: i16) -> f64
    ensures { result ≡ tenths x }
{
    f64::from(x) / 10.0
}

#[tactic(auto, using(crate::proofs::Constants::foot))]
fn of_feet(x: i16) -> f64
    ensures { result ≡ metres x }
{
    f64::from(x) * 0.3048
}

#[tactic(auto, unfolding(crate::specs::Pdb::pdb_fields))]
pub fn read_pdb_fields(file: &[u8], block: usize) -> Result<PdbFields, Level3DecodeError>
    ensures { answer result ≡ pdb_fields file.now block }
{
    let lat = hw_i32(file, block, 2)?;
    let lon = hw_i32(file, block, 4)?;
    let feet = hw_i16(file, block, 6)?;
    let code = hw_i16(file, block, 7)?;
    let vcp = hw_u16(file, block, 9)?;
    let days = hw_u16(file, block, 12)?;
    let seconds = hw_i32(file, block, 13)?;
    let elevation = hw_i16(file, block, 21)?;
    Ok(PdbFields {
        lat: of_thousandths(lat),
        lon: of_thousandths(lon),
        height_m: of_feet(feet),
        product_code: code,
        vcp,
        scan_days: days,
        scan_seconds: seconds,
        elevation_deg: of_tenths(elevation),
        lat_thousandths: lat,
        lon_thousandths: lon,
        height_feet: feet,
        elevation_tenths: elevation,
    })
}
