// Packet 28: the generic data packet. Its payload is handed on as a part, and read by XDR items one after another.
ghost use Rattle.std.specs.Prelude.{ℕ, ◌≡◌};
ghost use Rattle.wire.specs.Result.{answer};
ghost use Rattle.wire.specs.Reading.{walk};
ghost use Rattle.xdr.specs.Cursor.{read_at, ended, Leaves};
ghost use Rattle.symbology.specs.Symbology.{product_block, xdr_frame, component_head};
ghost use Rattle.symbology.specs.Walk.{expected_of, frame_tested, xdr_radial_span, placed};

use crate::radials::MAX_GATE_COUNT;
use crate::spans::{Grid, Place, Radials28};
use wire::error::{Level3DecodeError, XdrItem};
use xdr::xdr::{XdrCursor, at_least_0};

const RADIAL_COMPONENT_TYPE: usize = 1;

const MAX_XDR_RADIALS: i32 = 100000;

// A radial's centre in degrees, and its number of bins.
#[derive(Clone, Copy)]
pub struct XdrRadial {
    pub centre: f64,
    pub bins: usize,
}

// A component up to its radials: how many, and the gate figures.
#[derive(Clone, Copy)]
pub struct Gates28 {
    pub radials: usize,
    pub gate_width: f32,
    pub first_gate: f32,
}

// 29, 31, 32, 33: the last of the first radial alone.
#[tactic(auto, unfolding(crate::specs::Walk::frame_tested))]
fn test_frame(
    radials: Radials28,
    r: usize,
    num_bins: i32,
    declared: usize,
) -> Result<(), Level3DecodeError>
    ensures { (p : ℕ) → ended result p ≡ frame_tested radials.n_radials r num_bins radials.n_bins declared p }
{
    let n_radials = radials.n_radials;
    if num_bins <= 0 {
        // In range by the proof: `try_from` would be a test that cannot fail.
        return Err(Level3DecodeError::NonPositiveXdrGeometry {
            n_radials: n_radials as i32,
            n_bins: num_bins,
        });
    }
    let n_bins = at_least_0(num_bins);
    let expected = radials.n_bins.unwrap_or(n_bins);
    if n_bins != expected {
        return Err(Level3DecodeError::XdrRadialBinCountMismatch {
            radial: r,
            n_bins,
            expected,
        });
    }
    if declared != n_bins {
        return Err(Level3DecodeError::XdrRadialDataLengthMismatch {
            radial: r,
            declared,
            num_bins: n_bins,
        });
    }
    let cells = n_radials * n_bins;
    if r == 0 && MAX_GATE_COUNT < cells {
        return Err(Level3DecodeError::XdrGridTooLarge {
            n_radials,
            n_bins,
            cells,
            max: MAX_GATE_COUNT,
        });
    }
    Ok(())
}

// A radial's frame: all six items, then 29, 31, 32, 33.
pub fn xdr_frame(
    c: &mut XdrCursor,
    radials: Radials28,
    r: usize,
) -> Result<XdrRadial, Level3DecodeError>
    ensures { Leaves (read_at (xdr_frame radials.n_radials r (expected_of radials.n_bins)) c.old) result c.old c.new }
{
    let azimuth = c.unpack_float()?;
    c.skip(XdrItem::Float, 4)?; // elevation
    let width = c.unpack_float()?;
    let num_bins = c.unpack_int()?;
    c.skip_string()?; // attributes
    let declared = c.array_count()?;
    test_frame(radials, r, num_bins, declared)?;
    let centre = crate::centre::azimuth_centre_28(azimuth, width);
    let bins = at_least_0(num_bins);
    Ok(XdrRadial { centre, bins })
}

pub fn xdr_radial_span(
    buf: &[u8],
    at: usize,
    grid: Grid,
    r: usize,
) -> Result<Place, Level3DecodeError>
    ensures { answer result ≡ placed (walk (xdr_radial_span grid.figures.n_radials grid.figures.n_bins r) buf.now at) }
{
    let radials = Radials28 {
        n_radials: grid.figures.n_radials,
        n_bins: Some(grid.figures.n_bins),
    };
    let mut c = XdrCursor::from(buf, at);
    let radial = xdr_frame(&mut c, radials, r)?;
    let from = c.position();
    Ok(Place {
        centre: radial.centre,
        from,
        to: from + radial.bins * 4,
    })
}

// The product description block and its parameters: nothing is kept.
pub fn product_block(c: &mut XdrCursor) -> Result<(), Level3DecodeError>
    ensures { Leaves (read_at product_block c.old) result c.old c.new }
{
    c.skip_string()?; // name
    c.skip_string()?; // description
    c.skip(XdrItem::Int, 4)?; // code
    c.skip(XdrItem::Int, 4)?; // type
    c.skip(XdrItem::Uint, 4)?; // prod_time
    c.skip_string()?; // radar_name
    c.skip(XdrItem::Float, 4)?; // latitude
    c.skip(XdrItem::Float, 4)?; // longitude
    c.skip(XdrItem::Float, 4)?; // height
    c.skip(XdrItem::Uint, 4)?; // vol_time
    c.skip(XdrItem::Uint, 4)?; // el_time
    c.skip(XdrItem::Float, 4)?; // el_angle
    c.skip(XdrItem::Int, 4)?; // vol_num
    c.skip(XdrItem::Int, 4)?; // op_mode
    c.skip(XdrItem::Int, 4)?; // vcp_num
    c.skip(XdrItem::Int, 4)?; // el_num
    c.skip(XdrItem::Int, 4)?; // compression
    c.skip(XdrItem::Int, 4)?; // uncompressed_size
    c.skip_parameters()
}

// A component's type, description, gate figures, parameters and number of radials: 27, 29, 30.
pub fn component_head(c: &mut XdrCursor) -> Result<Gates28, Level3DecodeError>
    ensures { Leaves (read_at component_head c.old) result c.old c.new }
{
    let kind = c.unpack_int()?;
    if at_least_0(kind) != RADIAL_COMPONENT_TYPE {
        return Err(Level3DecodeError::UnsupportedXdrComponent(kind));
    }
    c.skip_string()?; // description
    let gate_width = c.unpack_float()?;
    let first_gate = c.unpack_float()?;
    c.skip_parameters()?;
    let num_rads = c.unpack_int()?;
    if num_rads <= 0 {
        return Err(Level3DecodeError::NonPositiveXdrGeometry {
            n_radials: num_rads,
            n_bins: 0,
        });
    }
    if MAX_XDR_RADIALS < num_rads {
        return Err(Level3DecodeError::ImplausibleXdrRadialCount {
            n_radials: num_rads,
            max: MAX_XDR_RADIALS,
        });
    }
    let radials = at_least_0(num_rads);
    Ok(Gates28 {
        radials,
        gate_width,
        first_gate,
    })
}
