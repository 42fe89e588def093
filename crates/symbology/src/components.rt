// Packet 28's payload: the product block, and the list of components, of which there is just one.
ghost use Rattle.std.specs.Prelude.{◌≡◌, ◌<◌, ◌≤◌};
ghost use Rattle.wire.specs.Result.{answer};
ghost use Rattle.wire.specs.Reading.{walk, run};
ghost use Rattle.xdr.specs.Xdr.{further};
ghost use Rattle.symbology.specs.Symbology.{xdr_radials, component, payload};
ghost use Rattle.symbology.specs.Walk.{in_mode, position, listed, next_component, Plans};

use crate::figures::{Figures, Geometry, Packet};
use crate::generic::{Gates28, component_head, product_block, xdr_frame};
use crate::spans::{Grid, Plan, Radials28};
use wire::error::{Level3DecodeError, XdrItem};
use xdr::xdr::XdrCursor;

// All radials, of which the first gives the number of bins. The payload, a place and the flag go down through all of these; a struct would
// be made anew at each place.
fn radials_from(
    buf: &[u8],
    at: usize,
    gates: Gates28,
    gaps: bool,
) -> Result<Plan, Level3DecodeError>
    requires { (0 < gates.radials) × (gates.radials ≤ 100000) }
    ensures { Plans gaps result buf.now
        (run (in_mode gaps (xdr_radials gates.radials gates.gate_width gates.first_gate)) buf.now at) }
{
    let radials = Radials28 {
        n_radials: gates.radials,
        n_bins: None,
    };
    let first = xdr_frame(&mut XdrCursor::from(buf, at), radials, 0)?;
    let figures = Figures {
        packet: Packet::Packet28,
        n_radials: gates.radials,
        n_bins: first.bins,
        geometry: Geometry::Gates {
            gate_width_m: gates.gate_width,
            first_gate_m: gates.first_gate,
        },
    };
    crate::walks::plan_radials(buf, at, Grid { figures }, gaps)
}

fn component(buf: &[u8], at: usize, gaps: bool) -> Result<Plan, Level3DecodeError>
    ensures { Plans gaps result buf.now (run (in_mode gaps component) buf.now at) }
{
    let mut c = XdrCursor::from(buf, at);
    let gates = component_head(&mut c)?;
    radials_from(buf, c.position(), gates, gaps)
}

// A pointer and a component after it.
fn next_component(buf: &[u8], at: usize, gaps: bool) -> Result<usize, Level3DecodeError>
    ensures { answer result ≡ position (walk (in_mode gaps next_component) buf.now at) }
{
    let mut c = XdrCursor::from(buf, at);
    c.skip(XdrItem::Int, 4)?;
    let plan = component(buf, c.position(), gaps)?;
    Ok(plan.next)
}

// Components after the first: each is walked, since its refusal comes before 28.
fn further_components(
    buf: &[u8],
    start: usize,
    n: usize,
    gaps: bool,
) -> Result<usize, Level3DecodeError>
    ensures { answer result ≡ position (walk (in_mode gaps (further component n)) buf.now start) }
{
    let mut at = start;
    for _ in 0..n {
        at = next_component(buf, at, gaps)?;
    }
    Ok(at)
}

// The components, of which there are n: 28, 35.
fn components(buf: &[u8], at: usize, n: usize, gaps: bool) -> Result<Plan, Level3DecodeError>
    ensures { Plans gaps result buf.now (run (in_mode gaps (listed n)) buf.now at) }
{
    if n == 0 {
        return Err(Level3DecodeError::UnexpectedXdrComponentCount(0));
    }
    let plan = component(buf, at, gaps)?;
    if n == 1 {
        let remaining = wire::bytes::remaining(buf.len(), plan.next);
        if remaining != 0 {
            return Err(Level3DecodeError::XdrTrailingBytes { remaining });
        }
        return Ok(plan);
    }
    further_components(buf, plan.next, n - 1, gaps)?;
    Err(Level3DecodeError::UnexpectedXdrComponentCount(n))
}

pub fn read_payload(buf: &[u8], gaps: bool) -> Result<Plan, Level3DecodeError>
    ensures { Plans gaps result buf.now (run (in_mode gaps payload) buf.now 0) }
{
    let mut c = XdrCursor::new(buf);
    product_block(&mut c)?;
    let n = c.list_head()?;
    components(buf, c.position(), n, gaps)
}
