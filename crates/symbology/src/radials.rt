// Packets 16 and AF1F: the packet header, and a radial's six bytes.
ghost use Rattle.std.specs.Prelude.{◌≡◌, ◌*◌, ◌<◌, ◌≤◌, ◌||◌, ◌==◌, nat_lt};
ghost use Rattle.wire.specs.Bytes.{u16_at};
ghost use Rattle.wire.specs.Result.{answer};
ghost use Rattle.wire.specs.Reading.{walk, outcome};
ghost use Rattle.symbology.specs.Symbology.{covered, count_wrong, over_body, counts};
ghost use Rattle.symbology.specs.Answers.{header_of};
ghost use Rattle.symbology.specs.Walk.{beam_span, placed, first_of};

use crate::figures::Packet;
use crate::spans::Place;
use wire::error::Level3DecodeError;

// The most cells that a picture may have, of any packet.
pub const MAX_GATE_COUNT: usize = 4000000;

#[derive(Clone, Copy)]
pub struct PacketHeader {
    pub n_radials: usize,
    pub n_bins: usize,
    pub range_scale: u16,
}

// How many bytes a radial's count covers.
#[tactic(auto, unfolding(crate::specs::Symbology::covered))]
pub fn covered_by(packet: Packet, count: u16) -> usize
    ensures { (result ≡ covered packet count) × (result ≤ count * 4) }
{
    match packet {
        Packet::Packet16 => usize::from(count),
        Packet::PacketAf1f => usize::from(count) * 2,
        Packet::Packet28 => usize::from(count) * 4,
    }
}

// 21: data past the end; packet 16 count under bins.
#[tactic(auto, unfolding(crate::specs::Symbology::count_wrong))]
fn is_count_wrong(packet: Packet, n_bins: usize, count: u16, room: usize) -> bool
    ensures { result ≡ count_wrong packet n_bins count room }
{
    let count = usize::from(count);
    match packet {
        Packet::Packet16 => count < n_bins || room < count,
        Packet::PacketAf1f => room < count * 2,
        Packet::Packet28 => false,
    }
}

// 20: width 0 or over 100 tenths.
fn is_width_wrong(width: u16) -> bool
    ensures { result ≡ (width == 0 || nat_lt 100 width) }
{
    width == 0 || 100 < width
}

// A radial's frame: 19, 20, 21, in this order.
pub fn beam_span(
    packet: Packet,
    body: &[u8],
    at: usize,
    n_radials: usize,
    n_bins: usize,
    r: usize,
) -> Result<Place, Level3DecodeError>
    ensures { answer result ≡ placed (walk (beam_span packet n_radials n_bins r) body.now at) }
{
    let have = wire::bytes::remaining(body.len(), at);
    if have < 6 {
        return Err(Level3DecodeError::TruncatedAtRadial {
            radial: r,
            n_radials,
        });
    }
    let count = wire::bytes::u16_at(body, at);
    let start = wire::bytes::u16_at(body, at + 2);
    let width = wire::bytes::u16_at(body, at + 4);
    if is_width_wrong(width) {
        return Err(Level3DecodeError::ImplausibleRadialWidth {
            radial: r,
            width_deg: crate::centre::width_deg(width),
        });
    }
    if is_count_wrong(packet, n_bins, count, have - 6) {
        return Err(Level3DecodeError::RadialByteCountMismatch {
            radial: r,
            n_bytes: usize::from(count),
            n_bins,
        });
    }
    let from = at + 6;
    Ok(Place {
        centre: crate::centre::azimuth_centre_deg(start, width),
        from,
        to: from + covered_by(packet, count),
    })
}

// Bytes 18-19, of packet 16 alone.
pub(crate) fn first_bin(packet: Packet, body: &[u8]) -> usize
    ensures { result ≡ first_of packet body.now }
{
    match packet {
        Packet::Packet16 => usize::from(wire::bytes::u16_at(body, 18)),
        Packet::PacketAf1f => 0,
        Packet::Packet28 => 0,
    }
}

// The halfword at a place, as a number whose bound is known.
pub fn count_at(body: &[u8], at: usize) -> usize
    ensures { (result ≡ u16_at body.now at) × (result < 65536) }
{
    usize::from(wire::bytes::u16_at(body, at))
}

// The product of two numbers of at most 17 bits.
fn product(a: usize, b: usize) -> usize
    requires { (a < 131072) × (b < 131072) }
    ensures { result ≡ a * b }
{
    a * b
}

// 18, of packet 16 alone.
#[tactic(auto, unfolding(crate::specs::Symbology::over_body))]
fn is_over_body(packet: Packet, n_radials: usize, n_bins: usize, room: usize) -> bool
    requires { (n_radials < 65536) × (n_bins < 65536) }
    ensures { result ≡ over_body packet n_radials n_bins room }
{
    match packet {
        Packet::Packet16 => room < product(n_radials, 6 + n_bins),
        Packet::PacketAf1f => false,
        Packet::Packet28 => false,
    }
}

// The counts from byte 20 on: 15, 16; 17 for a first bin that is not 0; of packet 16 also 18. No radials is no refusal: a clear scan.
pub fn read_counts(
    body: &[u8],
    packet: Packet,
    first: usize,
) -> Result<PacketHeader, Level3DecodeError>
    ensures { header_of result ≡ outcome (walk (counts packet first) body.now 20) }
{
    let n_bins = count_at(body, 20);
    let range_scale = wire::bytes::u16_at(body, 26);
    let n_radials = count_at(body, 28);
    let cells = product(n_radials, n_bins);
    let is_empty = n_bins == 0;
    if is_empty {
        return Err(Level3DecodeError::EmptySweep { n_radials, n_bins });
    }
    if MAX_GATE_COUNT < cells {
        return Err(Level3DecodeError::GridTooLarge {
            n_radials,
            n_bins,
            cells,
            max: MAX_GATE_COUNT,
        });
    }
    if first != 0 {
        return Err(Level3DecodeError::NonZeroFirstBin(first));
    }
    let available = wire::bytes::remaining(body.len(), 30);
    if is_over_body(packet, n_radials, n_bins, available) {
        return Err(Level3DecodeError::AllocationExceedsBody {
            n_radials,
            n_bins,
            needed: product(n_radials, 6 + n_bins),
            available,
        });
    }
    Ok(PacketHeader {
        n_radials,
        n_bins,
        range_scale,
    })
}
