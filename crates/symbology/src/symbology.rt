// A symbology body: its packet, the check of all that it holds, and its picture in lent buffers.
ghost use Rattle.std.specs.Prelude.{◌≡◌, ◌*◌, ◌≤◌, not, ◌&&◌, [], length, ◌==◌, ◌≢◌, nat_lt};
ghost use Rattle.wire.specs.Refusal.{kind};
ghost use Rattle.wire.specs.Result.{accepted, answer, refuse};
ghost use Rattle.wire.specs.Reading.{run, walk, outcome};
ghost use Rattle.symbology.specs.Symbology.{radial_packet, generic_packet, body_short, block_header, symbology};
ghost use Rattle.symbology.specs.Answers.{asked, step_of, room_in, admit, picture_of, decode_for, decode_of, gaps_on_terms, gap_decode_for, figures_in};
ghost use Rattle.symbology.specs.Answers.{passing, Decodes, DecodesWithGaps};
ghost use Rattle.symbology.specs.Walk.{in_mode, in_part, Plots, asked_for, DecodesIn, Accepted};
ghost use Rattle.symbology.specs.Merge.{usable, merge_for};
ghost use Rattle.symbology.specs.Pairs.{walk_by, merged_parts};

use crate::figures::{Figures, Geometry, Packet, Packets, Terms};
use crate::spans::{BodyPlan, Grid, Plan, Room};
use wire::error::{Buffer, Level3DecodeError, XdrItem};

const RADIAL_PACKET_CODE: u16 = 16;

const AF1F_PACKET_CODE: u16 = 0xAF1F;

const GENERIC_PACKET_CODE: u16 = 28;

// A plan of the body's part from..to.
fn in_part(plan: Plan, from: usize, to: usize) -> BodyPlan
    ensures { result ≡ in_part from to plan }
{
    BodyPlan {
        grid: plan.grid,
        from,
        to,
        at: plan.at,
    }
}

// A packet 16 or AF1F from its header at byte 18 on: 12, and the counts.
fn plan_radial_packet(
    body: &[u8],
    packet: Packet,
    gaps: bool,
) -> Result<BodyPlan, Level3DecodeError>
    requires { (18 ≤ length body.now) × (packet ≢ Packet.Packet28) }
    ensures { Plots gaps result body.now (run (in_mode gaps (radial_packet packet)) body.now 18) }
{
    let len = body.len();
    if len < 30 {
        return Err(Level3DecodeError::SymbologyTruncated { len });
    }
    let h = crate::radials::read_counts(body, packet, crate::radials::first_bin(packet, body))?;
    let figures = Figures {
        packet,
        n_radials: h.n_radials,
        n_bins: h.n_bins,
        geometry: Geometry::RangeScale(h.range_scale),
    };
    let plan = crate::walks::plan_radials(body, 30, Grid { figures }, gaps)?;
    Ok(in_part(plan, 0, body.len()))
}

// 23: the payload's length is below 0 or over what remains.
#[tactic(auto, unfolding(crate::specs::Symbology::body_short))]
fn is_body_short(size: i32, room: usize) -> bool
    ensures { result ≡ body_short size room }
{
    size < 0 || room < xdr::xdr::at_least_0(size)
}

// Packet 28 from byte 18 on: 12, 23, and its payload as a part of its own.
fn plan_generic_packet(body: &[u8], gaps: bool) -> Result<BodyPlan, Level3DecodeError>
    requires { 18 ≤ length body.now }
    ensures { Plots gaps result body.now (run (in_mode gaps generic_packet) body.now 18) }
{
    let len = body.len();
    if len < 24 {
        return Err(Level3DecodeError::SymbologyTruncated { len });
    }
    let size = wire::bytes::i32_at(body, 20);
    let need = xdr::xdr::at_least_0(size);
    let room = len - 24;
    if is_body_short(size, room) {
        return Err(Level3DecodeError::XdrTruncated {
            context: XdrItem::PacketBody,
            have: room,
            need,
        });
    }
    let to = 24 + need;
    let plan = crate::components::read_payload(&body[24..to], gaps)?;
    Ok(in_part(plan, 24, to))
}

fn is_block_header(divider: u16, block: u16) -> bool
    ensures { result ≡ (divider == 65535 && block == 1) }
{
    divider == 0xFFFF && block == 1
}

// Bytes 0-17: 12, 13. The packet's code ends the block header.
pub fn read_code(body: &[u8]) -> Result<u16, Level3DecodeError>
    ensures { answer result ≡ outcome (walk block_header body.now 0) }
{
    let len = body.len();
    if len < 18 {
        return Err(Level3DecodeError::SymbologyTruncated { len });
    }
    let divider = wire::bytes::u16_at(body, 0);
    let block = wire::bytes::u16_at(body, 2);
    if !is_block_header(divider, block) {
        return Err(Level3DecodeError::BadSymbologyHeader {
            divider: wire::bytes::as_i16(divider),
            block_id: wire::bytes::as_i16(block),
        });
    }
    Ok(wire::bytes::u16_at(body, 16))
}

// The whole body, checked: 12, 13, 14 and those of the packet.
fn plan(body: &[u8], gaps: bool) -> Result<BodyPlan, Level3DecodeError>
    ensures { Plots gaps result body.now (run (in_mode gaps symbology) body.now 0) }
{
    let code = read_code(body)?;
    match code {
        RADIAL_PACKET_CODE => plan_radial_packet(body, Packet::Packet16, gaps),
        AF1F_PACKET_CODE => plan_radial_packet(body, Packet::PacketAf1f, gaps),
        GENERIC_PACKET_CODE => plan_generic_packet(body, gaps),
        _ => Err(Level3DecodeError::UnsupportedPacketCode {
            code: wire::bytes::as_i16(code),
        }),
    }
}

// The figures of a body that is accepted; nothing is written.
pub fn check(body: &[u8]) -> Result<Figures, Level3DecodeError>
    ensures { answer result ≡ figures_in (picture_of body.now) }
{
    let plan = plan(body, false)?;
    Ok(plan.grid.figures)
}

#[tactic(auto, unfolding(crate::specs::Answers::asked))]
fn is_asked(packets: Packets, packet: Packet) -> bool
    ensures { result ≡ asked packets packet }
{
    match packet {
        Packet::PacketAf1f => true,
        Packet::Packet16 => match packets {
            Packets::Af1fAlone => false,
            Packets::Radial { step: _ } => true,
            Packets::Any => true,
        },
        Packet::Packet28 => match packets {
            Packets::Af1fAlone => false,
            Packets::Radial { step: _ } => false,
            Packets::Any => true,
        },
    }
}

// 9, of a step at or below 0; a NaN is not.
#[tactic(auto, unfolding(wire::specs::Float::f32))]
fn test_step(packets: Packets) -> Result<(), Level3DecodeError>
    ensures { answer result ≡ step_of packets }
{
    match packets {
        Packets::Af1fAlone => Ok(()),
        Packets::Any => Ok(()),
        Packets::Radial { step } => {
            if step <= 0.0 {
                return Err(Level3DecodeError::NonPositiveIncrement(step));
            }
            Ok(())
        }
    }
}

// 36, of the first buffer that is too short.
#[tactic(auto, unfolding(crate::specs::Answers::room_in))]
fn test_room(
    terms: Terms,
    room: Room,
    n_radials: usize,
    cells: usize,
) -> Result<(), Level3DecodeError>
    ensures { answer result ≡ room_in terms room.azimuths room.codes n_radials cells }
{
    if room.azimuths < n_radials {
        return Err(Level3DecodeError::BufferTooShort {
            buffer: Buffer::Azimuths,
        });
    }
    if room.codes < cells {
        return Err(Level3DecodeError::BufferTooShort {
            buffer: Buffer::Codes,
        });
    }
    match terms.physical {
        Some(places) if places < cells => Err(Level3DecodeError::BufferTooShort {
            buffer: Buffer::Physical,
        }),
        _ => Ok(()),
    }
}

// 10.
#[tactic(auto, unfolding(crate::specs::Answers::asked))]
fn test_packet(packets: Packets, packet: Packet) -> Result<(), Level3DecodeError>
    ensures { answer result ≡ refuse (not (asked packets packet)) (kind 10 []) (accepted tt) }
{
    let other = !is_asked(packets, packet);
    if other {
        return Err(Level3DecodeError::SchemeMismatch);
    }
    Ok(())
}

// 10, 9, 36.
fn test_terms(terms: Terms, room: Room, grid: Grid) -> Result<(), Level3DecodeError>
    ensures { answer result ≡ admit terms room.azimuths room.codes grid.figures }
{
    let figures = grid.figures;
    let cells = figures.n_radials * figures.n_bins;
    test_use(terms, figures).and(test_room(terms, room, figures.n_radials, cells))
}

// 10, 9.
fn test_use(terms: Terms, figures: Figures) -> Result<(), Level3DecodeError>
    ensures { answer result ≡ usable terms figures }
{
    let packet = test_packet(terms.packets, figures.packet);
    let step = test_step(terms.packets);
    packet.and(step)
}

// With no room asked for, 10 and 9 alone.
fn test_figures(terms: Terms, ask: Option<Room>, grid: Grid) -> Result<(), Level3DecodeError>
    ensures { answer result ≡ asked_for terms ask grid.figures }
{
    match ask {
        None => test_use(terms, grid.figures),
        Some(room) => test_terms(terms, room, grid),
    }
}

// The whole body, checked, and then its figures.
#[tactic(auto, unfolding(crate::specs::Walk::in_mode, crate::specs::Answers::passing, crate::specs::Symbology::symbology))]
fn plan_for(
    body: &[u8],
    terms: Terms,
    ask: Option<Room>,
    gaps: bool,
) -> Result<BodyPlan, Level3DecodeError>
    ensures { Plots gaps result body.now (passing (asked_for terms ask) (run (in_mode gaps symbology) body.now 0)) }
{
    let plan = plan(body, gaps)?;
    test_figures(terms, ask, plan.grid)?;
    Ok(plan)
}

// The figures of a body that is accepted on terms, with buffers of so many places; nothing is written.
pub fn check_for(
    body: &[u8],
    terms: Terms,
    azimuths: usize,
    codes: usize,
) -> Result<Figures, Level3DecodeError>
    ensures { answer result ≡ figures_in (decode_for terms body.now azimuths codes) }
{
    let plan = plan_for(body, terms, Some(Room { azimuths, codes }), false)?;
    Ok(plan.grid.figures)
}

// No room for the marks, which are written with gaps alone.
fn no_marks(gaps: bool, marks: usize, n_radials: usize) -> bool
    ensures { result ≡ (gaps && nat_lt marks n_radials) }
{
    gaps && marks < n_radials
}

// The picture of a body on terms, without gaps or with them: a flag beside the marks, for which walks.rt has the reason.
fn decode_in(
    body: &[u8],
    terms: Terms,
    azimuths: &mut [f64],
    codes: &mut [u16],
    marks: &mut [u8],
    gaps: bool,
) -> Result<Figures, Level3DecodeError>
    ensures { DecodesIn gaps terms body.now azimuths.old azimuths.new
        codes.old codes.new marks.old marks.new result }
{
    let room = Room {
        azimuths: azimuths.len(),
        codes: codes.len(),
    };
    let plan = plan_for(body, terms, Some(room), gaps)?;
    let figures = plan.grid.figures;
    if no_marks(gaps, marks.len(), figures.n_radials) {
        return Err(Level3DecodeError::BufferTooShort {
            buffer: Buffer::Marks,
        });
    }
    crate::walks::write_radials(
        plan.grid,
        &body[plan.from..plan.to],
        plan.at,
        azimuths,
        codes,
        marks,
        gaps,
    );
    Ok(figures)
}

// The picture of a body on terms: its figures; in the front of the buffers the centres in degrees and the codes by row. A refusal
// writes nothing.
#[tactic(auto, unfolding(crate::specs::Walk::DecodesIn))]
pub fn decode_for(
    body: &[u8],
    terms: Terms,
    azimuths: &mut [f64],
    codes: &mut [u16],
) -> Result<Figures, Level3DecodeError>
    ensures { Decodes (decode_for terms body.now)
        azimuths.old azimuths.new codes.old codes.new result }
{
    // Without gaps no mark is written.
    let mut none = [0u8; 1];
    decode_in(body, terms, azimuths, codes, &mut none, false)
}

// The same of any packet.
#[tactic(auto, unfolding(crate::specs::Answers::decode_of))]
pub fn decode_symbology(
    body: &[u8],
    azimuths: &mut [f64],
    codes: &mut [u16],
) -> Result<Figures, Level3DecodeError>
    ensures { Decodes (decode_of body.now)
        azimuths.old azimuths.new codes.old codes.new result }
{
    let terms = Terms {
        packets: Packets::Any,
        physical: None,
    };
    decode_for(body, terms, azimuths, codes)
}

// The picture of a body on terms, with gaps where a radial's data make no row, and a mark for each radial: 1 for a gap, else 0. A refusal
// writes nothing.
#[tactic(auto, unfolding(crate::specs::Walk::DecodesIn))]
pub fn decode_with_gaps(
    body: &[u8],
    terms: Terms,
    azimuths: &mut [f64],
    codes: &mut [u16],
    marks: &mut [u8],
) -> Result<Figures, Level3DecodeError>
    ensures { DecodesWithGaps (gap_decode_for terms body.now) azimuths.old azimuths.new
        codes.old codes.new marks.old marks.new result }
{
    decode_in(body, terms, azimuths, codes, marks, true)
}

// ---- two receptions, one picture

// Two bodies of the same figures, whose radials stand in s and t: 43 of their azimuths, 44, 36, and the picture.
fn merge_parts(
    grid: Grid,
    s: &[u8],
    i: usize,
    t: &[u8],
    j: usize,
    terms: Terms,
    azimuths: &mut [f64],
    codes: &mut [u16],
    marks: &mut [u8],
) -> Result<Figures, Level3DecodeError>
    requires { Accepted (walk_by grid.figures s.now i) × Accepted (walk_by grid.figures t.now j) }
    ensures { DecodesWithGaps (gaps_on_terms terms
        (merged_parts grid.figures (walk_by grid.figures s.now i) (walk_by grid.figures t.now j)))
        azimuths.old azimuths.new codes.old codes.new marks.old marks.new result }
{
    crate::pairs::compare_radials(grid, s, i, t, j)?;
    let room = Room {
        azimuths: azimuths.len(),
        codes: codes.len(),
    };
    test_terms(terms, room, grid)?;
    if marks.len() < grid.figures.n_radials {
        return Err(Level3DecodeError::BufferTooShort {
            buffer: Buffer::Marks,
        });
    }
    crate::pairs::merge_radials(grid, s, i, t, j, azimuths, codes, marks);
    Ok(grid.figures)
}

// The picture that two receptions of a body make on terms, each read with gaps: a row is the first's if whole there, else the second's if
// whole, else a gap. A refusal writes nothing.
pub fn merge_pictures(
    first: &[u8],
    second: &[u8],
    terms: Terms,
    azimuths: &mut [f64],
    codes: &mut [u16],
    marks: &mut [u8],
) -> Result<Figures, Level3DecodeError>
    ensures { DecodesWithGaps (merge_for terms first.now second.now) azimuths.old azimuths.new
        codes.old codes.new marks.old marks.new result }
{
    let p = plan_for(first, terms, None, true)?;
    let q = plan_for(second, terms, None, true)?;
    if !crate::same::same_figures(p.grid.figures, q.grid.figures) {
        return Err(Level3DecodeError::DifferentSweeps);
    }
    merge_parts(
        p.grid,
        &first[p.from..p.to],
        p.at,
        &second[q.from..q.to],
        q.at,
        terms,
        azimuths,
        codes,
        marks,
    )
}
