// The row that a radial's data make: tested, and written to a part of the codes. The data are a part of the body that starts at its first
// data byte.
ghost use Rattle.std.specs.Prelude.{◌≡◌, ◌*◌, ◌≤◌, true, length, take, nat_lt};
ghost use Rattle.wire.specs.Result.{accepted, answer, then};
ghost use Rattle.std.specs.List.{position};
ghost use Rattle.std.specs.Int.{w32, from_be_bytes};
ghost use Rattle.wire.specs.Text.{all};
ghost use Rattle.symbology.specs.Runs.{sum_runs};
ghost use Rattle.symbology.specs.Rows.{reach, row_af1f, words, is_level, levels, row_of, codes_of, FullRow};
ghost use Rattle.symbology.specs.Walk.{kept_of, Ready, cells_from, mark_from};
ghost use Rattle.wire.specs.Reading.{marked};
ghost use Rattle.symbology.specs.Places.{Enough};
ghost use Rattle.symbology.specs.Answers.{mark_of, shown};

use crate::figures::Packet;
use wire::error::Level3DecodeError;

// Whether the data make a row: always in packet 16; in AF1F 22, in packet 28 34. With gaps it is not asked.
#[tactic(auto, unfolding(crate::specs::Rows::row_of, crate::specs::Rows::row16, crate::specs::Rows::row28, crate::specs::Walk::kept_of))]
pub fn check_row(
    packet: Packet,
    n_bins: usize,
    radial: usize,
    data: &[u8],
    gaps: bool,
) -> Result<(), Level3DecodeError>
    ensures { answer result ≡ then (kept_of gaps (row_of packet n_bins radial «data».now)) (λ _. accepted tt) }
{
    if gaps {
        return Ok(());
    }
    match packet {
        Packet::Packet16 => Ok(()),
        Packet::PacketAf1f => check_runs(n_bins, radial, data),
        Packet::Packet28 => check_levels(radial, data),
    }
}

// The codes of data that make a row.
#[tactic(auto, unfolding(crate::specs::Rows::FullRow, crate::specs::Rows::codes_of))]
pub fn write_row(packet: Packet, data: &[u8], row: &mut [u16])
    requires { FullRow packet (length row.old) «data».now }
    ensures { row.new ≡ codes_of packet (length row.old) «data».now }
{
    match packet {
        Packet::Packet16 => {
            write_bytes(data, row);
        }
        Packet::PacketAf1f => {
            crate::cells::write_runs(data, row);
        }
        Packet::Packet28 => {
            write_levels(data, row);
        }
    }
}

// The mark of a gap. Marks are bytes, as C lends them.
const GAP: u8 = 1;

// The codes of data that make a row, and the mark 0; else codes 0, and the mark of a gap. A row and its data are two slices, so that the
// clause on their lengths stands here and where two are compared or merged.
pub fn show_row(packet: Packet, radial: usize, data: &[u8], row: &mut [u16]) -> u8
    requires { Enough packet (length row.old) (length «data».now) }
    ensures value { result ≡ mark_of (marked (row_of packet (length row.old) radial «data».now)) }
    ensures row_after { row.new
        ≡ shown (length row.old) (marked (row_of packet (length row.old) radial «data».now)) }
{
    match check_row(packet, row.len(), radial, data, false) {
        Ok(()) => {
            write_row(packet, data, row);
            0
        }
        Err(_) => {
            row.fill(0);
            GAP
        }
    }
}

// With gaps, the same. Without, the codes of data that make a row, and 0.
#[tactic(auto, unfolding(crate::specs::Walk::Ready, crate::specs::Walk::cells_from, crate::specs::Walk::mark_from))]
pub fn write_cells(packet: Packet, radial: usize, data: &[u8], row: &mut [u16], gaps: bool) -> u8
    requires { Ready gaps packet (length row.old) «data».now }
    ensures value { result ≡ mark_from gaps packet (length row.old) radial «data».now }
    ensures row_after { row.new ≡ cells_from gaps packet (length row.old) radial «data».now }
{
    if gaps {
        return show_row(packet, radial, data, row);
    }
    write_row(packet, data, row);
    0
}

// ---- packet 16

// The first bytes, one to each place of the row.
fn write_bytes(src: &[u8], row: &mut [u16])
    requires { length row.old ≤ length src.now }
    ensures { row.new ≡ take (length row.old) src.now }
{
    for (i, cell) in row.iter_mut().enumerate() {
        *cell = u16::from(src[i]);
    }
}

// ---- packet AF1F

// The sum of up to 16 run lengths, which a byte holds.
fn block_sum(runs: &[u8]) -> usize
    requires { length runs.now ≤ 16 }
    ensures { result ≡ sum_runs runs.now }
{
    let mut sum: u8 = 0;
    for b in runs {
        sum += *b / 16;
    }
    usize::from(sum)
}

// The greatest sum of a prefix of the run lengths that is not over n.
#[tactic(auto, unfolding(crate::specs::Rows::reach))]
pub(crate) fn rle_reach(runs: &[u8], n: usize) -> usize
    ensures { result ≡ reach n runs.now }
{
    let mut gate: usize = 0;
    let mut at: usize = 0;
    // Blocks that are not over n as a whole: one sum for 16 runs. Not `chunks`: what follows begins where they end.
    while 16 <= runs.len() - at {
        let sum = block_sum(&runs[at..at + 16]);
        if n - gate < sum {
            break;
        }
        gate += sum;
        at += 16;
    }
    for b in &runs[at..] {
        let run = usize::from(*b / 16);
        if n - gate < run {
            return gate;
        }
        gate += run;
    }
    gate
}

#[tactic(auto, unfolding(crate::specs::Rows::row_af1f))]
fn check_runs(n_bins: usize, radial: usize, data: &[u8]) -> Result<(), Level3DecodeError>
    ensures { answer result ≡ then (row_af1f n_bins radial «data».now) (λ _. accepted tt) }
{
    let expanded = rle_reach(data, n_bins);
    if expanded != n_bins {
        return Err(Level3DecodeError::RleExpansionMismatch {
            radial,
            expanded,
            expected: n_bins,
        });
    }
    Ok(())
}

// ---- packet 28

// Whether all integers are levels, whose first two bytes are 0. Their bits are put together and tested once: a test of each takes four
// times as long. The first byte is the lowest, as the machine loads four bytes.
fn all_levels(data: &[u8]) -> bool
    ensures { result ≡ all is_level (words «data».now) }
{
    let (ints, _) = data.as_chunks::<4>();
    let mut bits = 0;
    for int in ints {
        bits |= u32::from_le_bytes(*int);
    }
    bits % 65536 == 0
}

// The place of the first integer that is not a level.
fn first_bad(ints: &[[u8; 4]]) -> Option<usize>
    ensures { result ≡ position (λ int. nat_lt 65535 (from_be_bytes w32 int)) ints.now }
{
    ints.iter().position(|int| 65535 < u32::from_be_bytes(*int))
}

fn check_levels(radial: usize, data: &[u8]) -> Result<(), Level3DecodeError>
    ensures { answer result ≡ then (levels radial 0 (words «data».now)) (λ _. accepted tt) }
{
    if all_levels(data) {
        return Ok(());
    }
    let (ints, _) = data.as_chunks::<4>();
    match first_bad(ints) {
        None => Ok(()),
        Some(gate) => Err(Level3DecodeError::XdrRawLevelOutOfRange {
            radial,
            gate,
            value: wire::bytes::as_i32(u32::from_be_bytes(ints[gate])),
        }),
    }
}

// The levels of an array's body into the row.
fn write_levels(body: &[u8], row: &mut [u16])
    requires { (length body.now ≡ length row.old * 4) × (all is_level (words body.now) ≡ true) }
    ensures { row.new ≡ words body.now }
{
    let (ints, _) = body.as_chunks::<4>();
    for (i, cell) in row.iter_mut().enumerate() {
        // In range by the proof: `try_from` would be a test that cannot fail.
        *cell = u32::from_be_bytes(ints[i]) as u16;
    }
}
