// The radials of two bodies side by side, whose frames the check accepted: 43 of their centres and 44 of their rows; then the rows that
// both make, written.
ghost use Rattle.std.specs.Prelude.{◌≡◌, ◌*◌, ◌≤◌, map, length};
ghost use Rattle.wire.specs.Result.{accepted, answer, lent};
ghost use Rattle.wire.specs.Reading.{marked};
ghost use Rattle.symbology.specs.Rows.{row_of};
ghost use Rattle.symbology.specs.Places.{Enough};
ghost use Rattle.symbology.specs.Answers.{joined, mark_of, shown};
ghost use Rattle.symbology.specs.Walk.{Accepted, centre_in, row_in};
ghost use Rattle.symbology.specs.Merge.{disagree, either};
ghost use Rattle.symbology.specs.Pairs.{radial_at, walk_by, turned, note_of, judged, next_in, both_rows};

use crate::figures::{Figures, Packet};
use crate::spans::Grid;
use wire::error::Level3DecodeError;

// The bodies and the places in them are handed on one by one: each radial leaves two new places.

// ---- the check

// The places after a radial of each, and whether their rows disagree.
#[derive(Clone, Copy)]
pub struct Side {
    pub first: usize,
    pub second: usize,
    pub disagrees: bool,
}

// Whole in both, with unequal codes.
fn is_disagreed(packet: Packet, n_bins: usize, r: usize, a: &[u8], b: &[u8]) -> bool
    requires { Enough packet n_bins (length a.now) × Enough packet n_bins (length b.now) }
    ensures { result ≡ disagree (marked (row_of packet n_bins r a.now)) (marked (row_of packet n_bins r b.now)) }
{
    match crate::rows::check_row(packet, n_bins, r, a, false) {
        Err(_) => false,
        Ok(()) => match crate::rows::check_row(packet, n_bins, r, b, false) {
            Err(_) => false,
            Ok(()) => !crate::alike::same_row(packet, n_bins, a, b),
        },
    }
}

// One radial of each.
fn compare_radial(
    grid: Grid,
    s: &[u8],
    i: usize,
    t: &[u8],
    j: usize,
    r: usize,
) -> Result<Side, Level3DecodeError>
    requires { Accepted (radial_at grid.figures r s.now i) × Accepted (radial_at grid.figures r t.now j) }
    ensures { answer result ≡ turned (radial_at grid.figures r s.now i) (radial_at grid.figures r t.now j) }
{
    let Figures { packet, n_bins, .. } = grid.figures;
    let p = crate::walks::frame_span(grid, s, i, r)?;
    let q = crate::walks::frame_span(grid, t, j, r)?;
    if !wire::float::same_f64(p.centre, q.centre) {
        return Err(Level3DecodeError::DifferentSweeps);
    }
    Ok(Side {
        first: p.to,
        second: q.to,
        disagrees: is_disagreed(packet, n_bins, r, &s[p.from..p.to], &t[q.from..q.to]),
    })
}

// The lowest radial so far whose rows disagree.
fn note(noted: Option<usize>, r: usize, disagrees: bool) -> Option<usize>
    ensures { result ≡ note_of noted r disagrees }
{
    if disagrees { noted.or(Some(r)) } else { noted }
}

// All radials.
pub fn compare_radials(
    grid: Grid,
    s: &[u8],
    start_s: usize,
    t: &[u8],
    start_t: usize,
) -> Result<(), Level3DecodeError>
    requires { Accepted (walk_by grid.figures s.now start_s) × Accepted (walk_by grid.figures t.now start_t) }
    ensures { answer result ≡ judged (walk_by grid.figures s.now start_s) (walk_by grid.figures t.now start_t) }
{
    let mut i = start_s;
    let mut j = start_t;
    let mut noted = None;
    for r in 0..grid.figures.n_radials {
        let side = compare_radial(grid, s, i, t, j, r)?;
        i = side.first;
        j = side.second;
        noted = note(noted, r, side.disagrees);
    }
    match noted {
        Some(radial) => Err(Level3DecodeError::RowsDisagree { radial }),
        None => Ok(()),
    }
}

// ---- the writing

// The first's row if whole, else the second's or a gap; and its mark.
#[tactic(auto, unfolding(crate::specs::Merge::either, crate::specs::Rows::row_of, crate::specs::Answers::shown))]
fn merge_row(packet: Packet, r: usize, a: &[u8], b: &[u8], row: &mut [u16]) -> u8
    requires { Enough packet (length row.old) (length a.now) × Enough packet (length row.old) (length b.now) }
    ensures value { result ≡ mark_of (either (marked (row_of packet (length row.old) r a.now))
        (marked (row_of packet (length row.old) r b.now))) }
    ensures row_after { row.new ≡ shown (length row.old)
        (either (marked (row_of packet (length row.old) r a.now))
        (marked (row_of packet (length row.old) r b.now))) }
{
    let mark = crate::rows::show_row(packet, r, a, row);
    if mark == 0 {
        return 0;
    }
    crate::rows::show_row(packet, r, b, row)
}

// A radial of both that was written: its centre, the positions after it, and its mark.
#[derive(Clone, Copy)]
pub struct Merged {
    pub centre: f64,
    pub first: usize,
    pub second: usize,
    pub mark: u8,
}

// One radial of both.
fn merge_radial(
    grid: Grid,
    s: &[u8],
    i: usize,
    t: &[u8],
    j: usize,
    r: usize,
    row: &mut [u16],
) -> Merged
    requires { (length row.old ≡ grid.figures.n_bins) × Accepted (radial_at grid.figures r s.now i)
        × Accepted (radial_at grid.figures r t.now j) }
    ensures first_value { accepted (result.centre, result.first) ≡ centre_in (radial_at grid.figures r s.now i) }
    ensures second_value { accepted result.second ≡ next_in (radial_at grid.figures r t.now j) }
    ensures mark_value { result.mark
        ≡ mark_of (either (row_in (radial_at grid.figures r s.now i)) (row_in (radial_at grid.figures r t.now j))) }
    ensures row_after { row.new ≡ shown grid.figures.n_bins
        (either (row_in (radial_at grid.figures r s.now i)) (row_in (radial_at grid.figures r t.now j))) }
{
    // The check accepted both frames.
    let p = crate::walks::frame_span(grid, s, i, r).unwrap();
    let q = crate::walks::frame_span(grid, t, j, r).unwrap();
    let mark = merge_row(
        grid.figures.packet,
        r,
        &s[p.from..p.to],
        &t[q.from..q.to],
        row,
    );
    Merged {
        centre: p.centre,
        first: p.to,
        second: q.to,
        mark,
    }
}

// The first's centres, and the rows or gaps and marks that both make.
pub fn merge_radials(
    grid: Grid,
    s: &[u8],
    start_s: usize,
    t: &[u8],
    start_t: usize,
    azimuths: &mut [f64],
    codes: &mut [u16],
    marks: &mut [u8],
)
    requires both_accepted { Accepted (walk_by grid.figures s.now start_s) × Accepted (walk_by grid.figures t.now start_t) }
    requires n_radials_in_bounds { (grid.figures.n_radials ≤ length azimuths.old)
        × (grid.figures.n_radials * grid.figures.n_bins ≤ length codes.old) × (grid.figures.n_radials ≤ length marks.old) }
    ensures azimuths_after { azimuths.new ≡ lent (walk_by grid.figures s.now start_s) (λ g. g.value) azimuths.old }
    ensures codes_after { codes.new ≡ lent (both_rows (walk_by grid.figures s.now start_s) (walk_by grid.figures t.now start_t))
        (λ rows. joined (map (shown grid.figures.n_bins) rows)) codes.old }
    ensures marks_after { marks.new ≡ lent (both_rows (walk_by grid.figures s.now start_s) (walk_by grid.figures t.now start_t))
        (λ rows. map mark_of rows) marks.old }
{
    let n_bins = grid.figures.n_bins;
    let mut i = start_s;
    let mut j = start_t;
    // Counted by hand, as in `write_radials`.
    let mut cell: usize = 0;
    for r in 0..grid.figures.n_radials {
        let end = cell + n_bins;
        let merged = merge_radial(grid, s, i, t, j, r, &mut codes[cell..end]);
        azimuths[r] = merged.centre;
        marks[r] = merged.mark;
        i = merged.first;
        j = merged.second;
        cell = end;
    }
}
