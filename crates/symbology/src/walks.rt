// The walks over the radials, for all packets: one that checks, and one that writes once all is checked.
ghost use Rattle.std.specs.Prelude.{◌≡◌, ◌*◌, ◌<◌, ◌≤◌, true, length};
ghost use Rattle.wire.specs.Result.{accepted, answer, then, lent};
ghost use Rattle.wire.specs.Reading.{walk, run};
ghost use Rattle.symbology.specs.Walk.{in_mode, cells_of, codes_in, marks_in, mark_in, put_mark, frame_by, radial_by, radials_by, placed};
ghost use Rattle.symbology.specs.Walk.{position, ends_at, walk_on, Accepted, row_in, centre_in, sweep_from, Plans};

use crate::figures::{Figures, Packet};
use crate::spans::{Grid, Place, Plan};
use wire::error::Level3DecodeError;

// A radial's centre and the place of its data.
#[tactic(auto, unfolding(crate::specs::Walk::any_frame))]
pub fn frame_span(grid: Grid, s: &[u8], at: usize, r: usize) -> Result<Place, Level3DecodeError>
    ensures { answer result ≡ placed (walk (frame_by grid.figures r) s.now at) }
{
    let Figures {
        packet,
        n_radials,
        n_bins,
        ..
    } = grid.figures;
    match packet {
        Packet::Packet16 | Packet::PacketAf1f => crate::radials::beam_span(
            packet, s, at, n_radials, n_bins, r,
        ),
        Packet::Packet28 => crate::generic::xdr_radial_span(s, at, grid, r),
    }
}

// One radial, its data with it.
fn check_radial(
    grid: Grid,
    s: &[u8],
    at: usize,
    r: usize,
    gaps: bool,
) -> Result<usize, Level3DecodeError>
    ensures { answer result ≡ position (walk (in_mode gaps (radial_by grid.figures r)) s.now at) }
{
    let place = frame_span(grid, s, at, r)?;
    let Figures { packet, n_bins, .. } = grid.figures;
    let data = &s[place.from..place.to];
    crate::rows::check_row(packet, n_bins, r, data, gaps)?;
    Ok(place.to)
}

fn ends_at(next: Result<usize, Level3DecodeError>, place: usize) -> bool
    ensures { result ≡ ends_at next place }
{
    next.is_ok_and(|end| end == place)
}

// What a stretch of radials came to: how many are checked by then, where the last of them starts, and where it ends or why it is refused.
#[derive(Clone, Copy)]
pub struct Stretch {
    pub checked: usize,
    pub last: usize,
    pub next: Result<usize, Level3DecodeError>,
}

// Radials from radial `first` on, up to one that is refused or that is not `size` bytes long, that one too. The place of the next is
// guessed by the size, so that the machine can read on before it knows this one's count. No answer depends on the guess, and so the
// contract leaves `last` open, which serves the next one.
fn check_stretch(
    grid: Grid,
    s: &[u8],
    start: usize,
    size: usize,
    first: usize,
    gaps: bool,
) -> Stretch
    requires { first < grid.figures.n_radials }
    ensures q_value { then (answer result.next) (λ q. walk_on gaps grid.figures s.now result.checked q) ≡
        walk_on gaps grid.figures s.now first start }
    ensures first_lt_checked { (first < result.checked) × (result.checked ≤ grid.figures.n_radials) }
{
    let n_radials = grid.figures.n_radials;
    let mut at = start;
    for r in first..n_radials {
        let guess = std::num::wrapping_add_usize(at, size);
        let next = check_radial(grid, s, at, r, gaps);
        if !ends_at(next, guess) {
            return Stretch {
                checked: r + 1,
                last: at,
                next,
            };
        }
        at = guess;
    }
    Stretch {
        checked: n_radials,
        last: at,
        next: Ok(at),
    }
}

// All radials. Each stretch guesses that its radials are as long as the last one before it.
pub fn check_radials(
    grid: Grid,
    s: &[u8],
    start: usize,
    gaps: bool,
) -> Result<usize, Level3DecodeError>
    ensures { answer result ≡ position (walk (in_mode gaps (radials_by grid.figures)) s.now start) }
{
    let mut at = start;
    let mut size: usize = 0;
    let mut r: usize = 0;
    // By stretches: how many radials one has, only its check tells.
    while r < grid.figures.n_radials {
        let x = check_stretch(grid, s, at, size, r, gaps);
        let end = x.next?;
        size = std::num::wrapping_sub_usize(end, x.last);
        at = end;
        r = x.checked;
    }
    Ok(at)
}

// All radials with their figures.
pub fn plan_radials(s: &[u8], at: usize, grid: Grid, gaps: bool) -> Result<Plan, Level3DecodeError>
    ensures { Plans gaps result s.now (sweep_from grid.figures (run (in_mode gaps (radials_by grid.figures)) s.now at)) }
{
    let next = check_radials(grid, s, at, gaps)?;
    Ok(Plan { grid, at, next })
}

// A radial that was written: its centre, the position after it, and its mark.
#[derive(Clone, Copy)]
pub struct Written {
    pub centre: f64,
    pub next: usize,
    pub mark: u8,
}

// The row, or with gaps the row or gap, of a radial that the check accepted.
fn write_radial(grid: Grid, s: &[u8], at: usize, r: usize, row: &mut [u16], gaps: bool) -> Written
    requires { (length row.old ≡ grid.figures.n_bins) × Accepted (run (in_mode gaps (radial_by grid.figures r)) s.now at) }
    ensures next_value { accepted (result.centre, result.next) ≡ centre_in (run (in_mode gaps (radial_by grid.figures r)) s.now at) }
    ensures mark_value { result.mark ≡ mark_in gaps (row_in (run (in_mode gaps (radial_by grid.figures r)) s.now at)) }
    ensures row_after { row.new ≡ cells_of gaps grid.figures.n_bins
        (row_in (run (in_mode gaps (radial_by grid.figures r)) s.now at)) }
{
    // The check accepted this radial.
    let place = frame_span(grid, s, at, r).unwrap();
    let mark = crate::rows::write_cells(
        grid.figures.packet,
        r,
        &s[place.from..place.to],
        row,
        gaps,
    );
    Written {
        centre: place.centre,
        next: place.to,
        mark,
    }
}

// With gaps, the mark in its place.
#[tactic(auto, unfolding(crate::specs::Walk::put_mark))]
fn put_mark(marks: &mut [u8], r: usize, mark: u8, gaps: bool)
    requires { gaps ≡ true → r < length marks.old }
    ensures { marks.new ≡ put_mark gaps marks.old r mark }
{
    if gaps {
        marks[r] = mark;
    }
}

// The centres and rows of all radials, which the check accepted; with gaps, rows or gaps, and the marks. A flag beside the marks: no
// clause can say what is left in the slice of an `Option<&mut [u8]>`.
pub fn write_radials(
    grid: Grid,
    s: &[u8],
    start: usize,
    azimuths: &mut [f64],
    codes: &mut [u16],
    marks: &mut [u8],
    gaps: bool,
)
    requires radials_accepted { Accepted (run (in_mode gaps (radials_by grid.figures)) s.now start) }
    requires n_radials_in_bounds { (grid.figures.n_radials ≤ length azimuths.old)
        × (grid.figures.n_radials * grid.figures.n_bins ≤ length codes.old)
        × (gaps ≡ true → grid.figures.n_radials ≤ length marks.old) }
    ensures azimuths_after { azimuths.new ≡
        lent (run (in_mode gaps (radials_by grid.figures)) s.now start) (λ g. g.value) azimuths.old }
    ensures codes_after { codes.new ≡ lent (run (in_mode gaps (radials_by grid.figures)) s.now start)
        (λ g. codes_in gaps grid.figures.n_bins g.rows) codes.old }
    ensures marks_after { marks.new ≡ lent (run (in_mode gaps (radials_by grid.figures)) s.now start)
        (λ g. marks_in gaps g.rows) marks.old }
{
    let n_bins = grid.figures.n_bins;
    let mut at = start;
    // Counted by hand: no clause tells what is written through `chunks_mut`.
    let mut cell: usize = 0;
    for radial in 0..grid.figures.n_radials {
        let end = cell + n_bins;
        let w = write_radial(grid, s, at, radial, &mut codes[cell..end], gaps);
        azimuths[radial] = w.centre;
        put_mark(marks, radial, w.mark, gaps);
        at = w.next;
        cell = end;
    }
}
