// The tests of the archive profile, of a body that symbology accepts: 45, then 46. Nothing is written.
ghost use Rattle.std.specs.Prelude.{◌≡◌, ◌+◌, ◌%◌, ◌≤◌, ◌==◌, ◌||◌, length};
ghost use Rattle.wire.specs.Result.{answer, then};
ghost use Rattle.symbology.specs.Answers.{picture_of};
ghost use Rattle.symbology.specs.Places.{place};
ghost use Rattle.symbology.specs.Rows.{run_of};
ghost use Rattle.symbology.specs.Runs.{sum_runs};
ghost use Rattle.archive.specs.Surplus.{surplus_in, rows_exact, end_of, end_exact, exact};
ghost use Rattle.archive.specs.Steps.{RadialsInside};

use symbology::figures::{Figures, Packet};
use wire::error::Level3DecodeError;

// A run's length.
fn run_of(byte: u8) -> usize
    ensures { (result ≡ run_of byte) × (result ≤ 15) }
{
    usize::from(byte / 16)
}

// The sum of all run lengths.
fn sum_runs(runs: &[u8]) -> usize
    requires { length runs.now ≤ 262140 }
    ensures { result ≡ sum_runs runs.now }
{
    let mut sum: usize = 0;
    for b in runs {
        sum += run_of(*b);
    }
    sum
}

// Packet 16: the count is n_bins, or one more where that is odd.
fn is_count_exact(n_bins: usize, count: usize) -> bool
    ensures { result ≡ (count == n_bins || count == n_bins + n_bins % 2) }
{
    count
        .checked_sub(n_bins)
        .is_some_and(|more| more <= n_bins % 2)
}

// Whether a radial holds other than its row: its count, and what that covers.
#[tactic(auto, unfolding(crate::specs::Surplus::surplus_in))]
fn is_surplus(packet: Packet, n_bins: usize, count: u16, data: &[u8]) -> bool
    requires { length «data».now ≤ 262140 }
    ensures { result ≡ surplus_in packet n_bins count «data».now }
{
    match packet {
        Packet::Packet16 => !is_count_exact(n_bins, usize::from(count)),
        Packet::PacketAf1f => sum_runs(data) != n_bins,
        Packet::Packet28 => false,
    }
}

// 45 in packets 16 and AF1F, of the lowest radial that holds other than its row.
fn test_beams(figures: Figures, body: &[u8]) -> Result<(), Level3DecodeError>
    requires { place figures.packet body.now figures.n_radials ≤ length body.now }
    ensures { answer result ≡ rows_exact figures body.now figures.n_radials 0 }
{
    let mut at: usize = 30;
    for r in 0..figures.n_radials {
        let count = wire::bytes::u16_at(body, at);
        let from = at + 6;
        let to = from + symbology::radials::covered_by(figures.packet, count);
        if is_surplus(figures.packet, figures.n_bins, count, &body[from..to]) {
            return Err(Level3DecodeError::SurplusInRow { radial: r });
        }
        at = to;
    }
    Ok(())
}

// 45, which packet 28 never has.
fn test_rows(figures: Figures, body: &[u8]) -> Result<(), Level3DecodeError>
    requires { RadialsInside figures body.now }
    ensures { answer result ≡ rows_exact figures body.now figures.n_radials 0 }
{
    match figures.packet {
        Packet::Packet16 | Packet::PacketAf1f => test_beams(figures, body),
        Packet::Packet28 => Ok(()),
    }
}

// Where the last radial of packet 16 or AF1F ends.
fn place_after(packet: Packet, body: &[u8], n_radials: usize) -> usize
    requires { place packet body.now n_radials ≤ length body.now }
    ensures { result ≡ place packet body.now n_radials }
{
    let mut at: usize = 30;
    for _ in 0..n_radials {
        let count = wire::bytes::u16_at(body, at);
        at = at + 6 + symbology::radials::covered_by(packet, count);
    }
    at
}

// Where the last radial ends, or packet 28's payload.
fn end_of(figures: Figures, body: &[u8]) -> usize
    requires { RadialsInside figures body.now }
    ensures { result ≡ end_of figures.packet figures.n_radials body.now }
{
    match figures.packet {
        Packet::Packet16 | Packet::PacketAf1f => {
            place_after(figures.packet, body, figures.n_radials)
        }
        // No `From` makes a `usize` of a `u32`.
        Packet::Packet28 => 24 + wire::bytes::u32_at(body, 20) as usize,
    }
}

// 46.
#[tactic(auto, unfolding(crate::specs::Surplus::end_exact))]
fn test_end(figures: Figures, body: &[u8]) -> Result<(), Level3DecodeError>
    requires { RadialsInside figures body.now }
    ensures { answer result ≡ end_exact figures body.now }
{
    if body.len() != end_of(figures, body) {
        return Err(Level3DecodeError::SurplusAfterRadials);
    }
    Ok(())
}

// 45, then 46, of a body that symbology accepts; else its refusal.
pub fn check_exact(body: &[u8]) -> Result<(), Level3DecodeError>
    ensures { answer result ≡ then (picture_of body.now) (λ p. exact p.figures body.now) }
{
    let figures = symbology::symbology::check(body)?;
    let rows = test_rows(figures, body);
    let end = test_end(figures, body);
    rows.and(end)
}
