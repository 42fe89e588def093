// The radials of an accepted original, written as packet 16's.
ghost use Rattle.std.specs.Prelude.{◌≡◌, ◌+◌, ◌*◌, ◌≤◌, ◌<◌, ◌++◌, length};
ghost use Rattle.wire.specs.Bytes.{u16_at};
ghost use Rattle.wire.specs.Result.{lent};
ghost use Rattle.wire.specs.Reading.{run};
ghost use Rattle.symbology.specs.Rows.{codes_of, FullRow};
ghost use Rattle.symbology.specs.Walk.{Accepted};
ghost use Rattle.symbology.specs.declared.figures.Packet.TheVariants.{PacketAf1f};
ghost use Rattle.export.specs.Export.{two, count_for, beam_bytes, beams_bytes, export_walk};
ghost use Rattle.export.specs.Steps.{beam_at, data_at};

use symbology::cells::write_row_bytes;
use symbology::radials::count_at;

// A radial's six bytes.
fn write_beam(count: u16, start: u16, width: u16, part: &mut [u8])
    requires { length part.old ≡ 6 }
    ensures { part.new ≡ two count ++ two start ++ two width }
{
    part[..2].copy_from_slice(&count.to_be_bytes());
    part[2..4].copy_from_slice(&start.to_be_bytes());
    part[4..].copy_from_slice(&width.to_be_bytes());
}

// One radial, and the place of the next in the original.
fn write_radial(body: &[u8], at: usize, n_bins: usize, part: &mut [u8]) -> usize
    requires at_in_bounds { (at + 6 + u16_at body.now at * 2 ≤ length body.now) × FullRow PacketAf1f n_bins (data_at body.now at) }
    requires n_bins_bound { (n_bins < 65535) × (length part.old ≡ 6 + count_for n_bins) }
    ensures value { result ≡ at + 6 + u16_at body.now at * 2 }
    ensures part_after { part.new ≡ beam_bytes n_bins (beam_at body.now at) (codes_of PacketAf1f n_bins (data_at body.now at)) }
{
    let from = at + 6;
    let to = from + count_at(body, at) * 2;
    let start = wire::bytes::u16_at(body, at + 2);
    let width = wire::bytes::u16_at(body, at + 4);
    let end = 6 + n_bins;
    // In range by the proof: `try_from` would be a test that cannot fail.
    write_beam((n_bins + n_bins % 2) as u16, start, width, &mut part[..6]);
    write_row_bytes(&body[from..to], &mut part[6..end]);
    part[end..].fill(0);
    to
}

// All radials, which the check accepted.
pub fn write_radials(body: &[u8], n_radials: usize, n_bins: usize, out: &mut [u8])
    requires n_bins_bound { (n_bins < 65535) × Accepted (run (export_walk n_radials n_bins n_radials 0) body.now 30) }
    requires n_bins_in_bounds { n_radials * (6 + count_for n_bins) ≤ length out.old }
    ensures { out.new ≡ lent (run (export_walk n_radials n_bins n_radials 0) body.now 30)
        (λ g. beams_bytes n_bins g.value g.rows) out.old }
{
    let size = 6 + (n_bins + n_bins % 2);
    let mut at: usize = 30;
    // Counted by hand: no clause tells what is written through `chunks_mut`.
    let mut place: usize = 0;
    for _ in 0..n_radials {
        let end = place + size;
        at = write_radial(body, at, n_bins, &mut out[place..end]);
        place = end;
    }
}
