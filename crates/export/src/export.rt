// The packet 16 body of an AF1F body, written into a lent buffer.
ghost use Rattle.std.specs.Prelude.{◌≡◌, ◌+◌, ◌*◌, ◌≤◌, ◌<◌, length};
ghost use Rattle.wire.specs.Result.{answer, lent};
ghost use Rattle.export.specs.Export.{count_for, head_bytes, export_of, length_in};
ghost use Rattle.export.specs.Steps.{head_in};

use symbology::radials::PacketHeader;
use wire::error::{Buffer, Level3DecodeError};

// How long the written body is.
#[tactic(auto, using(crate::proofs::Entry::data_small))]
fn size_of(n_radials: usize, n_bins: usize) -> usize
    requires { (n_radials < 65536) × (n_bins < 65536) }
    ensures { result ≡ 30 + n_radials * (6 + count_for n_bins) }
{
    let each = 6 + (n_bins + n_bins % 2);
    let data = n_radials * each;
    30 + data
}

// Bytes 0-29, of which 22-25 are the original's, `kept`. Not inlined: it runs once, and beside the loop over the radials it slows that. Any
// caller can make a `PacketHeader`, so that its bounds stand in clauses here.
#[inline(never)]
#[tactic(auto, unfolding(crate::specs::Export::head_bytes))]
fn write_header(h: PacketHeader, kept: u32, size: usize, part: &mut [u8])
    requires part_len { (length part.old ≡ 30) × (30 ≤ size) × (size < 4294967296) }
    requires n_radials_bound { (h.n_radials < 65536) × (h.n_bins < 65536) }
    ensures { part.new ≡ head_bytes size kept (head_in h) }
{
    let rest = size - 16;
    // In range by the proof: `try_from` would be a test that cannot fail.
    part[..4].copy_from_slice(&[0xFF, 0xFF, 0, 1]);
    part[4..8].copy_from_slice(&(size as u32).to_be_bytes());
    part[8..12].copy_from_slice(&[0, 1, 0xFF, 0xFF]);
    part[12..16].copy_from_slice(&(rest as u32).to_be_bytes());
    part[16..20].copy_from_slice(&[0, 16, 0, 0]);
    part[20..22].copy_from_slice(&(h.n_bins as u16).to_be_bytes());
    part[22..26].copy_from_slice(&kept.to_be_bytes());
    part[26..28].copy_from_slice(&h.range_scale.to_be_bytes());
    part[28..].copy_from_slice(&(h.n_radials as u16).to_be_bytes());
}

// The body of packet 16 for an AF1F body that symbology accepts, in the front of the buffer; the answer is its length. A refusal writes
// nothing.
pub fn export_packet16(body: &[u8], out: &mut [u8]) -> Result<usize, Level3DecodeError>
    ensures result_value { answer result ≡ length_in (export_of body.now (length out.old)) }
    ensures out_after { out.new ≡ lent (export_of body.now (length out.old)) (λ o. o) out.old }
{
    let h = crate::header::read_header(body)?;
    symbology::symbology::check(body)?;
    let size = size_of(h.n_radials, h.n_bins);
    if out.len() < size {
        return Err(Level3DecodeError::BufferTooShort {
            buffer: Buffer::Output,
        });
    }
    let kept = wire::bytes::u32_at(body, 22);
    write_header(h, kept, size, &mut out[..30]);
    crate::radials::write_radials(body, h.n_radials, h.n_bins, &mut out[30..]);
    Ok(size)
}
