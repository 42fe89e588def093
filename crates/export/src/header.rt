// Bytes 0-29 of the original.
ghost use Rattle.std.specs.Prelude.{◌≡◌};
ghost use Rattle.wire.specs.Reading.{walk, outcome};
ghost use Rattle.symbology.specs.Answers.{header_of};
ghost use Rattle.export.specs.Export.{export_head};

use symbology::figures::Packet;
use symbology::radials::PacketHeader;
use wire::error::Level3DecodeError;

const AF1F_PACKET_CODE: u16 = 0xAF1F;

// With this many bins, which is odd, a count of one more is not a halfword.
const TOO_MANY_BINS: usize = 65535;

// 12, 13, 14, 12, 15, 16, 17, 42.
pub fn read_header(body: &[u8]) -> Result<PacketHeader, Level3DecodeError>
    ensures { header_of result ≡ outcome (walk export_head body.now 0) }
{
    let code = symbology::symbology::read_code(body)?;
    if code != AF1F_PACKET_CODE {
        return Err(Level3DecodeError::UnsupportedPacketCode {
            code: wire::bytes::as_i16(code),
        });
    }
    let len = body.len();
    if len < 30 {
        return Err(Level3DecodeError::SymbologyTruncated { len });
    }
    let first = symbology::radials::count_at(body, 18);
    let header = symbology::radials::read_counts(body, Packet::PacketAf1f, first)?;
    if header.n_bins == TOO_MANY_BINS {
        return Err(Level3DecodeError::RowTooLong);
    }
    Ok(header)
}
