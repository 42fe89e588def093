// The bytes after the compressed stream; the sweep reading does not call this.
ghost use Rattle.std.specs.Prelude.{◌≡◌};
ghost use Rattle.symbology.specs.Trailing.{trailing};
ghost use Rattle.wire.specs.Result.{answer};

use wire::error::Level3DecodeError;

pub fn check_trailing(s: &[u8]) -> Result<(), Level3DecodeError>
    ensures { answer result ≡ trailing s.now }
{
    let n = wire::text::trimmed_len(s);
    if n == 0 {
        return Ok(());
    }
    if wire::text::same(&s[..n], b"\x03") {
        return Ok(());
    }
    if wire::text::same(&s[..n], b"\r\r\n\x03") {
        return Ok(());
    }
    Err(Level3DecodeError::UnexpectedTrailingBytes { trailing_len: n })
}
