// The AWIPS token of the text head, the message header, and the scan time.
ghost use Rattle.std.specs.Prelude.{◌≡◌, ◌<◌, length};
ghost use Rattle.wire.specs.Result.{answer};
ghost use Rattle.wire.specs.Text.{all};
ghost use Rattle.head.specs.Header.{alphanumeric, cut, first, first_token, is_token, token, token_in, header_at, message_header, scan_time};

use wire::error::Level3DecodeError;
use wire::products::is_known_message_code;

const MAX_SCAN_SKEW_SECONDS: u64 = 86400;

// The last clock that is believed, 2^40.
const LAST_CLOCK: u64 = 1099511627776;

fn all_alphanumeric(word: &[u8]) -> bool
    ensures { result ≡ all alphanumeric word.now }
{
    word.iter().all(|b| b.is_ascii_alphanumeric())
}

fn is_token(word: &[u8]) -> bool
    ensures { result ≡ is_token word.now }
{
    word.len() == 6 && all_alphanumeric(word)
}

// The token of a piece, by its place in the piece.
fn token_in(piece: &[u8]) -> Option<usize>
    ensures { result ≡ token_in piece.now }
{
    let inner = piece.trim_ascii_start();
    if is_token(inner.trim_ascii_end()) {
        Some(piece.len() - inner.len())
    } else {
        None
    }
}

const SEPARATOR: &[u8] = b"\r\r\n";

// The length of the first piece.
fn piece_length(s: &[u8]) -> usize
    ensures { result ≡ length (first (cut s.now)) }
{
    (0..s.len())
        .find(|i| s[*i..].starts_with(SEPARATOR))
        .unwrap_or(s.len())
}

// The first token of a text that is cut into pieces. By hand: pieces end at three bytes, and the
// library's `split` cuts at one.
fn token_of(text: &[u8]) -> Result<usize, Level3DecodeError>
    ensures { answer result ≡ first_token 0 (cut text.now) }
{
    let mut at = 0;
    loop {
        let rest = &text[at..];
        let n = piece_length(rest);
        if let Some(k) = token_in(&rest[..n]) {
            return Ok(at + k);
        }
        if n == rest.len() {
            return Err(Level3DecodeError::NoAwipsToken);
        }
        at += n + 3;
    }
}

// The place of the AWIPS token in the file: product at the place, site three bytes on.
#[tactic(auto, unfolding(crate::specs::Header::token))]
pub fn find_awips_token(file: &[u8]) -> Result<usize, Level3DecodeError>
    ensures { answer result ≡ token file.now }
{
    token_of(&file[..file.len().min(128)])
}

#[tactic(auto, unfolding(crate::specs::Header::header_at))]
fn is_header(file: &[u8], off: usize) -> bool
    requires { off < 128 }
    ensures { result ≡ header_at file.now off }
{
    is_known_message_code(wire::bytes::i16_at(file, off))
        && wire::bytes::i16_at(file, off + 18) == -1
}

// The offset of the message header.
pub fn find_message_header(file: &[u8]) -> Result<usize, Level3DecodeError>
    ensures { answer result ≡ message_header file.now }
{
    let end = file.len().min(128).saturating_sub(20);
    (0..end)
        .find(|off| is_header(file, *off))
        .ok_or(Level3DecodeError::NoMessageHeader)
}

// The scan time in seconds since 1970.
#[tactic(auto, unfolding(crate::specs::Header::scan_time))]
pub fn scan_time(days: u16, seconds: i32, clock: u64) -> Result<u64, Level3DecodeError>
    ensures { answer result ≡ scan_time days seconds clock }
{
    if days == 0 || seconds < 0 || 86399 < seconds {
        return Err(Level3DecodeError::ImplausibleScanTime { days, seconds });
    }
    if LAST_CLOCK < clock {
        return Err(Level3DecodeError::ClockOutOfRange);
    }
    // Not below 0: `try_from` would be a test that cannot fail.
    let when = (u64::from(days) - 1) * 86400 + seconds as u64;
    if clock + MAX_SCAN_SKEW_SECONDS < when {
        return Err(Level3DecodeError::ScanTimeTooFarAhead {
            seconds: when - clock,
        });
    }
    Ok(when)
}
