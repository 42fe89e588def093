// Bytes and floats of hexadecimal words. `-` is no bytes.
ghost use Rattle.std.specs.Prelude.{◌≡◌, ◌*◌, ◌%◌, ◌++◌, IfOk, cond, length, drop};
ghost use Rattle.wire.specs.Text.{all};
ghost use Rattle.replay.specs.Counts.{IsPrefixLen};
ghost use Rattle.replay.specs.Hex.{digit_value, byte_of, bytes_of, bytes_in, is_hex, is_bytes, is_float, bits_of, float_of};

use std::alloc::{AllocError, Global};

// The value of a hexadecimal digit. By hand: the library's `to_digit` takes any base, and a third longer.
fn digit(b: u8) -> Option<u32>
    ensures { result ≡ cond (is_hex b) (Some (digit_value b)) None }
{
    match b {
        b'0'..=b'9' => Some(u32::from(b - b'0')),
        b'A'..=b'F' => Some(u32::from(b - b'A') + 10),
        b'a'..=b'f' => Some(u32::from(b - b'a') + 10),
        _ => None,
    }
}

// It, or 0 of any other byte.
fn value(b: u8) -> u32
    ensures { result ≡ digit_value b % 16 }
{
    digit(b).unwrap_or(0)
}

fn is_digits(text: &[u8]) -> bool
    ensures { result ≡ all is_hex text.now }
{
    text.iter().all(|b| digit(*b).is_some())
}

// Whether a word spells bytes, up to 32,768 of them.
pub fn is_bytes(word: &[u8]) -> bool
    ensures { result ≡ is_bytes word.now }
{
    word == b"-".as_slice()
        || !word.is_empty() && word.len() % 2 == 0 && word.len() <= 65536 && is_digits(word)
}

fn byte_of(high: u8, low: u8) -> u8
    ensures { result ≡ byte_of high low }
{
    // In range by the proof: `try_from` would be a test that cannot fail.
    (value(high) * 16 + value(low)) as u8
}

// The bytes that a word spells, at the front of a buffer; how many there are.
pub fn read_into(word: &[u8], buf: &mut [u8]) -> usize
    ensures value { result ≡ length (bytes_in (length buf.old) word.now) }
    ensures buf_after { buf.new ≡ bytes_in (length buf.old) word.now ++ drop result buf.old }
    ensures prefix_len { IsPrefixLen result buf.new }
{
    let n = buf.len().min(word.len() / 2);
    for i in 0..n {
        buf[i] = byte_of(word[i * 2], word[i * 2 + 1]);
    }
    n
}

// The bytes that a word spells.
pub fn read(alloc: Global, word: &[u8]) -> Result<Vec<u8>, AllocError>
    ensures { IfOk result (λ v. v.items ≡ bytes_of word.now) }
{
    let mut bytes = vec![in alloc; 0; word.len() / 2]?;
    read_into(word, &mut bytes);
    Ok(bytes)
}

// Whether a word spells the bits of an f32.
pub fn is_float(word: &[u8]) -> bool
    ensures { result ≡ is_float word.now }
{
    word.len() == 8 && is_digits(word)
}

fn bits(word: &[u8]) -> u32
    ensures { result ≡ bits_of word.now }
{
    word.iter().fold(0, |n, b| n % 0x1000_0000 * 16 + value(*b))
}

pub fn float(word: &[u8]) -> f32
    ensures { result ≡ float_of word.now }
{
    wire::float::f32_from_bits(bits(word))
}
