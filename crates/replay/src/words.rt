// The words of a line, counted from 0, and the numbers that they spell. Each reader answers on every word; `crate::answer` says which
// words a line must have. A word is told by its place: the clauses speak of a line as it stands, with any spaces between.
ghost use Rattle.std.specs.Prelude.{◌≡◌, ◌%◌, ◌<◌, ◌≤◌, length, drop};
ghost use Rattle.wire.specs.Bytes.{signed as signed_of};
ghost use Rattle.std.specs.List.{prefix_len};
ghost use Rattle.wire.specs.Text.{all};
ghost use Rattle.replay.specs.Words.{is_space, other, start_from, end_from, ended, word_of};
ghost use Rattle.replay.specs.Words.{is_digit, digit_of, with_digit, number_of, is_number};
ghost use Rattle.replay.specs.Words.{is_unsigned, is_size, is_signed, clock_of, signed_word};

// How many spaces stand at the front.
fn spaces(text: &[u8]) -> usize
    ensures value { result ≡ prefix_len is_space text.now }
    ensures within { result ≤ length text.now }
{
    text.iter().take_while(|b| **b == b' ').count()
}

// How many bytes stand before the first `stop`.
pub fn letters(text: &[u8], stop: u8) -> usize
    ensures value { result ≡ prefix_len (other stop) text.now }
    ensures within { result ≤ length text.now }
{
    text.iter().take_while(|b| **b != stop).count()
}

// Where the word at a place or after it begins; the length where there is none.
fn start_from(line: &[u8], at: usize) -> usize
    requires { at ≤ length line.now }
    ensures { (result ≡ start_from line.now at) × (result ≤ length line.now) }
{
    at + spaces(&line[at..])
}

// Where the word at a place ends.
fn end_from(line: &[u8], at: usize) -> usize
    requires { at ≤ length line.now }
    ensures { (result ≡ end_from line.now at) × (result ≤ length line.now) }
{
    at + letters(&line[at..], b' ')
}

// Where the first k words have ended.
#[tactic(auto, using(crate::proofs::Laws::ended_none, crate::proofs::Laws::ended_next))]
fn after(line: &[u8], k: usize) -> usize
    ensures { (result ≡ ended line.now k) × (result ≤ length line.now) }
{
    let mut at = 0;
    for _ in 0..k {
        at = end_from(line, start_from(line, at));
    }
    at
}

// Word k; an empty one where the line has no more.
pub fn word(line: &[u8], k: usize) -> &[u8]
    ensures { result.now ≡ word_of line.now k }
{
    let start = start_from(line, after(line, k));
    let rest = &line[start..];
    let n = letters(rest, b' ');
    &rest[..n]
}

// std's test, in the words of the clauses here.
fn is_digit(b: u8) -> bool
    ensures { result ≡ is_digit b }
{
    b.is_ascii_digit()
}

// The value of a decimal digit; 0 of any other byte.
fn digit(b: u8) -> u64
    ensures { (result ≡ digit_of b) × (result < 10) }
{
    if is_digit(b) { u64::from(b - b'0') } else { 0 }
}

// n and one digit more; the greatest number where that is over it. `parse` would give none there.
fn with_digit(n: u64, b: u8) -> u64
    ensures { result ≡ with_digit n b }
{
    n.saturating_mul(10).saturating_add(digit(b))
}

fn all_digits(text: &[u8]) -> bool
    ensures { result ≡ all is_digit text.now }
{
    text.iter().all(|b| is_digit(*b))
}

// Whether there are digits, and nothing else.
fn is_number(text: &[u8]) -> bool
    ensures { result ≡ is_number text.now }
{
    !text.is_empty() && all_digits(text)
}

pub fn number(text: &[u8]) -> u64
    ensures { result ≡ number_of text.now }
{
    text.iter().fold(0, |n, b| with_digit(n, *b))
}

// Whether a word is a number from 0 to `most`.
pub fn is_unsigned(word: &[u8], most: u64) -> bool
    ensures { result ≡ is_unsigned word.now most }
{
    is_number(word) && number(word) <= most
}

// Whether it is one that a usize holds; `number` answers the greatest one on every number over it.
pub fn is_size(word: &[u8]) -> bool
    ensures { result ≡ is_size word.now }
{
    is_unsigned(word, u64::MAX - 1) || word == b"18446744073709551615".as_slice()
}

// Whether it is one from -1 - `most` to `most`.
pub fn is_signed(word: &[u8], most: u64) -> bool
    ensures { result ≡ is_signed word.now most }
{
    match word {
        [b'-', digits @ ..] => is_number(digits) && number(digits).saturating_sub(1) <= most,
        _ => is_unsigned(word, most),
    }
}

// A clock that no u64 holds is out of range, as the greatest one is.
pub fn clock(word: &[u8]) -> u64
    ensures { result ≡ clock_of word.now }
{
    match word {
        [b'-', ..] => u64::MAX,
        _ => number(word),
    }
}

pub fn size(word: &[u8]) -> usize
    ensures { result ≡ number_of word.now }
{
    // A usize holds every u64 here, but no `From` says so.
    number(word) as usize
}

pub fn unsigned16(word: &[u8]) -> u16
    ensures { result ≡ number_of word.now % 65536 }
{
    // In range by the proof: `try_from` would be a test that cannot fail.
    (number(word) % 65536) as u16
}

pub fn unsigned32(word: &[u8]) -> u32
    ensures { result ≡ number_of word.now % 4294967296 }
{
    // In range by the proof: `try_from` would be a test that cannot fail.
    (number(word) % 4294967296) as u32
}

// A signed number's 64-bit word, two's complement.
fn signed(word: &[u8]) -> u64
    ensures { result ≡ signed_word word.now }
{
    match word {
        [b'-', digits @ ..] => number(digits).wrapping_neg(),
        _ => number(word),
    }
}

pub fn signed16(word: &[u8]) -> i16
    ensures { result ≡ signed_of 32768 (signed_word word.now % 65536) }
{
    // In range by the proof: `try_from` would be a test that cannot fail.
    wire::bytes::as_i16((signed(word) % 65536) as u16)
}

pub fn signed32(word: &[u8]) -> i32
    ensures { result ≡ signed_of 2147483648 (signed_word word.now % 4294967296) }
{
    // In range by the proof: `try_from` would be a test that cannot fail.
    wire::bytes::as_i32((signed(word) % 4294967296) as u32)
}
