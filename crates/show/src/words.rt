// The arguments SCHEME and CLOCK, and the word gaps.
ghost use Rattle.std.specs.Prelude.{◌≡◌, ◌^◌, ◌≤◌};
ghost use Rattle.wire.specs.Float.{f32};
ghost use Rattle.show.specs.Words.{number_from, point_at, quotient_of, decimal_of, with_number, begins, scheme_of, clock_of, gaps};
ghost use Rattle.wire.specs.Text.{same};
ghost use Rattle.scale.specs.declared.physical.Scheme.TheVariants as Scheme;

use scale::physical::Scheme;
use std::fmt;
use std::rt::Clock;
use std::time::{SystemTime, UNIX_EPOCH};

// Why a word names no scheme.
#[derive(Clone, Copy)]
pub enum BadScheme {
    Unknown,
    BadNumber,
}

impl fmt::Display for BadScheme {
    fn fmt<W: fmt::Write>(&self, f: &mut fmt::Formatter<W>) -> fmt::Result {
        f.write_str(match self {
            BadScheme::Unknown => "SCHEME is not one of those below",
            BadScheme::BadNumber => "the number in SCHEME is not one as described below",
        })
    }
}

// Why there is no time: the word gives none, or the system has none.
#[derive(Clone, Copy)]
pub enum NoClock {
    Bad,
    Missing,
}

impl fmt::Display for NoClock {
    fn fmt<W: fmt::Write>(&self, f: &mut fmt::Formatter<W>) -> fmt::Result {
        f.write_str(match self {
            NoClock::Bad => "CLOCK is not a whole number of at most 15 digits",
            NoClock::Missing => "the system has no time; give CLOCK",
        })
    }
}

// The number that the digits of a text make after those of n: of at most 15 digits beside leading zeros. By hand: `parse` begins at 0, and
// takes a sign.
#[tactic(auto, using(crate::proofs::Digits::read_bad, crate::proofs::Digits::read_long, crate::proofs::Digits::read_next, crate::proofs::Digits::read_end))]
fn number_from(n: u64, text: &[u8]) -> Option<u64>
    requires { n ≤ 999999999999999 }
    ensures { result ≡ number_from n text.now }
{
    let mut value = n;
    for b in text {
        if !b.is_ascii_digit() {
            return None;
        }
        let more = value * 10 + u64::from(*b - 48);
        if 999999999999999 < more {
            return None;
        }
        value = more;
    }
    Some(value)
}

// The place of the first point, or the length.
#[tactic(auto, unfolding(crate::specs::Words::point_at))]
fn point(text: &[u8]) -> usize
    ensures { result ≡ point_at text.now }
{
    text.iter().take_while(|b| **b != b'.').count()
}

// 10^k, exact in f32 up to k = 10.
fn ten_to(k: usize) -> f32
    requires { k ≤ 10 }
    ensures { result ≡ f32 (10 ^ k) 1 }
{
    let powers = [
        1.0f32,
        10.0,
        100.0,
        1000.0,
        10000.0,
        100000.0,
        1000000.0,
        10000000.0,
        100000000.0,
        1000000000.0,
        10000000000.0,
    ];
    powers[k]
}

// n / 10^k, rounded once: below 2^24 and up to 10^10 both are f32 exactly.
#[tactic(auto, unfolding(crate::specs::Words::quotient_of))]
fn quotient(n: u64, k: usize) -> Option<f32>
    ensures { result ≡ quotient_of n k }
{
    if 9999999 < n || 10 < k {
        return None;
    }
    // In range by the proof: `try_from` would be a test that cannot fail.
    Some(std::num::nearest_u32_to_f32(n as u32) / ten_to(k))
}

// A decimal number's nearest f32: the digits before the point and, where there is one, those after it.
fn decimal_of(text: &[u8]) -> Option<f32>
    ensures { result ≡ decimal_of text.now }
{
    let p = point(text);
    if p == 0 {
        return None;
    }
    let whole = number_from(0, &text[..p])?;
    if p == text.len() {
        return quotient(whole, 0);
    }
    let after = p + 1;
    let k = text.len() - after;
    if k == 0 {
        return None;
    }
    let n = number_from(whole, &text[after..])?;
    quotient(n, k)
}

// Whether a word begins with a name.
pub fn starts_with(word: &[u8], name: &[u8]) -> bool
    ensures { result ≡ begins name.now word.now }
{
    word.starts_with(name)
}

// The scheme that a word names.
#[tactic(auto, unfolding(crate::specs::Words::scheme_of))]
fn scheme_of(word: &[u8]) -> Result<Scheme, BadScheme>
    ensures { result ≡ scheme_of word.now }
{
    if word == b"halfword".as_slice() {
        return Ok(Scheme::Halfword);
    }
    if word == b"float".as_slice() {
        return Ok(Scheme::Float);
    }
    if word == b"class".as_slice() {
        return Ok(Scheme::Class);
    }
    if starts_with(word, b"precipitation:") {
        let factor = decimal_of(&word[14..]).ok_or(BadScheme::BadNumber)?;
        return Ok(Scheme::Precipitation { factor });
    }
    if starts_with(word, b"legacy:") {
        let post_scale = decimal_of(&word[7..]).ok_or(BadScheme::BadNumber)?;
        return Ok(Scheme::Legacy { post_scale });
    }
    Err(BadScheme::Unknown)
}

// How long a SCHEME or CLOCK may be; a longer word is none.
const MAX_WORD: usize = 64;

pub fn scheme_argument(word: &str) -> Result<Scheme, BadScheme> {
    if MAX_WORD < word.len() {
        return Err(BadScheme::Unknown);
    }
    scheme_of(word.as_bytes())
}

pub fn is_gaps(word: &[u8]) -> bool
    ensures { result ≡ same word.now gaps }
{
    word == b"gaps".as_slice()
}

pub fn system_clock(rt: &impl Clock) -> Option<u64> {
    let now = SystemTime::now(rt).ok()?;
    let since = now.duration_since(UNIX_EPOCH).ok()?;
    Some(since.as_secs())
}

// The clock that a word gives.
fn clock_of(word: &[u8]) -> Result<u64, NoClock>
    ensures { result ≡ clock_of word.now }
{
    if word.is_empty() {
        return Err(NoClock::Bad);
    }
    number_from(0, word).ok_or(NoClock::Bad)
}

// The clock that a word gives where there is one, else the system's.
pub fn clock_argument(rt: &impl Clock, word: Option<&str>) -> Result<u64, NoClock> {
    match word {
        Some(word) if MAX_WORD < word.len() => Err(NoClock::Bad),
        Some(word) => clock_of(word.as_bytes()),
        None => system_clock(rt).ok_or(NoClock::Missing),
    }
}
