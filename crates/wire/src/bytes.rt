// Big-endian numbers out of a slice at any offset. `read_.._be` answers None where they run past the end;
// `.._at` counts a missing byte as 0, for a caller that has tested the length.
ghost use Rattle.std.specs.Prelude.{◌≡◌, ◌-◌, ◌<◌, get_or};
ghost use Rattle.wire.specs.Bytes.{u16_at, u32_at, i16_at, i32_at, signed, read_u16, read_i16, read_i32};

// The bytes of a length from a place on: none where the place is past it.
pub fn remaining(len: usize, at: usize) -> usize
    ensures { result ≡ len - at }
{
    len.saturating_sub(at)
}

// The byte at a place, with its bound.
pub fn byte_at(s: &[u8], i: usize) -> u32
    ensures { (result ≡ get_or s.now i 0) × (result < 256) }
{
    if i < s.len() { u32::from(s[i]) } else { 0 }
}

#[tactic(auto, unfolding(crate::specs::Bytes::u16_at))]
pub fn u16_at(s: &[u8], at: usize) -> u16
    ensures { result ≡ u16_at s.now at }
{
    if at < s.len() {
        let hi = byte_at(s, at);
        let lo = byte_at(s, at + 1);
        // In range by the proof: `try_from` would be a test that cannot fail.
        (hi * 256 + lo) as u16
    } else {
        0
    }
}

#[tactic(auto, unfolding(crate::specs::Bytes::u32_at, crate::specs::Bytes::u16_at))]
pub fn u32_at(s: &[u8], at: usize) -> u32
    ensures { result ≡ u32_at s.now at }
{
    if at < s.len() {
        let hi = u32::from(u16_at(s, at));
        if s.len() - at <= 2 {
            return hi * 65536;
        }
        let lo = u32::from(u16_at(s, at + 2));
        hi * 65536 + lo
    } else {
        0
    }
}

// The signed number of the same bits; a trait over the two widths would be longer than they are.
#[tactic(auto, unfolding(crate::specs::Bytes::signed))]
pub fn as_i16(x: u16) -> i16
    ensures { result ≡ signed 32768 x }
{
    x.cast_signed()
}

#[tactic(auto, unfolding(crate::specs::Bytes::signed))]
pub fn as_i32(x: u32) -> i32
    ensures { result ≡ signed 2147483648 x }
{
    x.cast_signed()
}

#[tactic(auto, unfolding(crate::specs::Bytes::i16_at))]
pub fn i16_at(s: &[u8], at: usize) -> i16
    ensures { result ≡ i16_at s.now at }
{
    as_i16(u16_at(s, at))
}

#[tactic(auto, unfolding(crate::specs::Bytes::i32_at))]
pub fn i32_at(s: &[u8], at: usize) -> i32
    ensures { result ≡ i32_at s.now at }
{
    as_i32(u32_at(s, at))
}

#[tactic(auto, unfolding(crate::specs::Bytes::if_inside))]
pub fn read_u16_be(buf: &[u8], off: usize) -> Option<u16>
    ensures { result ≡ read_u16 buf.now off }
{
    if remaining(buf.len(), off) < 2 {
        return None;
    }
    Some(u16_at(buf, off))
}

#[tactic(auto, unfolding(crate::specs::Bytes::if_inside, crate::specs::Bytes::i16_at))]
pub fn read_i16_be(buf: &[u8], off: usize) -> Option<i16>
    ensures { result ≡ read_i16 buf.now off }
{
    read_u16_be(buf, off).map(|x| as_i16(x))
}

// As `read_u16_be`, but for the width and the number: a trait over the two would be longer than they are.
#[tactic(auto, unfolding(crate::specs::Bytes::if_inside))]
pub fn read_i32_be(buf: &[u8], off: usize) -> Option<i32>
    ensures { result ≡ read_i32 buf.now off }
{
    if remaining(buf.len(), off) < 4 {
        return None;
    }
    Some(i32_at(buf, off))
}
