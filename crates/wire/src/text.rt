// Byte strings: comparison with a fixed one, membership, zero bytes at the end.
ghost use Rattle.std.specs.Prelude.{◌≡◌, length};
ghost use Rattle.wire.specs.Text.{is_zero, trim_end, same as sameBytes, member};

// Whether two byte strings are equal.
pub fn same(a: &[u8], b: &[u8]) -> bool
    ensures { result ≡ sameBytes a.now b.now }
{
    a == b
}

// Whether a byte is one of a byte string's.
pub fn is_in(b: u8, set: &[u8]) -> bool
    ensures { result ≡ member b set.now }
{
    set.contains(&b)
}

// The length without the zero bytes at the end.
pub fn trimmed_len(s: &[u8]) -> usize
    ensures { result ≡ length (trim_end is_zero s.now) }
{
    let mut kept = s;
    // A slice pattern, which counts no index.
    while let [front @ .., last] = kept {
        if *last != 0 {
            break;
        }
        kept = front;
    }
    kept.len()
}
