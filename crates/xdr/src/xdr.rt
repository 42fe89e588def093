// A payload and a position in it. Each read leaves the cursor where it ended; a refused one after its last whole take.
ghost use Rattle.std.specs.Prelude.{◌≡◌, ◌-◌, ◌<◌, length};
ghost use Rattle.xdr.specs.Xdr.{short, pass, word, int, uint, float, string, array_count, int_array, at_least0, list_head, parameter, counted};
ghost use Rattle.xdr.specs.Cursor.{start, from_place, read_at, done, string_part, array_part, Leaves, Tests};

use wire::error::{Level3DecodeError, XdrItem};

const MAX_XDR_STRING_LEN: u32 = 4096;

const MAX_XDR_ARRAY_LEN: u32 = 100000;

const MAX_XDR_LIST_LEN: i32 = 10000;

// A part of the payload: a string's bytes, or an array's first byte and the number of its integers.
#[derive(Clone, Copy)]
pub struct Part {
    pub start: usize,
    pub len: usize,
}

#[derive(Drop)]
pub struct XdrCursor<'a> {
    buf: &'a [u8],
    pos: usize,
}

// A signed number as a count: 0 below 0.
pub fn at_least_0(n: i32) -> usize
    ensures { (result ≡ at_least0 n) × (result < 2147483648) }
{
    usize::try_from(n).unwrap_or(0)
}

impl<'a> XdrCursor<'a> {
    pub fn new(buf: &'a [u8]) -> XdrCursor<'a>
        ensures { result ≡ start buf.entry }
    {
        XdrCursor { buf, pos: 0 }
    }

    pub fn from(buf: &'a [u8], pos: usize) -> XdrCursor<'a>
        ensures { result ≡ from_place buf.entry pos }
    {
        XdrCursor { buf, pos }
    }

    pub fn position(&self) -> usize
        ensures { result ≡ self.now.pos }
    {
        self.pos // of the next byte
    }

    pub fn bytes_remaining(&self) -> usize
        ensures { result ≡ length self.now.buf.now - self.now.pos }
    {
        self.buf.len().saturating_sub(self.pos)
    }

    // 23 where fewer bytes are left.
    fn need(&self, item: XdrItem, need: usize) -> Result<(), Level3DecodeError>
        ensures { Tests (short item need) result self.now }
    {
        let have = self.bytes_remaining();
        if have < need {
            return Err(Level3DecodeError::XdrTruncated {
                context: item,
                have,
                need,
            });
        }
        Ok(())
    }

    // Past the next n bytes: none at all pass at any position.
    pub fn skip(&mut self, item: XdrItem, n: usize) -> Result<(), Level3DecodeError>
        ensures { Leaves (read_at (pass item n) self.old) result self.old self.new }
    {
        self.need(item, n)?;
        self.pos += n;
        Ok(())
    }

    fn unpack_word(&mut self, item: XdrItem) -> Result<u32, Level3DecodeError>
        ensures { Leaves (read_at (word item) self.old) result self.old self.new }
    {
        self.need(item, 4)?;
        let value = wire::bytes::u32_at(self.buf, self.pos);
        self.pos += 4;
        Ok(value)
    }

    pub fn unpack_uint(&mut self) -> Result<u32, Level3DecodeError>
        ensures { Leaves (read_at uint self.old) result self.old self.new }
    {
        self.unpack_word(XdrItem::Uint)
    }

    pub fn unpack_int(&mut self) -> Result<i32, Level3DecodeError>
        ensures { Leaves (read_at int self.old) result self.old self.new }
    {
        let value = self.unpack_word(XdrItem::Int)?;
        Ok(wire::bytes::as_i32(value))
    }

    pub fn unpack_float(&mut self) -> Result<f32, Level3DecodeError>
        ensures { Leaves (read_at float self.old) result self.old self.new }
    {
        let value = self.unpack_word(XdrItem::Float)?;
        Ok(wire::float::f32_from_bits(value))
    }

    // A string's length, at most 4,096; past its body, and the padding to a multiple of four.
    pub fn skip_string(&mut self) -> Result<usize, Level3DecodeError>
        ensures { Leaves (read_at string self.old) result self.old self.new }
    {
        let len = self.unpack_uint()?;
        if MAX_XDR_STRING_LEN < len {
            return Err(Level3DecodeError::XdrStringTooLong {
                len,
                max: MAX_XDR_STRING_LEN,
            });
        }
        // No `From` makes a `usize` of a `u32`.
        let n = len as usize;
        self.skip(XdrItem::StringBody, n)?;
        self.skip(XdrItem::Padding, (4 - n % 4) % 4)?;
        Ok(n)
    }

    // The part of the payload that the string occupies, trailing zero bytes trimmed.
    pub fn unpack_string(&mut self) -> Result<Part, Level3DecodeError>
        ensures { Leaves (string_part self.old.buf.now self.old.pos (read_at string self.old)) result self.old self.new }
    {
        let buf = self.buf;
        let at = self.pos;
        let n = self.skip_string()?;
        let start = at + 4;
        let end = start + n;
        let len = wire::text::trimmed_len(&buf[start..end]);
        Ok(Part { start, len })
    }

    // The count of an integer array, at most 100,000, whose body is there. The cursor stands at the body.
    pub fn array_count(&mut self) -> Result<usize, Level3DecodeError>
        ensures { Leaves (read_at array_count self.old) result self.old self.new }
    {
        let len = self.unpack_uint()?;
        if MAX_XDR_ARRAY_LEN < len {
            return Err(Level3DecodeError::XdrArrayTooLong {
                len,
                max: MAX_XDR_ARRAY_LEN,
            });
        }
        // No `From` makes a `usize` of a `u32`.
        let n = len as usize;
        let left = self.bytes_remaining();
        if left < n * 4 {
            return Err(Level3DecodeError::XdrTruncated {
                context: XdrItem::ArrayBody,
                have: left,
                need: n * 4,
            });
        }
        Ok(n)
    }

    // The place of the array's first integer, and their number.
    pub fn unpack_int_array(&mut self) -> Result<Part, Level3DecodeError>
        ensures { Leaves (array_part self.old.pos (read_at int_array self.old)) result self.old self.new }
    {
        let len = self.array_count()?;
        let start = self.pos;
        self.pos += len * 4;
        Ok(Part { start, len })
    }

    // The number of elements of a list. The first stands at the position after it. Its pointer is read before the count is looked at.
    pub fn list_head(&mut self) -> Result<usize, Level3DecodeError>
        ensures { Leaves (read_at list_head self.old) result self.old self.new }
    {
        let count = self.unpack_int()?;
        self.skip(XdrItem::Int, 4)?; // the first pointer
        if MAX_XDR_LIST_LEN < count {
            return Err(Level3DecodeError::XdrListTooLong {
                len: count,
                max: MAX_XDR_LIST_LEN,
            });
        }
        Ok(at_least_0(count))
    }

    // A parameter: its name and its value.
    pub fn skip_parameter(&mut self) -> Result<(), Level3DecodeError>
        ensures { Leaves (read_at parameter self.old) result self.old self.new }
    {
        self.skip_string()?;
        self.skip_string()?;
        Ok(())
    }

    // Past a counted list of parameters.
    pub fn skip_parameters(&mut self) -> Result<(), Level3DecodeError>
        ensures { Leaves (done (read_at (counted parameter) self.old)) result self.old self.new }
    {
        let n = self.list_head()?;
        if n == 0 {
            return Ok(());
        }
        self.skip_parameter()?;
        for _ in 1..n {
            self.skip(XdrItem::Int, 4)?; // a pointer between any two
            self.skip_parameter()?;
        }
        Ok(())
    }
}
