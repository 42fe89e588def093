// What is lent to the library: filled with a pattern, read, and looked at afterwards.
ghost use Rattle.std.specs.Prelude.{◌≡◌, ◌<◌, IfOk, negsuc, replicate, slice_index};
ghost use Rattle.wire.specs.Float.{whole32, whole64};
ghost use Rattle.replay.specs.Report.{cells_of};

use crate::text::Text;
use std::alloc::{AllocError, Global};
use std::io;
use std::io::Write;

// The most places of a buffer that is lent.
pub const ROOM: usize = 4096;

// A type whose buffers are filled with a pattern.
pub trait Pattern: Copy + PartialEq {
    ghost PATTERN: { Self };

    const PATTERN: Self;

    // A buffer is filled by clones.
    ghost kept: { (x : Self) → Self.is_clone PATTERN x → x ≡ PATTERN };
}

impl Pattern for u8 {
    ghost PATTERN = { 165 };

    ghost kept = { λ x e. e };

    const PATTERN: u8 = 0xa5;
}

impl Pattern for u16 {
    ghost PATTERN = { 42435 };

    ghost kept = { λ x e. e };

    const PATTERN: u16 = 0xa5c3;
}

impl Pattern for u64 {
    ghost PATTERN = { 11936128518282651045 };

    ghost kept = { λ x e. e };

    const PATTERN: u64 = 0xa5a5_a5a5_a5a5_a5a5;
}

impl Pattern for f32 {
    ghost PATTERN = { whole32 (negsuc 7776) };

    ghost kept = { λ x e. e };

    const PATTERN: f32 = -7777.0;
}

impl Pattern for f64 {
    ghost PATTERN = { whole64 (negsuc 7776) };

    ghost kept = { λ x e. e };

    const PATTERN: f64 = -7777.0;
}

pub fn filled<T: Pattern>(alloc: Global, n: usize) -> Result<Vec<T>, AllocError>
    ensures { IfOk result (λ v. v.items ≡ replicate n T.PATTERN) }
{
    vec![in alloc; T::PATTERN; n]
}

// Says where a place from `from` on was written.
pub fn check<T: Pattern>(out: &mut Text, name: &str, places: &[T], from: usize) -> io::Result<()> {
    if places.iter().skip(from).any(|x| *x != T::PATTERN) {
        write!(out, " KEPT {name}")?;
    }
    Ok(())
}

// The report, arrays as C lends them. The library keeps the places of `ints` from 24 on, and those of `floats` from 8 on.
#[derive(Drop)]
pub struct Report {
    pub ints: [u64; 32],
    pub floats: [f64; 16],
}

impl Report {
    pub fn new() -> Report
        ensures ints { result.ints ≡ replicate 32 11936128518282651045 }
        ensures floats { result.floats ≡ replicate 16 (whole64 (negsuc 7776)) }
    {
        Report {
            ints: [u64::PATTERN; 32],
            floats: [f64::PATTERN; 16],
        }
    }

    // A place or a length that stands at k.
    pub fn size(&self, k: usize) -> usize
        requires { k < 32 }
        ensures { result ≡ slice_index self.now.ints k }
    {
        // A usize holds every u64 here, but no `From` says so.
        self.ints[k] as usize
    }

    pub fn radials(&self) -> usize
        ensures { result ≡ slice_index self.now.ints 7 }
    {
        self.size(7)
    }

    // The cells of a picture, for which the buffers have room.
    pub fn cells(&self) -> usize
        ensures { result ≡ cells_of self.now.ints }
    {
        let radials = self.size(7);
        let bins = self.size(8);
        if radials.max(bins) > 4096 {
            return 0;
        }
        radials * bins
    }

    pub fn check(&self, out: &mut Text) -> io::Result<()> {
        check(out, "ints", &self.ints, 24)?;
        check(out, "floats", &self.floats, 8)
    }
}
