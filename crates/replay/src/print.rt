// Values as the answer lines have them.
ghost use Rattle.std.specs.Prelude.{◌≡◌, ℕ, List, Some, to_bits};
ghost use Rattle.std.specs.Float.{binary32, binary64};
ghost use Rattle.replay.specs.Printed.{hex_text, row_text, commas_text};

use std::fmt;

// A value that is written by its bits, in hexadecimal; of a float every NaN alike.
pub trait Bits: Copy {
    ghost DIGITS: { ℕ };

    ghost value: { Self → ℕ };

    const DIGITS: usize;

    fn bits(self) -> u64
        ensures { result ≡ value self };
}

impl Bits for u8 {
    ghost DIGITS = { 2 };

    ghost value = { λ x. x };

    const DIGITS: usize = 2;

    fn bits(self) -> u64 {
        u64::from(self)
    }
}

impl Bits for u16 {
    ghost DIGITS = { 4 };

    ghost value = { λ x. x };

    const DIGITS: usize = 4;

    fn bits(self) -> u64 {
        u64::from(self)
    }
}

impl Bits for f32 {
    ghost DIGITS = { 8 };

    ghost value = { to_bits binary32 };

    const DIGITS: usize = 8;

    fn bits(self) -> u64 {
        u64::from(std::num::f32_to_bits_with_nan(self))
    }
}

impl Bits for f64 {
    ghost DIGITS = { 16 };

    ghost value = { to_bits binary64 };

    const DIGITS: usize = 16;

    fn bits(self) -> u64 {
        std::num::f64_to_bits_with_nan(self)
    }
}

// A number in hexadecimal, with zeros in front up to a width.
#[derive(Clone, Copy)]
struct Hex {
    n: u64,
    width: usize,
}

impl fmt::Display for Hex {
    ghost output = { λ x. Some (hex_text x.n x.width) };

    fn fmt<W: fmt::Write>(&self, f: &mut fmt::Formatter<W>) -> fmt::Result {
        let n = self.n;
        let width = self.width;
        write!(f, "{n:0width$x}")
    }
}

#[derive(Clone, Copy)]
pub struct Cell<T>(pub T);

impl<T: Bits> fmt::Display for Cell<T> {
    ghost output = { λ x. Some (hex_text (T.value x.0) T.DIGITS) };

    fn fmt<W: fmt::Write>(&self, f: &mut fmt::Formatter<W>) -> fmt::Result {
        let hex = Hex {
            n: self.0.bits(),
            width: T::DIGITS,
        };
        write!(f, "{hex}")
    }
}

// Values one after another; `-` where there are none.
#[derive(Clone, Copy)]
pub struct Row<'a, T>(pub &'a [T]);

impl<T: Bits> fmt::Display for Row<'_, T> {
    ghost output = { λ r. Some (row_text (λ x. hex_text (T.value x) T.DIGITS) r.0.now) };

    fn fmt<W: fmt::Write>(&self, f: &mut fmt::Formatter<W>) -> fmt::Result {
        if self.0.is_empty() {
            return f.write_str("-");
        }
        for x in self.0 {
            write!(f, "{}", Cell(*x))?;
        }
        Ok(())
    }
}

// Numbers with commas between them; `-` where there are none.
#[derive(Clone, Copy)]
pub struct Commas<'a>(pub &'a [u64]);

impl fmt::Display for Commas<'_> {
    ghost output = { λ r. Some (commas_text r.0.now) };

    fn fmt<W: fmt::Write>(&self, f: &mut fmt::Formatter<W>) -> fmt::Result {
        let Some((first, others)) = self.0.split_first() else {
            return f.write_str("-");
        };
        write!(f, "{first}")?;
        for n in others {
            write!(f, ",{n}")?;
        }
        Ok(())
    }
}

// An f32 that an f64 holds; `?` where it holds none.
#[derive(Clone, Copy)]
pub struct Single(pub f64);

impl fmt::Display for Single {
    fn fmt<W: fmt::Write>(&self, f: &mut fmt::Formatter<W>) -> fmt::Result {
        let x = self.0;
        let near = std::num::nearest_f64_to_f32_with_nan(x);
        if !x.is_nan() && std::num::f32_to_f64_with_nan(near) != x {
            return f.write_str("?");
        }
        write!(f, "{}", Cell(near))
    }
}
