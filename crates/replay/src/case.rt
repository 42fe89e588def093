// A case line, by its words from 0 on.
ghost use Rattle.std.specs.Prelude.{◌≡◌, IfOk};
ghost use Rattle.replay.specs.Words.{word_of, number_of};
ghost use Rattle.replay.specs.Hex.{bytes_of, float_of};
ghost use Rattle.replay.specs.Lists.{list_of};

use crate::words::word;
use std::alloc::{AllocError, Global};

#[derive(Clone, Copy)]
pub struct Case<'a> {
    pub alloc: Global,
    pub line: &'a [u8],
}

impl<'a> Case<'a> {
    pub fn word(self, k: usize) -> &'a [u8]
        ensures { result.now ≡ word_of self.entry.line.now k }
    {
        word(self.line, k)
    }

    pub fn bytes(self, k: usize) -> Result<Vec<u8>, AllocError>
        ensures { IfOk result (λ v. v.items ≡ bytes_of (word_of self.entry.line.now k)) }
    {
        crate::hex::read(self.alloc, self.word(k))
    }

    pub fn list(self, k: usize) -> Result<Vec<u64>, AllocError>
        ensures { IfOk result (λ v. v.items ≡ list_of (word_of self.entry.line.now k)) }
    {
        crate::lists::read(self.alloc, self.word(k))
    }

    pub fn float(self, k: usize) -> f32
        ensures { result ≡ float_of (word_of self.entry.line.now k) }
    {
        crate::hex::float(self.word(k))
    }

    pub fn size(self, k: usize) -> usize
        ensures { result ≡ number_of (word_of self.entry.line.now k) }
    {
        crate::words::size(self.word(k))
    }
}
