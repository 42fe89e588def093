// How much the program reads, and its buffers: for a packet 16 body of 720 radials by 1,840 bins and for its codes, and for the physical
// values of 720,000 cells.
ghost use Rattle.std.specs.Prelude.{◌≡◌, IfOk, replicate};
ghost use Rattle.wire.specs.Float.{f32, f64};

use std::alloc::{AllocError, Global};

pub const FILE: usize = 4096;

pub const BODY: usize = 1400000;

pub const RADIALS: usize = 4096;

pub const CODES: usize = 1324800;

pub const VALUES: usize = 720000;

// A type with a zero.
pub trait Zero: Copy {
    ghost ZERO: { Self };

    const ZERO: Self;

    // A buffer is filled by clones.
    ghost kept: { (x : Self) → Self.is_clone ZERO x → x ≡ ZERO };
}

impl Zero for u8 {
    ghost ZERO = { 0 };

    ghost kept = { λ x e. e };

    const ZERO: u8 = 0;
}

impl Zero for u16 {
    ghost ZERO = { 0 };

    ghost kept = { λ x e. e };

    const ZERO: u16 = 0;
}

impl Zero for f32 {
    ghost ZERO = { f32 0 1 };

    ghost kept = { λ x e. e };

    const ZERO: f32 = 0.0;
}

impl Zero for f64 {
    ghost ZERO = { f64 0 1 };

    ghost kept = { λ x e. e };

    const ZERO: f64 = 0.0;
}

// A buffer of n zeros. A mark that no radial has stays 0, and is no gap.
pub fn zeros<T: Zero>(alloc: Global, n: usize) -> Result<Vec<T>, AllocError>
    ensures { IfOk result (λ v. v.items ≡ replicate n T.ZERO) }
{
    vec![in alloc; T::ZERO; n]
}

pub fn azimuths(alloc: Global) -> Result<Vec<f64>, AllocError>
    ensures { IfOk result (λ v. v.items ≡ replicate 4096 (f64 0 1)) }
{
    zeros(alloc, RADIALS)
}

pub fn codes(alloc: Global) -> Result<Vec<u16>, AllocError>
    ensures { IfOk result (λ v. v.items ≡ replicate 1324800 0) }
{
    zeros(alloc, CODES)
}

pub fn physical(alloc: Global) -> Result<Vec<f32>, AllocError>
    ensures { IfOk result (λ v. v.items ≡ replicate 720000 (f32 0 1)) }
{
    zeros(alloc, VALUES)
}
