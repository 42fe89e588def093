// What every layer above stands on: big-endian reads, byte strings, the refusals, the known message codes, f32 of its bits.
#![tactic(auto)]

pub mod bytes;
pub mod error;
pub mod float;
pub mod products;
pub mod text;
