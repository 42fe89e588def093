// Scale fields, declared scales, and the physical value of a code.
#![tactic(auto)]

pub mod legacy16;
pub mod pdb;
pub mod physical;
pub mod scaling;
