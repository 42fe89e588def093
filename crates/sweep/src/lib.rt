// The sweep reading: file bytes, clock, scheme and body to a picture in lent buffers.
#![tactic(auto)]

mod gap_values;
pub mod merge;
pub mod plan;
pub mod sweep;
pub mod with_gaps;
