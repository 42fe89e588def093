// The archive profile of the sweep reading: what has stray bytes is refused.
#![tactic(auto)]

pub mod strict;
mod surplus;
