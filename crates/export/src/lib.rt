// From an AF1F body to a packet 16 body.
#![tactic(auto)]

pub mod export;
mod header;
mod radials;
