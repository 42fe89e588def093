// Field plans: a total for each field of a plan, over the codes of a sweep.
#![tactic(auto)]

pub mod fields;
pub mod picture;
pub mod plan;
pub mod totals;
