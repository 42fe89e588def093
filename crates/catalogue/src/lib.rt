// What the products of each known message code are.
#![tactic(auto)]

pub mod product;
