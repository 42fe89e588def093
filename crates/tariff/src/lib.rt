// The rain charge of a total by tariff.
#![tactic(auto)]

pub mod charge;
