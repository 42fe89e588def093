// From a symbology body to rows: packets 16, AF1F and 28.
#![tactic(auto)]

mod alike;
pub mod cells;
mod centre;
mod components;
pub mod figures;
mod generic;
mod pairs;
pub mod radials;
mod rows;
mod same;
mod spans;
pub mod symbology;
pub mod trailing;
mod walks;
