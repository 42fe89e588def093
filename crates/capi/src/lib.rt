// The reader behind C functions. l3.h says what each one takes, returns and writes.
#![tactic(auto)]

pub mod body;
pub mod charges;
pub mod dates;
pub mod exports;
pub mod header;
pub mod items;
pub mod names;
pub mod pdb;
mod places;
pub mod products;
pub mod reads;
mod report;
pub mod scaling;
pub mod sweeps;
pub mod totals;
mod values;
