// The calendar day of a day number; day 1 is 1 January 1970.
#![tactic(auto)]

pub mod date;
pub mod month;
mod starts;
