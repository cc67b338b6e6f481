// Six forward-checking filters.
#![tactic(auto)]

mod effect;
mod narrowing;
pub mod nfc;
mod passes;
mod reading;
mod sheet_set;
