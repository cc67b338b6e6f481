// Cards: a network as text, its judgement and its reading.
#![tactic(auto)]

mod advance;
pub mod bank;
mod checks;
mod counting;
mod entry;
mod line;
mod list;
pub mod number;
pub mod place;
pub mod places;
mod put;
pub mod read;
mod reader;
mod reading;
pub mod refusal;
pub mod sizes;
mod stage;
mod step;
pub mod word;
