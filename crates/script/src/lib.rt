// From a card and a command file to the printed text.
#![tactic(auto)]

mod begin;
mod command;
mod lines;
mod lister;
mod obeying;
mod printing;
mod room;
pub mod run;
