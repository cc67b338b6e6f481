// Sessions: a network's plans, listed call by call.
#![tactic(auto)]

mod fits;
mod listing;
pub mod outcome;
mod record;
pub mod session;
mod walk;
