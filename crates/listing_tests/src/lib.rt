// Examples of what sessions answer.
#![tactic(auto)]

#[cfg(test)]
mod listings;
#[cfg(test)]
mod refusals;
