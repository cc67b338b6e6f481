// Examples of what is printed for cards and command files.
#![tactic(auto)]

#[cfg(test)]
mod cards;
#[cfg(test)]
mod examples;
#[cfg(test)]
mod filter_lines;
#[cfg(test)]
mod lengths;
#[cfg(test)]
mod listings;
#[cfg(test)]
mod refused_lines;
#[cfg(test)]
mod schur;
#[cfg(test)]
mod season;
