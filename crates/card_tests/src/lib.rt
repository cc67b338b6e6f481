// Examples of what cards are answered, and of the memory that they fill.
#![tactic(auto)]

#[cfg(test)]
mod faults;
#[cfg(test)]
mod long;
#[cfg(test)]
mod memory;
#[cfg(test)]
mod numbers;
#[cfg(test)]
mod room;
