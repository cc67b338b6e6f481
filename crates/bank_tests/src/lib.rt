// Examples of what the banks and the record checks answer.
#![tactic(auto)]

#[cfg(test)]
mod checks;
#[cfg(test)]
mod pairs;
#[cfg(test)]
mod supports;
