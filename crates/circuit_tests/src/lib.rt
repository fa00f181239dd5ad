//! The tests of the crates that read and build circuits. They stand here, above those crates, so that each of these is proved once.
#![tactic(auto)]

#[cfg(test)]
mod base;
#[cfg(test)]
mod circuit_items;
#[cfg(test)]
mod circuit_rules;
#[cfg(test)]
mod circuit_trees;
#[cfg(test)]
mod expressions;
#[cfg(test)]
mod grammar;
#[cfg(test)]
mod nets;
#[cfg(test)]
mod reading;
#[cfg(test)]
mod resolving;
#[cfg(test)]
mod rows;
#[cfg(test)]
mod widths;
