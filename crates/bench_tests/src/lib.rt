//! The tests of the crates that read tests and run their threads. They stand here, above those crates, so that each of these is proved once.
#![tactic(auto)]

#[cfg(test)]
mod acts;
#[cfg(test)]
mod commits;
#[cfg(test)]
mod drivers;
#[cfg(test)]
mod instructions;
#[cfg(test)]
mod read_back;
#[cfg(test)]
mod spelled;
#[cfg(test)]
mod tables;
#[cfg(test)]
mod test_items;
#[cfg(test)]
mod test_texts;
#[cfg(test)]
mod test_trees;
