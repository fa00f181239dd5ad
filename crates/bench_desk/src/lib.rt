//! The outside of the bench: where circuits and tests are read, and where reports and waveforms are written.
//!
//! `Desk` is the trait that the rest stands on. Contracts see a desk as a record `Meaning` (in
//! `specs/Meaning.antt`): its count of faults, how far the reading of each slot has come, whether a file was
//! made for the waveform, and, where the desk tells them, its files, the place of each open slot and all that
//! was put. Each call is stated by one equation that gives the whole meaning after it, so what a clause does not
//! name has stayed.
//!
//! `MemoryDesk` keeps files and outputs in memory and fails where it is told to. `FileDesk` stands on real files
//! and on standard output. It tells nothing of what they hold, and is trusted there.
#![tactic(auto)]

mod desk;
mod file;
mod memory;

pub use desk::{Desk, DeskFile, Failed, Lane, Phase, Slot};
pub use file::{FileDesk, Input};
pub use memory::{MemoryDesk, Reader};

#[cfg(test)]
mod tests;
