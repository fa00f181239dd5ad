//! What the threads of a test do, the flat code of a test, and the proof that the code does what the definitions say.
//!
//! `specs/Bodies` turns the tree of a test into bodies, `specs/Values` gives the number of an expression, and `specs/Threads` says what a
//! thread does next. `code` has the instructions of flat code. `specs/Code` lays out the code of a body, `specs/Machine` says what code
//! does, `specs/Stands` when a place of code, with its slots and counts, stands for a thread, and `specs/Fits` which places, slots and
//! counts do. `specs/Allowed` is what the rules of tests say of a body, and `specs/Regions` what comes of it for each move. `examples`
//! works some of it out, and `laws` states the theorems.
#![tactic(auto)]

pub mod code;
pub mod examples;
pub mod laws;
