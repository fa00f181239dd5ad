//! What a bench knows of each world that a permitted order of a test reaches: its numbers stay within bounds, it names ports of the
//! circuit, and it is possible.
//!
//! `specs/Bounds`, `specs/Naming` and `specs/Standing` have the three; `laws` states them of every test.
#![tactic(auto)]

pub mod laws;
