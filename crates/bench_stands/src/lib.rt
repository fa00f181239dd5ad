//! What the table of a bench's threads has to do with the worlds of the model.
//!
//! `specs/Standing` says when a table stands for the threads of a world: path by path, and thread by thread. [`laws`] states what such a
//! table tells of its world: who may act, who acts next, who is spent, and what an edge does.
#![tactic(auto)]

pub mod laws;
