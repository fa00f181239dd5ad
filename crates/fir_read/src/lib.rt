//! Reading of circuit texts.
//!
//! A text is cut into items (`fir_lex`), and the items are read by the grammar of circuits: expressions (`fir_expr`), rows of one line
//! (`fir_rows`), and here blocks of statements by their columns (`blocks`), modules and the circuit (`modules`). The grammar is that of
//! `fir_ast/specs/CircuitGrammar.antt`; `specs/Circuits.antt` says which circuit a text spells, and which place of a text is the first
//! faulty one. `read` is the public call, and three laws tie the definitions to each other.
#![tactic(auto)]

mod blocks;
mod fault;
mod modules;
mod reading;
mod words;

pub use fault::{ReadFault, What};
pub use reading::{fault_where_none, fronts_go_on, read, texts_spell_once};
