//! Items of texts, and a grammar made of parts: what the readers of circuits and of tests share.
//!
//! A lexer cuts a text into items: tokens with their places (`Item`). A grammar is made of parts, each a definition of
//! `specs/Part.antt` that says which items spell which value (`spells`), with which items a spelling may begin (`fronts`), which
//! limits are passed where (`passes`), and how the part is read from the left (`reads`). A reader has one function for each part,
//! over the cursor `Tokens`, whose contract is `Reads (part.reads tokens.old) result tokens.new`: the part's own outcome, unless
//! memory runs out. `proofs/Laws.antt` ties reading to spelling, once for each way to make a part, so that a grammar gets its
//! laws by naming them in the shape of its rows; `proofs/Whole.antt` has the laws of whole texts: what is spelled is read, what
//! is read is spelled, a text spells at most one value, and a fault is the first faulty place.
#![tactic(auto)]

mod fault;
mod item;
pub mod lex;
mod tokens;

pub use fault::{Form, Kind, ReadError};
pub use item::{Item, Symbol, Token};
pub use tokens::Tokens;
