//! The items of a test text.
//!
//! A text falls into pieces, each as long as can be: a token, a comment, or a byte of white space (`piece`, over `number` and
//! `symbol`). `text` goes over the pieces and gives each token its place. So a reader of items needs to know nothing of bytes.
//! `items_of` (`specs/Lex.antt`) is the definition.
#![tactic(auto)]

mod examples;
mod number;
mod piece;
mod symbol;
mod text;

pub use examples::{
    places_are_counted, the_ends_work_out, the_spaces_work_out, the_tokens_work_out,
};
pub use text::{end_place, items};
