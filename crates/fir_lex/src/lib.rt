//! The items of a circuit text.
//!
//! A text falls into lines, a line into pieces, and a piece is a token or stands between tokens (`piece`). `line` gives the items
//! of a line's tokens, of its end and of its faulty bytes, `mark` marks forms that are known and not taken, and brackets past
//! their limit, and `text` goes over the lines. So a reader of items needs to know nothing of bytes, and of lines only their
//! ends and columns. `items_of` (`specs/Lex.antt`) is the definition.
#![tactic(auto)]

mod examples;
mod line;
mod mark;
mod piece;
mod text;

pub use examples::{
    the_ends_work_out, the_lines_work_out, the_marks_work_out, the_tokens_work_out,
};
pub use text::{end_place, items};
