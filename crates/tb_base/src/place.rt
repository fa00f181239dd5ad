//! Places in a text.
ghost use Rattle.std.specs.Prelude.{Some};
ghost use Rattle.tb_base.specs.Places.{place_text};

use std::fmt;

/// A place in a text. Lines and columns count from 1; a column counts the bytes of its line.
#[derive(Clone, Copy, Debug, PartialEq, Eq)]
pub struct Place {
    pub line: u32,
    pub column: u32,
}

/// Prints `line 3 column 14`.
impl fmt::Display for Place {
    ghost output = { λ p. Some (place_text p.line p.column) };

    fn fmt<W: fmt::Write>(&self, f: &mut fmt::Formatter<W>) -> fmt::Result {
        write!(f, "line {} column {}", self.line, self.column)
    }
}
