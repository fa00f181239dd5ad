//! Which rules on statements a statement breaks.
ghost use Rattle.std.specs.Prelude.{◌≡◌};
ghost use Rattle.fir_check.specs.Places.{lowered};
ghost use Rattle.fir_check.specs.Walking.{broken_lines_of};

use crate::best::{Best, Rule};

/// Which rules on statements a statement breaks.
#[derive(Clone, Copy, Debug)]
pub struct Broken {
    pub double: bool,
    pub unknown: bool,
    pub wrong: bool,
    pub flow: bool,
    pub clock: bool,
}

impl Broken {
    /// Takes note of the rules that the statement in this line breaks.
    pub fn note(self, line: u32, best: &mut Best)
        ensures { best.new ≡ lowered best.old (broken_lines_of self line) }
    {
        best.note_if(self.clock, Rule::ClockUse, line);
        best.note_if(self.flow, Rule::WrongFlow, line);
        best.note_if(self.wrong, Rule::WrongKind, line);
        best.note_if(self.unknown, Rule::UnknownName, line);
        best.note_if(self.double, Rule::DoubleName, line);
    }
}
