//! Laws that say what the definitions give for circuits that a reader can follow.
ghost use Rattle.fir_round.specs.Examples.{NewLines};

/// A law: the lines of circuits in their printed form, and circuits that are the same but for their lines or are not.
pub fn the_new_lines_work_out()
    ensures { NewLines }
{}
