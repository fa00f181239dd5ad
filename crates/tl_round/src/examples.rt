//! Laws that say what the definitions give for tests that a reader can follow.
ghost use Rattle.tl_round.specs.Examples.{NewLines};

/// A law: the lines of tests in their printed form, a test that is printed and read back, and tests that are the same but for their
/// lines or are not.
pub fn the_new_lines_work_out()
    ensures { NewLines }
{}
