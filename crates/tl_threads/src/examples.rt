//! Laws that say what the definitions give for small tests that a reader can follow.
ghost use Rattle.tl_threads.specs.Examples.{ValueExamples, MoveExamples, BodyExamples, CodeExamples};

/// A law: numbers of expressions, worked out.
pub fn the_values_work_out()
    ensures { ValueExamples }
{}

/// A law: next moves, and how many local statements come before them, worked out.
pub fn the_moves_work_out()
    ensures { MoveExamples }
{}

/// A law: bodies of tests, worked out.
pub fn the_bodies_work_out()
    ensures { BodyExamples }
{}

/// A law: code of tests, worked out.
pub fn the_code_works_out()
    ensures { CodeExamples }
{}
