//! A law that says what the definitions give for logs that a reader can follow.
ghost use Rattle.conflict_core.specs.Examples.{ConflictExamples};

/// A law: conflicts over a small circuit, worked out.
pub fn the_conflicts_work_out()
    ensures { ConflictExamples }
{}
