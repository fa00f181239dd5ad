//! Laws that say what the definitions give for circuits that a reader can follow.
ghost use Rattle.net_resolve.specs.Examples.{NetExamples};

/// A law: conditions, choices and reads, worked out.
pub fn the_nets_work_out()
    ensures { NetExamples }
{}
