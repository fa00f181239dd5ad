//! Laws that say what the definitions give for circuits that a reader can follow.
ghost use Rattle.fir_written.specs.Examples.{WrittenWorkOut};

/// A law: circuits that a text can write, and circuits that none can.
pub fn the_written_circuits_work_out()
    ensures { WrittenWorkOut }
{}
