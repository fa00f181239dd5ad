//! Laws that say what the definitions give for circuits that a reader can follow.
ghost use Rattle.fir_print_laws.specs.Examples.{Printing};

/// A law: items of printed circuits, and circuits that can be printed or cannot.
pub fn the_printed_items_work_out()
    ensures { Printing }
{}
