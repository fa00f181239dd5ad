//! Laws of the elaboration: where its signals stand and where they are declared.
//!
//! An instance and all instances in it have signals in a row (`specs/Places.antt`), those of its ports first. In the elaboration
//! of a circuit within the limits each signal is declared once, on its own line; the ports of the main module are the first
//! signals, and the body begins with them (`SignalsDeclared`, `specs/Laws.antt`).
#![tactic(auto)]

ghost use Rattle.flat_places.specs.Places.{SpansAppend, InstancesHaveRows};
ghost use Rattle.flat_places.specs.Laws.{SignalsAreDeclared, WidthsAreNarrow, InputsHaveWidths, NestingStays};

/// A law: signals in a row are the first of them, and the others behind these.
pub fn spans_are_in_turn()
    ensures { SpansAppend }
{}

/// A law: an instance has its signals in a row, as many as are counted of its module, those of its ports first and those of each
/// instance in it in a row of their own.
pub fn instances_have_rows()
    ensures { InstancesHaveRows }
{}

/// A law: each signal of an elaboration is declared once, on its own line, and the ports come first.
pub fn signals_are_declared()
    ensures { SignalsAreDeclared }
{}

/// A law: no width of an elaboration is above 128 if no written width of its circuit is.
pub fn widths_are_narrow()
    ensures { WidthsAreNarrow }
{}

/// A law: each input of an elaboration has a width if the inputs of the main module's ports have.
pub fn inputs_have_widths()
    ensures { InputsHaveWidths }
{}

/// A law: an elaboration nests no deeper than the blocks of its circuit and the computed indices in them.
pub fn nesting_stays()
    ensures { NestingStays }
{}
