//! Laws of printed circuits: what their texts are cut into.
//!
//! `specs/Atoms.antt` has a printed circuit as a list of lines, and a line as a list of tokens and spaces; `printed_items`
//! (`specs/Items.antt`) gives these tokens their places in the printed text. `is_printable` (`specs/Printable.antt`) is a test of
//! the tree: its names are words, its strings are closed, its numbers are below 2^128, and at most 64 brackets are open at once
//! on a line. The printed form of such a circuit is cut into its own tokens again, since none of them goes on into what follows it:
//! that is the first half of reading a printed circuit.
#![tactic(auto)]

mod examples;

ghost use Rattle.std.specs.Prelude.{◌≡◌, true};
ghost use Rattle.fir_ast.specs.Printed.{printed};
ghost use Rattle.fir_ast.specs.declared.tree.Circuit.{Circuit};
ghost use Rattle.fir_lex.specs.Lex.{items_of};
ghost use Rattle.fir_print_laws.specs.Atoms.{circuit_lines, lines_text};
ghost use Rattle.fir_print_laws.specs.Items.{printed_items};
ghost use Rattle.fir_print_laws.specs.Printable.{is_printable};
ghost use Rattle.fir_print_laws.specs.Standing.{AreLines};

pub use examples::the_printed_items_work_out;

/// A law: the printed form of a circuit is the text of its lines.
pub fn printed_forms_have_lines()
    ensures { (c : Circuit) → printed c ≡ lines_text (circuit_lines c) }
{}

/// A law: a printed circuit is cut into the items of its lines, if no token on them goes on into what follows it and none is
/// marked.
pub fn printed_lines_are_cut()
    ensures { (c : Circuit) → AreLines (circuit_lines c) → items_of (printed c) ≡ printed_items c }
{}

/// A law: the printed form of a circuit that can be printed is cut into the circuit's own tokens again.
pub fn printed_circuits_are_cut()
    ensures { (c : Circuit) → is_printable c ≡ true → items_of (printed c) ≡ printed_items c }
{}
