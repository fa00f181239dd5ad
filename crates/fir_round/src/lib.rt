//! Laws of reading what is printed: the printed form of a circuit is a text of the same circuit.
//!
//! A text is read within limits: so many suffixes, so many brackets, so many nested blocks. Where some text spells a circuit by
//! the grammar and within these limits, so does its printed form, which has a block for each `else when`, `connect` for each
//! `<=`, and one indentation. `relined` (`specs/Relined.antt`) is the circuit that the printed form spells: each of its parts has
//! the line on which it is printed. Nothing else changes (`SameButLines`).
#![tactic(auto)]

mod examples;

ghost use Rattle.std.specs.Prelude.{◌≡◌, ℕ, List, Some};
ghost use Rattle.fir_ast.specs.Circuits.{circuit_of, spells_circuit};
ghost use Rattle.fir_ast.specs.Printed.{printed};
ghost use Rattle.fir_ast.specs.declared.tree.Circuit.{Circuit};
ghost use Rattle.fir_round.specs.Relined.{relined, SameButLines};

pub use examples::the_new_lines_work_out;

/// A law: a circuit with the lines of its printed form is the same circuit but for its lines.
pub fn only_lines_change()
    ensures { (c : Circuit) → SameButLines c (relined c) }
{}

/// A law: circuits that are the same but for their lines have the same printed form.
pub fn printing_asks_for_no_lines()
    ensures { (c d : Circuit) → SameButLines c d → printed c ≡ printed d }
{}

/// A law: a circuit with the lines of its printed form is printed in the same way again.
pub fn printing_again_changes_nothing()
    ensures { (c : Circuit) → printed (relined c) ≡ printed c }
{}

/// A law: where some text spells a circuit, the circuit's printed form spells the same circuit, with the lines of that form.
pub fn what_is_printed_is_spelled()
    ensures { (text : List ℕ) (c : Circuit) → spells_circuit text c → spells_circuit (printed c) (relined c) × SameButLines c (relined c) }
{}

/// A law: reading what was printed of a circuit that was read gives it again, with the lines of the printed form. `fir_read::read`
/// finds the circuit of a text, and `fir_ast::print` puts the printed form of a circuit.
pub fn what_is_printed_is_read_again()
    ensures { (text : List ℕ) (c : Circuit) → circuit_of text ≡ Some c → circuit_of (printed c) ≡ Some (relined c) }
{}
