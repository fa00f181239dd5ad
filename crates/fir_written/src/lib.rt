//! What a circuit text can write.
//!
//! A text is read within limits, and word by word. So every circuit that a text spells has names that are words, widths of at
//! most 128 bits, operations with as many operands as their row has, and so on: `IsWritten` (`specs/Written.antt`) says it all.
#![tactic(auto)]

mod examples;

ghost use Rattle.std.specs.Prelude.{◌≡◌, ℕ, List, Some};
ghost use Rattle.fir_ast.specs.Circuits.{circuit_of, spells_circuit};
ghost use Rattle.fir_ast.specs.declared.tree.Circuit.{Circuit};
ghost use Rattle.fir_written.specs.Written.{IsWritten};

pub use examples::the_written_circuits_work_out;

/// A law: the circuit of a text, which `fir_read::read` finds, is one that a text can write.
pub fn texts_spell_written_circuits()
    ensures { (text : List ℕ) (c : Circuit) → circuit_of text ≡ Some c → IsWritten c }
{}

/// A law: so is whatever circuit a text spells by the grammar.
pub fn spelled_circuits_are_written()
    ensures { (text : List ℕ) (c : Circuit) → spells_circuit text c → IsWritten c }
{}
