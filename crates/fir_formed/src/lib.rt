//! What is elaborated of a circuit that breaks no rule is formed.
//!
//! The rules of `fir_check` speak of a circuit's text, `Formed` of `net_core` of ground signals and
//! statements. Here each rule is followed through the elaboration of `fir_flat`: names that are
//! known to the rules stand for signals that are declared, types for ground parts of their signs,
//! flows for signals that may be set. `Typed` (`specs/Typed.antt`) has the fields of `Formed` that
//! come of this, and `flat_places` and `flat_shapes` give the others: where signals are declared,
//! how deep statements nest, and that ports have names of their own.
//!
//! [`flatten`] is the elaboration of a checked circuit, formed and within the limits.
#![tactic(auto)]

ghost use Rattle.std.specs.Prelude.{◌≡◌, IfOk, IfErr};
ghost use Rattle.net_core.specs.Formed.{Formed};
ghost use Rattle.fir_flat.specs.Elaboration.{elab};
ghost use Rattle.fir_flat.specs.Limits.{Fits, Passes};
ghost use Rattle.fir_written.specs.Written.{IsWritten};
ghost use Rattle.fir_formed.specs.Laws.{ElaborationsAreTyped, ElaborationsAreFormed};

use fir_check::Checked;
use fir_flat::FlatFault;
use net_core::Elab;
use std::alloc::Global;

/// The elaboration of a checked circuit, whose tree a text can write. `Err` has the first limit that
/// it passes, or want of memory, as `fir_flat::flatten` says, with its cost.
pub fn flatten(alloc: Global, checked: &Checked) -> Result<Elab, FlatFault>
    requires written { IsWritten checked.now }
    ensures elab { IfOk result (λ e. e ≡ elab checked.now) }
    ensures formed { IfOk result (λ e. Formed e) }
    ensures fits { IfOk result (λ e. Fits checked.now) }
    ensures err { IfErr result (λ fault. Passes checked.now fault) }
{
    let circuit = checked.circuit();
    fir_flat::flatten(alloc, circuit)
}

/// A law: in the elaboration of a circuit that breaks no rule what is read and set is declared
/// before, inputs and nodes are driven by nothing else, and signs fit everywhere.
pub fn elaborations_are_typed()
    ensures { ElaborationsAreTyped }
{}

/// A law: the elaboration of a circuit that breaks no rule is formed.
pub fn elaborations_are_formed()
    ensures { ElaborationsAreFormed }
{}
