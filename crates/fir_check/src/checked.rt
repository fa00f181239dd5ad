//! A circuit that keeps the rules, and what the rules give.
ghost use Rattle.std.specs.Prelude.{◌≡◌, None};
ghost use Rattle.fir_check.specs.Rules.{circuit_rule};
ghost use Rattle.fir_check.specs.Ranks.{IsRanked, KeptAreRanked};

use fir_ast::Circuit;
use std::marker::Model;

/// A circuit that keeps the rules. Contracts see the circuit.
#[derive(Drop)]
pub struct Checked {
    circuit: Circuit,
}

impl Model for Checked {
    ghost use Rattle.std.specs.Prelude.{◌≡◌, None};
    ghost use Rattle.std.specs.Coded.{codes};
    ghost use Rattle.fir_ast.specs.declared.tree.Circuit.{Circuit};
    ghost use Rattle.fir_ast.specs.contracts.tree.Ty as ty;
    ghost use Rattle.fir_ast.specs.contracts.tree.Expr as expr;
    ghost use Rattle.fir_ast.specs.contracts.tree.Stmt as stmt;
    ghost use Rattle.fir_check.specs.Rules.{circuit_rule};

    ghost Value = { Circuit };

    ghost coded = { Prim.hlevel (codes, ty.the_row.coded, expr.the_row.coded, stmt.the_row.coded) };

    ghost view = { λ c. c.circuit };

    ghost invariant = { λ c. circuit_rule c.circuit ≡ None };
}

impl Checked {
    /// A circuit that keeps the rules, as such.
    pub(crate) fn of(circuit: Circuit) -> Checked
        requires { circuit_rule circuit ≡ None }
        ensures { result ≡ circuit }
    {
        Checked { circuit }
    }

    /// The circuit. Its main module is there, and so is the module of each instance; and no module
    /// contains itself: there is a rank that falls from each module to those of its instances.
    pub fn circuit(&self) -> &Circuit
        ensures is { result.now ≡ self.now }
        ensures rule { circuit_rule result.now ≡ None }
        ensures ranked { IsRanked result.now }
    {
        &self.circuit
    }
}

/// A law: in a circuit that keeps the rules the modules of all instances are there, and have ranks
/// that fall along each instance.
pub fn kept_circuits_are_ranked()
    ensures { KeptAreRanked }
{}
