//! Laws of the settled values of a circuit.
ghost use Rattle.std.specs.Prelude.{◌≡◌, ◌<◌, ◌↔◌, ℕ, true, length};
ghost use Rattle.net_core.specs.declared.tree.Elab.{Elab};
ghost use Rattle.net_core.specs.Depends.{NoLoop, InCone};
ghost use Rattle.net_core.specs.Formed.{Formed};
ghost use Rattle.net_core.specs.Settled.{Settled};
ghost use Rattle.net_design.specs.Naming.{in_cone};
ghost use Rattle.net_design.specs.Settling.{settled_value};

/// A law: in a formed circuit without a loop the settled values are settled, and no others are.
pub fn settled_values_are_settled()
    ensures settled { (e : Elab) → Formed e → NoLoop e → (ins regs : ℕ → ℕ) → Settled e ins regs (settled_value e ins regs) }
    ensures only { (e : Elab) → Formed e → NoLoop e → (ins regs V : ℕ → ℕ) → Settled e ins regs V
        → (x : ℕ) → x < length e.signals → V x ≡ settled_value e ins regs x }
{}
