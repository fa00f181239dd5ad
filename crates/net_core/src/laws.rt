//! Laws of settled valuations.
ghost use Rattle.std.specs.Prelude.{◌≡◌, ◌≢◌, ℕ, ◌<◌, length, List, None, false};
ghost use Rattle.net_core.specs.declared.tree.Elab.{Elab};
ghost use Rattle.net_core.specs.Signals.{info, is_kept};
ghost use Rattle.net_core.specs.Settled.{Settled, last_connect};
ghost use Rattle.net_core.specs.Depends.{InCone, NoLoop, uninitialised};
ghost use Rattle.net_core.specs.Evaluation.{InOrder, evaluate};
ghost use Rattle.net_core.specs.Formed.{Formed};

/// A law: in a formed circuit whose reads have no loop exactly one valuation is settled, for any inputs and registers.
pub fn exactly_one_is_settled()
    ensures { (e : Elab) (ins regs : ℕ → ℕ) → Formed e → NoLoop e → (V : ℕ → ℕ) × Settled e ins regs V × ((W : ℕ → ℕ) → Settled e ins regs W → (x : ℕ) → x < length e.signals → W x ≡ V x) }
{}

/// A law: evaluating one signal after the other, in any order that lists each after what it reads, gives it.
pub fn plain_evaluation_settles()
    ensures { (e : Elab) (ins regs : ℕ → ℕ) (order : List ℕ) (V : ℕ → ℕ) → InOrder e order → Settled e ins regs (evaluate e ins regs order V) }
{}

/// A law: the settled value of a signal depends on the inputs of its cone and on the registers.
pub fn a_value_depends_on_its_cone()
    ensures { (e : Elab) (ins jns regs V W : ℕ → ℕ) → Formed e → NoLoop e → Settled e ins regs V → Settled e jns regs W → (x : ℕ) → x < length e.signals → ((p : ℕ) → InCone e x p → ins p ≡ jns p) → V x ≡ W x }
{}

/// A law: where no sink is left open, each has a connect or an invalidation whose conditions hold, under every valuation.
pub fn each_sink_has_a_connect()
    ensures { (e : Elab) (V : ℕ → ℕ) → uninitialised e ≡ None → (x : ℕ) → x < length e.signals → is_kept (info e.signals x).role ≡ false → last_connect e V x ≢ None }
{}
