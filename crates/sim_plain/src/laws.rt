//! Laws that say which nets and orders the engine takes.
ghost use Rattle.std.specs.Prelude.{List, length};
ghost use Rattle.net_core.specs.declared.ports.Signal.{Signal};
ghost use Rattle.net_core.specs.declared.tree.Elab.{Elab};
ghost use Rattle.net_core.specs.declared.tree.Net.{Net};
ghost use Rattle.net_core.specs.Nets.{net_reads};
ghost use Rattle.net_core.specs.Formed.{Sized};
ghost use Rattle.net_resolve.specs.Resolved.{NetOf};
ghost use Rattle.net_graph.specs.Graphs.{IsOrder};
ghost use Rattle.sim_plain.specs.Ready.{Fits, InOrder, numbers};

/// A law: the engine takes the net of any sized circuit.
pub fn sized_nets_fit()
    ensures { (e : Elab) (net : Net) → Sized e → NetOf e net → Fits net }
{}

/// A law: the engine takes any order in which each signal stands behind what it reads.
pub fn orders_serve()
    ensures { (net : Net) (order : List Signal) → IsOrder (net_reads net) (length net.signals) (numbers order) → InOrder net (numbers order) }
{}
