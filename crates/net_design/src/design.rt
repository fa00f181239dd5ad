//! Designs.
ghost use Rattle.std.specs.Prelude.{◌≡◌, ◌<◌, ◌↔◌, ℕ, List, true, None, Some, length, map, IfOk, IsErrOf};
ghost use Rattle.net_core.specs.declared.ports.Signal.{Signal};
ghost use Rattle.net_core.specs.Depends.{uninitialised, IsChain, IsNamedLoop};
ghost use Rattle.net_core.specs.Formed.{Formed, Sized};
ghost use Rattle.net_core.specs.Nets.{net_reads};
ghost use Rattle.net_graph.specs.declared.level.GraphFault;
ghost use Rattle.net_graph.specs.Graphs.{IsOrder};
ghost use Rattle.net_graph.specs.NetGraphs.{numbers};
ghost use Rattle.net_graph.specs.Reaching.{ConesOf};
ghost use Rattle.net_resolve.specs.Resolved.{NetOf};
ghost use Rattle.net_design.specs.Designs.{ports_of, Runs, IsInput};
ghost use Rattle.net_design.specs.Naming.{loop_of, in_cone};

use net_core::{Elab, Net, PortTable, Signal};
use net_graph::{Cones, GraphFault, LevelOrder, cone_table, levels};
use std::alloc::Global;
use std::marker::Model;
use tb_base::{Memory, Name, Seq};

/// The design of a circuit. Contracts see the circuit and its net.
#[derive(Drop)]
pub struct Design {
    name: Name,
    ports: PortTable,
    elab: Elab,
    net: Net,
    levels: LevelOrder,
    cones: Cones,
}

impl Model for Design {
    ghost use Rattle.std.specs.Coded.{codes};
    ghost use Rattle.net_core.specs.contracts.tree.Choice as choice;
    ghost use Rattle.net_core.specs.contracts.tree.Ground as ground;
    ghost use Rattle.net_core.specs.contracts.tree.GroundExpr as expr;
    ghost use Rattle.net_design.specs.Designs.{DesignValue, IsDesign};

    ghost Value = { DesignValue };

    ghost coded = { Prim.hlevel (codes, choice.the_row.coded, ground.the_row.coded, expr.the_row.coded) };

    ghost view = { λ d. record { elab = d.elab; net = d.net } };

    ghost invariant = { λ d. IsDesign d.name d.ports d.elab d.net d.levels d.cones };
}

/// An order of a net's signals, each after all that it reads within a cycle, as a design keeps it. `CombLoop` says that signals of the
/// circuit read one another in a loop, and names the one of the least signal on any loop, the shortest, and among these the least.
/// The time is linear in the signals and their reads.
pub fn order_signals(alloc: Global, elab: &Elab, net: &Net) -> Result<LevelOrder, GraphFault>
    requires formed { Formed elab.now }
    requires net { NetOf elab.now net.now }
    ensures order { IfOk result (λ order. IsOrder (net_reads net.now) (length net.now.signals) (numbers order)) }
    ensures no_loop { IfOk result (λ order. loop_of elab.now ≡ None) }
    ensures named { (loop : List Signal) → IsErrOf result (GraphFault.CombLoop loop) → loop_of elab.now ≡ Some (numbers loop) }
    ensures least { (loop : List Signal) → IsErrOf result (GraphFault.CombLoop loop) → (x : ℕ) × IsNamedLoop elab.now x (numbers loop) }
{
    let order = levels(alloc, net)?;
    Ok(order)
}

impl Design {
    /// The design of a circuit, from its name, its ports and its net. `CombLoop` says that signals read one another in a loop, as
    /// [`order_signals`] tells. The time is linear in the signals and their reads.
    pub fn new(
        alloc: Global,
        name: Name,
        ports: PortTable,
        elab: Elab,
        net: Net,
    ) -> Result<Design, GraphFault>
        requires sized { Sized elab }
        requires initialised { uninitialised elab ≡ None }
        requires net { NetOf elab net }
        requires name { name ≡ elab.name }
        requires ports { ports ≡ ports_of elab }
        ensures elab { IfOk result (λ d. d.elab ≡ elab) }
        ensures net { IfOk result (λ d. d.net ≡ net) }
        ensures no_loop { IfOk result (λ d. loop_of elab ≡ None) }
        ensures named { (loop : List Signal) → IsErrOf result (GraphFault.CombLoop loop) → loop_of elab ≡ Some (numbers loop) }
        ensures least { (loop : List Signal) → IsErrOf result (GraphFault.CombLoop loop) → (x : ℕ) × IsNamedLoop elab x (numbers loop) }
    {
        let order = order_signals(alloc, &elab, &net)?;
        let design = Design::of_order(alloc, name, ports, elab, net, order)?;
        Ok(design)
    }

    /// The same, once the order of the net's signals is known.
    pub fn of_order(
        alloc: Global,
        name: Name,
        ports: PortTable,
        elab: Elab,
        net: Net,
        order: LevelOrder,
    ) -> Result<Design, Memory>
        requires sized { Sized elab }
        requires initialised { uninitialised elab ≡ None }
        requires net { NetOf elab net }
        requires name { name ≡ elab.name }
        requires ports { ports ≡ ports_of elab }
        requires order { IsOrder (net_reads net) (length net.signals) (numbers order) }
        ensures elab { IfOk result (λ d. d.elab ≡ elab) }
        ensures net { IfOk result (λ d. d.net ≡ net) }
    {
        let cones = cone_table(alloc, &net, &order)?;
        Ok(Design {
            name,
            ports,
            elab,
            net,
            levels: order,
            cones,
        })
    }

    /// An equal design in memory of its own. The time is linear in the circuit's size and its reads.
    pub fn copy(&self, alloc: Global) -> Result<Design, Memory>
        ensures { IfOk result (λ d. d ≡ self.now) }
    {
        let name = self.name.copy(alloc)?;
        let ports = self.ports.copy()?;
        let elab = self.elab.copy(alloc)?;
        let net = self.net.copy(alloc)?;
        let levels = self.levels.copy(alloc)?;
        let cones = self.cones.copy(alloc)?;
        Ok(Design {
            name,
            ports,
            elab,
            net,
            levels,
            cones,
        })
    }

    /// The circuit's name.
    pub fn name(&self) -> &Name
        ensures { result.now ≡ self.now.elab.name }
    {
        &self.name
    }

    /// The ports, by name and in signal order.
    pub fn ports(&self) -> &PortTable
        ensures { result.now ≡ ports_of self.now.elab }
    {
        &self.ports
    }

    /// The circuit. Its widths are given, its sinks are initialised, and it has no loop.
    pub fn elab(&self) -> &Elab
        ensures is { result.now ≡ self.now.elab }
        ensures runs { Runs self.now.elab self.now.net }
    {
        &self.elab
    }

    /// The circuit's net.
    pub fn net(&self) -> &Net
        ensures is { result.now ≡ self.now.net }
        ensures runs { Runs self.now.elab self.now.net }
    {
        &self.net
    }

    /// The net's signals, each after all that it reads within a cycle.
    pub fn levels(&self) -> &LevelOrder
        ensures { IsOrder (net_reads self.now.net) (length self.now.net.signals) (numbers result.now) }
    {
        &self.levels
    }

    /// The cones of the net.
    pub fn cones(&self) -> &Cones
        ensures { ConesOf self.now.net result.now }
    {
        &self.cones
    }

    /// Whether a signal of the circuit depends on an input within a cycle. It takes a constant number of steps.
    pub fn depends(&self, signal: Signal, input: Signal) -> bool
        requires signal { signal.0 < length self.now.elab.signals }
        requires input { IsInput self.now.elab input.0 }
        ensures { result ≡ in_cone self.now.elab signal.0 input.0 }
    {
        self.cones.has(signal, input)
    }

    /// Why a signal of the circuit depends on an input: the shortest list from the signal to the input in which each reads the next,
    /// and among these the least in order of signal numbers. The time and the memory are linear in the circuit's reads.
    pub fn chain(&self, alloc: Global, signal: Signal, input: Signal) -> Result<Seq<Signal>, Memory>
        requires signal { signal.0 < length self.now.elab.signals }
        requires input { IsInput self.now.elab input.0 }
        requires depends { in_cone self.now.elab signal.0 input.0 ≡ true }
        ensures { IfOk result (λ chain. IsChain self.now.elab signal.0 input.0 (numbers chain)) }
    {
        self.cones.chain(alloc, signal, input)
    }
}
