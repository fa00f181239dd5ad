//! The order in which the signals of a net settle.
ghost use Rattle.std.specs.Prelude.{◌≡◌, ℕ, List, length, IfOk, IsErrOf};
ghost use Rattle.net_core.specs.declared.ports.Signal.{Signal};
ghost use Rattle.net_core.specs.Nets.{net_reads};
ghost use Rattle.net_graph.specs.declared.level.GraphFault;
ghost use Rattle.net_graph.specs.Graphs.{IsOrder};
ghost use Rattle.net_graph.specs.Loops.{NoLoops, IsNamedLoop};
ghost use Rattle.net_graph.specs.NetGraphs.{numbers, IsNumbered, OwnReads};

use crate::mention::read_lists;
use crate::order::furthest_order;
use crate::readers::readers_of;
use crate::search::least_loop;
use net_core::{Net, Signal};
use std::alloc::Global;
use std::marker::Model;
use tb_base::{Memory, Seq};
use thiserror::Error;

/// Why a net has no order.
#[derive(Debug, Drop, Error)]
pub enum GraphFault {
    /// Each of these signals reads the next within a cycle, and the last reads the first.
    #[error("a loop of signals")]
    CombLoop(Seq<Signal>),
    /// There wasn't enough memory.
    #[error("out of memory")]
    Memory(Memory),
}

impl From<Memory> for GraphFault {
    ghost use Rattle.std.specs.Prelude.{◌≡◌};
    ghost use Rattle.net_graph.specs.declared.level.GraphFault.TheVariants as fault;

    ghost from_gives = { λ m e. e ≡ fault.Memory m };

    fn from(memory: Memory) -> GraphFault {
        GraphFault::Memory(memory)
    }
}

/// An order of the signals of a net. Contracts see it as the list of the signals.
#[derive(Debug, Drop)]
pub struct LevelOrder {
    order: Seq<Signal>,
}

impl Model for LevelOrder {
    ghost use Rattle.std.specs.Prelude.{List};
    ghost use Rattle.net_core.specs.declared.ports.Signal.{Signal};

    ghost Value = { List Signal };

    ghost view = { λ o. o.order };
}

impl LevelOrder {
    /// The signals, in their order.
    pub fn order(&self) -> &[Signal]
        ensures { result.now ≡ self.now }
    {
        self.order.items()
    }

    /// An equal order in memory of its own. The time is linear in its length.
    pub fn copy(&self, alloc: Global) -> Result<LevelOrder, Memory>
        ensures { IfOk result (λ o. o ≡ self.now) }
    {
        let order = self.order.copy(alloc)?;
        Ok(LevelOrder { order })
    }
}

pub(crate) fn signals_of(alloc: Global, order: &[u32]) -> Result<Seq<Signal>, Memory>
    ensures { IfOk result (λ signals. numbers signals ≡ order.now) }
{
    let mut signals = Vec::with_capacity(alloc, order.len())?;
    for x in order {
        signals.push(Signal(*x))?;
    }
    Ok(Seq::of(signals))
}

/// Every signal of the net once, each after all that its equation reads in the cycle.
///
/// `CombLoop` comes exactly where the reads between the circuit's signals, directly or over a condition, have a cycle.
/// It lists the loop that begins at the least signal on any, is shortest, and is least in order of signal numbers among
/// those. The first signal isn't repeated.
///
/// The time and the memory are linear in the signals and their reads.
pub fn levels(alloc: Global, net: &Net) -> Result<LevelOrder, GraphFault>
    requires { IsNumbered net.now }
    ensures order { IfOk result (λ order. IsOrder (net_reads net.now) (length net.now.signals) (numbers order)) }
    ensures no_loop { IfOk result (λ _. NoLoops (OwnReads net.now)) }
    ensures named { (loop : List Signal) → IsErrOf result (GraphFault.CombLoop loop) → (x : ℕ) × IsNamedLoop (OwnReads net.now) x (numbers loop) }
{
    let lists = read_lists(alloc, net)?;
    let readers = readers_of(alloc, &lists)?;
    let order = furthest_order(alloc, &lists, &readers)?;
    if order.len() < lists.len() {
        if let Some(found) = least_loop(alloc, &lists, &readers, net.own)? {
            return Err(GraphFault::CombLoop(signals_of(alloc, &found)?));
        }
    }
    Ok(LevelOrder {
        order: signals_of(alloc, &order)?,
    })
}
