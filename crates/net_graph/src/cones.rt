//! Cones: on which inputs each signal depends within a cycle.
ghost use Rattle.std.specs.Prelude.{◌≡◌, ◌<◌, ◌||◌, ◌&&◌, nat_eq, ℕ, length, true, IfOk};
ghost use Rattle.net_core.specs.declared.tree.Net.{Net};
ghost use Rattle.net_core.specs.Nets.{net_reads};
ghost use Rattle.net_core.specs.Signals;
ghost use Rattle.net_graph.specs.Graphs.{reads_in, IsOrder};
ghost use Rattle.net_graph.specs.NetGraphs.{numbers, IsNumbered, OwnReads};
ghost use Rattle.net_graph.specs.Reaching.{in_set, in_row_of, input_at, RightAt, ConesOf, DependsOn};
ghost use Rattle.net_graph.specs.Loops.{IsNamedChain};
ghost use Rattle.net_graph.specs.Uniting.{in_one_of};

use crate::inputs::InputSet;
use crate::level::{LevelOrder, signals_of};
use crate::mention::read_lists;
use crate::search::least_chain;
use net_core::{Net, Role, Signal, SignalInfo};
use std::alloc::Global;
use tb_base::{Memory, Seq};

/// The cones of a net.
#[derive(Debug, Drop)]
pub struct Cones {
    /// How many of the signals are the circuit's.
    own: u32,
    /// What each signal reads.
    lists: Seq<Seq<u32>>,
    /// For each signal the inputs on which it depends.
    sets: Seq<InputSet>,
}

/// The set of a number.
fn set_at(sets: &[InputSet], x: usize) -> InputSet
    ensures { (p : ℕ) → in_set result p ≡ in_row_of sets.now x p }
{
    match sets.get(x) {
        Some(set) => *set,
        None => InputSet::empty(),
    }
}

/// All that is in the sets of the numbers of a list.
fn all_of(list: &[u32], sets: &[InputSet]) -> InputSet
    ensures { (p : ℕ) → in_set result p ≡ in_one_of list.now sets.now p }
{
    let mut all = InputSet::empty();
    for y in list {
        all = all.union(set_at(sets, *y as usize));
    }
    all
}

/// The set of a number that reads the list, where all that it reads has its set.
fn cone_of(list: &[u32], input: bool, x: u32, sets: &[InputSet]) -> InputSet
    requires { input ≡ true → x < 256 }
    ensures { (p : ℕ) → in_set result p ≡ ((input && nat_eq p x) || in_one_of list.now sets.now p) }
{
    let below = all_of(list, sets);
    if input {
        InputSet::of(x).union(below)
    } else {
        below
    }
}

fn is_input(signals: &[SignalInfo], x: usize) -> bool
    ensures { result ≡ Signals.is_input (Signals.info signals.now x).role }
{
    match signals.get(x) {
        Some(signal) => signal.role == Role::Input,
        None => false,
    }
}

/// Gives each number its set, in an order in which each comes after all that it reads.
fn fill(lists: &[Seq<u32>], signals: &[SignalInfo], order: &[Signal], sets: &mut [InputSet])
    requires order { IsOrder (reads_in lists.now) (length lists.now) (numbers order.now) }
    requires inputs { (p : ℕ) → Signals.is_input (Signals.info signals.now p).role ≡ true → p < 256 }
    requires places { length sets.old ≡ length lists.now }
    ensures places { length sets.new ≡ length lists.now }
    ensures right { (x : ℕ) → x < length lists.now → RightAt (reads_in lists.now) (λ p. Signals.is_input (Signals.info signals.now p).role) sets.new x }
{
    for signal in order {
        let x = signal.0 as usize;
        sets[x] = cone_of(lists[x].items(), is_input(signals, x), signal.0, sets);
    }
}

/// The cones of a net, whose order is given. The time is linear in the signals and their reads, and the table keeps 32
/// bytes for each signal and 4 for each read.
pub fn cone_table(alloc: Global, net: &Net, levels: &LevelOrder) -> Result<Cones, Memory>
    requires net { IsNumbered net.now }
    requires inputs { (p : ℕ) → input_at net.now p ≡ true → p < 256 }
    requires levels { IsOrder (net_reads net.now) (length net.now.signals) (numbers levels.now) }
    ensures { IfOk result (λ cones. ConesOf net.now cones) }
{
    let lists = read_lists(alloc, net)?;
    let mut sets = vec![in alloc; InputSet::empty(); lists.len()]?;
    fill(&lists, net.signals.items(), levels.order(), &mut sets);
    Ok(Cones {
        own: net.own,
        lists: Seq::of(lists),
        sets: Seq::of(sets),
    })
}

fn copy_lists(alloc: Global, lists: &[Seq<u32>]) -> Result<Vec<Seq<u32>>, Memory>
    ensures { IfOk result (λ v. v.items ≡ lists.now) }
{
    let mut copies = Vec::new(alloc);
    for list in lists {
        let copy = list.copy(alloc)?;
        copies.push(copy)?;
    }
    Ok(copies)
}

impl Cones {
    /// An equal table in memory of its own. The time is linear in the signals and their reads.
    pub fn copy(&self, alloc: Global) -> Result<Cones, Memory>
        ensures { IfOk result (λ c. c ≡ self.now) }
    {
        let lists = copy_lists(alloc, self.lists.items())?;
        let sets = self.sets.copy(alloc)?;
        Ok(Cones {
            own: self.own,
            lists: Seq::of(lists),
            sets,
        })
    }

    /// Whether the signal depends on the input within a cycle. Constant time; it takes no memory.
    pub fn has(&self, signal: Signal, input: Signal) -> bool
        ensures { result ≡ in_row_of self.now.sets signal.0 input.0 }
    {
        set_at(self.sets.items(), signal.0 as usize).contains(input.0)
    }

    /// The shortest list from the signal to the input in which each reads the next, and among these the least in order
    /// of signal numbers. It names signals of the circuit alone: a read over a condition is one step. The time and the
    /// memory are linear in the signals and their reads.
    pub fn chain(&self, alloc: Global, signal: Signal, input: Signal) -> Result<Seq<Signal>, Memory>
        requires { (net : Net) × DependsOn net self.now signal.0 input.0 }
        ensures { (net : Net) → DependsOn net self.now signal.0 input.0 → IfOk result (λ chain. IsNamedChain (OwnReads net) signal.0 input.0 (numbers chain)) }
    {
        let path = least_chain(alloc, self.lists.items(), self.own, signal.0, input.0)?;
        let chain = signals_of(alloc, &path)?;
        Ok(chain)
    }
}
