//! The stages of building.
ghost use Rattle.std.specs.Prelude.{◌≡◌, ◌<◌, ◌-◌, ◌^◌, ℕ, List, length, map, Ok, None, Some, IfOk, IfErr, OnOk};
ghost use Rattle.fir_ast.specs.declared.tree.Circuit.{Circuit};
ghost use Rattle.fir_check.specs.Faults as rules;
ghost use Rattle.fir_check.specs.Rules.{circuit_rule};
ghost use Rattle.fir_flat.specs.Elaboration.{elab};
ghost use Rattle.fir_flat.specs.Limits.{Passes};
ghost use Rattle.fir_read.specs.Faults.{FaultFound};
ghost use Rattle.fir_written.specs.Written.{IsWritten};
ghost use Rattle.net_core.specs.Depends.{uninitialised};
ghost use Rattle.net_core.specs.Formed.{Formed, Sized};
ghost use Rattle.net_core.specs.Nets.{net_reads};
ghost use Rattle.net_design.specs.Naming.{loop_of};
ghost use Rattle.net_graph.specs.Graphs.{IsOrder};
ghost use Rattle.net_graph.specs.NetGraphs.{numbers};
ghost use Rattle.net_resolve.specs.Resolved.{NetOf};
ghost use Rattle.design_core.specs.Built.{spelled, ruled, laid_out, measured, initialised, unlooped, built, name_of};
ghost use Rattle.design_core.specs.Refused.{Tells};

use fir_ast::Circuit;
use fir_check::{CheckFault, Checked, check};
use fir_flat::FlatFault;
use fir_formed::flatten;
use fir_read::{ReadFault, read};
use fir_widths::{WidthFault, infer};
use net_core::{Elab, Net, PortTable, Signal};
use net_design::{Design, order_signals};
use net_graph::{GraphFault, LevelOrder};
use net_resolve::{ResolveFault, resolve};
use std::alloc::Global;
use tb_base::{Memory, Name, Seq};
use thiserror::Error;

/// Why a text has no design: the first stage that refuses it, in the order of the variants. Want of memory of any stage is `Memory`
/// alone.
#[derive(Debug, Drop, Error)]
pub enum BuildFault {
    /// The text spells no circuit.
    #[error("{0}")]
    Read(ReadFault),
    /// The circuit breaks a rule.
    #[error("{0}")]
    Check(CheckFault),
    /// Its elaboration passes a limit.
    #[error("{0}")]
    Flat(FlatFault),
    /// Its widths break a rule.
    #[error("{0}")]
    Width(WidthFault),
    /// Some branch gives the signal of this name no connect and no invalidation.
    #[error("a signal isn't initialised")]
    Resolve(Name),
    /// Each of the signals of these names reads the next within a cycle, and the last reads the first.
    #[error("signals read one another in a loop")]
    Loop(Seq<Name>),
    /// There wasn't enough memory to tell.
    #[error("out of memory")]
    Memory(Memory),
}

impl From<Memory> for BuildFault {
    ghost use Rattle.std.specs.Prelude.{◌≡◌};
    ghost use Rattle.design_core.specs.declared.stages.BuildFault.TheVariants as fault;

    ghost from_gives = { λ m e. e ≡ fault.Memory m };

    fn from(memory: Memory) -> BuildFault {
        BuildFault::Memory(memory)
    }
}

/// A fault of reading as one of building.
#[tactic(auto, using(crate::proofs::Told::fault_built))]
fn read_fault(fault: ReadFault) -> BuildFault
    ensures { (text : List ℕ) → FaultFound text fault → Tells (built text) result }
{
    match fault {
        ReadFault::Syntax(place) => BuildFault::Read(ReadFault::Syntax(place)),
        ReadFault::Unsupported(place, form) => BuildFault::Read(ReadFault::Unsupported(
            place, form,
        )),
        ReadFault::NumberTooWide(place) => BuildFault::Read(ReadFault::NumberTooWide(place)),
        ReadFault::TooDeep(place) => BuildFault::Read(ReadFault::TooDeep(place)),
        ReadFault::Memory(memory) => BuildFault::Memory(memory),
    }
}

/// The circuit that a text spells.
#[tactic(auto, using(crate::proofs::Told::found_spelled))]
pub(crate) fn spell(alloc: Global, text: &[u8]) -> Result<Circuit, BuildFault>
    requires { length text.now < 2 ^ 32 - 1 }
    ensures found { IfOk result (λ c. spelled text.now ≡ Ok c) }
    ensures written { IfOk result (λ c. IsWritten c) }
    ensures fault { IfErr result (λ f. Tells (built text.now) f) }
{
    match read(alloc, text) {
        Ok(circuit) => Ok(circuit),
        Err(fault) => Err(read_fault(fault)),
    }
}

/// A broken rule as a fault of building.
fn check_fault(fault: CheckFault) -> BuildFault
    ensures { (c : Circuit) → rules.Tells (circuit_rule c) fault → Tells (ruled c) result }
{
    match fault {
        CheckFault::NoMain(line) => BuildFault::Check(CheckFault::NoMain(line)),
        CheckFault::DoubleName(line) => BuildFault::Check(CheckFault::DoubleName(line)),
        CheckFault::UnknownName(line) => BuildFault::Check(CheckFault::UnknownName(line)),
        CheckFault::WrongKind(line) => BuildFault::Check(CheckFault::WrongKind(line)),
        CheckFault::WrongFlow(line) => BuildFault::Check(CheckFault::WrongFlow(line)),
        CheckFault::ClockUse(line) => BuildFault::Check(CheckFault::ClockUse(line)),
        CheckFault::InstanceCycle(line) => BuildFault::Check(CheckFault::InstanceCycle(line)),
        CheckFault::Memory(memory) => BuildFault::Memory(memory),
    }
}

/// The circuit, if it breaks no rule.
pub(crate) fn judge(alloc: Global, circuit: Circuit) -> Result<Checked, BuildFault>
    ensures kept { IfOk result (λ c. c ≡ circuit) }
    ensures rule { IfOk result (λ c. circuit_rule circuit ≡ None) }
    ensures fault { IfErr result (λ f. Tells (ruled circuit) f) }
{
    match check(alloc, circuit) {
        Ok(checked) => Ok(checked),
        Err(fault) => Err(check_fault(fault)),
    }
}

/// A limit that is passed, as a fault of building.
fn flat_fault(fault: FlatFault) -> BuildFault
    ensures { (c : Circuit) → Passes c fault → Tells (laid_out c) result }
{
    match fault {
        FlatFault::TooManyPorts => BuildFault::Flat(FlatFault::TooManyPorts),
        FlatFault::TooManySignals => BuildFault::Flat(FlatFault::TooManySignals),
        FlatFault::TooManyParts => BuildFault::Flat(FlatFault::TooManyParts),
        FlatFault::Memory(memory) => BuildFault::Memory(memory),
    }
}

/// The elaboration of a circuit that breaks no rule.
pub(crate) fn lay_out(alloc: Global, checked: &Checked) -> Result<Elab, BuildFault>
    requires written { IsWritten checked.now }
    ensures formed { IfOk result (λ e. Formed e) }
    ensures found { IfOk result (λ e. laid_out checked.now ≡ measured e) }
    ensures fault { IfErr result (λ f. Tells (laid_out checked.now) f) }
{
    match flatten(alloc, checked) {
        Ok(elab) => Ok(elab),
        Err(fault) => Err(flat_fault(fault)),
    }
}

/// The same circuit, each signal with its least width.
fn measure(alloc: Global, elab: Elab) -> Result<Elab, BuildFault>
    requires formed { Formed elab }
    ensures sized { IfOk result (λ e. Sized e) }
    ensures found { IfOk result (λ e. measured elab ≡ initialised e) }
    ensures fault { IfErr result (λ f. Tells (measured elab) f) }
{
    match infer(alloc, elab) {
        Ok(sized) => Ok(sized),
        Err(WidthFault::TooWide(line)) => Err(BuildFault::Width(WidthFault::TooWide(line))),
        Err(WidthFault::BadRange(line)) => Err(BuildFault::Width(WidthFault::BadRange(line))),
        Err(WidthFault::Memory(memory)) => Err(BuildFault::Memory(memory)),
    }
}

/// The name of a signal.
fn name_of(alloc: Global, elab: &Elab, signal: Signal) -> Result<Name, Memory>
    ensures { IfOk result (λ n. n ≡ name_of elab.now signal.0) }
{
    match elab.signals.items().get(signal.0 as usize) {
        Some(info) => info.name.copy(alloc),
        None => Ok(Name::of(Vec::new(alloc))),
    }
}

/// The names of signals.
fn names_of(alloc: Global, elab: &Elab, signals: &[Signal]) -> Result<Seq<Name>, Memory>
    ensures { IfOk result (λ names. names ≡ map (λ s. name_of elab.now s.0) signals.now) }
{
    let mut names = Vec::new(alloc);
    for signal in signals {
        let name = name_of(alloc, elab, *signal)?;
        names.push(name)?;
    }
    Ok(Seq::of(names))
}

/// The net of a circuit, each of whose sinks is initialised.
#[tactic(auto, using(crate::proofs::Told::open_initialised))]
fn net_of(alloc: Global, elab: &Elab) -> Result<Net, BuildFault>
    requires { Sized elab.now }
    ensures net { IfOk result (λ net. NetOf elab.now net) }
    ensures initialised { IfOk result (λ net. uninitialised elab.now ≡ None) }
    ensures fault { IfErr result (λ f. Tells (initialised elab.now) f) }
{
    match resolve(alloc, elab) {
        Ok(net) => Ok(net),
        Err(ResolveFault::NotInitialised(signal)) => {
            let name = name_of(alloc, elab, signal)?;
            Err(BuildFault::Resolve(name))
        }
        Err(ResolveFault::Memory(memory)) => Err(BuildFault::Memory(memory)),
    }
}

/// The order of the net's signals, if none of the circuit's read one another in a loop.
fn order_of(alloc: Global, elab: &Elab, net: &Net) -> Result<LevelOrder, BuildFault>
    requires sized { Sized elab.now }
    requires net { NetOf elab.now net.now }
    ensures order { IfOk result (λ order. IsOrder (net_reads net.now) (length net.now.signals) (numbers order)) }
    ensures no_loop { IfOk result (λ order. loop_of elab.now ≡ None) }
    ensures fault { IfErr result (λ f. Tells (unlooped elab.now) f) }
{
    match order_signals(alloc, elab, net) {
        Ok(order) => Ok(order),
        Err(GraphFault::CombLoop(signals)) => {
            let names = names_of(alloc, elab, signals.items())?;
            Err(BuildFault::Loop(names))
        }
        Err(GraphFault::Memory(memory)) => Err(BuildFault::Memory(memory)),
    }
}

/// The design of a circuit whose widths are given.
fn design_of(alloc: Global, elab: Elab) -> Result<Design, BuildFault>
    requires { Sized elab }
    ensures found { IfOk result (λ d. initialised elab ≡ Ok d.elab) }
    ensures fault { IfErr result (λ f. Tells (initialised elab) f) }
{
    let net = net_of(alloc, &elab)?;
    let order = order_of(alloc, &elab, &net)?;
    let name = elab.name.copy(alloc)?;
    let ports = PortTable::of(alloc, &elab)?;
    let design = Design::of_order(alloc, name, ports, elab, net, order)?;
    Ok(design)
}

/// The design of the circuit that a text spells, or the first refusal in the order of the stages: reading, the rules of a circuit, the
/// limits of its elaboration, widths, initialised sinks, loops. The text has fewer than 2^32 - 1 bytes. The time and the memory are
/// near linear in the size of the text and of the elaboration.
pub fn build(alloc: Global, text: &[u8]) -> Result<Design, BuildFault>
    requires { length text.now < 2 ^ 32 - 1 }
    ensures ok { IfOk result (λ d. built text.now ≡ Ok d.elab) }
    ensures fault { IfErr result (λ f. Tells (built text.now) f) }
{
    let circuit = spell(alloc, text)?;
    let checked = judge(alloc, circuit)?;
    let elab = lay_out(alloc, &checked)?;
    let sized = measure(alloc, elab)?;
    design_of(alloc, sized)
}
