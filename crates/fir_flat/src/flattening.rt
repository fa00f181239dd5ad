//! The elaboration itself: the main module, expanded until nothing is to come.
ghost use Rattle.std.specs.Prelude.{◌≡◌, ◌<◌, ℕ, length, map, IfOk, IfErr, OnOk};
ghost use Rattle.fir_flat.specs.Modules.{place_of, targets_of, Ranked};
ghost use Rattle.fir_flat.specs.Elaboration.{opened, elab};
ghost use Rattle.fir_flat.specs.Flattening.{Expands, IsWhole};
ghost use Rattle.fir_flat.specs.Limits.{IsRanked, Fits, Passes};
ghost use Rattle.fir_flat.specs.Signals.{seen_entry, seen_opening};
ghost use Rattle.fir_flat.specs.Writing.{CountsSignals};

use crate::directory::Directory;
use crate::homes::signal_counts;
use crate::limits::{FlatFault, judge_limits};
use crate::own_body::write_own;
use crate::own_entries::list_own;
use crate::port_rows::{PortRow, port_rows};
use crate::signals::{Entry, Opening};
use crate::types::Types;
use fir_ast::{Circuit, Ty};
use net_core::{Elab, Ground, SignalInfo};
use std::alloc::Global;
use tb_base::{Memory, Name, Seq};

/// An elaboration under way: what is written, and what is still to come, the next last. A list and
/// no recursion, so that instances may lie in one another at any depth.
#[derive(Drop)]
struct Course {
    signals: Vec<SignalInfo>,
    body: Vec<Ground>,
    to_come: Vec<Entry>,
}

impl Course {
    /// Writes what an instance has itself. What it declares is to come next.
    fn open(
        &mut self,
        alloc: Global,
        modules: &Directory,
        counts: &[u64],
        opening: &Opening,
    ) -> Result<(), Memory>
        requires ranked { (rank : ℕ → ℕ) × Ranked rank (targets_of modules.now) (length modules.now) }
        requires counts { CountsSignals modules.now counts.now }
        ensures { OnOk result (Expands modules.now (opened (seen_opening opening.now)) self.old self.new) }
    {
        let (place, first, top) = (opening.target, opening.first, opening.top);
        write_own(alloc, modules, counts, place, first, top, &mut self.body)?;
        let mut own = list_own(alloc, modules, counts, opening)?;
        own.reverse();
        self.to_come.append(&mut own)?;
        Ok(())
    }

    fn expand(
        &mut self,
        alloc: Global,
        modules: &Directory,
        counts: &[u64],
        entry: Entry,
    ) -> Result<(), Memory>
        requires ranked { (rank : ℕ → ℕ) × Ranked rank (targets_of modules.now) (length modules.now) }
        requires counts { CountsSignals modules.now counts.now }
        ensures { OnOk result (Expands modules.now (seen_entry entry) self.old self.new) }
    {
        match entry {
            Entry::Made(info) => {
                self.signals.push(info)?;
                Ok(())
            }
            Entry::Instance(opening) => self.open(alloc, modules, counts, &opening),
        }
    }
}

/// All of an instance: its signals, and its statements with those of the instances in it.
fn lay_out(
    alloc: Global,
    modules: &Directory,
    counts: &[u64],
    opening: Opening,
) -> Result<Course, Memory>
    requires ranked { (rank : ℕ → ℕ) × Ranked rank (targets_of modules.now) (length modules.now) }
    requires counts { CountsSignals modules.now counts.now }
    ensures { IfOk result (λ course. IsWhole modules.now (seen_opening opening) course) }
{
    let mut course = Course {
        signals: Vec::new(alloc),
        body: Vec::new(alloc),
        to_come: Vec::new(alloc),
    };
    course.to_come.push(Entry::Instance(opening))?;
    while let Some(entry) = course.to_come.pop() {
        course.expand(alloc, modules, counts, entry)?;
    }
    Ok(course)
}

/// The elaboration of a circuit: its ground signals in text order, and its statements in canonical
/// order, those of an instance behind those of the module that it lies in. `Err` has the first limit
/// that it passes, as `check_limits` says, or want of memory. No module may contain itself, and the
/// main module is there. The time is linear in the size of the elaboration, of its names and of the
/// expanded modules' text, but for the look-ups of fields; the depth of instances costs no stack.
pub fn flatten(alloc: Global, circuit: &Circuit) -> Result<Elab, FlatFault>
    requires ranked { (rank : ℕ → ℕ) × IsRanked rank circuit.now }
    requires main { place_of circuit.now.modules circuit.now.name < length circuit.now.modules }
    ensures ok { IfOk result (λ e. e ≡ elab circuit.now) }
    ensures fits { IfOk result (λ e. Fits circuit.now) }
    ensures err { IfErr result (λ fault. Passes circuit.now fault) }
{
    let plain = Ty::UInt(None);
    let types = Types::new(alloc, circuit.modules.items(), &plain)?;
    flatten_by_types(alloc, circuit, &types)
}

/// `flatten`, where the types that the circuit declares are known.
fn flatten_by_types(alloc: Global, circuit: &Circuit, types: &Types) -> Result<Elab, FlatFault>
    requires ranked { (rank : ℕ → ℕ) × IsRanked rank circuit.now }
    requires main { place_of circuit.now.modules circuit.now.name < length circuit.now.modules }
    ensures ok { IfOk result (λ e. e ≡ elab circuit.now) }
    ensures fits { IfOk result (λ e. Fits circuit.now) }
    ensures err { IfErr result (λ fault. Passes circuit.now fault) }
{
    let ports = port_rows(alloc, types, circuit.modules.items())?;
    flatten_by_ports(alloc, circuit, types, &ports)
}

/// `flatten`, where the ports of each module are known besides.
fn flatten_by_ports(
    alloc: Global,
    circuit: &Circuit,
    types: &Types,
    ports: &[PortRow],
) -> Result<Elab, FlatFault>
    requires ports { ports.now ≡ map (λ m. m.ports) circuit.now.modules }
    requires ranked { (rank : ℕ → ℕ) × IsRanked rank circuit.now }
    requires main { place_of circuit.now.modules circuit.now.name < length circuit.now.modules }
    ensures ok { IfOk result (λ e. e ≡ elab circuit.now) }
    ensures fits { IfOk result (λ e. Fits circuit.now) }
    ensures err { IfErr result (λ fault. Passes circuit.now fault) }
{
    let modules = Directory::new(alloc, circuit.modules.items(), types, ports)?;
    judge_limits(alloc, circuit, &modules)?;
    let main = Opening {
        target: modules.place_of(circuit.name.bytes()),
        first: 0,
        prefix: Name::of(Vec::new(alloc)),
        top: true,
    };
    let counts = signal_counts(alloc, &modules)?;
    let course = lay_out(alloc, &modules, &counts, main)?;
    Ok(Elab {
        name: circuit.name.copy(alloc)?,
        signals: Seq::of(course.signals),
        body: Seq::of(course.body),
    })
}
