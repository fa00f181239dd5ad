//! The limits of an elaboration, judged by counts alone, before anything is built.
ghost use Rattle.std.specs.Prelude.{◌≡◌, ◌<◌, ℕ, length, map, IfOk, IfErr};
ghost use Rattle.fir_flat.specs.Counts.{cut};
ghost use Rattle.fir_flat.specs.Modules.{place_of, targets_of, signals_in, Ranked};
ghost use Rattle.fir_flat.specs.Measures.{weight_in};
ghost use Rattle.fir_flat.specs.Homes.{count, IsRanked as AreRanked};
ghost use Rattle.fir_flat.specs.Limits.{IsRanked, Fits, Passes, CountsElaboration};
ghost use Rattle.fir_flat.specs.Elaboration.{signals, parts};

use crate::directory::Directory;
use crate::homes::{Home, capped_counts, count_at, part_homes, signal_homes};
use crate::port_rows::{PortRow, port_rows};
use crate::sizes::size_of_ports;
use crate::types::Types;
use fir_ast::{Circuit, Ty};
use std::alloc::Global;
use tb_base::Memory;
use thiserror::Error;

/// Why a circuit isn't elaborated.
#[derive(Debug, Drop, Error)]
pub enum FlatFault {
    /// The main module has more than 256 ground ports.
    #[error("too many ports")]
    TooManyPorts,
    /// There are more than 65,536 signals.
    #[error("too many signals")]
    TooManySignals,
    /// There are more than 4,194,304 parts.
    #[error("too many parts")]
    TooManyParts,
    /// Want of memory.
    #[error("out of memory")]
    Memory(Memory),
}

impl From<Memory> for FlatFault {
    ghost use Rattle.std.specs.Prelude.{◌≡◌};
    ghost use Rattle.fir_flat.specs.declared.limits.FlatFault.TheVariants as fault;

    ghost from_gives = { λ m e. e ≡ fault.Memory m };

    fn from(memory: Memory) -> FlatFault {
        FlatFault::Memory(memory)
    }
}

/// The count of the module at a place, with its instances.
fn count_with_instances(alloc: Global, homes: &[Home], place: usize) -> Result<u64, Memory>
    requires ranked { (rank : ℕ → ℕ) × AreRanked rank homes.now }
    requires at { place < length homes.now }
    ensures { IfOk result (λ n. n ≡ cut (count homes.now place)) }
{
    let counts = capped_counts(alloc, homes)?;
    Ok(count_at(&counts, place))
}

/// The signals of an instance of the module at a place.
fn signals_of(alloc: Global, modules: &Directory, place: usize) -> Result<u64, Memory>
    requires ranked { (rank : ℕ → ℕ) × Ranked rank (targets_of modules.now) (length modules.now) }
    requires at { place < length modules.now }
    ensures { IfOk result (λ n. n ≡ cut (signals_in modules.now place)) }
{
    let homes = signal_homes(alloc, modules)?;
    let signals = count_with_instances(alloc, &homes, place)?;
    Ok(signals)
}

/// The parts of an instance of the module at a place.
fn parts_of(alloc: Global, modules: &Directory, place: usize) -> Result<u64, Memory>
    requires ranked { (rank : ℕ → ℕ) × Ranked rank (targets_of modules.now) (length modules.now) }
    requires at { place < length modules.now }
    ensures { IfOk result (λ n. n ≡ cut (weight_in modules.now place)) }
{
    let homes = part_homes(alloc, modules)?;
    let parts = count_with_instances(alloc, &homes, place)?;
    Ok(parts)
}

/// A law: the signals and parts that are counted are those of the elaboration.
pub fn the_counts_are_exact(circuit: &Circuit)
    requires { (rank : ℕ → ℕ) × IsRanked rank circuit.now }
    ensures { CountsElaboration circuit.now }
{}

/// The signals of the elaboration.
fn count_signals(alloc: Global, circuit: &Circuit, modules: &Directory) -> Result<u64, Memory>
    requires modules { modules.now ≡ circuit.now.modules }
    requires ranked { (rank : ℕ → ℕ) × IsRanked rank circuit.now }
    requires main { place_of circuit.now.modules circuit.now.name < length circuit.now.modules }
    ensures { IfOk result (λ n. n ≡ cut (signals circuit.now)) }
{
    let place = modules.place_of(circuit.name.bytes());
    let signals = signals_of(alloc, modules, place)?;
    Ok(signals)
}

/// The parts of the elaboration.
fn count_parts(alloc: Global, circuit: &Circuit, modules: &Directory) -> Result<u64, Memory>
    requires modules { modules.now ≡ circuit.now.modules }
    requires ranked { (rank : ℕ → ℕ) × IsRanked rank circuit.now }
    requires main { place_of circuit.now.modules circuit.now.name < length circuit.now.modules }
    ensures { IfOk result (λ n. n ≡ cut (parts circuit.now)) }
{
    let place = modules.place_of(circuit.name.bytes());
    let parts = parts_of(alloc, modules, place)?;
    Ok(parts)
}

/// Whether the elaboration of the circuit stays within the limits: `Err` has the first of them that
/// it passes, in the order of the variants. Each module is counted once, however many instances
/// there are of it, and nothing is built. No module may contain itself, and the main module is there.
pub fn check_limits(alloc: Global, circuit: &Circuit) -> Result<(), FlatFault>
    requires ranked { (rank : ℕ → ℕ) × IsRanked rank circuit.now }
    requires main { place_of circuit.now.modules circuit.now.name < length circuit.now.modules }
    ensures ok { IfOk result (λ unit. Fits circuit.now) }
    ensures err { IfErr result (λ fault. Passes circuit.now fault) }
{
    let plain = Ty::UInt(None);
    let types = Types::new(alloc, circuit.modules.items(), &plain)?;
    check_by_types(alloc, circuit, &types)
}

/// `check_limits`, where the types that the circuit declares are known.
fn check_by_types(alloc: Global, circuit: &Circuit, types: &Types) -> Result<(), FlatFault>
    requires ranked { (rank : ℕ → ℕ) × IsRanked rank circuit.now }
    requires main { place_of circuit.now.modules circuit.now.name < length circuit.now.modules }
    ensures ok { IfOk result (λ unit. Fits circuit.now) }
    ensures err { IfErr result (λ fault. Passes circuit.now fault) }
{
    let ports = port_rows(alloc, types, circuit.modules.items())?;
    check_by_ports(alloc, circuit, types, &ports)
}

/// `check_limits`, where the ports of each module are known besides.
fn check_by_ports(
    alloc: Global,
    circuit: &Circuit,
    types: &Types,
    ports: &[PortRow],
) -> Result<(), FlatFault>
    requires ports { ports.now ≡ map (λ m. m.ports) circuit.now.modules }
    requires ranked { (rank : ℕ → ℕ) × IsRanked rank circuit.now }
    requires main { place_of circuit.now.modules circuit.now.name < length circuit.now.modules }
    ensures ok { IfOk result (λ unit. Fits circuit.now) }
    ensures err { IfErr result (λ fault. Passes circuit.now fault) }
{
    let modules = Directory::new(alloc, circuit.modules.items(), types, ports)?;
    judge_limits(alloc, circuit, &modules)
}

/// Whether the elaboration stays within the limits, where these are the circuit's modules.
pub(crate) fn judge_limits(
    alloc: Global,
    circuit: &Circuit,
    modules: &Directory,
) -> Result<(), FlatFault>
    requires modules { modules.now ≡ circuit.now.modules }
    requires ranked { (rank : ℕ → ℕ) × IsRanked rank circuit.now }
    requires main { place_of circuit.now.modules circuit.now.name < length circuit.now.modules }
    ensures ok { IfOk result (λ unit. Fits circuit.now) }
    ensures err { IfErr result (λ fault. Passes circuit.now fault) }
{
    let place = modules.place_of(circuit.name.bytes());
    if size_of_ports(modules.ports_at(place)) > 256 {
        return Err(FlatFault::TooManyPorts);
    }
    if count_signals(alloc, circuit, modules)? > 65_536 {
        return Err(FlatFault::TooManySignals);
    }
    if count_parts(alloc, circuit, modules)? > 4_194_304 {
        return Err(FlatFault::TooManyParts);
    }
    Ok(())
}
