//! The Clock inputs of modules, by their names.
ghost use Rattle.std.specs.Prelude.{◌≡◌, ◌++◌, ◌&&◌, [], map, OnOk, IfOk};
ghost use Rattle.fir_check.specs.Names.{kept};
ghost use Rattle.fir_check.specs.Rules.{is_clock_input};
ghost use Rattle.fir_check.specs.Driven.{clock_inputs, clock_names, names_seen, all_seen};
ghost use Rattle.fir_check.specs.Names.{firsts};
ghost use Rattle.fir_check.specs.Scopes.{port_name};

use crate::name_table::NameTable;
use crate::ports::is_clock_input;
use fir_ast::{Module, Port};
use std::alloc::Global;
use tb_base::Memory;

/// Adds a port's name, if it is a Clock input and no earlier port has the name.
fn keep_clock(
    alloc: Global,
    is_new: bool,
    port: &Port,
    clocks: &mut Vec<Vec<u8>>,
) -> Result<(), Memory>
    ensures { OnOk result (names_seen clocks.new ≡ names_seen clocks.old ++ kept (is_new && is_clock_input port.now) port.now.name []) }
{
    if is_new && is_clock_input(port) {
        let name = Vec::from_slice(alloc, port.name.bytes())?;
        clocks.push(name)?;
    }
    Ok(())
}

/// The Clock inputs among ports. A port whose name an earlier one has is passed over.
fn clock_inputs_of(alloc: Global, ports: &[Port]) -> Result<Vec<Vec<u8>>, Memory>
    ensures { IfOk result (λ clocks. names_seen clocks ≡ clock_names (firsts port_name ports.now)) }
{
    let mut table = NameTable::new(alloc);
    let mut clocks = Vec::new(alloc);
    for (k, port) in ports.iter().enumerate() {
        let is_new = table.add(alloc, port.name.bytes(), k)?;
        keep_clock(alloc, is_new, port, &mut clocks)?;
    }
    Ok(clocks)
}

/// The names of the Clock inputs of each module, in the order of the modules. Takes time and memory
/// linear in the ports.
pub fn clock_inputs(alloc: Global, modules: &[Module]) -> Result<Vec<Vec<Vec<u8>>>, Memory>
    ensures { IfOk result (λ all. all_seen all.items ≡ map clock_inputs modules.now) }
{
    let mut all = Vec::new(alloc);
    for home in modules {
        let clocks = clock_inputs_of(alloc, home.ports.items())?;
        all.push(clocks)?;
    }
    Ok(all)
}
