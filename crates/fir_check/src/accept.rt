//! The rules that a circuit keeps before it is elaborated, all at once.
ghost use Rattle.std.specs.Prelude.{◌≡◌, None, Some, flat_map, map, option_map, OnOk, IfOk, IfErr};
ghost use Rattle.fir_check.specs.Faults.{Tells};
ghost use Rattle.fir_check.specs.Rules.{circuit_rule, no_main_lines};
ghost use Rattle.fir_check.specs.Places.{break_seen, least, lowered, place};
ghost use Rattle.fir_check.specs.Driven.{clock_inputs, all_seen};
ghost use Rattle.fir_check.specs.Ports.{all_port_breaks, named_breaks};
ghost use Rattle.fir_check.specs.Scopes.{module_named, ports_type};
ghost use Rattle.fir_check.specs.Seen.{type_at};
ghost use Rattle.fir_check.specs.Numbers.{ComesNext, types_in};
ghost use Rattle.fir_check.specs.Tables.{NamesModules};
ghost use Rattle.fir_check.specs.Walking.{all_body_breaks};

use crate::best::{Best, Break, Rule, least_place_decides};
use crate::checked::Checked;
use crate::clock_inputs::clock_inputs;
use crate::cycles::note_cycles;
use crate::declared_types::{Numbering, number_all};
use crate::instance_types::instance_types;
use crate::main_module::missing_main;
use crate::name_table::{NameTable, name_modules};
use crate::numbers::NumberTypes;
use crate::ports::{note_main_ports, note_ports};
use crate::sinks::port_sinks;
use crate::surroundings::Surroundings;
use crate::walk::note_statements;
use fir_ast::{Circuit, Module};
use std::alloc::Global;
use tb_base::Memory;
use thiserror::Error;

/// Why a circuit isn't accepted. Each but the last has the least line that breaks a rule, and is the
/// first of the rules that this line breaks.
#[derive(Debug, Drop, Error)]
pub enum CheckFault {
    /// No module has the circuit's name.
    #[error("line {0}: no module has the circuit's name")]
    NoMain(u32),
    /// A name is declared a second time.
    #[error("line {0}: a name is declared a second time")]
    DoubleName(u32),
    /// A name isn't known where it is used.
    #[error("line {0}: a name isn't known")]
    UnknownName(u32),
    /// A type, a sign or a shape doesn't fit.
    #[error("line {0}: a type, a sign or a shape doesn't fit")]
    WrongKind(u32),
    /// What is driven may not be driven.
    #[error("line {0}: what is driven may not be driven")]
    WrongFlow(u32),
    /// A clock is used in another way than as a clock.
    #[error("line {0}: a clock is used in another way than as a clock")]
    ClockUse(u32),
    /// An instance lies on a cycle of modules.
    #[error("line {0}: an instance lies on a cycle of modules")]
    InstanceCycle(u32),
    /// There wasn't enough memory to tell.
    #[error("out of memory")]
    Memory(Memory),
}

impl From<Memory> for CheckFault {
    ghost use Rattle.fir_check.specs.declared.accept.CheckFault.TheVariants as fault;

    ghost from_gives = { λ m e. e ≡ fault.Memory m };

    fn from(memory: Memory) -> CheckFault {
        CheckFault::Memory(memory)
    }
}

/// The refusal that tells of a break.
fn fault_of(found: Break) -> CheckFault
    ensures { Tells (Some (break_seen found)) result }
{
    match found.rule {
        Rule::NoMain => CheckFault::NoMain(found.line),
        Rule::DoubleName => CheckFault::DoubleName(found.line),
        Rule::UnknownName => CheckFault::UnknownName(found.line),
        Rule::WrongKind => CheckFault::WrongKind(found.line),
        Rule::WrongFlow => CheckFault::WrongFlow(found.line),
        Rule::ClockUse => CheckFault::ClockUse(found.line),
        Rule::InstanceCycle => CheckFault::InstanceCycle(found.line),
    }
}

/// Takes note of a circuit without main module.
fn note_missing_main(circuit: &Circuit, best: &mut Best)
    ensures { best.new ≡ least best.old (map (place Rule.NoMain) (no_main_lines circuit.now)) }
{
    if let Some(line) = missing_main(circuit) {
        best.note(Rule::NoMain, line);
    }
}

/// Takes note of the ports of the modules that break a rule.
fn note_all_ports(alloc: Global, modules: &[Module], best: &mut Best) -> Result<(), Memory>
    ensures { OnOk result (best.new ≡ lowered best.old (all_port_breaks modules.now)) }
{
    for home in modules {
        note_ports(alloc, home.ports.items(), best)?;
    }
    Ok(())
}

/// Takes note of the main module's ports that break a rule on these alone.
fn note_ports_of_main(
    alloc: Global,
    name: &[u8],
    modules: &[Module],
    table: &NameTable,
    best: &mut Best,
)
    requires { NamesModules modules.now table.now }
    ensures { best.new ≡ lowered best.old (named_breaks (module_named name.now modules.now)) }
{
    if let Some(number) = table.find(name) {
        note_main_ports(alloc, modules[number].ports.items(), best);
    }
}

/// Takes note of the statements of the modules that break a rule, where the types are numbered.
fn note_numbered_statements(
    alloc: Global,
    modules: &[Module],
    table: &NameTable,
    numbering: &Numbering,
    clocks: &[Vec<Vec<u8>>],
    best: &mut Best,
) -> Result<(), Memory>
    requires table { NamesModules modules.now table.now }
    requires instances { map (type_at numbering.now.types) numbering.now.instances.items ≡ map ports_type modules.now }
    requires clocks { all_seen clocks.now ≡ map clock_inputs modules.now }
    requires declared { ComesNext numbering.now.types numbering.now.declared.items 0 (flat_map types_in modules.now) }
    ensures { OnOk result (best.new ≡ lowered best.old (all_body_breaks modules.now)) }
{
    let instances = numbering.instances.as_slice();
    let declared = numbering.declared.as_slice();
    let mut next = 0;
    for home in modules {
        let sinks = port_sinks(alloc, home)?;
        let around = Surroundings {
            types: &numbering.types,
            modules,
            table,
            instances,
            clocks,
            declared,
            home,
            sinks: &sinks,
        };
        note_statements(alloc, around, &mut next, best)?;
    }
    Ok(())
}

/// Takes note of the statements of the modules that break a rule.
fn note_all_statements(
    alloc: Global,
    modules: &[Module],
    table: &NameTable,
    best: &mut Best,
) -> Result<(), Memory>
    requires { NamesModules modules.now table.now }
    ensures { OnOk result (best.new ≡ lowered best.old (all_body_breaks modules.now)) }
{
    let literals = NumberTypes::new();
    let instances = instance_types(alloc, modules)?;
    let numbering = number_all(alloc, &literals, instances.as_slice(), modules)?;
    let clocks = clock_inputs(alloc, modules)?;
    note_numbered_statements(alloc, modules, table, &numbering, clocks.as_slice(), best)
}

/// The least line that breaks a rule, with the first rule that it breaks.
fn first_break(alloc: Global, circuit: &Circuit) -> Result<Option<Break>, Memory>
    ensures { IfOk result (λ found. option_map break_seen found ≡ circuit_rule circuit.now) }
{
    let modules = circuit.modules.items();
    let mut best = Best::new();
    note_missing_main(circuit, &mut best);
    let table = name_modules(alloc, modules, &mut best)?;
    note_all_ports(alloc, modules, &mut best)?;
    note_ports_of_main(alloc, circuit.name.bytes(), modules, &table, &mut best);
    note_all_statements(alloc, modules, &table, &mut best)?;
    note_cycles(alloc, modules, &table, &mut best)?;
    let found = best.found();
    least_place_decides(circuit, found);
    Ok(found)
}

/// Checks a circuit against the rules. It is given back as it is where it keeps them; else the least
/// line that breaks one is told, with the first rule that this line breaks. `CheckFault::Memory`
/// says that there wasn't enough memory. The time is linear in the circuit's size, times the depth to
/// which its bundles are nested; where there isn't enough memory for a table of a bundle's names, it may
/// be quadratic in the number of these. A statement behind a line that is known to break a rule is
/// passed over, but for what a node's value stands for.
pub fn check(alloc: Global, circuit: Circuit) -> Result<Checked, CheckFault>
    ensures kept { IfOk result (λ c. c ≡ circuit) }
    ensures rule { IfOk result (λ c. circuit_rule circuit ≡ None) }
    ensures broken { IfErr result (λ e. Tells (circuit_rule circuit) e) }
{
    match first_break(alloc, &circuit)? {
        None => Ok(Checked::of(circuit)),
        Some(found) => Err(fault_of(found)),
    }
}
