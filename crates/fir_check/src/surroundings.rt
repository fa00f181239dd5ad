//! What the statements of a module are checked against.
ghost use Rattle.std.specs.Prelude.{◌≡◌, map, option_map};
ghost use Rattle.fir_check.specs.Scopes.{instance_thing, module_named, ports_type};
ghost use Rattle.fir_check.specs.Seen.{meant, type_at};
ghost use Rattle.fir_check.specs.Tables.{NamesModules};
ghost use Rattle.fir_check.specs.Driven.{DrivenBy, clock_inputs, all_seen};
ghost use Rattle.fir_check.specs.KnownSeen.{key_name};

use crate::name_table::NameTable;
use crate::sinks::PortSinks;
use crate::thing::Thing;
use crate::type_table::TypeTable;
use fir_ast::Module;

/// What the statements of the module `home` are checked against.
#[derive(Clone, Copy)]
pub struct Surroundings<'a> {
    pub types: &'a TypeTable<'a>,
    pub modules: &'a [Module],
    /// The modules by their names.
    pub table: &'a NameTable,
    /// The number of the type of an instance of each module.
    pub instances: &'a [usize],
    /// The names of the Clock inputs of each module.
    pub clocks: &'a [Vec<Vec<u8>>],
    /// The numbers of the types that the modules declare, in the order of the walk.
    pub declared: &'a [usize],
    pub home: &'a Module,
    /// The ports of instances that `home` connects.
    pub sinks: &'a PortSinks,
    ghost named: { NamesModules modules.now table.now },
    ghost typed: { map (type_at types.now) instances.now ≡ map ports_type modules.now },
    ghost clocked: { all_seen clocks.now ≡ map clock_inputs modules.now },
    ghost driven: { DrivenBy home.now sinks.now },
}

impl<'a> Surroundings<'a> {
    /// What an instance of the module with this name stands for.
    pub fn instance(self, target: &[u8]) -> Option<Thing>
        ensures { option_map (meant self.entry.types.now) result ≡ option_map instance_thing (module_named target.now self.entry.modules.now) }
    {
        match self.table.find(target) {
            None => None,
            Some(number) => Some(Thing::instance(self.instances[number])),
        }
    }

    /// The names of the Clock inputs of the module with this name.
    pub fn clock_inputs(self, target: &[u8]) -> Option<&'a [Vec<u8>]>
        ensures { option_map (λ names. map key_name names.now) result ≡ option_map clock_inputs (module_named target.now self.entry.modules.now) }
    {
        match self.table.find(target) {
            None => None,
            Some(number) => Some(self.clocks[number].as_slice()),
        }
    }
}
