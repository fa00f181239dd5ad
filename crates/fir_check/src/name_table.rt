//! Tables of names.
ghost use Rattle.std.specs.Prelude.{◌≡◌, [], is_none, map, OnOk, IfOk, IfSome};
ghost use Rattle.fir_check.specs.Tables.{number_named, with_name, NamesModules, NamesFields};
ghost use Rattle.fir_check.specs.Names.{seconds};
ghost use Rattle.fir_check.specs.Scopes.{module_name};
ghost use Rattle.fir_check.specs.Places.{least, place};

use crate::best::{Best, Rule};
use fir_ast::{Field, Module};
use indexmap::IndexMap;
use std::alloc::Global;
use std::marker::Model;
use tb_base::Memory;

/// Names, each with the number that it was given first. Contracts see the list of both, in the order
/// in which the names came.
#[derive(Drop)]
pub struct NameTable {
    numbers: IndexMap<Vec<u8>, usize>,
}

impl Model for NameTable {
    ghost use Rattle.std.specs.Prelude.{List, ℕ};
    ghost use Rattle.fir_check.specs.Tables.{entries_seen};

    ghost Value = { List (List ℕ × ℕ) };

    ghost view = { λ t. entries_seen t.numbers.entries };
}

impl NameTable {
    /// A table of no names. Takes no memory.
    pub fn new(alloc: Global) -> NameTable
        ensures { result ≡ [] }
    {
        NameTable {
            numbers: IndexMap::new(alloc),
        }
    }

    /// The number of a name, `None` where it isn't there.
    pub fn find(&self, name: &[u8]) -> Option<usize>
        ensures { result ≡ number_named name.now self.now }
    {
        self.numbers.get(name).copied()
    }

    /// Adds a name with its number, unless the name is there already, and says whether it was added.
    pub fn add(&mut self, alloc: Global, name: &[u8], number: usize) -> Result<bool, Memory>
        ensures is_new { IfOk result (λ b. b ≡ is_none (number_named name.now self.old)) }
        ensures table { OnOk result (self.new ≡ with_name name.now number self.old) }
    {
        if self.find(name).is_some() {
            return Ok(false);
        }
        let own = Vec::from_slice(alloc, name)?;
        if self.numbers.insert(own, number).is_err() {
            return Err(Memory);
        }
        Ok(true)
    }
}

/// The modules by their names. A further module of a name breaks a rule, and its name means the
/// first.
pub fn name_modules(alloc: Global, modules: &[Module], best: &mut Best) -> Result<NameTable, Memory>
    ensures table { IfOk result (NamesModules modules.now) }
    ensures best { OnOk result (best.new ≡ least best.old (map (place Rule.DoubleName) (map (λ m. m.line) (seconds module_name modules.now)))) }
{
    let mut table = NameTable::new(alloc);
    for (k, home) in modules.iter().enumerate() {
        let is_new = table.add(alloc, home.name.bytes(), k)?;
        best.note_if(!is_new, Rule::DoubleName, home.line);
    }
    Ok(table)
}

/// The fields of a bundle by their names: a name means the first field that has it.
fn name_fields(alloc: Global, fields: &[Field]) -> Result<NameTable, Memory>
    ensures { IfOk result (NamesFields fields.now) }
{
    let mut table = NameTable::new(alloc);
    for (k, field) in fields.iter().enumerate() {
        table.add(alloc, field.name.bytes(), k)?;
    }
    Ok(table)
}

/// So many fields are looked for one after another sooner than a table of them is made.
const FEW_FIELDS: usize = 32;

/// The fields of a bundle by their names, `None` where they are few or there isn't enough memory for
/// the table. Takes time and memory linear in the fields' names.
pub fn table_of_fields(alloc: Global, fields: &[Field]) -> Option<NameTable>
    ensures { IfSome result (NamesFields fields.now) }
{
    if fields.len() <= FEW_FIELDS {
        return None;
    }
    name_fields(alloc, fields).ok()
}
