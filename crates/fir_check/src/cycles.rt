//! The rule on cycles of instances.
ghost use Rattle.std.specs.Prelude.{◌≡◌, ◌<◌, [], Bool, false, length, filter, map, OnOk, IfOk};
ghost use Rattle.fir_check.specs.Names.{kept};
ghost use Rattle.fir_check.specs.Rules.{cycle_lines};
ghost use Rattle.fir_check.specs.Places.{least, lower, place};
ghost use Rattle.fir_check.specs.Tables.{is_number, number_named, NamesModules};
ghost use Rattle.fir_check.specs.Instances.{kids_seen, leads_so, NeverRises, NotesReturning, Within};

use crate::best::{Best, Rule};
use crate::heights::{height_at, heights_of, never_rises};
use crate::instances::{Instance, instances_of_all};
use crate::name_table::NameTable;
use crate::ways::leads;
use fir_ast::Module;
use std::alloc::Global;
use tb_base::Memory;

/// Takes note of an instance in the module `home` if a way leads from its module back to `home`.
fn note_cycle(
    alloc: Global,
    kids: &[Vec<Instance>],
    heights: &[usize],
    home: usize,
    instance: Instance,
    best: &mut Best,
) -> Result<(), Memory>
    requires within { Within (length kids.now) (kids_seen kids.now) }
    requires falls { NeverRises heights.now (kids_seen kids.now) }
    requires target { instance.target < length kids.now }
    ensures { OnOk result ((b : Bool) → leads_so b (kids_seen kids.now) instance.target home → best.new ≡ least best.old (map (place Rule.InstanceCycle) (kept b instance.line []))) }
{
    if height_at(heights, instance.target) < height_at(heights, home) {
        return Ok(());
    }
    if !best.is_news(Rule::InstanceCycle, instance.line) {
        return Ok(());
    }
    let returns = leads(alloc, kids, instance.target, home)?;
    best.note_if(returns, Rule::InstanceCycle, instance.line);
    Ok(())
}

/// Takes note of the instances of a module, `home`, from whose module a way leads back to it.
fn note_cycles_of(
    alloc: Global,
    kids: &[Vec<Instance>],
    heights: &[usize],
    home: usize,
    best: &mut Best,
) -> Result<(), Memory>
    requires within { Within (length kids.now) (kids_seen kids.now) }
    requires falls { NeverRises heights.now (kids_seen kids.now) }
    requires home { home < length kids.now }
    ensures { OnOk result (NotesReturning (kids_seen kids.now) home best.old best.new) }
{
    for instance in &kids[home] {
        note_cycle(alloc, kids, heights, home, *instance, best)?;
    }
    Ok(())
}

/// Whether the module at this place is the first of its name.
fn is_first(table: &NameTable, name: &[u8], place: usize) -> bool
    ensures { result ≡ is_number place (number_named name.now table.now) }
{
    match table.find(name) {
        Some(first) => first == place,
        None => false,
    }
}

/// Takes note of each instance that lies on a cycle of modules that contain each other. The time is
/// linear in the number of modules and instances: no way is searched for but from the first instance
/// that lies on a cycle.
pub fn note_cycles(
    alloc: Global,
    modules: &[Module],
    table: &NameTable,
    best: &mut Best,
) -> Result<(), Memory>
    requires { NamesModules modules.now table.now }
    ensures { OnOk result (best.new ≡ least best.old (map (place Rule.InstanceCycle) (cycle_lines modules.now))) }
{
    let kids = instances_of_all(alloc, modules, table)?;
    let heights = checked_heights(alloc, &kids)?;
    for (k, home) in modules.iter().enumerate() {
        if is_first(table, home.name.bytes(), k) {
            note_cycles_of(alloc, &kids, &heights, k, best)?;
        }
    }
    Ok(())
}

/// Heights that rise along no instance.
fn checked_heights(alloc: Global, kids: &[Vec<Instance>]) -> Result<Vec<usize>, Memory>
    ensures { IfOk result (λ heights. NeverRises heights.items (kids_seen kids.now)) }
{
    let heights = heights_of(alloc, kids)?;
    if never_rises(&heights, kids) {
        return Ok(heights);
    }
    Ok(Vec::new(alloc))
}
