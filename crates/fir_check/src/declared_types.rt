//! The numbers of the types that a circuit declares, in the order in which the walk meets them.
ghost use Rattle.std.specs.Prelude.{◌≡◌, ◌∷◌, [], flat_map, map, OnOk, IfOk};
ghost use Rattle.fir_check.specs.Numbers.{Added, ComesNext, Gains, port_types, types_in, types_of};
ghost use Rattle.fir_check.specs.Seen.{type_at};

use crate::numbers::NumberTypes;
use crate::type_table::{TypeTable, add_type};
use fir_ast::{Module, Port, Stmt, Ty};
use std::alloc::Global;
use tb_base::Memory;

/// Adds a type to the table, and its number to the numbers.
fn number_type<'a>(
    alloc: Global,
    ty: &'a Ty,
    table: &mut TypeTable<'a>,
    numbers: &mut Vec<usize>,
) -> Result<(), Memory>
    ensures { OnOk result (Gains table.old table.new (ty.now ∷ []) numbers.old.items numbers.new.items) }
{
    let number = add_type(alloc, ty, table)?;
    numbers.push(number)?;
    Ok(())
}

/// Adds the types that are written in a statement.
#[cycle(number)]
fn number_stmt<'a>(
    alloc: Global,
    stmt: &'a Stmt,
    table: &mut TypeTable<'a>,
    numbers: &mut Vec<usize>,
) -> Result<(), Memory>
    ensures { OnOk result (Gains table.old table.new (types_of stmt.now) numbers.old.items numbers.new.items) }
{
    match stmt {
        Stmt::Wire {
            line: _,
            name: _,
            ty,
        } => number_type(alloc, ty, table, numbers),
        Stmt::Reg {
            line: _,
            name: _,
            ty,
            clock: _,
            reset: _,
        } => number_type(alloc, ty, table, numbers),
        Stmt::When {
            line: _,
            cond: _,
            taken,
            other,
        } => {
            number_body(alloc, taken.as_slice(), table, numbers)?;
            number_body(alloc, other.as_slice(), table, numbers)?;
            Ok(())
        }
        _ => Ok(()),
    }
}

/// Adds the types that are written in statements.
#[cycle(number)]
fn number_body<'a>(
    alloc: Global,
    body: &'a [Stmt],
    table: &mut TypeTable<'a>,
    numbers: &mut Vec<usize>,
) -> Result<(), Memory>
    ensures { OnOk result (Gains table.old table.new (flat_map types_of body.now) numbers.old.items numbers.new.items) }
{
    for stmt in body {
        number_stmt(alloc, stmt, table, numbers)?;
    }
    Ok(())
}

/// Adds the types of ports.
fn number_ports<'a>(
    alloc: Global,
    ports: &'a [Port],
    table: &mut TypeTable<'a>,
    numbers: &mut Vec<usize>,
) -> Result<(), Memory>
    ensures { OnOk result (Gains table.old table.new (flat_map port_types ports.now) numbers.old.items numbers.new.items) }
{
    for port in ports {
        number_type(alloc, &port.ty, table, numbers)?;
    }
    Ok(())
}

/// Adds the types of a module.
fn number_module<'a>(
    alloc: Global,
    home: &'a Module,
    table: &mut TypeTable<'a>,
    numbers: &mut Vec<usize>,
) -> Result<(), Memory>
    ensures { OnOk result (Gains table.old table.new (types_in home.now) numbers.old.items numbers.new.items) }
{
    number_ports(alloc, home.ports.items(), table, numbers)?;
    number_body(alloc, home.body.items(), table, numbers)?;
    Ok(())
}

/// Adds the types that the modules declare, and gives their numbers.
fn number_modules<'a>(
    alloc: Global,
    modules: &'a [Module],
    table: &mut TypeTable<'a>,
) -> Result<Vec<usize>, Memory>
    ensures { IfOk result (λ numbers. Added table.old table.new (flat_map types_in modules.now) numbers.items) }
{
    let mut numbers = Vec::new(alloc);
    for home in modules {
        number_module(alloc, home, table, &mut numbers)?;
    }
    Ok(numbers)
}

/// Adds types, and gives their numbers.
fn number_types<'a>(
    alloc: Global,
    types: &'a [Ty],
    table: &mut TypeTable<'a>,
) -> Result<Vec<usize>, Memory>
    ensures { IfOk result (λ numbers. Added table.old table.new types.now numbers.items) }
{
    let mut numbers = Vec::new(alloc);
    for ty in types {
        number_type(alloc, ty, table, &mut numbers)?;
    }
    Ok(numbers)
}

/// The types that a circuit declares, and their numbers.
#[derive(Drop)]
pub struct Numbering<'a> {
    pub types: TypeTable<'a>,
    /// The numbers of the types of the instances of each module.
    pub instances: Vec<usize>,
    /// The numbers of the types that the modules declare, in the order of the walk.
    pub declared: Vec<usize>,
}

/// Numbers the types of literals, those of instances, and those that the modules declare. Takes time
/// and memory linear in their size.
pub fn number_all<'a>(
    alloc: Global,
    literals: &'a NumberTypes,
    instances: &'a [Ty],
    modules: &'a [Module],
) -> Result<Numbering<'a>, Memory>
    ensures instances { IfOk result (λ n. map (type_at n.types) n.instances.items ≡ instances.now) }
    ensures declared { IfOk result (λ n. ComesNext n.types n.declared.items 0 (flat_map types_in modules.now)) }
{
    let mut types = TypeTable::new(alloc, literals)?;
    let instances = number_types(alloc, instances, &mut types)?;
    let declared = number_modules(alloc, modules, &mut types)?;
    Ok(Numbering {
        types,
        instances,
        declared,
    })
}
