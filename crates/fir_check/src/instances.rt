//! The instances of modules, as numbers.
ghost use Rattle.std.specs.Prelude.{◌≡◌, ◌++◌, [], flat_map, map, OnOk, IfOk};
ghost use Rattle.fir_check.specs.Instances.{insts_of, insts_in, numbered, kids_seen, graph};

use crate::name_table::NameTable;
use fir_ast::{Module, Stmt};
use std::alloc::Global;
use tb_base::Memory;

/// An instance: its line, and the number of its module.
#[derive(Clone, Copy, Debug)]
pub struct Instance {
    pub line: u32,
    pub target: usize,
}

/// Adds the instances in a statement whose module is there.
#[cycle(gather)]
fn gather(stmt: &Stmt, table: &NameTable, found: &mut Vec<Instance>) -> Result<(), Memory>
    ensures { OnOk result (found.new.items ≡ found.old.items ++ numbered table.now (insts_of stmt.now)) }
{
    match stmt {
        Stmt::Inst {
            line,
            name: _,
            module,
        } => {
            if let Some(target) = table.find(module.bytes()) {
                found.push(Instance {
                    line: *line,
                    target,
                })?;
            }
            Ok(())
        }
        Stmt::When {
            line: _,
            cond: _,
            taken,
            other,
        } => {
            gather_all(taken.as_slice(), table, found)?;
            gather_all(other.as_slice(), table, found)?;
            Ok(())
        }
        _ => Ok(()),
    }
}

/// Adds the instances in statements.
#[cycle(gather)]
fn gather_all(body: &[Stmt], table: &NameTable, found: &mut Vec<Instance>) -> Result<(), Memory>
    ensures { OnOk result (found.new.items ≡ found.old.items ++ numbered table.now (flat_map insts_of body.now)) }
{
    for stmt in body {
        gather(stmt, table, found)?;
    }
    Ok(())
}

/// The instances of each module, in text order.
pub fn instances_of_all(
    alloc: Global,
    modules: &[Module],
    table: &NameTable,
) -> Result<Vec<Vec<Instance>>, Memory>
    ensures { IfOk result (λ kids. kids_seen kids.items ≡ graph table.now modules.now) }
{
    let mut kids = Vec::new(alloc);
    for home in modules {
        let mut found = Vec::new(alloc);
        gather_all(home.body.items(), table, &mut found)?;
        kids.push(found)?;
    }
    Ok(kids)
}
