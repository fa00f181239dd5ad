//! Expressions in postfix form, and ports by their signals.
ghost use Rattle.std.specs.Prelude.{◌≡◌, ◌++◌, OnOk, IfOk};
ghost use Rattle.tl_threads.specs.Values.{expr_of};
ghost use Rattle.tl_threads.specs.Bodies as bodies;
ghost use Rattle.tl_threads.specs.Code.{operand};

use crate::draft::Draft;
use net_core::{PortTable, Signal};
use std::alloc::Global;
use tb_base::Memory;
use tl_ast::TestExpr;
use tl_threads::code::{Item, Operand};

/// Writes the items of an expression behind others. The recursion is along its nesting.
fn write_items(items: &mut Vec<Item>, draft: &Draft, expr: &TestExpr) -> Result<(), Memory>
    ensures { OnOk result (items.new.items ≡ items.old.items ++ operand draft.now.variables (expr_of expr.now)) }
{
    match expr {
        TestExpr::Num(number) => items.push(Item::Number(*number))?,
        TestExpr::Var(name) => items.push(Item::Slot(draft.variable_slot(name.bytes())))?,
        TestExpr::Neg(of) => {
            write_items(items, draft, of.get())?;
            items.push(Item::Negate)?;
        }
        TestExpr::Two(op, left, right) => {
            write_items(items, draft, left.get())?;
            write_items(items, draft, right.get())?;
            items.push(Item::Apply(*op))?;
        }
    }
    Ok(())
}

/// The postfix form of an expression.
pub fn operand_of(alloc: Global, draft: &Draft, expr: &TestExpr) -> Result<Operand, Memory>
    ensures { IfOk result (λ o. o ≡ operand draft.now.variables (expr_of expr.now)) }
{
    let mut items = Vec::new(alloc);
    write_items(&mut items, draft, expr)?;
    Operand::of(items)
}

/// The signal of a port, and signal 0 where the port isn't there.
pub fn signal_of(ports: &PortTable, name: &[u8]) -> Signal
    ensures { result ≡ bodies.signal_of ports.now name.now }
{
    match ports.find(name) {
        Some(info) => info.signal,
        None => Signal(0),
    }
}
