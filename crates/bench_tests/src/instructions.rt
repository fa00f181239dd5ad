//! Operands and instructions: copies, and which are the same.

use std::alloc::Global;
use std::test::Fail;
use tb_base::Memory;
use tl_ast::TestOp;
use tl_threads::code::{Instr, Item, Operand};

/// Slot 0, less than 2 or another operation with 2.
fn compared(alloc: Global, op: TestOp) -> Result<Operand, Memory> {
    let mut items = Vec::new(alloc);
    items.push(Item::Slot(0))?;
    items.push(Item::Number(2))?;
    items.push(Item::Apply(op))?;
    Operand::of(items)
}

fn turn(cond: Operand, back: u32) -> Instr {
    Instr::Turn {
        line: 3,
        cond,
        back,
    }
}

#[test]
fn copies_and_others(rt: HostRuntime) -> Result<(), Fail> {
    let alloc = rt.alloc();
    let less = compared(alloc, TestOp::Lt)?;
    assert_eq!(rt; less.items().len(), 3);
    let copy = less.copy()?;
    assert_eq!(rt; copy.items(), less.items());
    let foot = turn(copy, 2);
    assert!(rt; foot.same(&foot.copy()?), "a copy");
    assert!(rt; !foot.same(&turn(less, 1)), "another place");
    let other = turn(compared(alloc, TestOp::Leq)?, 2);
    assert!(rt; !foot.same(&other), "another operation");
    assert!(rt; !foot.same(&Instr::End), "another instruction");
    Ok(())
}
