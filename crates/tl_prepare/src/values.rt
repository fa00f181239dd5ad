//! The number of an operand.
ghost use Rattle.std.specs.Prelude.{◌≡◌, slice_index, reverse, OnOk, IfOk};
ghost use Rattle.tl_threads.specs.Values as values;
ghost use Rattle.tl_threads.specs.Machine as machine;
ghost use Rattle.tl_threads.specs.Machine.{taken, stacked};

use smallvec::SmallVec;
use sqlite_items::at;
use tb_base::Memory;
use tl_ast::TestOp;
use tl_threads::code::Item;

/// The numbers of an operand that is worked out, the topmost last. An expression has at most 64 operators with two sides, so its numbers
/// are at most 65: all stand in place, and no memory is taken.
pub type Stack = SmallVec<u128, 65>;

fn bit(holds: bool) -> u128
    ensures { result ≡ values.bit holds }
{
    if holds { 1 } else { 0 }
}

fn shifted_left(a: u128, b: u128) -> u128
    ensures { result ≡ values.operated TestOp.Shl a b }
{
    if b < 128 { a << b } else { 0 }
}

fn shifted_right(a: u128, b: u128) -> u128
    ensures { result ≡ values.operated TestOp.Shr a b }
{
    if b < 128 { a >> b } else { 0 }
}

/// What an operation gives.
pub fn operated(op: TestOp, a: u128, b: u128) -> u128
    ensures { result ≡ values.operated op a b }
{
    match op {
        TestOp::Add => a.wrapping_add(b),
        TestOp::Sub => a.wrapping_sub(b),
        TestOp::Mul => a.wrapping_mul(b),
        TestOp::And => a & b,
        TestOp::Or => a | b,
        TestOp::Xor => a ^ b,
        TestOp::Shl => shifted_left(a, b),
        TestOp::Shr => shifted_right(a, b),
        TestOp::Eq => bit(a == b),
        TestOp::Neq => bit(a != b),
        TestOp::Lt => bit(a < b),
        TestOp::Leq => bit(a <= b),
        TestOp::Gt => bit(a > b),
        TestOp::Geq => bit(a >= b),
    }
}

/// The number in a slot.
fn local(locals: &[u128], slot: u32) -> u128
    ensures { result ≡ slice_index locals.now slot }
{
    match at(locals, slot as usize) {
        Some(number) => *number,
        None => 0,
    }
}

fn negate_top(stack: &mut Stack) -> Result<(), Memory>
    ensures { OnOk result (reverse stack.new.items ≡ machine.negate_top (reverse stack.old.items)) }
{
    if let Some(number) = stack.pop() {
        stack.push(0u128.wrapping_sub(number))?;
    }
    Ok(())
}

fn apply_tops(stack: &mut Stack, op: TestOp) -> Result<(), Memory>
    ensures { OnOk result (reverse stack.new.items ≡ machine.apply_tops op (reverse stack.old.items)) }
{
    let Some(right) = stack.pop() else {
        return Ok(());
    };
    match stack.pop() {
        Some(left) => stack.push(operated(op, left, right))?,
        None => stack.push(right)?,
    }
    Ok(())
}

/// One item.
fn work(locals: &[u128], stack: &mut Stack, item: Item) -> Result<(), Memory>
    ensures { OnOk result (reverse stack.new.items ≡ stacked locals.now (reverse stack.old.items) item) }
{
    match item {
        Item::Number(number) => {
            stack.push(number)?;
            Ok(())
        }
        Item::Slot(slot) => {
            stack.push(local(locals, slot))?;
            Ok(())
        }
        Item::Negate => negate_top(stack),
        Item::Apply(op) => apply_tops(stack, op),
    }
}

/// The number of an operand whose items are worked one by one.
fn worked_out(stack: &mut Stack, locals: &[u128], items: &[Item]) -> Result<u128, Memory>
    ensures { IfOk result (λ number. number ≡ taken locals.now items.now) }
{
    stack.clear();
    for item in items {
        work(locals, stack, *item)?;
    }
    Ok(stack.pop().unwrap_or(0))
}

/// The number of an operand over these slots, worked out on a stack whatever it held. A lone number or slot needs none.
pub fn value(stack: &mut Stack, locals: &[u128], items: &[Item]) -> Result<u128, Memory>
    ensures { IfOk result (λ number. number ≡ taken locals.now items.now) }
{
    match items {
        [Item::Number(number)] => Ok(*number),
        [Item::Slot(slot)] => Ok(local(locals, *slot)),
        _ => worked_out(stack, locals, items),
    }
}
