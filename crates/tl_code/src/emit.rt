//! From statements to flat code.
//!
//! The statements of a block are written one behind the other. What has to know a later place, as the head of a `while` does, is
//! written over once the place is known. The recursion is along the nesting of blocks.
//!
//! Each block and each fork writes an instruction before what stands in it, so no place stands deeper than its number.
ghost use Rattle.std.specs.Prelude.{◌≡◌, ◌+◌, ◌*◌, ◌<◌, ◌≤◌, map, sum, length, option_map, OnOk, IfOk};
ghost use Rattle.tl_check.specs.Bounds.{statements};
ghost use Rattle.tl_check.specs.Scopes as scopes;
ghost use Rattle.tl_threads.specs.Values.{expr_of};
ghost use Rattle.tl_threads.specs.Bodies.{piece, body_of};
ghost use Rattle.tl_threads.specs.Bodies.Body.{while_true, repeat_by, fork_as};
ghost use Rattle.tl_threads.specs.Code.{slot};
ghost use Rattle.tl_code.specs.Drafts.{if_closed, Adds, AddsBlock, AddsSide};

use crate::draft::Draft;
use crate::level::Level;
use crate::operands::{operand_of, signal_of};
use net_core::PortTable;
use std::alloc::Global;
use tb_base::{Memory, Name, Region};
use tl_ast::{TestExpr, TestStmt};
use tl_threads::code::{Instr, Operand};

/// The region of a forked thread: the one that is written, else that of the thread that forks it.
fn child_region(region: Region, written: Option<Region>) -> Region
    ensures { result ≡ scopes.child_region region written }
{
    match written {
        None => region,
        Some(inside) => inside,
    }
}

/// The slot of the variable that a peek sets.
fn into_slot(draft: &Draft, into: &Option<Name>) -> Option<u32>
    ensures { result ≡ option_map (λ name. slot name draft.now.variables) into.now }
{
    match into {
        None => None,
        Some(name) => Some(draft.variable_slot(name.bytes())),
    }
}

/// Writes a statement.
#[cycle(emit)]
fn emit_stmt(
    alloc: Global,
    ports: &PortTable,
    level: Level,
    stmt: &TestStmt,
    draft: &mut Draft,
) -> Result<(), Memory>
    requires room { length draft.old.placed + 2 * statements stmt.now ≤ 4294967295 }
    requires depth { level.depth ≤ length draft.old.placed }
    requires loops { level.loops ≤ length draft.old.placed }
    ensures { OnOk result (Adds level (piece ports.now stmt.now level.region) (2 * statements stmt.now) draft.old draft.new) }
{
    match stmt {
        TestStmt::Poke { line, port, value } => {
            let port = signal_of(ports, port.bytes());
            let value = operand_of(alloc, draft, value)?;
            let line = *line;
            draft.put(level, Instr::Poke { line, port, value })
        }
        TestStmt::Peek { line, port, into } => {
            let port = signal_of(ports, port.bytes());
            let into = into_slot(draft, into);
            let line = *line;
            draft.put(level, Instr::Peek { line, port, into })
        }
        TestStmt::Expect { line, port, value } => {
            let port = signal_of(ports, port.bytes());
            let value = operand_of(alloc, draft, value)?;
            let line = *line;
            draft.put(level, Instr::Expect { line, port, value })
        }
        TestStmt::Step { line, count } => {
            let line = *line;
            let count = *count;
            draft.put(level, Instr::Step { line, count })
        }
        TestStmt::Let { line, name, value } => {
            let value = operand_of(alloc, draft, value)?;
            draft.store(alloc, level, *line, name.bytes(), value)
        }
        TestStmt::Set { line, name, value } => {
            let value = operand_of(alloc, draft, value)?;
            draft.store(alloc, level, *line, name.bytes(), value)
        }
        TestStmt::If {
            line,
            cond,
            taken,
            other,
        } => {
            let cond = operand_of(alloc, draft, cond)?;
            let head = emit_side(alloc, ports, level, taken.as_slice(), draft)?;
            let middle = emit_side(alloc, ports, level, other.as_slice(), draft)?;
            close_if(draft, level, *line, cond, head, middle);
            Ok(())
        }
        TestStmt::While { line, cond, body } => {
            emit_while(alloc, ports, level, *line, body.as_slice(), cond, draft)
        }
        TestStmt::Repeat { line, count, body } => {
            emit_repeat(alloc, ports, level, *line, body.as_slice(), count, draft)
        }
        TestStmt::Fork {
            line,
            region,
            handle,
            body,
        } => {
            let region = child_region(level.region, *region);
            emit_fork(
                alloc,
                ports,
                level,
                region,
                *line,
                handle.bytes(),
                body.as_slice(),
                draft,
            )
        }
        TestStmt::Join { line, handle } => {
            let line = *line;
            let slot = draft.handle_slot(handle.bytes());
            draft.put(level, Instr::Join { line, slot })
        }
        TestStmt::JoinStep { line, handle } => {
            let line = *line;
            let slot = draft.handle_slot(handle.bytes());
            draft.put(level, Instr::JoinStep { line, slot })
        }
        TestStmt::Driver {
            line: _,
            kind: _,
            port: _,
            values: _,
        } => Ok(()),
        TestStmt::ResetFor { line: _, count: _ } => Ok(()),
    }
}

/// Writes an instruction, which is to be replaced, and a block behind it. Gives the place of the instruction.
#[cycle(emit)]
fn emit_side(
    alloc: Global,
    ports: &PortTable,
    level: Level,
    block: &[TestStmt],
    draft: &mut Draft,
) -> Result<u32, Memory>
    requires room { length draft.old.placed + 1 + 2 * sum (map statements block.now) ≤ 4294967295 }
    requires depth { level.depth ≤ length draft.old.placed }
    requires loops { level.loops ≤ length draft.old.placed }
    ensures { IfOk result (λ head. AddsSide ports.now level block.now draft.old head draft.new) }
{
    let head = draft.place();
    draft.put(level, Instr::End)?;
    emit_block(alloc, ports, level, block, draft)?;
    Ok(head)
}

/// Completes an `if`, whose sides begin with the instructions at `head` and `middle`.
fn close_if(draft: &mut Draft, level: Level, line: u32, cond: Operand, head: u32, middle: u32)
    requires head { head < length draft.old.placed }
    requires middle { middle < length draft.old.placed }
    ensures { draft.new ≡ if_closed level line cond head middle draft.old }
{
    let to = draft.place();
    let other = middle + 1;
    draft.replace(level, head, Instr::Unless { line, cond, other });
    draft.replace(level, middle, Instr::Goto { to });
}

/// Writes a `while`.
#[cycle(emit)]
fn emit_while(
    alloc: Global,
    ports: &PortTable,
    level: Level,
    line: u32,
    body: &[TestStmt],
    cond: &TestExpr,
    draft: &mut Draft,
) -> Result<(), Memory>
    requires room { length draft.old.placed + 2 + 2 * sum (map statements body.now) ≤ 4294967295 }
    requires depth { level.depth ≤ length draft.old.placed }
    requires loops { level.loops ≤ length draft.old.placed }
    ensures { OnOk result (Adds level (while_true line (expr_of cond.now) (body_of ports.now level.region body.now)) (2 + 2 * sum (map statements body.now)) draft.old draft.new) }
{
    let first = operand_of(alloc, draft, cond)?;
    let later = first.copy()?;
    let head = emit_side(alloc, ports, level, body, draft)?;
    let back = head + 1;
    draft.put(
        level,
        Instr::Turn {
            line,
            cond: later,
            back,
        },
    )?;
    let out = draft.place();
    draft.replace(
        level,
        head,
        Instr::Enter {
            line,
            cond: first,
            out,
        },
    );
    Ok(())
}

/// Writes a `repeat`.
#[cycle(emit)]
fn emit_repeat(
    alloc: Global,
    ports: &PortTable,
    level: Level,
    line: u32,
    body: &[TestStmt],
    count: &TestExpr,
    draft: &mut Draft,
) -> Result<(), Memory>
    requires room { length draft.old.placed + 2 + 2 * sum (map statements body.now) ≤ 4294967295 }
    requires depth { level.depth ≤ length draft.old.placed }
    requires loops { level.loops ≤ length draft.old.placed }
    ensures { OnOk result (Adds level (repeat_by line (expr_of count.now) (body_of ports.now level.region body.now)) (2 + 2 * sum (map statements body.now)) draft.old draft.new) }
{
    let count = operand_of(alloc, draft, count)?;
    let head = draft.place();
    draft.put(level, Instr::End)?;
    let inner = level.inside_repeat();
    emit_block(alloc, ports, inner, body, draft)?;
    let back = head + 1;
    draft.put(inner, Instr::Again { line, back })?;
    let out = draft.place();
    draft.replace(level, head, Instr::Count { line, count, out });
    Ok(())
}

/// Writes a fork into a region.
#[cycle(emit)]
fn emit_fork(
    alloc: Global,
    ports: &PortTable,
    level: Level,
    region: Region,
    line: u32,
    handle: &[u8],
    body: &[TestStmt],
    draft: &mut Draft,
) -> Result<(), Memory>
    requires room { length draft.old.placed + 2 + 2 * sum (map statements body.now) ≤ 4294967295 }
    requires depth { level.depth ≤ length draft.old.placed }
    requires loops { level.loops ≤ length draft.old.placed }
    ensures { OnOk result (Adds level (fork_as line region handle.now (body_of ports.now region body.now)) (2 + 2 * sum (map statements body.now)) draft.old draft.new) }
{
    let head = draft.place();
    draft.put(level, Instr::End)?;
    let outside = draft.begin_fork(alloc);
    let inner = level.inside_fork(region);
    emit_block(alloc, ports, inner, body, draft)?;
    draft.put(inner, Instr::End)?;
    draft.end_fork(outside);
    let after = draft.place();
    let slot = draft.handle_slot_once_known(handle);
    draft.replace(
        level,
        head,
        Instr::Fork {
            line,
            region,
            slot,
            after,
        },
    );
    draft.add_handle(alloc, handle)
}

/// Writes a block. Behind it what was known in front is known.
#[cycle(emit)]
pub fn emit_block(
    alloc: Global,
    ports: &PortTable,
    level: Level,
    block: &[TestStmt],
    draft: &mut Draft,
) -> Result<(), Memory>
    requires room { length draft.old.placed + 2 * sum (map statements block.now) ≤ 4294967295 }
    requires depth { level.depth ≤ length draft.old.placed }
    requires loops { level.loops ≤ length draft.old.placed }
    ensures { OnOk result (AddsBlock ports.now level block.now draft.old draft.new) }
{
    let mark = draft.mark();
    for stmt in block {
        emit_stmt(alloc, ports, level, stmt, draft)?;
    }
    draft.leave(mark);
    Ok(())
}
