//! The printed form of statements and blocks.
//!
//! A statement is printed at an indentation, the spaces in front of each of its lines, which is
//! passed as text. So any tree can be printed, however deep its blocks are.
ghost use Rattle.std.specs.Prelude.{◌≡◌, ◌++◌, OnOk, IfOk, codes, map};
ghost use Rattle.std.specs.Fmt.{decimal};
ghost use Rattle.tl_ast.specs.Printed.{expr_text, value_words, into_text, peek_words, region_text, fork_words, kind_name, values_text, driver_words, ended, opens, closes, deeper, block_text, else_text, stmt_text};

use super::exprs::{put_each, put_expr, put_list};
use crate::tree::{DriverKind, TestExpr, TestStmt};
use std::alloc::Global;
use tb_base::{Memory, Name, Region, put, put_decimal};

/// Puts the line `word target sign value;` behind the text.
fn put_value(
    alloc: Global,
    out: &mut Vec<u8>,
    indent: &[u8],
    word: &[u8],
    target: &Name,
    sign: &[u8],
    value: &TestExpr,
) -> Result<(), Memory>
    ensures { OnOk result (out.new.items
        ≡ out.old.items ++ ended indent.now (value_words word.now target.now sign.now value.now)) }
{
    put(out, indent)?;
    put(out, word)?;
    put(out, target.bytes())?;
    put(out, sign)?;
    put_expr(alloc, out, value)?;
    put(out, b";\n")?;
    Ok(())
}

fn put_peek(
    out: &mut Vec<u8>,
    indent: &[u8],
    port: &Name,
    into: &Option<Name>,
) -> Result<(), Memory>
    ensures { OnOk result (out.new.items ≡ out.old.items ++ ended indent.now (peek_words port.now into.now)) }
{
    put(out, indent)?;
    put(out, b"peek ")?;
    put(out, port.bytes())?;
    put_into(out, into)?;
    put(out, b";\n")?;
    Ok(())
}

fn put_into(out: &mut Vec<u8>, into: &Option<Name>) -> Result<(), Memory>
    ensures { OnOk result (out.new.items ≡ out.old.items ++ into_text into.now) }
{
    match into {
        None => Ok(()),
        Some(name) => {
            put(out, b" into ")?;
            put(out, name.bytes())?;
            Ok(())
        }
    }
}

/// Puts the line `word count;` behind the text.
fn put_count(
    alloc: Global,
    out: &mut Vec<u8>,
    indent: &[u8],
    word: &[u8],
    count: u128,
) -> Result<(), Memory>
    ensures { OnOk result (out.new.items ≡ out.old.items ++ ended indent.now (word.now ++ decimal count)) }
{
    put(out, indent)?;
    put(out, word)?;
    put_decimal(alloc, out, count)?;
    put(out, b";\n")?;
    Ok(())
}

/// Puts the line `word handle;` behind the text.
fn put_join(out: &mut Vec<u8>, indent: &[u8], word: &[u8], handle: &Name) -> Result<(), Memory>
    ensures { OnOk result (out.new.items ≡ out.old.items ++ ended indent.now (word.now ++ handle.now)) }
{
    put(out, indent)?;
    put(out, word)?;
    put(out, handle.bytes())?;
    put(out, b";\n")?;
    Ok(())
}

fn kind_word(kind: DriverKind) -> &'static str
    ensures { result.now ≡ kind_name kind }
{
    match kind {
        DriverKind::Enqueue => "enqueue",
        DriverKind::EnqueueNow => "enqueueNow",
        DriverKind::EnqueueSeq => "enqueueSeq",
        DriverKind::ExpectDequeue => "expectDequeue",
        DriverKind::ExpectDequeueNow => "expectDequeueNow",
        DriverKind::ExpectDequeueSeq => "expectDequeueSeq",
        DriverKind::ExpectInvalid => "expectInvalid",
    }
}

fn put_values(
    alloc: Global,
    out: &mut Vec<u8>,
    kind: DriverKind,
    values: &[TestExpr],
) -> Result<(), Memory>
    ensures { OnOk result (out.new.items
        ≡ out.old.items ++ values_text kind (map expr_text values.now)) }
{
    match kind {
        DriverKind::EnqueueSeq | DriverKind::ExpectDequeueSeq => {
            put(out, b" ")?;
            put_list(alloc, out, values)?;
            Ok(())
        }
        DriverKind::Enqueue
        | DriverKind::EnqueueNow
        | DriverKind::ExpectDequeue
        | DriverKind::ExpectDequeueNow
        | DriverKind::ExpectInvalid => {
            put_each(alloc, out, values)?;
            Ok(())
        }
    }
}

fn put_driver(
    alloc: Global,
    out: &mut Vec<u8>,
    indent: &[u8],
    kind: DriverKind,
    port: &Name,
    values: &[TestExpr],
) -> Result<(), Memory>
    ensures { OnOk result (out.new.items
        ≡ out.old.items ++ ended indent.now (driver_words kind port.now values.now)) }
{
    put(out, indent)?;
    put(out, kind_word(kind).as_bytes())?;
    put(out, b" ")?;
    put(out, port.bytes())?;
    put_values(alloc, out, kind, values)?;
    put(out, b";\n")?;
    Ok(())
}

fn region_word(region: Option<Region>) -> &'static [u8]
    ensures { result.now ≡ region_text region }
{
    match region {
        None => b"",
        Some(Region::Main) => b"main ",
        Some(Region::Monitor) => b"monitor ",
    }
}

/// Puts the line `word value {` behind the text.
fn put_head(
    alloc: Global,
    out: &mut Vec<u8>,
    indent: &[u8],
    word: &[u8],
    value: &TestExpr,
) -> Result<(), Memory>
    ensures { OnOk result (out.new.items
        ≡ out.old.items ++ opens indent.now (word.now ++ expr_text value.now)) }
{
    put(out, indent)?;
    put(out, word)?;
    put_expr(alloc, out, value)?;
    put(out, b" {\n")?;
    Ok(())
}

fn put_fork(
    out: &mut Vec<u8>,
    indent: &[u8],
    region: Option<Region>,
    handle: &Name,
) -> Result<(), Memory>
    ensures { OnOk result (out.new.items
        ≡ out.old.items ++ opens indent.now (fork_words region handle.now)) }
{
    put(out, indent)?;
    put(out, b"fork ")?;
    put(out, region_word(region))?;
    put(out, handle.bytes())?;
    put(out, b" {\n")?;
    Ok(())
}

fn put_close(out: &mut Vec<u8>, indent: &[u8]) -> Result<(), Memory>
    ensures { OnOk result (out.new.items ≡ out.old.items ++ closes indent.now) }
{
    put(out, indent)?;
    put(out, b"}\n")?;
    Ok(())
}

/// Puts the statement behind the text, with all the lines of its blocks.
#[cycle(print_stmt)]
fn put_stmt(alloc: Global, out: &mut Vec<u8>, indent: &[u8], stmt: &TestStmt) -> Result<(), Memory>
    ensures { OnOk result (out.new.items ≡ out.old.items ++ stmt_text stmt.now indent.now) }
{
    match stmt {
        TestStmt::Poke { port, value, .. } => {
            put_value(alloc, out, indent, b"poke ", port, b" = ", value)
        }
        TestStmt::Peek { port, into, .. } => put_peek(out, indent, port, into),
        TestStmt::Expect { port, value, .. } => {
            put_value(alloc, out, indent, b"expect ", port, b" == ", value)
        }
        TestStmt::Step { count, .. } => put_count(alloc, out, indent, b"step ", *count),
        TestStmt::Let { name, value, .. } => {
            put_value(alloc, out, indent, b"let ", name, b" = ", value)
        }
        TestStmt::Set { name, value, .. } => {
            put_value(alloc, out, indent, b"set ", name, b" = ", value)
        }
        TestStmt::If {
            cond,
            taken,
            other,
            ..
        } => {
            put_head(alloc, out, indent, b"if ", cond)?;
            put_block(alloc, out, indent, taken.as_slice())?;
            put_else(alloc, out, indent, other.as_slice())?;
            put_close(out, indent)
        }
        TestStmt::While { cond, body, .. } => {
            put_head(alloc, out, indent, b"while ", cond)?;
            put_body(alloc, out, indent, body.as_slice())
        }
        TestStmt::Repeat { count, body, .. } => {
            put_head(alloc, out, indent, b"repeat ", count)?;
            put_body(alloc, out, indent, body.as_slice())
        }
        TestStmt::Fork {
            region,
            handle,
            body,
            ..
        } => {
            put_fork(out, indent, *region, handle)?;
            put_body(alloc, out, indent, body.as_slice())
        }
        TestStmt::Join { handle, .. } => put_join(out, indent, b"join ", handle),
        TestStmt::JoinStep { handle, .. } => put_join(out, indent, b"joinstep ", handle),
        TestStmt::Driver {
            kind,
            port,
            values,
            ..
        } => put_driver(alloc, out, indent, *kind, port, values.items()),
        TestStmt::ResetFor { count, .. } => put_count(alloc, out, indent, b"reset ", *count),
    }
}

#[cycle(print_stmt)]
fn put_else(
    alloc: Global,
    out: &mut Vec<u8>,
    indent: &[u8],
    stmts: &[TestStmt],
) -> Result<(), Memory>
    ensures { OnOk result (out.new.items ≡ out.old.items ++ else_text (map stmt_text stmts.now) indent.now) }
{
    if stmts.is_empty() {
        return Ok(());
    }
    put(out, indent)?;
    put(out, b"} else {\n")?;
    put_block(alloc, out, indent, stmts)?;
    Ok(())
}

/// Puts a block and the line of its `}` behind the text.
#[cycle(print_stmt)]
fn put_body(
    alloc: Global,
    out: &mut Vec<u8>,
    indent: &[u8],
    stmts: &[TestStmt],
) -> Result<(), Memory>
    ensures { OnOk result (out.new.items
        ≡ out.old.items ++ (block_text (map stmt_text stmts.now) (deeper indent.now) ++ closes indent.now)) }
{
    put_block(alloc, out, indent, stmts)?;
    put_close(out, indent)?;
    Ok(())
}

fn deeper_than(alloc: Global, indent: &[u8]) -> Result<Vec<u8>, Memory>
    ensures { IfOk result (λ text. text.items ≡ deeper indent.now) }
{
    let mut text = Vec::new(alloc);
    put(&mut text, indent)?;
    put(&mut text, b"  ")?;
    Ok(text)
}

/// Puts a block one level deeper than `indent` behind the text.
#[cycle(print_stmt)]
fn put_block(
    alloc: Global,
    out: &mut Vec<u8>,
    indent: &[u8],
    stmts: &[TestStmt],
) -> Result<(), Memory>
    ensures { OnOk result (out.new.items
        ≡ out.old.items ++ block_text (map stmt_text stmts.now) (deeper indent.now)) }
{
    let inner = deeper_than(alloc, indent)?;
    put_stmts(alloc, out, inner.as_slice(), stmts)?;
    Ok(())
}

/// Puts the statements behind the text, at the indentation `indent`.
#[cycle(print_stmt)]
pub(crate) fn put_stmts(
    alloc: Global,
    out: &mut Vec<u8>,
    indent: &[u8],
    stmts: &[TestStmt],
) -> Result<(), Memory>
    ensures { OnOk result (out.new.items ≡ out.old.items ++ block_text (map stmt_text stmts.now) indent.now) }
{
    for stmt in stmts {
        put_stmt(alloc, out, indent, stmt)?;
    }
    Ok(())
}
