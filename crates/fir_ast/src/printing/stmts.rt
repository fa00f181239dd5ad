//! The printed form of statements and blocks.
//!
//! A statement is printed at an indentation, the spaces in front of each of its lines, which is
//! passed as text. So any tree can be printed, however deep its blocks are.
ghost use Rattle.std.specs.Prelude.{◌≡◌, ◌++◌, OnOk, IfOk, codes, map, take, drop};
ghost use Rattle.tb_base.specs.Joined.{joined};
ghost use Rattle.fir_ast.specs.Printed.{stmt_text, block_text, else_text, deeper, line_text, wire_words, node_words, reg_words, type_text, expr_text, inst_words, connect_words, invalid_words, when_words, verif_words, verif_operands, kind_name, operands_before, message_text, label_text, listed};

use super::exprs::{put_expr, put_exprs};
use super::types::put_type;
use crate::tree::{Expr, ResetPair, Stmt, Ty, VerifKind};
use std::alloc::Global;
use tb_base::{Memory, Name, Seq, put, put_decimal, put_gap};

fn put_wire(alloc: Global, out: &mut Vec<u8>, name: &Name, ty: &Ty) -> Result<(), Memory>
    ensures { OnOk result (out.new.items ≡ out.old.items ++ wire_words name.now ty.now) }
{
    put(out, b"wire ")?;
    put(out, name.bytes())?;
    put(out, b" : ")?;
    put_type(alloc, out, ty)?;
    Ok(())
}

fn put_node(alloc: Global, out: &mut Vec<u8>, name: &Name, value: &Expr) -> Result<(), Memory>
    ensures { OnOk result (out.new.items ≡ out.old.items ++ node_words name.now value.now) }
{
    put(out, b"node ")?;
    put(out, name.bytes())?;
    put(out, b" = ")?;
    put_expr(alloc, out, value)?;
    Ok(())
}

fn put_reg(
    alloc: Global,
    out: &mut Vec<u8>,
    name: &Name,
    ty: &Ty,
    clock: &Expr,
    reset: &Option<ResetPair>,
) -> Result<(), Memory>
    ensures { OnOk result (out.new.items ≡ out.old.items ++ reg_words name.now ty.now clock.now reset.now) }
{
    match reset {
        None => {
            put(out, b"reg ")?;
            put_declared(alloc, out, name, ty, clock)?;
            Ok(())
        }
        Some(pair) => {
            put(out, b"regreset ")?;
            put_declared(alloc, out, name, ty, clock)?;
            put(out, b", ")?;
            put_expr(alloc, out, &pair.signal)?;
            put(out, b", ")?;
            put_expr(alloc, out, &pair.init)?;
            Ok(())
        }
    }
}

/// Puts what both forms of a register begin with: `name : T, E`.
fn put_declared(
    alloc: Global,
    out: &mut Vec<u8>,
    name: &Name,
    ty: &Ty,
    clock: &Expr,
) -> Result<(), Memory>
    ensures { OnOk result (out.new.items
        ≡ out.old.items ++ (name.now ++ (codes " : " ++ (type_text ty.now ++ (codes ", " ++ expr_text clock.now))))) }
{
    put(out, name.bytes())?;
    put(out, b" : ")?;
    put_type(alloc, out, ty)?;
    put(out, b", ")?;
    put_expr(alloc, out, clock)?;
    Ok(())
}

fn put_inst(out: &mut Vec<u8>, name: &Name, module: &Name) -> Result<(), Memory>
    ensures { OnOk result (out.new.items ≡ out.old.items ++ inst_words name.now «module».now) }
{
    put(out, b"inst ")?;
    put(out, name.bytes())?;
    put(out, b" of ")?;
    put(out, module.bytes())?;
    Ok(())
}

fn put_connect(alloc: Global, out: &mut Vec<u8>, sink: &Expr, value: &Expr) -> Result<(), Memory>
    ensures { OnOk result (out.new.items ≡ out.old.items ++ connect_words sink.now value.now) }
{
    put(out, b"connect ")?;
    put_expr(alloc, out, sink)?;
    put(out, b", ")?;
    put_expr(alloc, out, value)?;
    Ok(())
}

fn put_invalid(alloc: Global, out: &mut Vec<u8>, sink: &Expr) -> Result<(), Memory>
    ensures { OnOk result (out.new.items ≡ out.old.items ++ invalid_words sink.now) }
{
    put(out, b"invalidate ")?;
    put_expr(alloc, out, sink)?;
    Ok(())
}

fn put_when(alloc: Global, out: &mut Vec<u8>, cond: &Expr) -> Result<(), Memory>
    ensures { OnOk result (out.new.items ≡ out.old.items ++ when_words cond.now) }
{
    put(out, b"when ")?;
    put_expr(alloc, out, cond)?;
    put(out, b" :")?;
    Ok(())
}

fn kind_word(kind: VerifKind) -> &'static str
    ensures { result.now ≡ kind_name kind }
{
    match kind {
        VerifKind::Printf => "printf",
        VerifKind::Stop => "stop",
        VerifKind::Assert => "assert",
        VerifKind::Assume => "assume",
        VerifKind::Cover => "cover",
    }
}

/// How many expressions stand in front of the string or number.
fn count_before(kind: VerifKind) -> usize
    ensures { result ≡ operands_before kind }
{
    match kind {
        VerifKind::Printf | VerifKind::Stop => 2,
        VerifKind::Assert | VerifKind::Assume | VerifKind::Cover => 3,
    }
}

fn first_of(args: &[Expr], count: usize) -> &[Expr]
    ensures { result.now ≡ take count args.now }
{
    if count < args.len() {
        &args[..count]
    } else {
        args
    }
}

fn rest_of(args: &[Expr], count: usize) -> &[Expr]
    ensures { result.now ≡ drop count args.now }
{
    if count < args.len() {
        &args[count..]
    } else {
        &[]
    }
}

fn put_message(
    alloc: Global,
    out: &mut Vec<u8>,
    kind: VerifKind,
    code: u128,
    text: &Name,
) -> Result<(), Memory>
    ensures { OnOk result (out.new.items ≡ out.old.items ++ message_text kind code text.now) }
{
    match kind {
        VerifKind::Stop => {
            put_decimal(alloc, out, code)?;
            Ok(())
        }
        VerifKind::Printf | VerifKind::Assert | VerifKind::Assume | VerifKind::Cover => {
            put(out, b"\"")?;
            put(out, text.bytes())?;
            put(out, b"\"")?;
            Ok(())
        }
    }
}

fn put_label(out: &mut Vec<u8>, label: &Option<Name>) -> Result<(), Memory>
    ensures { OnOk result (out.new.items ≡ out.old.items ++ label_text label.now) }
{
    match label {
        None => Ok(()),
        Some(name) => {
            put(out, b" : ")?;
            put(out, name.bytes())?;
            Ok(())
        }
    }
}

fn put_verif_operands(
    alloc: Global,
    out: &mut Vec<u8>,
    kind: VerifKind,
    args: &[Expr],
    code: u128,
    text: &Name,
) -> Result<(), Memory>
    ensures { OnOk result (out.new.items
        ≡ out.old.items ++ listed (verif_operands kind args.now code text.now)) }
{
    let before = first_of(args, count_before(kind));
    put_exprs(alloc, out, true, before)?;
    put_gap(out, b", ", before.is_empty())?;
    put_message(alloc, out, kind, code, text)?;
    put_exprs(alloc, out, false, rest_of(args, count_before(kind)))?;
    Ok(())
}

fn put_verif(
    alloc: Global,
    out: &mut Vec<u8>,
    kind: VerifKind,
    args: &Seq<Expr>,
    code: u128,
    text: &Name,
    label: &Option<Name>,
) -> Result<(), Memory>
    ensures { OnOk result (out.new.items ≡ out.old.items ++ verif_words kind args.now code text.now label.now) }
{
    put(out, kind_word(kind).as_bytes())?;
    put(out, b"(")?;
    put_verif_operands(alloc, out, kind, args.items(), code, text)?;
    put(out, b")")?;
    put_label(out, label)?;
    Ok(())
}

/// Puts the statement behind the text: its line, or all the lines of a `when`.
#[cycle(print_stmt)]
fn put_stmt(alloc: Global, out: &mut Vec<u8>, indent: &[u8], stmt: &Stmt) -> Result<(), Memory>
    ensures { OnOk result (out.new.items ≡ out.old.items ++ stmt_text stmt.now indent.now) }
{
    put(out, indent)?;
    match stmt {
        Stmt::Wire { line: _, name, ty } => {
            put_wire(alloc, out, name, ty)?;
            put(out, b"\n")?;
            Ok(())
        }
        Stmt::Node {
            line: _,
            name,
            value,
        } => {
            put_node(alloc, out, name, value)?;
            put(out, b"\n")?;
            Ok(())
        }
        Stmt::Reg {
            line: _,
            name,
            ty,
            clock,
            reset,
        } => {
            put_reg(alloc, out, name, ty, clock, reset)?;
            put(out, b"\n")?;
            Ok(())
        }
        Stmt::Inst {
            line: _,
            name,
            module,
        } => {
            put_inst(out, name, module)?;
            put(out, b"\n")?;
            Ok(())
        }
        Stmt::Connect {
            line: _,
            sink,
            value,
        } => {
            put_connect(alloc, out, sink, value)?;
            put(out, b"\n")?;
            Ok(())
        }
        Stmt::Invalid { line: _, sink } => {
            put_invalid(alloc, out, sink)?;
            put(out, b"\n")?;
            Ok(())
        }
        Stmt::When {
            line: _,
            cond,
            taken,
            other,
        } => {
            put_when(alloc, out, cond)?;
            put(out, b"\n")?;
            put_block(alloc, out, indent, taken.as_slice())?;
            put_else(alloc, out, indent, other.as_slice())?;
            Ok(())
        }
        Stmt::Skip { line: _ } => {
            put(out, b"skip")?;
            put(out, b"\n")?;
            Ok(())
        }
        Stmt::Verif {
            line: _,
            kind,
            args,
            code,
            text,
            label,
        } => {
            put_verif(alloc, out, *kind, args, *code, text, label)?;
            put(out, b"\n")?;
            Ok(())
        }
    }
}

fn deeper_than(alloc: Global, indent: &[u8]) -> Result<Vec<u8>, Memory>
    ensures { IfOk result (λ text. text.items ≡ deeper indent.now) }
{
    let mut text = Vec::new(alloc);
    put(&mut text, indent)?;
    put(&mut text, b"  ")?;
    Ok(text)
}

/// Puts a block one level deeper than `indent` behind the text.
#[cycle(print_stmt)]
fn put_block(alloc: Global, out: &mut Vec<u8>, indent: &[u8], stmts: &[Stmt]) -> Result<(), Memory>
    ensures { OnOk result (out.new.items
        ≡ out.old.items ++ block_text (map stmt_text stmts.now) (deeper indent.now)) }
{
    let inner = deeper_than(alloc, indent)?;
    put_stmts(alloc, out, inner.as_slice(), stmts)?;
    Ok(())
}

#[cycle(print_stmt)]
fn put_else(alloc: Global, out: &mut Vec<u8>, indent: &[u8], stmts: &[Stmt]) -> Result<(), Memory>
    ensures { OnOk result (out.new.items ≡ out.old.items ++ else_text (map stmt_text stmts.now) indent.now) }
{
    if stmts.is_empty() {
        return Ok(());
    }
    put(out, indent)?;
    put(out, b"else :\n")?;
    put_block(alloc, out, indent, stmts)?;
    Ok(())
}

/// Puts the statements behind the text, at the indentation `indent`.
#[cycle(print_stmt)]
pub(crate) fn put_stmts(
    alloc: Global,
    out: &mut Vec<u8>,
    indent: &[u8],
    stmts: &[Stmt],
) -> Result<(), Memory>
    ensures { OnOk result (out.new.items ≡ out.old.items ++ block_text (map stmt_text stmts.now) indent.now) }
{
    for stmt in stmts {
        put_stmt(alloc, out, indent, stmt)?;
    }
    Ok(())
}
