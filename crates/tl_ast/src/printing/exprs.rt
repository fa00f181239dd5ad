//! The printed form of expressions.
//!
//! An operand is printed in a place that asks for a tightness: an operation that is looser stands
//! there in parentheses.
ghost use Rattle.std.specs.Prelude.{◌≡◌, ◌≤◌, ◌++◌, OnOk, codes, map, true};
ghost use Rattle.tb_base.specs.Joined.{joined, led};
ghost use Rattle.tl_ast.specs.Printed.{op_text, tightness, left_asks, right_asks, opening, closing, operand_text, expr_text, listed};

use crate::tree::{TestExpr, TestOp};
use std::alloc::Global;
use tb_base::{Memory, put, put_decimal, put_gap};

fn op_word(op: TestOp) -> &'static str
    ensures { result.now ≡ op_text op }
{
    match op {
        TestOp::Add => "+",
        TestOp::Sub => "-",
        TestOp::Mul => "*",
        TestOp::And => "&",
        TestOp::Or => "|",
        TestOp::Xor => "^",
        TestOp::Shl => "<<",
        TestOp::Shr => ">>",
        TestOp::Eq => "==",
        TestOp::Neq => "!=",
        TestOp::Lt => "<",
        TestOp::Leq => "<=",
        TestOp::Gt => ">",
        TestOp::Geq => ">=",
    }
}

/// How tight an operator binds, from 0 for comparisons to 6 for `*`.
fn tightness_of(op: TestOp) -> u8
    ensures is { result ≡ tightness op }
    ensures small { result ≤ 6 }
{
    match op {
        TestOp::Eq | TestOp::Neq | TestOp::Lt | TestOp::Leq | TestOp::Gt | TestOp::Geq => 0,
        TestOp::Or => 1,
        TestOp::Xor => 2,
        TestOp::And => 3,
        TestOp::Shl | TestOp::Shr => 4,
        TestOp::Add | TestOp::Sub => 5,
        TestOp::Mul => 6,
    }
}

/// The tightness that an operation asks of the operand on its left.
fn asked_on_left(op: TestOp) -> u8
    ensures { result ≡ left_asks op }
{
    tightness_of(op).max(1)
}

/// The tightness that an operation asks of the operand on its right.
fn asked_on_right(op: TestOp) -> u8
    ensures { result ≡ right_asks op }
{
    tightness_of(op) + 1
}

fn opening_word(is_in_parens: bool) -> &'static [u8]
    ensures { result.now ≡ opening is_in_parens }
{
    if is_in_parens { b"( " } else { b"" }
}

fn closing_word(is_in_parens: bool) -> &'static [u8]
    ensures { result.now ≡ closing is_in_parens }
{
    if is_in_parens { b" )" } else { b"" }
}

/// Puts the expression behind the text, in a place that asks for this tightness.
fn put_operand(alloc: Global, out: &mut Vec<u8>, asked: u8, expr: &TestExpr) -> Result<(), Memory>
    ensures { OnOk result (out.new.items ≡ out.old.items ++ operand_text expr.now asked) }
{
    match expr {
        TestExpr::Num(n) => {
            put_decimal(alloc, out, *n)?;
            Ok(())
        }
        TestExpr::Var(name) => {
            put(out, name.bytes())?;
            Ok(())
        }
        TestExpr::Neg(of) => {
            put(out, b"- ")?;
            put_operand(alloc, out, 7, of.get())?;
            Ok(())
        }
        TestExpr::Two(op, left, right) => {
            let is_in_parens = tightness_of(*op) < asked;
            put(out, opening_word(is_in_parens))?;
            put_operand(alloc, out, asked_on_left(*op), left.get())?;
            put(out, b" ")?;
            put(out, op_word(*op).as_bytes())?;
            put(out, b" ")?;
            put_operand(alloc, out, asked_on_right(*op), right.get())?;
            put(out, closing_word(is_in_parens))?;
            Ok(())
        }
    }
}

/// Puts the whole expression behind the text.
pub(crate) fn put_expr(alloc: Global, out: &mut Vec<u8>, expr: &TestExpr) -> Result<(), Memory>
    ensures { OnOk result (out.new.items ≡ out.old.items ++ expr_text expr.now) }
{
    put_operand(alloc, out, 0, expr)?;
    Ok(())
}

/// Puts `[ E , E ]` behind the text, or `[ ]` where there is no expression.
pub(crate) fn put_list(alloc: Global, out: &mut Vec<u8>, exprs: &[TestExpr]) -> Result<(), Memory>
    ensures { OnOk result (out.new.items ≡ out.old.items ++ listed (map expr_text exprs.now)) }
{
    if exprs.is_empty() {
        put(out, b"[ ]")?;
        return Ok(());
    }
    put(out, b"[ ")?;
    put_joined(alloc, out, exprs)?;
    put(out, b" ]")?;
    Ok(())
}

fn put_joined(alloc: Global, out: &mut Vec<u8>, exprs: &[TestExpr]) -> Result<(), Memory>
    ensures { OnOk result (out.new.items ≡ out.old.items ++ joined (codes " , ") (map expr_text exprs.now)) }
{
    let mut is_first = true;
    for expr in exprs {
        put_gap(out, b" , ", is_first)?;
        put_expr(alloc, out, expr)?;
        is_first = false;
    }
    Ok(())
}

/// Puts each expression behind the text, with a space in front.
pub(crate) fn put_each(alloc: Global, out: &mut Vec<u8>, exprs: &[TestExpr]) -> Result<(), Memory>
    ensures { OnOk result (out.new.items ≡ out.old.items ++ led (codes " ") (map expr_text exprs.now)) }
{
    for expr in exprs {
        put(out, b" ")?;
        put_expr(alloc, out, expr)?;
    }
    Ok(())
}
