//! The printed form of expressions.
ghost use Rattle.std.specs.Prelude.{◌≡◌, ◌++◌, OnOk, codes, map};
ghost use Rattle.std.specs.Fmt.{decimal};
ghost use Rattle.tb_base.specs.Joined.{joined_after};
ghost use Rattle.fir_ast.specs.Printed.{expr_text, literal_text, sign_name, minus_text, listed};

use super::types::put_width;
use crate::tree::Expr;
use std::alloc::Global;
use tb_base::{Memory, put, put_decimal, put_decimals, put_gap};

fn sign_word(signed: bool) -> &'static [u8]
    ensures { result.now ≡ sign_name signed }
{
    if signed { b"SInt" } else { b"UInt" }
}

fn minus_sign(negative: bool) -> &'static [u8]
    ensures { result.now ≡ minus_text negative }
{
    if negative { b"-" } else { b"" }
}

fn put_literal(
    alloc: Global,
    out: &mut Vec<u8>,
    signed: bool,
    width: Option<u8>,
    negative: bool,
    magnitude: u128,
) -> Result<(), Memory>
    ensures { OnOk result (out.new.items ≡ out.old.items ++ literal_text signed width negative magnitude) }
{
    put(out, sign_word(signed))?;
    put_width(alloc, out, width)?;
    put(out, b"(")?;
    put(out, minus_sign(negative))?;
    put_decimal(alloc, out, magnitude)?;
    put(out, b")")?;
    Ok(())
}

/// Puts the expression behind the text.
#[cycle(print_expr)]
pub(crate) fn put_expr(alloc: Global, out: &mut Vec<u8>, expr: &Expr) -> Result<(), Memory>
    ensures { OnOk result (out.new.items ≡ out.old.items ++ expr_text expr.now) }
{
    match expr {
        Expr::Ident(name) => {
            put(out, name.bytes())?;
            Ok(())
        }
        Expr::Part(of, name) => {
            put_expr(alloc, out, of.get())?;
            put(out, b".")?;
            put(out, name.bytes())?;
            Ok(())
        }
        Expr::At(of, at) => {
            put_expr(alloc, out, of.get())?;
            put(out, b"[")?;
            put_decimal(alloc, out, *at)?;
            put(out, b"]")?;
            Ok(())
        }
        Expr::Index(of, at) => {
            put_expr(alloc, out, of.get())?;
            put(out, b"[")?;
            put_expr(alloc, out, at.get())?;
            put(out, b"]")?;
            Ok(())
        }
        Expr::Lit {
            signed,
            width,
            negative,
            magnitude,
        } => {
            put_literal(alloc, out, *signed, *width, *negative, *magnitude)?;
            Ok(())
        }
        Expr::Apply { op, args, nums } => {
            put(out, op.name().as_bytes())?;
            put(out, b"(")?;
            put_operands(alloc, out, args.as_slice(), nums.items())?;
            put(out, b")")?;
            Ok(())
        }
    }
}

#[cycle(print_expr)]
fn put_operands(
    alloc: Global,
    out: &mut Vec<u8>,
    args: &[Expr],
    nums: &[u128],
) -> Result<(), Memory>
    ensures { OnOk result (out.new.items
        ≡ out.old.items ++ listed (map expr_text args.now ++ map decimal nums.now)) }
{
    put_exprs(alloc, out, true, args)?;
    put_decimals(alloc, out, b", ", args.is_empty(), nums)?;
    Ok(())
}

/// Puts the expressions behind the text with commas between them, and one in front of the first too
/// unless `is_first`.
#[cycle(print_expr)]
pub(crate) fn put_exprs(
    alloc: Global,
    out: &mut Vec<u8>,
    is_first: bool,
    exprs: &[Expr],
) -> Result<(), Memory>
    ensures { OnOk result (out.new.items
        ≡ out.old.items ++ joined_after (codes ", ") is_first (map expr_text exprs.now)) }
{
    let mut is_next_first = is_first;
    for expr in exprs {
        put_gap(out, b", ", is_next_first)?;
        put_expr(alloc, out, expr)?;
        is_next_first = false;
    }
    Ok(())
}
