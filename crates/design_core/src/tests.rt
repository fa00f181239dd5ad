//! Elaborations of circuits in which a vector of no elements is of a huge type.
//!
//! What is expected is worked out by the definition: the element at an index of none is a literal 0 of width 0 with the sign of the
//! ground part, a choice at a further index is between as many of these as that vector has elements, and nothing drives them but
//! for a When with nothing in it for each element of a further index.
ghost use Rattle.std.specs.Prelude.{◌<◌, ◌-◌, ◌^◌, length};

use crate::stages::{BuildFault, judge, lay_out, spell};
use net_core::{Elab, Ground, GroundExpr};
use std::alloc::Global;
use std::test::Fail;
use tb_base::{Memory, Op, put, put_decimal};

/// Writes expressions, each behind a blank. A literal is written as its sign, its width and its
/// number, so `u0'0` is a UInt of width 0.
#[cycle(exprs)]
fn put_exprs(alloc: Global, exprs: &[GroundExpr], out: &mut Vec<u8>) -> Result<(), Memory> {
    for expr in exprs {
        put(out, b" ")?;
        put_expr(alloc, expr, out)?;
    }
    Ok(())
}

#[cycle(exprs)]
fn put_expr(alloc: Global, expr: &GroundExpr, out: &mut Vec<u8>) -> Result<(), Memory> {
    match expr {
        GroundExpr::Read(signal) => put_number(alloc, b"r", signal.0, out),
        GroundExpr::Lit {
            signed,
            width,
            magnitude,
            ..
        } => {
            put(out, if *signed { b"s" } else { b"u" })?;
            if let Some(width) = width {
                put_number(alloc, b"", u32::from(*width), out)?;
            }
            put(out, b"'")?;
            put_decimal(alloc, out, *magnitude)
        }
        GroundExpr::Apply { op, args, .. } => {
            put(out, if *op == Op::Add { b"(add" } else { b"(other" })?;
            put_exprs(alloc, args.as_slice(), out)?;
            put(out, b")")
        }
        GroundExpr::Select { index, items } => {
            put(out, b"(at ")?;
            put_expr(alloc, index.get(), out)?;
            put(out, b":")?;
            put_exprs(alloc, items.as_slice(), out)?;
            put(out, b")")
        }
        GroundExpr::IndexIs { index, place } => {
            put(out, b"(")?;
            put_expr(alloc, index.get(), out)?;
            put_number(alloc, b" is ", *place, out)?;
            put(out, b")")
        }
    }
}

fn put_number(alloc: Global, before: &[u8], number: u32, out: &mut Vec<u8>) -> Result<(), Memory> {
    put(out, before)?;
    put_decimal(alloc, out, u128::from(number))
}

/// Writes statements but for declarations, each with a semicolon.
#[cycle(statements)]
fn put_statements(alloc: Global, body: &[Ground], out: &mut Vec<u8>) -> Result<(), Memory> {
    for ground in body {
        put_statement(alloc, ground, out)?;
    }
    Ok(())
}

#[cycle(statements)]
fn put_statement(alloc: Global, ground: &Ground, out: &mut Vec<u8>) -> Result<(), Memory> {
    match ground {
        Ground::Declare { .. } => Ok(()),
        Ground::Set { sink, value, .. } => {
            put_number(alloc, b"", sink.0, out)?;
            put(out, b" = ")?;
            match value {
                Some(expr) => put_expr(alloc, expr, out)?,
                None => put(out, b"invalid")?,
            }
            put(out, b"; ")
        }
        Ground::When {
            cond,
            taken,
            other,
            ..
        } => {
            put(out, b"when ")?;
            put_expr(alloc, cond, out)?;
            put(out, b" {")?;
            put_statements(alloc, taken.as_slice(), out)?;
            put(out, b"} {")?;
            put_statements(alloc, other.as_slice(), out)?;
            put(out, b"}; ")
        }
    }
}

fn elaboration(alloc: Global, text: &[u8]) -> Result<Elab, BuildFault>
    requires { length text.now < 2 ^ 32 - 1 }
{
    let circuit = spell(alloc, text)?;
    let checked = judge(alloc, circuit)?;
    lay_out(alloc, &checked)
}

/// The statements of a circuit with the inputs 0 `i`, 1 `j` and 2 `x` and these lines. Of one that is refused, or for
/// which there isn't enough memory, a word that says so.
fn statements(alloc: Global, lines: &str) -> Result<Vec<u8>, Memory> {
    let mut text = Vec::new(alloc);
    put(
        &mut text,
        b"circuit M :
  module M :
    input i : UInt<4>
    input j : UInt<4>
    input x : UInt<8>
",
    )?;
    put(&mut text, lines.as_bytes())?;
    let mut out = Vec::new(alloc);
    if text.len() > 1_000 {
        put(&mut out, b"too long")?;
        return Ok(out);
    }
    match elaboration(alloc, &text) {
        Ok(elab) => put_statements(alloc, elab.body.items(), &mut out)?,
        Err(_) => put(&mut out, b"refused")?,
    }
    Ok(out)
}

#[test]
fn a_part_behind_a_huge_missing_element_is_zero(rt: HostRuntime) -> Result<(), Fail> {
    let alloc = rt.alloc();
    let rows = [
        (
            "    wire b : { v : UInt<8>[65536][100][2] }[0]\n    node n = b[i].v[1][0][0]\n",
            "3 = u0'0; ",
        ),
        (
            "    wire b : { u : UInt<8>, v : SInt<8>[65536][100][2] }[0]\n    node n = b[i].v[1][99][65535]\n    node m = b[i].u\n",
            "3 = s0'0; 4 = u0'0; ",
        ),
        (
            "    wire b : SInt<8>[65536][65536][2][0]\n    node n = b[i][1][0][7]\n",
            "3 = s0'0; ",
        ),
        (
            "    wire b : { v : UInt<8>[65536][100][2] }[0]\n    node n = add(b[i].v[1][0][0], x)\n",
            "3 = (add u0'0 r2); ",
        ),
    ];
    for (lines, expected) in rows {
        assert_eq!(rt;
            statements(alloc, lines)?.as_slice(),
            expected.as_bytes(),
            "{lines}"
        );
    }
    Ok(())
}

#[test]
fn a_further_index_chooses_between_zeros(rt: HostRuntime) -> Result<(), Fail> {
    let alloc = rt.alloc();
    let rows = [
        (
            "    wire b : { v : UInt<8>[65536][100][2] }[0]\n    node n = b[i].v[j][0][0]\n",
            "3 = (at r1: u0'0 u0'0); ",
        ),
        (
            "    wire b : { v : { s : SInt<8>[2] }[65536][65536][3] }[0]\n    node n = b[i].v[j][0][1].s[i]\n",
            "3 = (at r0: (at r1: s0'0 s0'0 s0'0) (at r1: s0'0 s0'0 s0'0)); ",
        ),
        (
            "    wire b : { v : SInt<8>[65536][65536][0][2] }[0]\n    node n = b[i].v[j][i][0][1]\n",
            "3 = s0'0; ",
        ),
    ];
    for (lines, expected) in rows {
        assert_eq!(rt;
            statements(alloc, lines)?.as_slice(),
            expected.as_bytes(),
            "{lines}"
        );
    }
    Ok(())
}

#[test]
fn nothing_drives_a_missing_element(rt: HostRuntime) -> Result<(), Fail> {
    let alloc = rt.alloc();
    let rows = [
        (
            "    wire b : { v : UInt<8>[65536][100][2] }[0]\n    connect b[i].v[1][0][0], x\n",
            "",
        ),
        (
            "    wire b : { flip a : UInt<8> }[0]\n    wire w : { flip a : UInt<8> }\n    connect b[i], w\n",
            "3 = u0'0; ",
        ),
        (
            "    wire b : { v : UInt<8>[65536][100][2] }[0]\n    connect b[i].v[j][0][0], x\n",
            "when (r1 is 0) {} {}; when (r1 is 1) {} {}; ",
        ),
        (
            "    wire b : SInt<8>[65536][65536][65536][0]\n    connect b[i], b[j]\n    connect b[i], mux(UInt<1>(1), b[i], b[j])\n    invalidate b[i]\n",
            "",
        ),
    ];
    for (lines, expected) in rows {
        assert_eq!(rt;
            statements(alloc, lines)?.as_slice(),
            expected.as_bytes(),
            "{lines}"
        );
    }
    Ok(())
}

/// A circuit in which each kind of declaration is of this type, and what is declared is driven.
fn circuit_of_type(alloc: Global, ty: &str) -> Result<Vec<u8>, Memory> {
    let mut text = Vec::new(alloc);
    let lines = [
        ("circuit M :\n  module N :\n    input a : ", "\n"),
        ("    output b : ", "\n    connect b, a\n"),
        (
            "  module M :\n    input clk : Clock\n    input rst : UInt<1>\n    input p : ",
            "\n",
        ),
        ("    output o : ", "\n"),
        ("    wire w : ", "\n"),
        ("    wire v : ", "\n    connect w, v\n    invalidate w\n"),
        ("    wire f : { flip t : ", " }\n    connect f.t, w\n"),
        ("    reg r : ", ", clk\n    connect r, w\n"),
        ("    regreset s : ", ", clk, rst, v\n"),
    ];
    for (before, behind) in lines {
        put(&mut text, before.as_bytes())?;
        put(&mut text, ty.as_bytes())?;
        put(&mut text, behind.as_bytes())?;
    }
    put(
        &mut text,
        b"    node n = w
    node m = mux(rst, w, v)
    inst q of N
    connect q.a, p
    connect o, q.b
",
    )?;
    Ok(text)
}

#[test]
fn nothing_comes_of_huge_vectors_without_ground_parts(rt: HostRuntime) -> Result<(), Fail> {
    let alloc = rt.alloc();
    let types = [
        "UInt<8>[0][65536][65536][65536]",
        "{ }[65536][65536][65536]",
        "{ a : SInt<4>[65536][0], b : { }[65536] }[65536][65536]",
        "UInt<8>[65536][65536][65536][0]",
        "{ a : UInt<8>[65536][65536] }[0][65536]",
    ];
    for ty in types {
        let text = circuit_of_type(alloc, ty)?;
        assert!(rt; text.len() < 1_000, "{ty}");
        let mut out = Vec::new(alloc);
        match elaboration(alloc, &text) {
            Ok(elab) => {
                assert_eq!(rt; elab.signals.items().len(), 1, "{ty}");
                put_statements(alloc, elab.body.items(), &mut out)?;
            }
            Err(_) => put(&mut out, b"refused")?,
        }
        assert_eq!(rt; out.as_slice(), "".as_bytes(), "{ty}");
    }
    Ok(())
}
