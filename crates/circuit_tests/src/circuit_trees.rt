//! Printed circuits, against texts that are written by hand.

use fir_ast::{Circuit, Expr, Field, Module, Port, ResetPair, Stmt, Ty, VerifKind, print};
use sqlite_items::{Boxed, Items};
use std::alloc::{AllocError, Global};
use std::test::Fail;
use tb_base::{Name, Op, Seq};

fn name(alloc: Global, text: &[u8]) -> Result<Name, AllocError> {
    Ok(Name::of(Vec::from_slice(alloc, text)?))
}

fn ident(alloc: Global, text: &[u8]) -> Result<Expr, AllocError> {
    Ok(Expr::Ident(name(alloc, text)?))
}

fn part(alloc: Global, of: &[u8], field: &[u8]) -> Result<Expr, AllocError> {
    Ok(Expr::Part(Boxed::new(alloc, ident(alloc, of)?)?, name(alloc, field)?))
}

fn uint(width: Option<u8>, magnitude: u128) -> Expr {
    Expr::Lit {
        signed: false,
        width,
        negative: false,
        magnitude,
    }
}

fn apply(alloc: Global, op: Op, a: Expr, b: Expr) -> Result<Expr, AllocError> {
    let mut args = Items::new(alloc);
    args.push(a)?;
    args.push(b)?;
    Ok(Expr::Apply {
        op,
        args,
        nums: Seq::of(Vec::new(alloc)),
    })
}

fn port(alloc: Global, output: bool, text: &[u8], ty: Ty) -> Result<Port, AllocError> {
    Ok(Port {
        line: 1,
        output,
        name: name(alloc, text)?,
        ty,
    })
}

fn connect(sink: Expr, value: Expr) -> Stmt {
    Stmt::Connect {
        line: 1,
        sink,
        value,
    }
}

fn circuit_of(
    alloc: Global,
    text: &[u8],
    ports: Vec<Port>,
    body: Vec<Stmt>,
) -> Result<Circuit, AllocError> {
    let mut modules = Vec::new(alloc);
    modules.push(Module {
        line: 2,
        name: name(alloc, text)?,
        ports: Seq::of(ports),
        body: Seq::of(body),
    })?;
    Ok(Circuit {
        line: 1,
        name: name(alloc, text)?,
        modules: Seq::of(modules),
    })
}

/// `{ flip a : UInt<8>, b : UInt<8> }`
fn bundle(alloc: Global) -> Result<Ty, AllocError> {
    let mut fields = Items::new(alloc);
    fields.push(Field {
        flip: true,
        name: name(alloc, b"a")?,
        ty: Ty::UInt(Some(8)),
    })?;
    fields.push(Field {
        flip: false,
        name: name(alloc, b"b")?,
        ty: Ty::UInt(Some(8)),
    })?;
    Ok(Ty::Bundle(fields))
}

fn reset_ports(alloc: Global) -> Result<Vec<Port>, AllocError> {
    let mut ports = Vec::new(alloc);
    ports.push(port(alloc, false, b"clock", Ty::Clock)?)?;
    ports.push(port(alloc, false, b"reset", Ty::UInt(Some(1)))?)?;
    ports.push(port(alloc, true, b"io", bundle(alloc)?)?)?;
    Ok(ports)
}

fn register(alloc: Global) -> Result<Stmt, AllocError> {
    let reset = ResetPair {
        signal: ident(alloc, b"reset")?,
        init: uint(Some(8), 0),
    };
    Ok(Stmt::Reg {
        line: 7,
        name: name(alloc, b"r")?,
        ty: Ty::UInt(Some(8)),
        clock: ident(alloc, b"clock")?,
        reset: Some(reset),
    })
}

fn into_register(alloc: Global) -> Result<Stmt, AllocError> {
    Ok(connect(ident(alloc, b"r")?, part(alloc, b"io", b"a")?))
}

fn out_of_register(alloc: Global) -> Result<Stmt, AllocError> {
    Ok(connect(part(alloc, b"io", b"b")?, ident(alloc, b"r")?))
}

fn reset_circuit(alloc: Global) -> Result<Circuit, AllocError> {
    let mut body = Vec::new(alloc);
    body.push(register(alloc)?)?;
    body.push(into_register(alloc)?)?;
    body.push(out_of_register(alloc)?)?;
    circuit_of(alloc, b"B", reset_ports(alloc)?, body)
}

#[test]
fn a_register_with_reset(rt: HostRuntime) -> Result<(), Fail> {
    let alloc = rt.alloc();
    let circuit = reset_circuit(alloc)?;
    let wanted = b"circuit B :
  module B :
    input clock : Clock
    input reset : UInt<1>
    output io : { flip a : UInt<8>, b : UInt<8> }
    regreset r : UInt<8>, clock, reset, UInt<8>(0)
    connect r, io.a
    connect io.b, r
";
    let text = print(alloc, &circuit)?;
    assert_eq!(rt; text.as_slice(), wanted.as_slice());
    let copy = circuit.copy(alloc)?;
    let text = print(alloc, &copy)?;
    assert_eq!(rt; text.as_slice(), wanted.as_slice(), "a copy");
    Ok(())
}

fn block(alloc: Global) -> Result<Items<Stmt>, AllocError> {
    let mut stmts = Items::new(alloc);
    stmts.push(into_register(alloc)?)?;
    Ok(stmts)
}

/// `when lt(a, UInt(3)) :` with one connect in each branch.
fn branches(alloc: Global) -> Result<Stmt, AllocError> {
    Ok(Stmt::When {
        line: 3,
        cond: apply(alloc, Op::Lt, ident(alloc, b"a")?, uint(None, 3))?,
        taken: block(alloc)?,
        other: block(alloc)?,
    })
}

fn checked(
    alloc: Global,
    kind: VerifKind,
    code: u128,
    text: &[u8],
    label: Option<Name>,
) -> Result<Stmt, AllocError> {
    let mut args = Vec::new(alloc);
    args.push(ident(alloc, b"clock")?)?;
    args.push(ident(alloc, b"p")?)?;
    if kind != VerifKind::Stop {
        args.push(ident(alloc, b"q")?)?;
    }
    Ok(Stmt::Verif {
        line: 9,
        kind,
        args: Seq::of(args),
        code,
        text: name(alloc, text)?,
        label,
    })
}

#[test]
fn branches_and_checks(rt: HostRuntime) -> Result<(), Fail> {
    let alloc = rt.alloc();
    let mut body = Vec::new(alloc);
    body.push(branches(alloc)?)?;
    let label = Some(name(alloc, b"low")?);
    body.push(checked(alloc, VerifKind::Assert, 0, b"small", label)?)?;
    body.push(checked(alloc, VerifKind::Stop, 7, b"", None)?)?;
    let circuit = circuit_of(alloc, b"W", Vec::new(alloc), body)?;
    let wanted = b"circuit W :
  module W :
    when lt(a, UInt(3)) :
      connect r, io.a
    else :
      connect r, io.a
    assert(clock, p, q, \"small\") : low
    stop(clock, p, 7)
";
    let text = print(alloc, &circuit)?;
    assert_eq!(rt; text.as_slice(), wanted.as_slice());
    Ok(())
}
