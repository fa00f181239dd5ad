//! Circuits that break one rule, or two, and one that keeps them all.
//!
//! But where a test says otherwise a circuit begins in line 2, its main module `M` in line 3, with a
//! Clock `c`, an input `a` and an output `y`, both of one bit; its statements begin in line 7.

use fir_ast::{Circuit, Expr, Module, Port, Stmt, Ty, print};
use fir_check::{CheckFault, Checked, check};
use std::alloc::Global;
use std::test::Fail;
use tb_base::{Memory, Name, Seq};

/// What `check` says of a circuit, or that there wasn't enough memory to make it.
type Checking = Result<Result<Checked, CheckFault>, Memory>;

fn name(alloc: Global, text: &[u8]) -> Result<Name, Memory> {
    Ok(Name::of(Vec::from_slice(alloc, text)?))
}

fn ident(alloc: Global, text: &[u8]) -> Result<Expr, Memory> {
    Ok(Expr::Ident(name(alloc, text)?))
}

fn wire(alloc: Global, line: u32, text: &[u8], ty: Ty) -> Result<Stmt, Memory> {
    let name = name(alloc, text)?;
    Ok(Stmt::Wire { line, name, ty })
}

fn node(alloc: Global, line: u32, text: &[u8], value: &[u8]) -> Result<Stmt, Memory> {
    let name = name(alloc, text)?;
    let value = ident(alloc, value)?;
    Ok(Stmt::Node { line, name, value })
}

fn inst(alloc: Global, line: u32, text: &[u8], module: &[u8]) -> Result<Stmt, Memory> {
    let module = name(alloc, module)?;
    let name = name(alloc, text)?;
    Ok(Stmt::Inst { line, name, module })
}

fn connect(alloc: Global, line: u32, sink: &[u8], value: &[u8]) -> Result<Stmt, Memory> {
    let sink = ident(alloc, sink)?;
    let value = ident(alloc, value)?;
    Ok(Stmt::Connect { line, sink, value })
}

fn port(alloc: Global, line: u32, output: bool, text: &[u8], ty: Ty) -> Result<Port, Memory> {
    let name = name(alloc, text)?;
    Ok(Port {
        line,
        output,
        name,
        ty,
    })
}

fn module(
    alloc: Global,
    line: u32,
    text: &[u8],
    ports: Vec<Port>,
    body: Vec<Stmt>,
) -> Result<Module, Memory> {
    Ok(Module {
        line,
        name: name(alloc, text)?,
        ports: Seq::of(ports),
        body: Seq::of(body),
    })
}

fn check_modules(alloc: Global, text: &[u8], modules: Vec<Module>) -> Checking {
    let circuit = Circuit {
        line: 2,
        name: name(alloc, text)?,
        modules: Seq::of(modules),
    };
    Ok(check(alloc, circuit))
}

/// A main module with these statements.
fn check_main(alloc: Global, body: Vec<Stmt>) -> Checking {
    let mut ports = Vec::new(alloc);
    ports.push(port(alloc, 4, false, b"c", Ty::Clock)?)?;
    ports.push(port(alloc, 5, false, b"a", Ty::UInt(Some(1)))?)?;
    ports.push(port(alloc, 6, true, b"y", Ty::UInt(Some(1)))?)?;
    let mut modules = Vec::new(alloc);
    modules.push(module(alloc, 3, b"M", ports, body)?)?;
    check_modules(alloc, b"M", modules)
}

/// A main module with two statements.
fn check_two(alloc: Global, first: Stmt, second: Stmt) -> Checking {
    let mut body = Vec::new(alloc);
    body.push(first)?;
    body.push(second)?;
    check_main(alloc, body)
}

/// A module without ports that has an instance.
fn holder(alloc: Global, line: u32, text: &[u8], target: &[u8]) -> Result<Module, Memory> {
    let mut body = Vec::new(alloc);
    body.push(inst(alloc, line.saturating_add(1), b"q", target)?)?;
    module(alloc, line, text, Vec::new(alloc), body)
}

/// `M` has an instance of `N`, `N` one of `P`, and `P` one of `N`.
fn check_cycle(alloc: Global) -> Checking {
    let mut modules = Vec::new(alloc);
    modules.push(holder(alloc, 3, b"M", b"N")?)?;
    modules.push(holder(alloc, 5, b"N", b"P")?)?;
    modules.push(holder(alloc, 7, b"P", b"N")?)?;
    check_modules(alloc, b"M", modules)
}

fn check_other_name(alloc: Global) -> Checking {
    let mut modules = Vec::new(alloc);
    modules.push(module(alloc, 3, b"N", Vec::new(alloc), Vec::new(alloc))?)?;
    check_modules(alloc, b"M", modules)
}

fn check_two_wires(alloc: Global) -> Checking {
    let first = wire(alloc, 7, b"w", Ty::UInt(Some(8)))?;
    let second = wire(alloc, 8, b"w", Ty::SInt(None))?;
    check_two(alloc, first, second)
}

fn check_unknown(alloc: Global) -> Checking {
    let first = connect(alloc, 7, b"y", b"a")?;
    let second = connect(alloc, 8, b"y", b"z")?;
    check_two(alloc, first, second)
}

fn check_other_sign(alloc: Global) -> Checking {
    let first = wire(alloc, 7, b"w", Ty::SInt(Some(1)))?;
    let second = connect(alloc, 8, b"w", b"a")?;
    check_two(alloc, first, second)
}

fn check_driven_input(alloc: Global) -> Checking {
    let first = connect(alloc, 7, b"y", b"a")?;
    let second = connect(alloc, 8, b"a", b"y")?;
    check_two(alloc, first, second)
}

fn check_copied_clock(alloc: Global) -> Checking {
    let first = connect(alloc, 7, b"y", b"a")?;
    let second = node(alloc, 8, b"n", b"c")?;
    check_two(alloc, first, second)
}

/// The input `a` is driven, and the name `z` isn't known, both in line 8.
fn check_two_rules(alloc: Global) -> Checking {
    let first = connect(alloc, 7, b"y", b"a")?;
    let second = connect(alloc, 8, b"a", b"z")?;
    check_two(alloc, first, second)
}

/// The second statement has the smaller line.
fn check_lower_line(alloc: Global) -> Checking {
    let first = connect(alloc, 9, b"y", b"z")?;
    let second = connect(alloc, 8, b"a", b"y")?;
    check_two(alloc, first, second)
}

fn check_kept(alloc: Global) -> Checking {
    let first = wire(alloc, 7, b"w", Ty::UInt(None))?;
    let second = connect(alloc, 8, b"w", b"a")?;
    check_two(alloc, first, second)
}

#[test]
fn names_that_break_a_rule(rt: HostRuntime) {
    assert!(rt;
        matches!(
            &check_other_name(rt.alloc()),
            Ok(Err(CheckFault::NoMain(2)))
        )
    );
    assert!(rt;
        matches!(
            &check_two_wires(rt.alloc()),
            Ok(Err(CheckFault::DoubleName(8)))
        )
    );
    assert!(rt;
        matches!(
            &check_unknown(rt.alloc()),
            Ok(Err(CheckFault::UnknownName(8)))
        )
    );
}

#[test]
fn kinds_and_flows_that_break_a_rule(rt: HostRuntime) {
    assert!(rt;
        matches!(
            &check_other_sign(rt.alloc()),
            Ok(Err(CheckFault::WrongKind(8)))
        )
    );
    assert!(rt;
        matches!(
            &check_driven_input(rt.alloc()),
            Ok(Err(CheckFault::WrongFlow(8)))
        )
    );
    assert!(rt;
        matches!(
            &check_copied_clock(rt.alloc()),
            Ok(Err(CheckFault::ClockUse(8)))
        )
    );
}

#[test]
fn a_cycle_of_modules_breaks_a_rule(rt: HostRuntime) {
    assert!(rt;
        matches!(
            &check_cycle(rt.alloc()),
            Ok(Err(CheckFault::InstanceCycle(6)))
        )
    );
}

#[test]
fn the_first_rule_of_a_line_is_told(rt: HostRuntime) {
    assert!(rt;
        matches!(
            &check_two_rules(rt.alloc()),
            Ok(Err(CheckFault::UnknownName(8)))
        )
    );
}

#[test]
fn the_least_line_is_told(rt: HostRuntime) {
    assert!(rt;
        matches!(
            &check_lower_line(rt.alloc()),
            Ok(Err(CheckFault::WrongFlow(8)))
        )
    );
}

#[test]
fn a_circuit_that_keeps_the_rules_comes_back(rt: HostRuntime) -> Result<(), Fail> {
    let checked = check_kept(rt.alloc()).ok().ok_or("memory")?;
    let checked = checked.ok().ok_or("refused")?;
    let printed = print(rt.alloc(), checked.circuit()).ok().ok_or("memory")?;
    let wanted =
        b"circuit M :\n  module M :\n    input c : Clock\n    input a : UInt<1>\n    output y : UInt<1>\n    wire w : UInt\n    connect w, a\n";
    assert_eq!(rt; printed.as_slice(), wanted.as_slice());
    Ok(())
}
