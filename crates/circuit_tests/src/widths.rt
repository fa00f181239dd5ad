use fir_widths::*;
use net_core::{Elab, Ground, GroundExpr, Role, Signal, SignalInfo};
use sqlite_items::Items;
use std::alloc::Global;
use std::test::Fail;
use tb_base::{Memory, Name, Op, Seq};

fn name(alloc: Global, text: &[u8]) -> Result<Name, Memory> {
    Ok(Name::of(Vec::from_slice(alloc, text)?))
}

fn info(
    alloc: Global,
    text: &[u8],
    role: Role,
    width: Option<u8>,
    line: u32,
) -> Result<SignalInfo, Memory> {
    Ok(SignalInfo {
        name: name(alloc, text)?,
        role,
        signed: false,
        width,
        line,
    })
}

fn read(signal: u32) -> GroundExpr {
    GroundExpr::Read(Signal(signal))
}

fn literal(width: Option<u8>, magnitude: u128) -> GroundExpr {
    GroundExpr::Lit {
        signed: false,
        width,
        negative: false,
        magnitude,
    }
}

fn sum(alloc: Global, left: GroundExpr, right: GroundExpr) -> Result<GroundExpr, Memory> {
    let mut args = Vec::new(alloc);
    args.push(left)?;
    args.push(right)?;
    Ok(GroundExpr::Apply {
        op: Op::Add,
        args: Items::from_vec(args),
        nums: Seq::of(Vec::new(alloc)),
    })
}

/// An operation on one operand with these numbers.
fn numbered(
    alloc: Global,
    op: Op,
    operand: GroundExpr,
    nums: &[u128],
) -> Result<GroundExpr, Memory> {
    let mut args = Vec::new(alloc);
    args.push(operand)?;
    Ok(GroundExpr::Apply {
        op,
        args: Items::from_vec(args),
        nums: Seq::of(Vec::from_slice(alloc, nums)?),
    })
}

fn declare(signal: u32, line: u32) -> Ground {
    Ground::Declare {
        signal: Signal(signal),
        line,
        reset: None,
    }
}

fn set(sink: u32, line: u32, value: GroundExpr) -> Ground {
    Ground::Set {
        line,
        sink: Signal(sink),
        value: Some(value),
    }
}

fn circuit(
    alloc: Global,
    text: &[u8],
    signals: Vec<SignalInfo>,
    body: Vec<Ground>,
) -> Result<Elab, Memory> {
    Ok(Elab {
        name: name(alloc, text)?,
        signals: Seq::of(signals),
        body: Seq::of(body),
    })
}

/// `out` of eight bits gets `r`, and `r` gets `add(r, UInt<1>(1))`.
fn grower(alloc: Global, register: Option<u8>) -> Result<Elab, Memory> {
    let mut signals = Vec::new(alloc);
    signals.push(info(alloc, b"out", Role::Output, Some(8), 4)?)?;
    signals.push(info(alloc, b"r", Role::Reg, register, 5)?)?;
    let next = sum(alloc, read(1), literal(Some(1), 1))?;
    let mut body = Vec::new(alloc);
    body.push(declare(0, 4))?;
    body.push(declare(1, 5))?;
    body.push(set(1, 6, next))?;
    body.push(set(0, 7, read(1)))?;
    circuit(alloc, b"G", signals, body)
}

/// Inputs `a` and `b` of `width` bits, and `out` of this role and width.
fn two_inputs(
    alloc: Global,
    width: u8,
    role: Role,
    out: Option<u8>,
) -> Result<Vec<SignalInfo>, Memory> {
    let mut signals = Vec::new(alloc);
    signals.push(info(alloc, b"a", Role::Input, Some(width), 3)?)?;
    signals.push(info(alloc, b"b", Role::Input, Some(width), 4)?)?;
    signals.push(info(alloc, b"out", role, out, 5)?)?;
    Ok(signals)
}

/// On line 6 `out` gets this value of `a` and `b`.
fn out_gets(alloc: Global, signals: Vec<SignalInfo>, value: GroundExpr) -> Result<Elab, Memory> {
    let mut body = Vec::new(alloc);
    body.push(declare(0, 3))?;
    body.push(declare(1, 4))?;
    body.push(declare(2, 5))?;
    body.push(set(2, 6, value))?;
    circuit(alloc, b"W", signals, body)
}

/// `out` gets `add(a, b)`, where `a` and `b` have `width` bits.
fn adder(alloc: Global, width: u8, role: Role, out: Option<u8>) -> Result<Elab, Memory> {
    let value = sum(alloc, read(0), read(1))?;
    out_gets(alloc, two_inputs(alloc, width, role, out)?, value)
}

/// `out` gets `bits(add(a, b), 5, 7)`, a range that ends before it begins.
fn bad_range(alloc: Global, width: u8) -> Result<Elab, Memory> {
    let both = sum(alloc, read(0), read(1))?;
    let value = numbered(alloc, Op::Bits, both, &[5, 7])?;
    out_gets(
        alloc,
        two_inputs(alloc, width, Role::Output, Some(8))?,
        value,
    )
}

/// A wire without a width that gets this value of an input of eight bits.
fn wire_gets(alloc: Global, value: GroundExpr) -> Result<Elab, Memory> {
    let mut signals = Vec::new(alloc);
    signals.push(info(alloc, b"a", Role::Input, Some(8), 3)?)?;
    signals.push(info(alloc, b"w", Role::Inner, None, 4)?)?;
    let mut body = Vec::new(alloc);
    body.push(declare(0, 3))?;
    body.push(declare(1, 4))?;
    body.push(set(1, 5, value))?;
    circuit(alloc, b"L", signals, body)
}

/// Wires `p` and `q` get each other, `q` by way of `tail(add(p, p), 1)`, and `p` gets an input of five bits besides.
fn ring(alloc: Global) -> Result<Elab, Memory> {
    let mut signals = Vec::new(alloc);
    signals.push(info(alloc, b"a", Role::Input, Some(5), 3)?)?;
    signals.push(info(alloc, b"p", Role::Inner, None, 4)?)?;
    signals.push(info(alloc, b"q", Role::Inner, None, 5)?)?;
    let twice = sum(alloc, read(1), read(1))?;
    let mut body = Vec::new(alloc);
    body.push(declare(0, 3))?;
    body.push(declare(1, 4))?;
    body.push(declare(2, 5))?;
    body.push(set(1, 6, read(2)))?;
    body.push(set(2, 7, numbered(alloc, Op::Tail, twice, &[1])?))?;
    body.push(set(1, 8, read(0)))?;
    circuit(alloc, b"Ring", signals, body)
}

/// An input of eight bits, and wires of which each gets the one before. The last wire's connect stands first.
fn chain(alloc: Global, wires: u32) -> Result<Elab, Memory> {
    let mut signals = Vec::new(alloc);
    let mut body = Vec::new(alloc);
    signals.push(info(alloc, b"a", Role::Input, Some(8), 3)?)?;
    body.push(declare(0, 3))?;
    for k in 0..wires {
        signals.push(info(alloc, b"w", Role::Inner, None, 4)?)?;
        body.push(declare(k + 1, 4))?;
    }
    for k in 0..wires {
        let sink = wires - k;
        body.push(set(sink, 5, read(sink - 1)))?;
    }
    circuit(alloc, b"Chain", signals, body)
}

fn width_of(elab: &Elab, k: usize) -> Option<u8> {
    match elab.signals.items().get(k) {
        Some(signal) => signal.width,
        None => None,
    }
}

#[test]
fn a_register_that_is_wider_than_itself_is_too_wide(rt: HostRuntime) -> Result<(), Fail> {
    let elab = grower(rt.alloc(), None).ok().ok_or("no memory")?;
    let answer = infer(rt.alloc(), elab);
    assert!(rt; matches!(answer, Err(WidthFault::TooWide(5))));
    Ok(())
}

#[test]
fn a_sum_of_129_bits_is_too_wide_at_its_line(rt: HostRuntime) -> Result<(), Fail> {
    let elab = adder(rt.alloc(), 128, Role::Output, Some(128))
        .ok()
        .ok_or("no memory")?;
    let answer = infer(rt.alloc(), elab);
    assert!(rt; matches!(answer, Err(WidthFault::TooWide(6))));
    Ok(())
}

#[test]
fn a_sum_of_128_bits_is_not(rt: HostRuntime) -> Result<(), Fail> {
    let elab = adder(rt.alloc(), 127, Role::Output, Some(128))
        .ok()
        .ok_or("no memory")?;
    let sized = infer(rt.alloc(), elab).ok().ok_or("refused")?;
    assert_eq!(rt; width_of(&sized, 2), Some(128));
    Ok(())
}

#[test]
fn a_range_that_ends_before_it_begins_is_refused(rt: HostRuntime) -> Result<(), Fail> {
    let elab = bad_range(rt.alloc(), 8).ok().ok_or("no memory")?;
    let answer = infer(rt.alloc(), elab);
    assert!(rt; matches!(answer, Err(WidthFault::BadRange(6))));
    Ok(())
}

#[test]
fn too_wide_comes_first_on_one_line(rt: HostRuntime) -> Result<(), Fail> {
    let elab = bad_range(rt.alloc(), 128).ok().ok_or("no memory")?;
    let answer = infer(rt.alloc(), elab);
    assert!(rt; matches!(answer, Err(WidthFault::TooWide(6))));
    Ok(())
}

#[test]
fn a_node_is_as_wide_as_its_expression(rt: HostRuntime) -> Result<(), Fail> {
    let elab = adder(rt.alloc(), 8, Role::Node, None)
        .ok()
        .ok_or("no memory")?;
    let sized = infer(rt.alloc(), elab).ok().ok_or("refused")?;
    assert_eq!(rt; width_of(&sized, 0), Some(8));
    assert_eq!(rt; width_of(&sized, 2), Some(9));
    Ok(())
}

#[test]
fn a_ring_of_connects_has_a_least_width(rt: HostRuntime) -> Result<(), Fail> {
    let elab = ring(rt.alloc()).ok().ok_or("no memory")?;
    let sized = infer(rt.alloc(), elab).ok().ok_or("refused")?;
    assert_eq!(rt; width_of(&sized, 1), Some(5));
    assert_eq!(rt; width_of(&sized, 2), Some(5));
    Ok(())
}

#[test]
fn a_literal_without_width_has_the_least_that_holds_it(rt: HostRuntime) -> Result<(), Fail> {
    for (magnitude, width) in [(0, 1), (1, 1), (255, 8), (256, 9)] {
        let elab = wire_gets(rt.alloc(), literal(None, magnitude))
            .ok()
            .ok_or("no memory")?;
        let sized = infer(rt.alloc(), elab).ok().ok_or("refused")?;
        assert_eq!(rt; width_of(&sized, 1), Some(width));
    }
    Ok(())
}

#[test]
fn a_shift_to_the_right_leaves_a_bit(rt: HostRuntime) -> Result<(), Fail> {
    let value = numbered(rt.alloc(), Op::Shr, read(0), &[8])
        .ok()
        .ok_or("no memory")?;
    let elab = wire_gets(rt.alloc(), value).ok().ok_or("no memory")?;
    let sized = infer(rt.alloc(), elab).ok().ok_or("refused")?;
    assert_eq!(rt; width_of(&sized, 1), Some(1));
    Ok(())
}

#[test]
fn a_long_chain_against_its_order(rt: HostRuntime) -> Result<(), Fail> {
    let elab = chain(rt.alloc(), 60_000).ok().ok_or("no memory")?;
    let sized = infer(rt.alloc(), elab).ok().ok_or("refused")?;
    assert_eq!(rt; width_of(&sized, 1), Some(8));
    assert_eq!(rt; width_of(&sized, 60_000), Some(8));
    Ok(())
}
