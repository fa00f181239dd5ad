use net_core::{
    Choice, Elab, Equation, Ground, GroundExpr, GroundReset, Net, Role, Signal, SignalInfo,
};
use net_resolve::*;
use sqlite_items::Items;
use std::alloc::Global;
use std::test::Fail;
use tb_base::{Memory, Name, Seq, put, put_decimal};

/// A circuit of signals of these roles, each of one bit and declared in its order at the head of the body.
fn circuit(alloc: Global, roles: &[Role], rest: Vec<Ground>) -> Result<Elab, Memory> {
    let mut signals = Vec::new(alloc);
    let mut body = Vec::new(alloc);
    let mut line = 0u32;
    for role in roles {
        signals.push(SignalInfo {
            name: Name::of(Vec::new(alloc)),
            role: *role,
            signed: false,
            width: Some(1),
            line,
        })?;
        let is_register = *role == Role::Reg;
        let reset = if is_register {
            Some(GroundReset {
                signal: GroundExpr::Read(Signal(0)),
                init: GroundExpr::Read(Signal(1)),
            })
        } else {
            None
        };
        body.push(Ground::Declare {
            signal: Signal(line),
            line,
            reset,
        })?;
        line = line.wrapping_add(1);
    }
    for ground in rest {
        body.push(ground)?;
    }
    Ok(Elab {
        name: Name::of(Vec::new(alloc)),
        signals: Seq::of(signals),
        body: Seq::of(body),
    })
}

fn read(sink: u32, source: u32) -> Ground {
    Ground::Set {
        line: 9,
        sink: Signal(sink),
        value: Some(GroundExpr::Read(Signal(source))),
    }
}

fn invalid(sink: u32) -> Ground {
    Ground::Set {
        line: 9,
        sink: Signal(sink),
        value: None,
    }
}

fn when(cond: u32, taken: Vec<Ground>, other: Vec<Ground>) -> Ground {
    Ground::When {
        line: 9,
        cond: GroundExpr::Read(Signal(cond)),
        taken: Items::from_vec(taken),
        other: Items::from_vec(other),
    }
}

/// Writes choices: a signal that is taken as its number, nothing as `-`, and a When as `5?(..|..)`.
fn show(alloc: Global, out: &mut Vec<u8>, choices: &[Choice]) -> Result<(), Memory> {
    for choice in choices {
        match choice {
            Choice::Take(Some(GroundExpr::Read(signal))) => {
                put_decimal(alloc, out, signal.0 as u128)?;
            }
            Choice::Take(_) => put(out, b"-")?,
            Choice::When { cond, taken, other } => {
                put_decimal(alloc, out, cond.0 as u128)?;
                put(out, b"?(")?;
                show(alloc, out, taken.as_slice())?;
                put(out, b"|")?;
                show(alloc, out, other.as_slice())?;
                put(out, b")")?;
            }
        }
        put(out, b" ")?;
    }
    Ok(())
}

fn shown(alloc: Global, net: &Net, x: usize) -> Result<Vec<u8>, Memory> {
    let mut out = Vec::new(alloc);
    match net.equations.items().get(x) {
        None => {}
        Some(Equation::Input) => put(&mut out, b"input")?,
        Some(Equation::Comb(choices)) => show(alloc, &mut out, choices.items())?,
        Some(Equation::Reg { next }) => show(alloc, &mut out, next.items())?,
    }
    Ok(out)
}

const ROLES: [Role; 4] = [Role::Input, Role::Input, Role::Input, Role::Output];

#[test]
fn the_last_connect_wins(rt: HostRuntime) -> Result<(), Fail> {
    let alloc = rt.alloc();
    let mut body = Vec::new(alloc);
    body.push(read(3, 0))?;
    body.push(read(3, 1))?;
    let elab = circuit(alloc, &ROLES, body).ok().ok_or("no memory")?;
    let net = resolve(alloc, &elab).ok().ok_or("no net")?;
    assert_eq!(rt; net.own, 4);
    assert_eq!(rt; net.equations.items().len(), 4);
    let text = shown(alloc, &net, 0).ok().ok_or("no memory")?;
    assert!(rt; text.as_slice() == b"input".as_slice());
    let text = shown(alloc, &net, 3).ok().ok_or("no memory")?;
    assert!(rt; text.as_slice() == b"1 ".as_slice());
    Ok(())
}

#[test]
fn a_when_stands_behind_what_was_before(rt: HostRuntime) -> Result<(), Fail> {
    let alloc = rt.alloc();
    let mut inner = Vec::new(alloc);
    inner.push(read(3, 2))?;
    let mut taken = Vec::new(alloc);
    taken.push(when(1, inner, Vec::new(alloc)))?;
    let mut body = Vec::new(alloc);
    body.push(invalid(3))?;
    body.push(when(0, taken, Vec::new(alloc)))?;
    let elab = circuit(alloc, &ROLES, body).ok().ok_or("no memory")?;
    let net = resolve(alloc, &elab).ok().ok_or("no net")?;
    assert_eq!(rt; net.signals.items().len(), 6);
    let text = shown(alloc, &net, 3).ok().ok_or("no memory")?;
    assert!(rt; text.as_slice() == b"- 4?(5?(2 |) |) ".as_slice());
    let text = shown(alloc, &net, 5).ok().ok_or("no memory")?;
    assert!(rt; text.as_slice() == b"1 ".as_slice());
    Ok(())
}

#[test]
fn both_sides_replace_what_was_before(rt: HostRuntime) -> Result<(), Fail> {
    let alloc = rt.alloc();
    let mut taken = Vec::new(alloc);
    taken.push(read(3, 1))?;
    let mut other = Vec::new(alloc);
    other.push(read(3, 2))?;
    let mut body = Vec::new(alloc);
    body.push(read(3, 0))?;
    body.push(when(0, taken, other))?;
    let elab = circuit(alloc, &ROLES, body).ok().ok_or("no memory")?;
    let net = resolve(alloc, &elab).ok().ok_or("no net")?;
    let text = shown(alloc, &net, 3).ok().ok_or("no memory")?;
    assert!(rt; text.as_slice() == b"4?(1 |2 ) ".as_slice());
    Ok(())
}

#[test]
fn a_reset_is_the_last_choice(rt: HostRuntime) -> Result<(), Fail> {
    let alloc = rt.alloc();
    let roles = [Role::Input, Role::Input, Role::Reg];
    let mut body = Vec::new(alloc);
    body.push(read(2, 1))?;
    let elab = circuit(alloc, &roles, body).ok().ok_or("no memory")?;
    let net = resolve(alloc, &elab).ok().ok_or("no net")?;
    let text = shown(alloc, &net, 2).ok().ok_or("no memory")?;
    assert!(rt; text.as_slice() == b"1 3?(1 |) ".as_slice());
    let text = shown(alloc, &net, 3).ok().ok_or("no memory")?;
    assert!(rt; text.as_slice() == b"0 ".as_slice());
    Ok(())
}

#[test]
fn the_least_open_sink_is_named(rt: HostRuntime) -> Result<(), Fail> {
    let alloc = rt.alloc();
    let roles = [Role::Input, Role::Input, Role::Output, Role::Output];
    let mut taken = Vec::new(alloc);
    taken.push(read(2, 1))?;
    let mut body = Vec::new(alloc);
    body.push(when(0, taken, Vec::new(alloc)))?;
    let elab = circuit(alloc, &roles, body).ok().ok_or("no memory")?;
    match resolve(alloc, &elab) {
        Err(ResolveFault::NotInitialised(signal)) => assert_eq!(rt; signal.0, 2),
        _ => assert!(rt; false),
    }
    Ok(())
}
