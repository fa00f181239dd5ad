ghost use Rattle.std.specs.Prelude.{◌≡◌, IfOk, None, Some, [], ◌∷◌};
ghost use Rattle.tb_base.specs.declared.op.Op.TheVariants.{Add};
ghost use Rattle.net_core.specs.declared.tree.Ground.TheVariants.{Declare};
ghost use Rattle.net_core.specs.declared.tree.GroundExpr.TheVariants.{Apply};
ghost use Rattle.net_core.specs.Examples as of;

use net_core::*;
use sqlite_items::Items;
use std::alloc::Global;
use std::test::Fail;
use tb_base::{Name, Op, Seq};

fn info(signal: u32, input: bool, width: u8) -> PortInfo {
    PortInfo {
        signal: Signal(signal),
        input,
        signed: false,
        width,
    }
}

#[test]
fn a_table_finds_its_ports(rt: HostRuntime) -> Result<(), Fail> {
    let mut table = PortTable::new(rt.alloc());
    table
        .add(b"in".to_vec(rt.alloc())?, info(0, true, 8))
        .ok()
        .ok_or("no memory")?;
    let second = b"out".to_vec(rt.alloc())?;
    if table.find(second.as_slice()).is_none() {
        table
            .add(second, info(1, false, 9))
            .ok()
            .ok_or("no memory")?;
    }
    assert_eq!(rt; table.len(), 2);
    assert!(rt; table.find(b"out") == Some(info(1, false, 9)));
    assert!(rt; table.find(b"ou").is_none());
    assert!(rt; table.at(0) == Some((b"in".as_slice(), info(0, true, 8))));
    assert!(rt; table.at(2).is_none());
    Ok(())
}

fn uint(alloc: Global, name: &[u8], role: Role, width: u8, line: u32) -> Result<SignalInfo, Fail>
    ensures { IfOk result (λ i. i ≡ of.uint name.now role (Some width) line) }
{
    Ok(SignalInfo {
        name: Name::of(name.to_vec(alloc)?),
        role,
        signed: false,
        width: Some(width),
        line,
    })
}

fn declared(signal: u32, line: u32) -> Ground
    ensures { result ≡ Declare (of.s signal) line None }
{
    Ground::Declare {
        signal: Signal(signal),
        line,
        reset: None,
    }
}

fn read(signal: u32) -> GroundExpr
    ensures { result ≡ of.r signal }
{
    GroundExpr::Read(Signal(signal))
}

fn adder_signals(alloc: Global) -> Result<Vec<SignalInfo>, Fail>
    ensures { IfOk result (λ v. v.items ≡ (of.adder 8 9).signals) }
{
    let a = uint(alloc, b"a", Role::Input, 8, 3)?;
    let b = uint(alloc, b"b", Role::Input, 8, 4)?;
    let out = uint(alloc, b"out", Role::Output, 9, 5)?;
    let signals = vec![in alloc; a, b, out]?;
    Ok(signals)
}

fn sum(alloc: Global) -> Result<GroundExpr, Fail>
    ensures { IfOk result (λ e. e ≡ Apply Add (of.r 0 ∷ of.r 1 ∷ []) []) }
{
    let args = vec![in alloc; read(0), read(1)]?;
    Ok(GroundExpr::Apply {
        op: Op::Add,
        args: Items::from_vec(args),
        nums: Seq::of(Vec::new(alloc)),
    })
}

fn adder_body(alloc: Global) -> Result<Vec<Ground>, Fail>
    ensures { IfOk result (λ v. v.items ≡ (of.adder 8 9).body) }
{
    let set = Ground::Set {
        line: 6,
        sink: Signal(2),
        value: Some(sum(alloc)?),
    };
    let body = vec![in alloc; declared(0, 3), declared(1, 4), declared(2, 5), set]?;
    Ok(body)
}

/// The sum of `a` and `b`, of eight bits each, in `out` of nine.
fn adder(alloc: Global) -> Result<Elab, Fail>
    ensures { IfOk result (λ e. e ≡ of.adder 8 9) }
{
    let signals = adder_signals(alloc)?;
    let body = adder_body(alloc)?;
    let name = b"W".to_vec(alloc)?;
    Ok(Elab {
        name: Name::of(name),
        signals: Seq::of(signals),
        body: Seq::of(body),
    })
}

#[test]
fn a_circuit_has_a_table(rt: HostRuntime) -> Result<(), Fail> {
    the_forms_work_out();
    let elab = adder(rt.alloc())?;
    let table = PortTable::of(rt.alloc(), &elab).ok().ok_or("no memory")?;
    assert_eq!(rt; table.len(), 3);
    assert!(rt; table.find(b"out") == Some(info(2, false, 9)));
    let copy = table.copy().ok().ok_or("no memory")?;
    assert_eq!(rt; copy.len(), 3);
    assert!(rt; copy.find(b"a") == Some(info(0, true, 8)));
    assert!(rt; copy.at(1) == Some((b"b".as_slice(), info(1, true, 8))));
    assert!(rt; copy.at(3).is_none());
    Ok(())
}

fn is_read(expr: Option<&GroundExpr>, number: u32) -> bool {
    match expr {
        Some(GroundExpr::Read(signal)) => signal.0 == number,
        _ => false,
    }
}

fn is_sum(expr: &GroundExpr) -> bool {
    match expr {
        GroundExpr::Apply { op, args, nums } => {
            *op == Op::Add
                && nums.items().is_empty()
                && args.len() == 2
                && is_read(args.get(0), 0)
                && is_read(args.get(1), 1)
        }
        _ => false,
    }
}

fn sets_sum(ground: Option<&Ground>) -> bool {
    match ground {
        Some(
            Ground::Set {
                line,
                sink,
                value: Some(value),
            },
        ) => *line == 6 && sink.0 == 2 && is_sum(value),
        _ => false,
    }
}

#[test]
fn a_circuit_is_copied(rt: HostRuntime) -> Result<(), Fail> {
    let elab = adder(rt.alloc())?;
    let copy = elab.copy(rt.alloc()).ok().ok_or("no memory")?;
    assert_eq!(rt; copy.name.bytes(), b"W".as_slice());
    let signals = copy.signals.items();
    assert_eq!(rt; signals.len(), 3);
    assert_eq!(rt; signals[2].name.bytes(), b"out".as_slice());
    assert!(rt;
        signals[2].role == Role::Output && signals[2].width == Some(9) && signals[2].line == 5
    );
    assert_eq!(rt; copy.body.items().len(), 4);
    assert!(rt; sets_sum(copy.body.items().get(3)));
    Ok(())
}

/// An input, and a register that takes it where the signal 0 is 1.
fn net(alloc: Global) -> Result<Net, Fail> {
    let choice = Choice::When {
        cond: Signal(0),
        taken: Items::from_vec(vec![in alloc; Choice::Take(Some(read(0)))]?),
        other: Items::new(alloc),
    };
    let next = Seq::of(vec![in alloc; choice]?);
    Ok(Net {
        own: 2,
        signals: Seq::of(vec![in alloc;
            uint(alloc, b"a", Role::Input, 1, 3)?,
            uint(alloc, b"r", Role::Reg, 1, 4)?,
        ]?),
        equations: Seq::of(vec![in alloc; Equation::Input, Equation::Reg { next }]?),
    })
}

fn takes_input(choice: Option<&Choice>) -> bool {
    match choice {
        Some(Choice::When { cond, taken, other }) => {
            let take = match taken.get(0) {
                Some(Choice::Take(value)) => is_read(value.as_ref(), 0),
                _ => false,
            };
            cond.0 == 0 && taken.len() == 1 && other.is_empty() && take
        }
        _ => false,
    }
}

#[test]
fn a_net_is_copied(rt: HostRuntime) -> Result<(), Fail> {
    let copy = net(rt.alloc())?.copy(rt.alloc()).ok().ok_or("no memory")?;
    assert_eq!(rt; copy.own, 2);
    assert_eq!(rt; copy.signals.items().len(), 2);
    assert!(rt; copy.signals.items()[1].role == Role::Reg);
    assert_eq!(rt; copy.equations.items().len(), 2);
    assert!(rt; matches!(copy.equations.items().get(0), Some(Equation::Input)));
    let held = match copy.equations.items().get(1) {
        Some(Equation::Reg { next }) => takes_input(next.items().get(0)),
        _ => false,
    };
    assert!(rt; held);
    Ok(())
}
