ghost use Rattle.std.specs.Prelude.{◌≡◌, ◌∷◌, [], None, Some, IfOk, IfSome};
ghost use Rattle.tb_base.specs.declared.op.Op.TheVariants.{Add};
ghost use Rattle.net_core.specs.declared.tree.Ground.TheVariants.{Declare, Set};
ghost use Rattle.net_core.specs.declared.tree.GroundExpr.TheVariants.{Apply};
ghost use Rattle.net_core.specs.Examples.{adder as sum, uint, s, r};

use crate::device::Device;
use net_core::{Elab, Ground, GroundExpr, PortTable, Role, Signal, SignalInfo, the_forms_work_out};
use net_design::Design;
use net_resolve::resolve;
use sim_plain::PlainEngine;
use sqlite_items::Items;
use std::alloc::Global;
use std::test::Fail;
use tb_base::{Memory, Name, Op, Seq};

fn name(alloc: Global, bytes: &[u8]) -> Result<Name, Memory>
    ensures { IfOk result (λ n. n ≡ bytes.now) }
{
    let bytes = Vec::from_slice(alloc, bytes)?;
    Ok(Name::of(bytes))
}

fn port(alloc: Global, bytes: &[u8], role: Role, width: u8, line: u32) -> Result<SignalInfo, Memory>
    ensures { IfOk result (λ i. i ≡ uint bytes.now role (Some width) line) }
{
    let name = name(alloc, bytes)?;
    Ok(SignalInfo {
        name,
        role,
        signed: false,
        width: Some(width),
        line,
    })
}

fn ports(alloc: Global) -> Result<Vec<SignalInfo>, Memory>
    ensures { IfOk result (λ signals. signals.items ≡ (sum 8 9).signals) }
{
    let a = port(alloc, b"a", Role::Input, 8, 3)?;
    let b = port(alloc, b"b", Role::Input, 8, 4)?;
    let out = port(alloc, b"out", Role::Output, 9, 5)?;
    let mut signals = Vec::new(alloc);
    signals.push(a)?;
    signals.push(b)?;
    signals.push(out)?;
    Ok(signals)
}

fn declare(signal: u32, line: u32) -> Ground
    ensures { result ≡ Declare (s signal) line None }
{
    Ground::Declare {
        signal: Signal(signal),
        line,
        reset: None,
    }
}

/// The output gets the sum of the inputs.
fn add(alloc: Global) -> Result<Ground, Memory>
    ensures { IfOk result (λ g. g ≡ Set 6 (s 2) (Some (Apply Add (r 0 ∷ r 1 ∷ []) []))) }
{
    let mut args = Vec::new(alloc);
    args.push(GroundExpr::Read(Signal(0)))?;
    args.push(GroundExpr::Read(Signal(1)))?;
    Ok(Ground::Set {
        line: 6,
        sink: Signal(2),
        value: Some(GroundExpr::Apply {
            op: Op::Add,
            args: Items::from_vec(args),
            nums: Seq::of(Vec::new(alloc)),
        }),
    })
}

fn body(alloc: Global) -> Result<Vec<Ground>, Memory>
    ensures { IfOk result (λ body. body.items ≡ (sum 8 9).body) }
{
    let adds = add(alloc)?;
    let mut body = Vec::new(alloc);
    body.push(declare(0, 3))?;
    body.push(declare(1, 4))?;
    body.push(declare(2, 5))?;
    body.push(adds)?;
    Ok(body)
}

/// The inputs `a` and `b` of 8 bits, and `out`, their sum, of 9.
fn adder(alloc: Global) -> Result<Elab, Memory>
    ensures { IfOk result (λ e. e ≡ sum 8 9) }
{
    let name = name(alloc, b"W")?;
    let signals = ports(alloc)?;
    let body = body(alloc)?;
    Ok(Elab {
        name,
        signals: Seq::of(signals),
        body: Seq::of(body),
    })
}

/// The adder under test, over the plain engine.
fn adder_device(alloc: Global) -> Option<Device<PlainEngine>>
    ensures { IfSome result (λ d. d.elab ≡ sum 8 9) }
{
    the_forms_work_out();
    let Ok(elab) = adder(alloc) else {
        return None;
    };
    let Ok(name) = elab.name.copy(alloc) else {
        return None;
    };
    let Ok(ports) = PortTable::of(alloc, &elab) else {
        return None;
    };
    let Ok(net) = resolve(alloc, &elab) else {
        return None;
    };
    let Ok(design) = Design::new(alloc, name, ports, elab, net) else {
        return None;
    };
    let Ok(engine) = PlainEngine::new(alloc, &design) else {
        return None;
    };
    Some(Device::new(design, engine))
}

#[test]
fn a_poked_sum_is_sampled(rt: HostRuntime) -> Result<(), Fail> {
    let mut device = adder_device(rt.alloc()).ok_or("no device")?;
    device.poke(Signal(0), 256 + 200);
    device.poke(Signal(1), 100);
    assert_eq!(rt; device.number(Signal(2)), 300);
    device.edge();
    assert_eq!(rt; device.number(Signal(0)), 200);
    let row = Vec::with_capacity(rt.alloc(), device.port_count())?;
    let numbers = device.sample_into(row);
    assert!(rt; numbers.items() == [200, 100, 300].as_slice());
    Ok(())
}
