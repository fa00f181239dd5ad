ghost use Rattle.std.specs.Prelude.{◌≡◌, IfOk, Some, [], ◌∷◌, false};
ghost use Rattle.sim_plain.specs.Examples.{delay, of_eight, takes};

use super::*;
use net_core::{Choice, Engine, Equation, GroundExpr, Net, Role, Signal, SignalInfo};
use sqlite_items::Items;
use std::alloc::Global;
use std::test::Fail;
use tb_base::{Memory, Name, Seq};

fn signal(alloc: Global, role: Role, width: u8) -> SignalInfo
    ensures { result ≡ record { name = []; role = role; signed = false; width = Some width; line = 0 } }
{
    SignalInfo {
        name: Name::of(Vec::new(alloc)),
        role,
        signed: false,
        width: Some(width),
        line: 0,
    }
}

fn take(source: u32) -> Choice
    ensures { (takes source) ≡ result ∷ [] }
{
    Choice::Take(Some(GroundExpr::Read(Signal(source))))
}

/// The choices of an equation that takes these signals, one after the other.
fn takes(alloc: Global, sources: &[u32]) -> Result<Vec<Choice>, Memory> {
    let mut choices = Vec::new(alloc);
    for source in sources {
        choices.push(take(*source))?;
    }
    Ok(choices)
}

/// Two inputs of 8 bits, a condition, and an output that gets the first of them, and the second where the condition is 1.
fn overridden(alloc: Global) -> Result<Net, Memory> {
    let mut signals = Vec::new(alloc);
    signals.push(signal(alloc, Role::Input, 8))?;
    signals.push(signal(alloc, Role::Input, 8))?;
    signals.push(signal(alloc, Role::Input, 1))?;
    signals.push(signal(alloc, Role::Output, 8))?;
    let mut choices = takes(alloc, &[1, 0])?;
    choices.push(Choice::When {
        cond: Signal(2),
        taken: Items::from_vec(takes(alloc, &[1])?),
        other: Items::new(alloc),
    })?;
    let mut equations = Vec::new(alloc);
    equations.push(Equation::Input)?;
    equations.push(Equation::Input)?;
    equations.push(Equation::Input)?;
    equations.push(Equation::Comb(Seq::of(choices)))?;
    Ok(Net {
        own: 4,
        signals: Seq::of(signals),
        equations: Seq::of(equations),
    })
}

/// The raw bits of the choices' value, where these are the values of the signals.
fn chosen(net: &Net, x: usize, values: &[u128]) -> Option<u128> {
    match net.equations.items().get(x) {
        Some(Equation::Comb(choices)) => {
            let word = chosen_value(choices.items(), net.signals.items(), values, None)?;
            Some(word.raw())
        }
        _ => None,
    }
}

#[test]
fn the_last_connect_that_holds_wins(rt: HostRuntime) -> Result<(), Fail> {
    let net = overridden(rt.alloc()).ok().ok_or("no net")?;
    assert!(rt; chosen(&net, 3, &[5, 7, 0, 0]) == Some(5));
    assert!(rt; chosen(&net, 3, &[5, 7, 1, 0]) == Some(7));
    Ok(())
}

fn of_eight(alloc: Global, role: Role) -> SignalInfo
    ensures { result ≡ of_eight role }
{
    signal(alloc, role, 8)
}

fn one(alloc: Global, source: u32) -> Result<Seq<Choice>, Memory>
    ensures { IfOk result (λ c. c ≡ takes source) }
{
    let mut choices = Vec::new(alloc);
    choices.push(take(source))?;
    Ok(Seq::of(choices))
}

/// An input of 8 bits, an output that gets the register, and a register that gets the input.
fn delay(alloc: Global) -> Result<Net, Memory>
    ensures { IfOk result (λ n. n ≡ delay) }
{
    let mut signals = Vec::new(alloc);
    signals.push(of_eight(alloc, Role::Input))?;
    signals.push(of_eight(alloc, Role::Output))?;
    signals.push(of_eight(alloc, Role::Reg))?;
    let mut equations = Vec::new(alloc);
    equations.push(Equation::Input)?;
    equations.push(Equation::Comb(one(alloc, 2)?))?;
    equations.push(Equation::Reg {
        next: one(alloc, 0)?,
    })?;
    Ok(Net {
        own: 3,
        signals: Seq::of(signals),
        equations: Seq::of(equations),
    })
}

fn delay_engine(alloc: Global) -> Result<PlainEngine, Memory>
    ensures { IfOk result (λ e. e.net ≡ delay) }
{
    let net = delay(alloc)?;
    PlainEngine::over(alloc, &net, &[Signal(0), Signal(2), Signal(1)])
}

#[test]
#[tactic(auto, using(crate::proofs::Delay::delay_register))]
fn a_register_delays(rt: HostRuntime) -> Result<(), Fail> {
    let mut engine = delay_engine(rt.alloc()).ok().ok_or("no engine")?;
    let input = Signal(0);
    let output = Signal(1);
    engine.poke(input, 256 + 9);
    assert_eq!(rt; engine.value(output).raw(), 0);
    engine.edge();
    assert_eq!(rt; engine.state(Signal(2)).raw(), 9);
    engine.poke(input, 4);
    assert_eq!(rt; engine.value(output).raw(), 9);
    assert_eq!(rt; engine.input(input), 4);
    engine.edge();
    assert_eq!(rt; engine.value(output).raw(), 4);
    Ok(())
}
