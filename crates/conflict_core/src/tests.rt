ghost use Rattle.std.specs.Prelude.{◌≡◌, ◌<◌, ◌++◌, ◌∷◌, [], length, None, Some, IfOk};
ghost use Rattle.bench_model.specs.Formed.{Formed};
ghost use Rattle.order_rel.specs.Logs.{log_of};
ghost use Rattle.order_rel.specs.Examples.{acted, acted_after};
ghost use Rattle.conflict_core.specs.Examples.{one_bit, wire, race, joined, two_pokes, apart};

use crate::conflict::{conflict_with_last, first_conflict};
use net_core::{Choice, Equation, GroundExpr, Net, Role, Signal, SignalInfo};
use net_graph::{Cones, cone_table, levels};
use order_rel::{Event, Kind};
use std::alloc::Global;
use std::test::Fail;
use tb_base::{Memory, Name, Path, Region, Seq};

fn bit(alloc: Global, role: Role) -> SignalInfo
    ensures { result ≡ one_bit role }
{
    SignalInfo {
        name: Name::of(Vec::new(alloc)),
        role,
        signed: false,
        width: Some(1),
        line: 1,
    }
}

/// The inputs 0 and 1; the output 2 is the input 0.
fn wire_net(alloc: Global) -> Result<Net, Memory>
    ensures { IfOk result (λ net. net ≡ wire) }
{
    let mut signals = Vec::new(alloc);
    signals.push(bit(alloc, Role::Input))?;
    signals.push(bit(alloc, Role::Input))?;
    signals.push(bit(alloc, Role::Output))?;
    let mut choices = Vec::new(alloc);
    choices.push(Choice::Take(Some(GroundExpr::Read(Signal(0)))))?;
    let mut equations = Vec::new(alloc);
    equations.push(Equation::Input)?;
    equations.push(Equation::Input)?;
    equations.push(Equation::Comb(Seq::of(choices)))?;
    Ok(Net {
        own: 3,
        signals: Seq::of(signals),
        equations: Seq::of(equations),
    })
}

fn wire_table(alloc: Global) -> Option<Cones> {
    let Ok(net) = wire_net(alloc) else {
        return None;
    };
    match levels(alloc, &net) {
        Ok(order) => cone_table(alloc, &net, &order).ok(),
        Err(_) => None,
    }
}

fn child_of(path: &Path, k: u32) -> Path
    requires { length path.now < 8 }
    ensures { result ≡ path.now ++ k ∷ [] }
{
    match path.child(k) {
        Some(child) => child,
        None => path.copy(),
    }
}

fn act(path: &Path, line: u32, kind: Kind) -> Event
    ensures { result ≡ acted path.now line kind }
{
    Event {
        path: path.copy(),
        region: Region::Main,
        joined: None,
        line,
        kind,
    }
}

fn act_after(path: &Path, child: &Path, line: u32, kind: Kind) -> Event
    ensures { result ≡ acted_after path.now child.now line kind }
{
    Event {
        path: path.copy(),
        region: Region::Main,
        joined: Some(child.copy()),
        line,
        kind,
    }
}

fn race_log(alloc: Global) -> [Event; 4]
    ensures { result ≡ race }
{
    let root = Path::root(alloc);
    let first = child_of(&root, 0);
    let second = child_of(&root, 1);
    [
        act(&root, 1, Kind::Fork(first.copy())),
        act(&root, 2, Kind::Fork(second.copy())),
        act(&first, 3, Kind::Poke(Signal(0))),
        act(&second, 4, Kind::Peek(Signal(2))),
    ]
}

fn joined_log(alloc: Global) -> [Event; 5]
    ensures { result ≡ joined }
{
    let root = Path::root(alloc);
    let first = child_of(&root, 0);
    [
        act(&root, 1, Kind::Fork(first.copy())),
        act(&first, 2, Kind::Poke(Signal(0))),
        act(&first, 0, Kind::End),
        act(&root, 3, Kind::Join(first.copy())),
        act_after(&root, &first, 4, Kind::Expect(Signal(2))),
    ]
}

fn two_pokes_log(alloc: Global) -> [Event; 3]
    ensures { result ≡ two_pokes }
{
    let root = Path::root(alloc);
    [
        act(&child_of(&root, 0), 1, Kind::Poke(Signal(0))),
        act(&child_of(&root, 1), 2, Kind::Poke(Signal(0))),
        act(&child_of(&root, 2), 3, Kind::Peek(Signal(2))),
    ]
}

fn apart_log(alloc: Global) -> [Event; 3]
    ensures { result ≡ apart }
{
    let root = Path::root(alloc);
    [
        act(&child_of(&root, 0), 1, Kind::Poke(Signal(1))),
        act(&child_of(&root, 1), 2, Kind::Peek(Signal(2))),
        act(&child_of(&root, 2), 3, Kind::Peek(Signal(2))),
    ]
}

/// What both calls answer of a log over the wire.
fn answers(alloc: Global, log: &[Event]) -> Option<(Option<usize>, Option<(usize, usize)>)>
    requires { Formed (log_of log.now) }
{
    let cones = wire_table(alloc)?;
    Some((conflict_with_last(log, &cones), first_conflict(log, &cones)))
}

#[test]
fn a_race_is_named(rt: HostRuntime) -> Result<(), Fail> {
    let log = race_log(rt.alloc());
    let (last, first) = answers(rt.alloc(), &log).ok_or("no memory")?;
    assert_eq!(rt; last, Some(2));
    assert_eq!(rt; first, Some((2, 3)));
    Ok(())
}

#[test]
fn a_joined_child_does_not_conflict(rt: HostRuntime) -> Result<(), Fail> {
    let log = joined_log(rt.alloc());
    let (last, first) = answers(rt.alloc(), &log).ok_or("no memory")?;
    assert_eq!(rt; last, None);
    assert_eq!(rt; first, None);
    Ok(())
}

#[test]
fn the_earliest_access_is_named(rt: HostRuntime) -> Result<(), Fail> {
    let log = two_pokes_log(rt.alloc());
    let (last, first) = answers(rt.alloc(), &log).ok_or("no memory")?;
    assert_eq!(rt; last, Some(0));
    assert_eq!(rt; first, Some((0, 1)));
    Ok(())
}

#[test]
fn another_input_and_two_peeks_do_not_conflict(rt: HostRuntime) -> Result<(), Fail> {
    let log = apart_log(rt.alloc());
    let (last, first) = answers(rt.alloc(), &log).ok_or("no memory")?;
    assert_eq!(rt; last, None);
    assert_eq!(rt; first, None);
    Ok(())
}
