//! Small tests over an adder. What they give was worked out by hand.
ghost use Rattle.std.specs.Prelude.{◌≡◌, ◌≤◌, ◌∷◌, [], None, Some, IfOk, IfSome, length};
ghost use Rattle.tb_base.specs.declared.op.Op.TheVariants.{Add};
ghost use Rattle.net_core.specs.declared.tree.Ground.TheVariants.{Declare, Set};
ghost use Rattle.net_core.specs.declared.tree.GroundExpr.TheVariants.{Apply};
ghost use Rattle.net_core.specs.Examples.{adder as sum, uint, s, r};
ghost use Rattle.net_design.specs.Designs.{ports_of};
ghost use Rattle.tl_written.specs.Written.{text_limit};

use crate::run_first;
use bench_run::{Outcome, Run};
use bench_setting::Limits;
use net_core::{Elab, Ground, GroundExpr, PortTable, Role, Signal, SignalInfo, the_forms_work_out};
use net_design::Design;
use net_resolve::resolve;
use order_rel::{Event, Kind};
use sqlite_items::Items;
use std::alloc::Global;
use std::test::Fail;
use tb_base::{Memory, Name, Op, Seq};
use tl_check::{CoreTest, check_test};
use tl_code::{Code, compile};
use tl_text::read_test;
use tl_written::texts_spell_written_tests;

fn name(alloc: Global, bytes: &[u8]) -> Result<Name, Memory>
    ensures { IfOk result (λ n. n ≡ bytes.now) }
{
    let bytes = Vec::from_slice(alloc, bytes)?;
    Ok(Name::of(bytes))
}

fn port(alloc: Global, bytes: &[u8], role: Role, width: u8, line: u32) -> Result<SignalInfo, Memory>
    ensures { IfOk result (λ i. i ≡ uint bytes.now role (Some width) line) }
{
    let name = name(alloc, bytes)?;
    Ok(SignalInfo {
        name,
        role,
        signed: false,
        width: Some(width),
        line,
    })
}

fn ports(alloc: Global) -> Result<Vec<SignalInfo>, Memory>
    ensures { IfOk result (λ signals. signals.items ≡ (sum 8 9).signals) }
{
    let a = port(alloc, b"a", Role::Input, 8, 3)?;
    let b = port(alloc, b"b", Role::Input, 8, 4)?;
    let out = port(alloc, b"out", Role::Output, 9, 5)?;
    let mut signals = Vec::new(alloc);
    signals.push(a)?;
    signals.push(b)?;
    signals.push(out)?;
    Ok(signals)
}

fn declare(signal: u32, line: u32) -> Ground
    ensures { result ≡ Declare (s signal) line None }
{
    Ground::Declare {
        signal: Signal(signal),
        line,
        reset: None,
    }
}

/// The output gets the sum of the inputs.
fn add(alloc: Global) -> Result<Ground, Memory>
    ensures { IfOk result (λ g. g ≡ Set 6 (s 2) (Some (Apply Add (r 0 ∷ r 1 ∷ []) []))) }
{
    let mut args = Vec::new(alloc);
    args.push(GroundExpr::Read(Signal(0)))?;
    args.push(GroundExpr::Read(Signal(1)))?;
    Ok(Ground::Set {
        line: 6,
        sink: Signal(2),
        value: Some(GroundExpr::Apply {
            op: Op::Add,
            args: Items::from_vec(args),
            nums: Seq::of(Vec::new(alloc)),
        }),
    })
}

fn body(alloc: Global) -> Result<Vec<Ground>, Memory>
    ensures { IfOk result (λ body. body.items ≡ (sum 8 9).body) }
{
    let adds = add(alloc)?;
    let mut body = Vec::new(alloc);
    body.push(declare(0, 3))?;
    body.push(declare(1, 4))?;
    body.push(declare(2, 5))?;
    body.push(adds)?;
    Ok(body)
}

/// The inputs `a` and `b` of 8 bits, and `out`, their sum, of 9.
fn adder(alloc: Global) -> Result<Elab, Memory>
    ensures { IfOk result (λ e. e ≡ sum 8 9) }
{
    let name = name(alloc, b"W")?;
    let signals = ports(alloc)?;
    let body = body(alloc)?;
    Ok(Elab {
        name,
        signals: Seq::of(signals),
        body: Seq::of(body),
    })
}

/// The design of the adder.
fn adder_design(alloc: Global) -> Option<Design>
    ensures { IfSome result (λ d. d.elab ≡ sum 8 9) }
{
    the_forms_work_out();
    let Ok(elab) = adder(alloc) else {
        return None;
    };
    let Ok(name) = elab.name.copy(alloc) else {
        return None;
    };
    let Ok(ports) = PortTable::of(alloc, &elab) else {
        return None;
    };
    let Ok(net) = resolve(alloc, &elab) else {
        return None;
    };
    Design::new(alloc, name, ports, elab, net).ok()
}

/// The code of a text for the ports of a design, where it spells a test that keeps the rules and has no driver.
fn code_for(alloc: Global, design: &Design, text: &[u8]) -> Option<Code>
    requires { length text.now ≤ text_limit }
    ensures { IfSome result (λ code. code.test.ports ≡ ports_of design.now.elab) }
{
    let Ok(test) = read_test(alloc, text) else {
        return None;
    };
    texts_spell_written_tests();
    let Ok(checked) = check_test(alloc, &test, design.ports()) else {
        return None;
    };
    let Some(core) = CoreTest::from_checked(checked) else {
        return None;
    };
    compile(alloc, &core).ok()
}

/// What a text gives over the adder.
fn run_of(alloc: Global, text: &[u8]) -> Option<Run>
    requires { length text.now ≤ text_limit }
{
    let Some(design) = adder_design(alloc) else {
        return None;
    };
    let Some(code) = code_for(alloc, &design, text) else {
        return None;
    };
    run_first(alloc, &design, &code, Limits::STANDARD).ok()
}

/// The event is the poke of `a` in this line by this child of the root.
fn is_poke(event: &Event, child: u32, line: u32) -> bool {
    event.path.numbers() == [child].as_slice()
        && event.line == line
        && matches!(event.kind, Kind::Poke(Signal(0)))
}

#[test]
fn two_children_peek(rt: HostRuntime) -> Result<(), Fail> {
    let text = b"poke a = 7;\nfork h { peek a; }\nfork k { peek out; }\njoin h;\njoin k;";
    let run = run_of(rt.alloc(), text.as_slice()).ok_or("no run")?;
    assert!(rt; matches!(run.outcome, Outcome::Finished { time: 0 }));
    assert_eq!(rt; run.actions, 10);
    let seen = run.observations.items();
    assert_eq!(rt; seen.len(), 2);
    assert!(rt;
        seen[0].path.numbers() == [0u32].as_slice() && seen[0].line == 2 && seen[0].value == 7
    );
    assert!(rt;
        seen[1].path.numbers() == [1u32].as_slice() && seen[1].line == 3 && seen[1].value == 7
    );
    assert_eq!(rt; run.samples.items().len(), 1);
    assert!(rt; run.samples.items()[0].items() == [7u128, 0, 7].as_slice());
    Ok(())
}

#[test]
fn two_children_poke_one_input(rt: HostRuntime) -> Result<(), Fail> {
    let text = b"fork h { poke a = 1; }\nfork k { poke a = 2; }\njoin h;\njoin k;";
    let run = run_of(rt.alloc(), text.as_slice()).ok_or("no run")?;
    assert_eq!(rt; run.actions, 7);
    assert_eq!(rt; run.samples.items().len(), 0);
    assert!(rt;
        matches!(&run.outcome, Outcome::Conflict { time: 0, first, second } if is_poke(first, 0, 1) && is_poke(second, 1, 2))
    );
    Ok(())
}
