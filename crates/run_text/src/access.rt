//! The lines of the two events of a conflict.
ghost use Rattle.std.specs.Prelude.{◌≡◌, ◌++◌, OnOk, option_map, map, codes};
ghost use Rattle.net_core.specs.declared.ports.Signal.{Signal};
ghost use Rattle.net_core.specs.Signals.{info};
ghost use Rattle.net_graph.specs.NetGraphs.{numbers};
ghost use Rattle.tb_base.specs.Joined.{joined};
ghost use Rattle.order_rel.specs.Logs.{kind_told, event_told};
ghost use Rattle.run_text.specs.Report.{access_text, read_signal, poked_input, through_text, reason_text, line_text, event_text, conflict_text};
ghost use Rattle.run_text.specs.Runs.{ClashIn};
ghost use Rattle.run_text.specs.Steps.{name_of};

use crate::records::port_of;
use net_core::{Signal, SignalInfo};
use net_design::Design;
use order_rel::{Event, Kind};
use std::alloc::Global;
use tb_base::{Memory, Path, put, put_decimal, put_gap, put_path};

/// Puts the name of a signal. Past the last signal the name is empty.
fn put_name(out: &mut Vec<u8>, signals: &[SignalInfo], signal: Signal) -> Result<(), Memory>
    ensures { OnOk result (out.new.items ≡ out.old.items ++ name_of signals.now signal) }
{
    put(out, port_of(signals, signal.0 as usize).0)?;
    Ok(())
}

/// Puts a verb, which ends with a blank, and the name of a signal.
fn put_verb(
    out: &mut Vec<u8>,
    verb: &[u8],
    signals: &[SignalInfo],
    signal: Signal,
) -> Result<(), Memory>
    ensures { OnOk result (out.new.items ≡ out.old.items ++ (verb.now ++ (info signals.now signal.0).name)) }
{
    put(out, verb)?;
    put_name(out, signals, signal)?;
    Ok(())
}

/// Puts what an event does at a port.
fn put_access(out: &mut Vec<u8>, signals: &[SignalInfo], kind: &Kind) -> Result<(), Memory>
    ensures { OnOk result (out.new.items ≡ out.old.items ++ access_text signals.now (kind_told kind.now)) }
{
    match kind {
        Kind::Poke(port) => put_verb(out, b"poke ", signals, *port),
        Kind::Peek(signal) => put_verb(out, b"peek ", signals, *signal),
        Kind::Expect(signal) => put_verb(out, b"expect ", signals, *signal),
        Kind::Fork(_) => Ok(()),
        Kind::Join(_) => Ok(()),
        Kind::Arrive => Ok(()),
        Kind::JoinStep(_) => Ok(()),
        Kind::Spend => Ok(()),
        Kind::End => Ok(()),
    }
}

/// The signal that an event reads, if it reads one.
fn read_signal(kind: &Kind) -> Option<Signal>
    ensures { option_map (λ (s : Signal). s.0) result ≡ read_signal (kind_told kind.now) }
{
    match kind {
        Kind::Peek(signal) => Some(*signal),
        Kind::Expect(signal) => Some(*signal),
        Kind::Poke(_) => None,
        Kind::Fork(_) => None,
        Kind::Join(_) => None,
        Kind::Arrive => None,
        Kind::JoinStep(_) => None,
        Kind::Spend => None,
        Kind::End => None,
    }
}

/// The input that an event pokes, if it pokes one.
fn poked_input(kind: &Kind) -> Option<Signal>
    ensures { option_map (λ (s : Signal). s.0) result ≡ poked_input (kind_told kind.now) }
{
    match kind {
        Kind::Poke(port) => Some(*port),
        Kind::Peek(_) => None,
        Kind::Expect(_) => None,
        Kind::Fork(_) => None,
        Kind::Join(_) => None,
        Kind::Arrive => None,
        Kind::JoinStep(_) => None,
        Kind::Spend => None,
        Kind::End => None,
    }
}

/// Puts the names of the signals of a chain.
fn put_chain(out: &mut Vec<u8>, signals: &[SignalInfo], chain: &[Signal]) -> Result<(), Memory>
    ensures { OnOk result (out.new.items ≡ out.old.items ++ joined (codes " > ") (map (name_of signals.now) chain.now)) }
{
    let mut is_first = true;
    for signal in chain {
        put_gap(out, b" > ", is_first)?;
        put_name(out, signals, *signal)?;
        is_first = false;
    }
    Ok(())
}

/// Puts a chain of more than one signal.
fn put_through(out: &mut Vec<u8>, signals: &[SignalInfo], chain: &[Signal]) -> Result<(), Memory>
    ensures { OnOk result (out.new.items ≡ out.old.items ++ through_text signals.now (numbers chain.now)) }
{
    let is_told = chain.len() > 1;
    if is_told {
        put(out, b" through ")?;
        put_chain(out, signals, chain)?;
    }
    Ok(())
}

/// Puts why an event depends on the other one of a conflict, where it reads and the other one pokes.
fn put_reason(
    alloc: Global,
    out: &mut Vec<u8>,
    design: &Design,
    kind: &Kind,
    other: &Kind,
) -> Result<(), Memory>
    requires { ClashIn design.now.elab (kind_told kind.now) (kind_told other.now) }
    ensures { OnOk result (out.new.items
        ≡ out.old.items ++ reason_text design.now.elab (read_signal (kind_told kind.now)) (poked_input (kind_told other.now))) }
{
    let Some(signal) = read_signal(kind) else {
        return Ok(());
    };
    let Some(input) = poked_input(other) else {
        return Ok(());
    };
    let chain = design.chain(alloc, signal, input)?;
    put_through(out, design.elab().signals.items(), chain.items())?;
    Ok(())
}

/// Puts where an event stands in the test.
pub fn put_line(alloc: Global, out: &mut Vec<u8>, path: &Path, line: u32) -> Result<(), Memory>
    ensures { OnOk result (out.new.items ≡ out.old.items ++ line_text path.now line) }
{
    put_path(alloc, out, path)?;
    put(out, b" line ")?;
    put_decimal(alloc, out, u128::from(line))?;
    Ok(())
}

/// Puts an event beside the other one of the conflict.
fn put_event(
    alloc: Global,
    out: &mut Vec<u8>,
    design: &Design,
    event: &Event,
    other: &Event,
) -> Result<(), Memory>
    requires { ClashIn design.now.elab (kind_told event.now.kind) (kind_told other.now.kind) }
    ensures { OnOk result (out.new.items
        ≡ out.old.items ++ event_text design.now.elab (event_told event.now) (event_told other.now)) }
{
    put_line(alloc, out, &event.path, event.line)?;
    put(out, b" ")?;
    put_access(out, design.elab().signals.items(), &event.kind)?;
    put_reason(alloc, out, design, &event.kind, &other.kind)?;
    put(out, b"\n")?;
    Ok(())
}

/// Puts the lines of a conflict.
pub fn put_conflict(
    alloc: Global,
    out: &mut Vec<u8>,
    design: &Design,
    time: u32,
    first: &Event,
    second: &Event,
) -> Result<(), Memory>
    requires { ClashIn design.now.elab (kind_told first.now.kind) (kind_told second.now.kind) }
    ensures { OnOk result (out.new.items
        ≡ out.old.items ++ conflict_text design.now.elab time (event_told first.now) (event_told second.now)) }
{
    put(out, b"conflict at ")?;
    put_decimal(alloc, out, u128::from(time))?;
    put(out, b"\n")?;
    put(out, b"first ")?;
    put_event(alloc, out, design, first, second)?;
    put(out, b"second ")?;
    put_event(alloc, out, design, second, first)?;
    Ok(())
}
