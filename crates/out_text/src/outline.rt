//! The summary of a circuit.
//!
//! A summary is a list of lines: the circuit's name, how many ports, signals and registers it has, and each port with its type. An
//! output is followed by the inputs on which it depends within a cycle. Each printer here puts one definition of
//! `specs/Summary.antt` behind the text so far.
ghost use Rattle.std.specs.Prelude.{◌≡◌, ◌<◌, ◌++◌, ◌&&◌, true, length, is_none, OnOk, IfOk, flat_map, count_by};
ghost use Rattle.net_core.specs.declared.tree.SignalInfo.{SignalInfo};
ghost use Rattle.net_core.specs.Signals.{info, is_input, is_register};
ghost use Rattle.net_design.specs.Designs.{ports_of};
ghost use Rattle.net_design.specs.Naming.{in_cone};
ghost use Rattle.out_text.specs.Summary.{type_text, from_text, cone_names, cone_text, port_text, count_text, counts_text, summary_text};
ghost use Rattle.out_text.specs.Steps.{IsPortOf, named_text, next_text, input_at, line_at};

use net_core::{PortInfo, Role, Signal, SignalInfo};
use net_design::Design;
use std::alloc::Global;
use tb_base::{Memory, put, put_decimal};

/// Puts the type of a port.
fn put_type(alloc: Global, out: &mut Vec<u8>, port: PortInfo) -> Result<(), Memory>
    ensures { OnOk result (out.new.items ≡ out.old.items ++ type_text port) }
{
    put(out, if port.signed { b"SInt<" } else { b"UInt<" })?;
    put_decimal(alloc, out, u128::from(port.width))?;
    put(out, b">")?;
    Ok(())
}

/// Whether a port is an input on which the signal depends.
fn is_in_cone(design: &Design, signal: Signal, port: PortInfo) -> bool
    requires signal { signal.0 < length design.now.elab.signals }
    requires port { IsPortOf design.now.elab port }
    ensures { result ≡ (port.input && in_cone design.now.elab signal.0 port.signal.0) }
{
    port.input && design.depends(signal, port.signal)
}

/// Puts one more of the inputs, the first behind the word for them.
fn put_name(out: &mut Vec<u8>, is_first: bool, name: &[u8]) -> Result<(), Memory>
    ensures { OnOk result (out.new.items ≡ out.old.items ++ named_text is_first name.now) }
{
    if is_first {
        put(out, b" from")?;
    }
    put(out, b" ")?;
    put(out, name)?;
    Ok(())
}

/// Puts the name of the port at a place where it is an input on which the signal depends. Whether the next is the first.
fn put_input_at(
    out: &mut Vec<u8>,
    design: &Design,
    signal: Signal,
    k: usize,
    is_first: bool,
) -> Result<bool, Memory>
    requires { signal.0 < length design.now.elab.signals }
    ensures text { OnOk result (out.new.items ≡ out.old.items ++ next_text is_first (input_at design.now.elab signal.0 k)) }
    ensures first { IfOk result (λ b. b ≡ (is_first && is_none (input_at design.now.elab signal.0 k))) }
{
    let Some((name, port)) = design.ports().at(k) else {
        return Ok(is_first);
    };
    if !is_in_cone(design, signal, port) {
        return Ok(is_first);
    }
    put_name(out, is_first, name)?;
    Ok(false)
}

/// Puts the inputs on which a signal depends.
fn put_inputs(out: &mut Vec<u8>, design: &Design, signal: Signal) -> Result<(), Memory>
    requires { signal.0 < length design.now.elab.signals }
    ensures { OnOk result (out.new.items ≡ out.old.items ++ from_text (cone_names design.now.elab signal.0)) }
{
    let mut is_first = true;
    for k in 0..design.ports().len() {
        is_first = put_input_at(out, design, signal, k, is_first)?;
    }
    Ok(())
}

/// Puts what stands behind the type of a port.
fn put_cone(out: &mut Vec<u8>, design: &Design, port: PortInfo) -> Result<(), Memory>
    requires { IsPortOf design.now.elab port }
    ensures { OnOk result (out.new.items ≡ out.old.items ++ cone_text design.now.elab port) }
{
    if port.input {
        return Ok(());
    }
    put_inputs(out, design, port.signal)?;
    Ok(())
}

/// Puts the line of a port.
fn put_port(
    alloc: Global,
    out: &mut Vec<u8>,
    design: &Design,
    name: &[u8],
    port: PortInfo,
) -> Result<(), Memory>
    requires { IsPortOf design.now.elab port }
    ensures { OnOk result (out.new.items ≡ out.old.items ++ port_text design.now.elab (name.now, port)) }
{
    put(out, if port.input { b"input " } else { b"output " })?;
    put(out, name)?;
    put(out, b" ")?;
    put_type(alloc, out, port)?;
    put_cone(out, design, port)?;
    put(out, b"\n")?;
    Ok(())
}

/// Puts the line of the port at a place, and nothing past the last.
fn put_port_at(alloc: Global, out: &mut Vec<u8>, design: &Design, k: usize) -> Result<(), Memory>
    ensures { OnOk result (out.new.items ≡ out.old.items ++ line_at design.now.elab k) }
{
    match design.ports().at(k) {
        Some((name, port)) => {
            put_port(alloc, out, design, name, port)?;
            Ok(())
        }
        None => Ok(()),
    }
}

/// Puts the lines of the ports, one after another.
fn put_ports(alloc: Global, out: &mut Vec<u8>, design: &Design) -> Result<(), Memory>
    ensures { OnOk result (out.new.items ≡ out.old.items ++ flat_map (port_text design.now.elab) (ports_of design.now.elab)) }
{
    for k in 0..design.ports().len() {
        put_port_at(alloc, out, design, k)?;
    }
    Ok(())
}

/// How many of the signals are registers.
fn register_count(signals: &[SignalInfo]) -> usize
    ensures { result ≡ count_by (λ (i : SignalInfo). is_register i.role) signals.now }
{
    let mut count = 0;
    for signal in signals {
        if signal.role == Role::Reg {
            count += 1;
        }
    }
    count
}

/// Puts a word and a count.
fn put_count(alloc: Global, out: &mut Vec<u8>, word: &[u8], count: usize) -> Result<(), Memory>
    ensures { OnOk result (out.new.items ≡ out.old.items ++ count_text word.now count) }
{
    put(out, word)?;
    put_decimal(alloc, out, count as u128)?;
    Ok(())
}

/// Puts the line of the counts.
fn put_counts(alloc: Global, out: &mut Vec<u8>, design: &Design) -> Result<(), Memory>
    ensures { OnOk result (out.new.items ≡ out.old.items ++ counts_text design.now.elab) }
{
    let signals = design.elab().signals.items();
    put_count(alloc, out, b"ports ", design.ports().len())?;
    put_count(alloc, out, b" signals ", signals.len())?;
    put_count(alloc, out, b" registers ", register_count(signals))?;
    put(out, b"\n")?;
    Ok(())
}

/// The summary of a circuit.
///
/// Its first line is the circuit's name, the second has the numbers of its ports, signals and registers. Then comes a line for each
/// port in signal order, with its type; an output is followed by the inputs on which it depends within a cycle. The one refusal is
/// want of memory. The cost is linear in the length of the text, and for each output a look at each input.
#[tactic(auto, unfolding(crate::specs::Summary::summary_text))]
pub fn summary(alloc: Global, design: &Design) -> Result<Vec<u8>, Memory>
    ensures { IfOk result (λ text. text.items ≡ summary_text design.now.elab) }
{
    let mut out = Vec::new(alloc);
    put(&mut out, b"circuit ")?;
    put(&mut out, design.name().bytes())?;
    put(&mut out, b"\n")?;
    put_counts(alloc, &mut out, design)?;
    put_ports(alloc, &mut out, design)?;
    Ok(out)
}
