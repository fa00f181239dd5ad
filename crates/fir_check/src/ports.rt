//! The rules on the ports of a module.
ghost use Rattle.std.specs.Prelude.{◌≡◌, [], map, drop, OnOk, IfOk};
ghost use Rattle.fir_check.specs.Names.{seconds};
ghost use Rattle.fir_check.specs.Types.{repeats_field};
ghost use Rattle.fir_check.specs.Scopes.{port_name};
ghost use Rattle.fir_check.specs.Rules.{port_lines, misplaces_clock, is_clock_input, has_unsized_input};
ghost use Rattle.fir_check.specs.Places.{least, lowered, place};
ghost use Rattle.fir_check.specs.Ports.{port_breaks, main_breaks};

use crate::best::{Best, Rule};
use crate::name_table::NameTable;
use crate::types::{has_unsized_input, holds_clock, is_clock, repeats_field};
use fir_ast::Port;
use std::alloc::Global;
use tb_base::Memory;

/// A Clock as the whole type of an input.
pub fn is_clock_input(port: &Port) -> bool
    ensures { result ≡ is_clock_input port.now }
{
    !port.output && is_clock(&port.ty)
}

/// A Clock elsewhere than as the whole type of an input.
fn misplaces_clock(alloc: Global, port: &Port) -> bool
    ensures { result ≡ misplaces_clock port.now }
{
    holds_clock(alloc, &port.ty) && !is_clock_input(port)
}

/// Takes note of each port whose name an earlier one has.
fn note_double_ports(alloc: Global, ports: &[Port], best: &mut Best) -> Result<(), Memory>
    ensures { OnOk result (best.new ≡ least best.old (map (place Rule.DoubleName) (map (λ p. p.line) (seconds port_name ports.now)))) }
{
    let mut table = NameTable::new(alloc);
    for (k, port) in ports.iter().enumerate() {
        let is_new = table.add(alloc, port.name.bytes(), k)?;
        best.note_if(!is_new, Rule::DoubleName, port.line);
    }
    Ok(())
}

/// Takes note of each port whose type has two fields of one name.
fn note_double_fields(alloc: Global, ports: &[Port], best: &mut Best) -> Result<(), Memory>
    ensures { OnOk result (best.new ≡ least best.old (map (place Rule.DoubleName) (port_lines (λ p. repeats_field p.ty) ports.now))) }
{
    for port in ports {
        let repeats = repeats_field(alloc, &port.ty)?;
        best.note_if(repeats, Rule::DoubleName, port.line);
    }
    Ok(())
}

/// Takes note of each port with a Clock that isn't the whole type of an input.
fn note_clocks(alloc: Global, ports: &[Port], best: &mut Best)
    ensures { best.new ≡ least best.old (map (place Rule.ClockUse) (port_lines misplaces_clock ports.now)) }
{
    for port in ports {
        best.note_if(misplaces_clock(alloc, port), Rule::ClockUse, port.line);
    }
}

/// Takes note of the ports of any module that break a rule. The time is linear in their size.
pub fn note_ports(alloc: Global, ports: &[Port], best: &mut Best) -> Result<(), Memory>
    ensures { OnOk result (best.new ≡ lowered best.old (port_breaks ports.now)) }
{
    note_double_ports(alloc, ports, best)?;
    note_double_fields(alloc, ports, best)?;
    note_clocks(alloc, ports, best);
    Ok(())
}

/// Takes note of each port with a part that is an input without width.
fn note_unsized(alloc: Global, ports: &[Port], best: &mut Best)
    ensures { best.new ≡ least best.old (map (place Rule.WrongKind) (port_lines has_unsized_input ports.now)) }
{
    for port in ports {
        best.note_if(has_unsized_input(alloc, port), Rule::WrongKind, port.line);
    }
}

/// Takes note of each Clock input behind the first.
fn note_second_clocks(ports: &[Port], best: &mut Best)
    ensures { best.new ≡ least best.old (map (place Rule.ClockUse) (drop 1 (port_lines is_clock_input ports.now))) }
{
    let mut seen = false;
    for port in ports {
        let clock = is_clock_input(port);
        best.note_if(seen & clock, Rule::ClockUse, port.line);
        seen = seen | clock;
    }
}

/// Takes note of the ports that break a rule on the main module alone.
pub fn note_main_ports(alloc: Global, ports: &[Port], best: &mut Best)
    ensures { best.new ≡ lowered best.old (main_breaks ports.now) }
{
    note_unsized(alloc, ports, best);
    note_second_clocks(ports, best);
}
