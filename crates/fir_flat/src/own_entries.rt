//! What one instance declares: its ports, then its module's declarations.
ghost use Rattle.std.specs.Prelude.{◌≡◌, ◌++◌, IfOk, OnOk};
ghost use Rattle.fir_flat.specs.Modules.{module_at};
ghost use Rattle.fir_flat.specs.Elaboration.{port_role, port_entries, entries_of};
ghost use Rattle.fir_flat.specs.Signals.{seen_entries, seen_opening, port_declared};
ghost use Rattle.fir_flat.specs.Writing.{CountsSignals};

use crate::directory::Directory;
use crate::kinds::Kind;
use crate::listing::{Listed, full_name, list_block};
use crate::own_body::name_ports;
use crate::signals::{Declared, Entry, Opening, put_kind_signals};
use fir_ast::Port;
use net_core::Role;
use std::alloc::Global;
use tb_base::Memory;

/// The role of a ground part of a port, of the main module or of an instance.
fn port_role(top: bool, input: bool) -> Role
    ensures { result ≡ port_role top input }
{
    if !top {
        return Role::Inner;
    }
    if input { Role::Input } else { Role::Output }
}

fn port_signals(top: bool, port: &Port) -> Declared
    ensures { result ≡ port_declared top port.now }
{
    Declared {
        line: port.line,
        along: port_role(top, !port.output),
        against: port_role(top, port.output),
        written: true,
    }
}

fn list_ports(
    alloc: Global,
    opening: &Opening,
    ports: &[Port],
    out: &mut Vec<Entry>,
) -> Result<(), Memory>
    ensures { OnOk result (seen_entries out.new.items ≡ seen_entries out.old.items ++ port_entries (seen_opening opening.now) ports.now) }
{
    for port in ports {
        let declared = port_signals(opening.top, port);
        let full = full_name(alloc, opening.prefix.bytes(), port.name.bytes())?;
        put_kind_signals(alloc, declared, &full, Kind::Of(&port.ty), out)?;
    }
    Ok(())
}

/// What an instance declares itself, in text order: its signals, and the instances in it. The time
/// is linear in the size of the module's text and in the length of the signals' names, but for the
/// look-ups of fields.
pub(crate) fn list_own(
    alloc: Global,
    modules: &Directory,
    counts: &[u64],
    opening: &Opening,
) -> Result<Vec<Entry>, Memory>
    requires { CountsSignals modules.now counts.now }
    ensures { IfOk result (λ es. seen_entries es.items ≡ entries_of modules.now (seen_opening opening.now)) }
{
    let ports = modules.ports_at(opening.target);
    let mut entries = Vec::new(alloc);
    list_ports(alloc, opening, ports, &mut entries)?;
    let mut names = name_ports(alloc, modules.types(), ports, opening.first)?;
    let next = names.next;
    let mut listed = Listed { next, entries };
    let body = modules.body_at(opening.target);
    let prefix = opening.prefix.bytes();
    list_block(
        alloc,
        modules,
        counts,
        prefix,
        body,
        &mut names.known,
        &mut listed,
    )?;
    Ok(listed.entries)
}
