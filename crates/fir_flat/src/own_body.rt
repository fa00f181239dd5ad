//! The statements of one instance itself: declarations of its ports, then its module's body.
ghost use Rattle.std.specs.Prelude.{◌≡◌, ◌+◌, ◌++◌, length, IfOk, OnOk};
ghost use Rattle.fir_flat.specs.Shapes.{size, ports_shape};
ghost use Rattle.fir_flat.specs.Modules.{ports_known};
ghost use Rattle.fir_flat.specs.Kinds.{seen};
ghost use Rattle.fir_flat.specs.Writing.{CountsSignals, own_grounds};

use crate::counts::exact;
use crate::directory::Directory;
use crate::kinds::{Flow, Kind, Known};
use crate::ports::put_ports;
use crate::scope::Scope;
use crate::sizes::size_of;
use crate::types::Types;
use crate::worth::plus;
use crate::writing::write_block;
use fir_ast::Port;
use net_core::Ground;
use std::alloc::Global;
use tb_base::Memory;

/// The names of a module's ports, and the number of the first signal behind them.
#[derive(Drop)]
pub(crate) struct PortNames<'a> {
    pub(crate) known: Scope<'a>,
    pub(crate) next: u32,
}

pub(crate) fn name_ports<'a>(
    alloc: Global,
    types: &'a Types<'a>,
    ports: &'a [Port],
    first: u32,
) -> Result<PortNames<'a>, Memory>
    ensures known { IfOk result (λ names. seen names.known ≡ ports_known first ports.now) }
    ensures next { IfOk result (λ names. names.next ≡ first + size (ports_shape ports.now)) }
{
    let mut known = Scope::new(alloc, types);
    let mut next = first;
    for port in ports {
        let flow = if port.output {
            Flow::Sink
        } else {
            Flow::Source
        };
        known.push(Known {
            name: port.name.bytes(),
            kind: Kind::Of(&port.ty),
            flow,
            first: next,
        })?;
        next = plus(next, exact(size_of(&port.ty))?)?;
    }
    Ok(PortNames { known, next })
}

/// Adds the statements of an instance itself, of which the first signal has a number. Those of the
/// instances in it are not among them.
pub(crate) fn write_own(
    alloc: Global,
    modules: &Directory,
    counts: &[u64],
    place: usize,
    first: u32,
    top: bool,
    out: &mut Vec<Ground>,
) -> Result<(), Memory>
    requires { CountsSignals modules.now counts.now }
    ensures { OnOk result (out.new.items ≡ out.old.items ++ own_grounds modules.now place first top) }
{
    let ports = modules.ports_at(place);
    put_ports(alloc, ports, top, true, first, out)?;
    let mut names = name_ports(alloc, modules.types(), ports, first)?;
    let next = names.next;
    let body = modules.body_at(place);
    let written = write_block(alloc, modules, counts, body, &mut names.known, next)?;
    let mut statements = written.body;
    out.append(&mut statements)?;
    Ok(())
}
