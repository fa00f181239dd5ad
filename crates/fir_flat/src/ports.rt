//! Declarations of ports.
ghost use Rattle.std.specs.Prelude.{◌≡◌, ◌++◌, IfOk, OnOk, map};
ghost use Rattle.fir_flat.specs.Shapes.{leaves, shape_of};
ghost use Rattle.fir_flat.specs.Elaboration.{declare_ports, port_leaves};
ghost use Rattle.fir_flat.specs.Ports.{leaf_of, seen_leaf, takes};

use crate::kinds::Kind;
use crate::parts::parts_of_kind;
use crate::worth::plus;
use fir_ast::Port;
use net_core::{Ground, Signal};
use std::alloc::Global;
use tb_base::Memory;

/// A ground part of a port: the port's line, and whether it goes into the module.
#[derive(Clone, Copy)]
struct PortLeaf {
    line: u32,
    input: bool,
}

fn put_leaves(alloc: Global, port: &Port, out: &mut Vec<PortLeaf>) -> Result<(), Memory>
    ensures { OnOk result (map seen_leaf out.new.items ≡ map seen_leaf out.old.items ++ map (leaf_of port.now) (leaves (shape_of port.now.ty))) }
{
    let parts = parts_of_kind(alloc, Kind::Of(&port.ty))?;
    for part in &parts {
        out.push(PortLeaf {
            line: port.line,
            input: port.output == part.against,
        })?;
    }
    Ok(())
}

fn leaves_of_ports(alloc: Global, ports: &[Port]) -> Result<Vec<PortLeaf>, Memory>
    ensures { IfOk result (λ leaves. map seen_leaf leaves.items ≡ port_leaves ports.now) }
{
    let mut leaves = Vec::new(alloc);
    for port in ports {
        put_leaves(alloc, port, &mut leaves)?;
    }
    Ok(leaves)
}

/// Adds declarations of the ground inputs, of the ground outputs or of both, of which the first has
/// a number.
pub(crate) fn put_ports(
    alloc: Global,
    ports: &[Port],
    inputs: bool,
    others: bool,
    first: u32,
    out: &mut Vec<Ground>,
) -> Result<(), Memory>
    ensures { OnOk result (out.new.items ≡ out.old.items ++ declare_ports (takes inputs others) first (port_leaves ports.now)) }
{
    let leaves = leaves_of_ports(alloc, ports)?;
    let mut number = first;
    for leaf in &leaves {
        let wanted = if leaf.input { inputs } else { others };
        if wanted {
            out.push(Ground::Declare {
                signal: Signal(number),
                line: leaf.line,
                reset: None,
            })?;
        }
        number = plus(number, 1)?;
    }
    Ok(())
}
