//! The printed form of a circuit.
//!
//! A printer takes the text written so far and puts its part behind it. Recursion goes along the
//! nesting of types, expressions and blocks alone; lists are written by loops. Each part of the
//! tree is visited once, so the time is linear in the printed text.
ghost use Rattle.std.specs.Prelude.{◌≡◌, ◌++◌, [], IfOk, OnOk, codes, map};
ghost use Rattle.std.specs.List.{flat_map};
ghost use Rattle.fir_ast.specs.Printed.{printed, module_text, port_text, direction_name, line_text};

mod exprs;
mod stmts;
mod types;

use crate::tree::{Circuit, Module, Port};
use std::alloc::Global;
use stmts::put_stmts;
use tb_base::{Memory, put};
use types::put_type;

/// The printed form of any circuit: two spaces a level of nesting, one statement a line, a line
/// feed behind each. Lines of the tree don't matter. Takes time and memory linear in the text that
/// it gives.
pub fn print(alloc: Global, circuit: &Circuit) -> Result<Vec<u8>, Memory>
    ensures { IfOk result (λ text. text.items ≡ printed circuit.now) }
{
    let mut out = Vec::new(alloc);
    put_circuit(alloc, &mut out, circuit)?;
    Ok(out)
}

#[tactic(auto, unfolding(crate::specs::Printed::printed))]
fn put_circuit(alloc: Global, out: &mut Vec<u8>, circuit: &Circuit) -> Result<(), Memory>
    ensures { OnOk result (out.new.items ≡ out.old.items ++ printed circuit.now) }
{
    put(out, b"circuit ")?;
    put(out, circuit.name.bytes())?;
    put(out, b" :\n")?;
    put_modules(alloc, out, circuit.modules.items())?;
    Ok(())
}

fn put_modules(alloc: Global, out: &mut Vec<u8>, modules: &[Module]) -> Result<(), Memory>
    ensures { OnOk result (out.new.items ≡ out.old.items ++ flat_map module_text modules.now) }
{
    for module in modules {
        put_module(alloc, out, module)?;
    }
    Ok(())
}

fn put_module(alloc: Global, out: &mut Vec<u8>, module: &Module) -> Result<(), Memory>
    ensures { OnOk result (out.new.items ≡ out.old.items ++ module_text «module».now) }
{
    put(out, b"  module ")?;
    put(out, module.name.bytes())?;
    put(out, b" :\n")?;
    put_ports(alloc, out, module.ports.items())?;
    put_stmts(alloc, out, b"    ", module.body.items())?;
    Ok(())
}

fn put_ports(alloc: Global, out: &mut Vec<u8>, ports: &[Port]) -> Result<(), Memory>
    ensures { OnOk result (out.new.items ≡ out.old.items ++ flat_map port_text ports.now) }
{
    for port in ports {
        put_port(alloc, out, port)?;
    }
    Ok(())
}

fn put_port(alloc: Global, out: &mut Vec<u8>, port: &Port) -> Result<(), Memory>
    ensures { OnOk result (out.new.items ≡ out.old.items ++ port_text port.now) }
{
    put(out, b"    ")?;
    put(out, direction(port.output))?;
    put(out, port.name.bytes())?;
    put(out, b" : ")?;
    put_type(alloc, out, &port.ty)?;
    put(out, b"\n")?;
    Ok(())
}

fn direction(output: bool) -> &'static [u8]
    ensures { result.now ≡ direction_name output }
{
    if output { b"output " } else { b"input " }
}
