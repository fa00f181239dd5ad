//! The signals that a declared name gives, one for each ground part.
ghost use Rattle.std.specs.Prelude.{◌≡◌, ◌++◌, false, codes, decimal, IfOk, OnOk};
ghost use Rattle.fir_flat.specs.Shapes.{ground, shape_of, fields_shape, ports_shape};
ghost use Rattle.fir_flat.specs.Kinds.{kind_shape};
ghost use Rattle.fir_flat.specs.Signals.{signals_of, seen_entries};

use crate::kinds::Kind;
use fir_ast::{Field, Port, Ty};
use net_core::{Role, SignalInfo};
use std::alloc::Global;
use tb_base::{Memory, Name, put, put_decimal};

/// An instance: the place of its module, the number of its first signal, what stands in front of its
/// names, and whether it is the main module itself.
#[derive(Drop)]
pub(crate) struct Opening {
    pub(crate) target: usize,
    pub(crate) first: u32,
    pub(crate) prefix: Name,
    pub(crate) top: bool,
}

/// What is declared: a signal, or an instance with all its signals.
#[derive(Drop)]
pub(crate) enum Entry {
    Made(SignalInfo),
    Instance(Opening),
}

/// What the signals of a declared name have in common.
#[derive(Clone, Copy)]
pub(crate) struct Declared {
    pub(crate) line: u32,
    /// The role of a ground part that goes with the type.
    pub(crate) along: Role,
    /// The role of one that goes against it.
    pub(crate) against: Role,
    /// Whether widths are taken from the type.
    pub(crate) written: bool,
}

/// The name of a field.
fn field_name(alloc: Global, name: &[u8], field: &[u8]) -> Result<Vec<u8>, Memory>
    ensures { IfOk result (λ n. n.items ≡ name.now ++ (codes "." ++ field.now)) }
{
    let mut own = Vec::from_slice(alloc, name)?;
    put(&mut own, b".")?;
    put(&mut own, field)?;
    Ok(own)
}

/// The name of an element.
fn element_name(alloc: Global, name: &[u8], number: u32) -> Result<Vec<u8>, Memory>
    ensures { IfOk result (λ n. n.items ≡ name.now ++ (codes "[" ++ (decimal number ++ codes "]"))) }
{
    let mut own = Vec::from_slice(alloc, name)?;
    put(&mut own, b"[")?;
    put_decimal(alloc, &mut own, u128::from(number))?;
    put(&mut own, b"]")?;
    Ok(own)
}

fn put_signal(
    alloc: Global,
    declared: Declared,
    name: &[u8],
    flip: bool,
    signed: bool,
    width: Option<u8>,
    out: &mut Vec<Entry>,
) -> Result<(), Memory>
    ensures { OnOk result (seen_entries out.new.items ≡ seen_entries out.old.items ++ signals_of declared name.now flip (ground signed width)) }
{
    let name = Name::of(Vec::from_slice(alloc, name)?);
    let role = if flip {
        declared.against
    } else {
        declared.along
    };
    let width = if declared.written { width } else { None };
    out.push(Entry::Made(SignalInfo {
        name,
        role,
        signed,
        width,
        line: declared.line,
    }))?;
    Ok(())
}

/// Adds the signals of a type, which is itself flipped or not. A vector is left behind an element that
/// has none, since then no element has any. The time is linear in the size of the type's text, for each
/// element that has ground parts in the size of the text of its type, and in the length of the names.
#[cycle(signals)]
fn put_signals(
    alloc: Global,
    declared: Declared,
    name: &[u8],
    flip: bool,
    ty: &Ty,
    out: &mut Vec<Entry>,
) -> Result<(), Memory>
    ensures { OnOk result (seen_entries out.new.items ≡ seen_entries out.old.items ++ signals_of declared name.now flip (shape_of ty.now)) }
{
    match ty {
        Ty::UInt(width) => put_signal(alloc, declared, name, flip, false, *width, out),
        Ty::SInt(width) => put_signal(alloc, declared, name, flip, true, *width, out),
        Ty::Clock => Ok(()),
        Ty::Reset => put_signal(alloc, declared, name, flip, false, Some(1), out),
        Ty::Bundle(fields) => {
            put_field_signals(alloc, declared, name, flip, fields.as_slice(), out)
        }
        Ty::Vector(of, len) => {
            for number in 0..*len {
                let own = element_name(alloc, name, number)?;
                let before = out.len();
                put_signals(alloc, declared, &own, flip, of.get(), out)?;
                if out.len() == before {
                    return Ok(());
                }
            }
            Ok(())
        }
    }
}

#[cycle(signals)]
fn put_field_signals(
    alloc: Global,
    declared: Declared,
    name: &[u8],
    flip: bool,
    fields: &[Field],
    out: &mut Vec<Entry>,
) -> Result<(), Memory>
    ensures { OnOk result (seen_entries out.new.items ≡ seen_entries out.old.items ++ signals_of declared name.now flip (fields_shape fields.now)) }
{
    for field in fields {
        let own = field_name(alloc, name, field.name.bytes())?;
        put_signals(alloc, declared, &own, flip != field.flip, &field.ty, out)?;
    }
    Ok(())
}

fn put_port_signals(
    alloc: Global,
    declared: Declared,
    name: &[u8],
    ports: &[Port],
    out: &mut Vec<Entry>,
) -> Result<(), Memory>
    ensures { OnOk result (seen_entries out.new.items ≡ seen_entries out.old.items ++ signals_of declared name.now false (ports_shape ports.now)) }
{
    for port in ports {
        let own = field_name(alloc, name, port.name.bytes())?;
        put_signals(alloc, declared, &own, !port.output, &port.ty, out)?;
    }
    Ok(())
}

/// Adds the signals of a declared name. The time is as of `put_signals`.
pub(crate) fn put_kind_signals(
    alloc: Global,
    declared: Declared,
    name: &[u8],
    kind: Kind,
    out: &mut Vec<Entry>,
) -> Result<(), Memory>
    ensures { OnOk result (seen_entries out.new.items ≡ seen_entries out.old.items ++ signals_of declared name.now false (kind_shape kind.entry)) }
{
    match kind {
        Kind::Of(ty) => put_signals(alloc, declared, name, false, ty, out),
        Kind::Numbered { types, number } => {
            put_signals(alloc, declared, name, false, types.ty(number), out)
        }
        Kind::Ports(ports) => put_port_signals(alloc, declared, name, ports.ports(), out),
        Kind::Number(signed) => put_signal(alloc, declared, name, false, signed, None, out),
        Kind::Empty => Ok(()),
    }
}
