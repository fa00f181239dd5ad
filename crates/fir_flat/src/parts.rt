//! The ground parts of types without their names, and the counterparts of one type's in another.
ghost use Rattle.std.specs.Prelude.{◌≡◌, ◌++◌, ◌∷◌, [], map, false, IfOk, OnOk};
ghost use Rattle.fir_flat.specs.Shapes.{shape_of, fields_shape, ports_shape};
ghost use Rattle.fir_flat.specs.Kinds.{kind_shape};
ghost use Rattle.fir_flat.specs.Parts.{turned_parts};

use crate::kinds::Kind;
use fir_ast::{Field, Port, Ty};
use std::alloc::Global;
use tb_base::Memory;

/// A ground part: whether it goes against the whole, whether it is an SInt, and its written width.
#[derive(Clone, Copy)]
pub(crate) struct Part {
    pub(crate) against: bool,
    pub(crate) signed: bool,
    pub(crate) width: Option<u8>,
}

/// Adds the ground parts of a type, which is itself flipped or not. A vector is left behind an element
/// that has none, since then no element has any. The time is linear in the size of the type's text, and
/// for each element that has ground parts in the size of the text of its type.
#[cycle(parts)]
fn put_parts(ty: &Ty, flip: bool, out: &mut Vec<Part>) -> Result<(), Memory>
    ensures { OnOk result (out.new.items ≡ out.old.items ++ turned_parts flip (shape_of ty.now)) }
{
    match ty {
        Ty::UInt(width) => put_part(flip, false, *width, out),
        Ty::SInt(width) => put_part(flip, true, *width, out),
        Ty::Clock => Ok(()),
        Ty::Reset => put_part(flip, false, Some(1), out),
        Ty::Bundle(fields) => put_fields(fields.as_slice(), flip, out),
        Ty::Vector(of, len) => {
            for _ in 0..*len {
                let before = out.len();
                put_parts(of.get(), flip, out)?;
                if out.len() == before {
                    return Ok(());
                }
            }
            Ok(())
        }
    }
}

fn put_part(
    against: bool,
    signed: bool,
    width: Option<u8>,
    out: &mut Vec<Part>,
) -> Result<(), Memory>
    ensures { OnOk result (out.new.items ≡ out.old.items ++ record { against = against; signed = signed; width = width } ∷ []) }
{
    out.push(Part {
        against,
        signed,
        width,
    })?;
    Ok(())
}

#[cycle(parts)]
fn put_fields(fields: &[Field], flip: bool, out: &mut Vec<Part>) -> Result<(), Memory>
    ensures { OnOk result (out.new.items ≡ out.old.items ++ turned_parts flip (fields_shape fields.now)) }
{
    for field in fields {
        put_parts(&field.ty, flip != field.flip, out)?;
    }
    Ok(())
}

fn put_ports(ports: &[Port], out: &mut Vec<Part>) -> Result<(), Memory>
    ensures { OnOk result (out.new.items ≡ out.old.items ++ turned_parts false (ports_shape ports.now)) }
{
    for port in ports {
        put_parts(&port.ty, !port.output, out)?;
    }
    Ok(())
}

/// The ground parts of a type. The time is as of `put_parts`.
pub(crate) fn parts_of_kind(alloc: Global, kind: Kind) -> Result<Vec<Part>, Memory>
    ensures { IfOk result (λ parts. parts.items ≡ turned_parts false (kind_shape kind.entry)) }
{
    let mut parts = Vec::new(alloc);
    match kind {
        Kind::Of(ty) => put_parts(ty, false, &mut parts)?,
        Kind::Numbered { types, number } => put_parts(types.ty(number), false, &mut parts)?,
        Kind::Ports(ports) => put_ports(ports.ports(), &mut parts)?,
        Kind::Number(signed) => put_part(false, signed, None, &mut parts)?,
        Kind::Empty => {}
    }
    Ok(parts)
}
