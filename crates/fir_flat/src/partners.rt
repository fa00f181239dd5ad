//! For each ground part of a type the place of its counterpart in another.
ghost use Rattle.std.specs.Prelude.{◌≡◌, ◌+◌, ◌++◌, ◌∷◌, [], ℕ, IfOk, OnOk};
ghost use Rattle.fir_flat.specs.Counts.{cut};
ghost use Rattle.fir_flat.specs.Shapes.{shape_of, fields_shape, ports_shape, partners};
ghost use Rattle.fir_flat.specs.Kinds.{kind_shape};
ghost use Rattle.fir_flat.specs.Parts.{partners_behind};

use crate::counts::exact;
use crate::kinds::Kind;
use crate::worth::{plus, times};
use fir_ast::{Field, Port, Ty};
use std::alloc::Global;
use tb_base::Memory;

/// Adds the counterparts of a type's ground parts in another type, which stands behind so many
/// ground parts. A vector is left behind an element that has none, since then no element has any; what
/// a vector of no elements is of isn't counted, since that may be past any limit.
#[cycle(partners)]
fn put_partners(ty: &Ty, other: Kind, before: u32, out: &mut Vec<u32>) -> Result<(), Memory>
    ensures { OnOk result (out.new.items ≡ out.old.items ++ partners_behind before (shape_of ty.now) (kind_shape other.entry)) }
{
    match ty {
        Ty::UInt(_) => put_partner(before, out),
        Ty::SInt(_) => put_partner(before, out),
        Ty::Clock => Ok(()),
        Ty::Reset => put_partner(before, out),
        Ty::Bundle(fields) => put_field_partners(fields.as_slice(), other, before, out),
        Ty::Vector(of, len) => {
            if *len == 0 {
                return Ok(());
            }
            let element = other.element();
            let size = exact(element.size())?;
            for number in 0..*len {
                let place = plus(before, times(number, size)?)?;
                let so_far = out.len();
                put_partners(of.get(), element, place, out)?;
                if out.len() == so_far {
                    return Ok(());
                }
            }
            Ok(())
        }
    }
}

fn put_partner(place: u32, out: &mut Vec<u32>) -> Result<(), Memory>
    ensures { OnOk result (out.new.items ≡ out.old.items ++ place ∷ []) }
{
    out.push(place)?;
    Ok(())
}

/// The place of a field that stands behind so many ground parts.
fn behind(before: u32, place: u64) -> Result<u32, Memory>
    ensures { (n : ℕ) → place ≡ cut n → IfOk result (λ r. r ≡ before + n) }
{
    plus(before, exact(place)?)
}

#[cycle(partners)]
fn put_field_partners(
    fields: &[Field],
    other: Kind,
    before: u32,
    out: &mut Vec<u32>,
) -> Result<(), Memory>
    ensures { OnOk result (out.new.items ≡ out.old.items ++ partners_behind before (fields_shape fields.now) (kind_shape other.entry)) }
{
    for field in fields {
        let place = other.field(field.name.bytes());
        let start = behind(before, place.before)?;
        put_partners(&field.ty, place.of, start, out)?;
    }
    Ok(())
}

fn put_port_partners(ports: &[Port], other: Kind, out: &mut Vec<u32>) -> Result<(), Memory>
    ensures { OnOk result (out.new.items ≡ out.old.items ++ partners_behind 0 (ports_shape ports.now) (kind_shape other.entry)) }
{
    for port in ports {
        let place = other.field(port.name.bytes());
        let start = behind(0, place.before)?;
        put_partners(&port.ty, place.of, start, out)?;
    }
    Ok(())
}

/// The places of the counterparts of a type's ground parts in another. The time is linear in the size of
/// the first type's text, and for each element that has ground parts in the size of the text of its
/// type, but where a bundle in the other one has no number: there each of its fields is looked for.
pub(crate) fn partners_of(alloc: Global, kind: Kind, other: Kind) -> Result<Vec<u32>, Memory>
    ensures { IfOk result (λ places. places.items ≡ partners (kind_shape kind.entry) (kind_shape other.entry)) }
{
    let mut places = Vec::new(alloc);
    match kind {
        Kind::Of(ty) => put_partners(ty, other, 0, &mut places)?,
        Kind::Numbered { types, number } => {
            put_partners(types.ty(number), other, 0, &mut places)?
        }
        Kind::Ports(ports) => put_port_partners(ports.ports(), other, &mut places)?,
        Kind::Number(_) => put_partner(0, &mut places)?,
        Kind::Empty => {}
    }
    Ok(places)
}
