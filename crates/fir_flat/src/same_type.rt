//! Whether two types are written alike.
ghost use Rattle.std.specs.Prelude.{◌≡◌, true};
ghost use Rattle.fir_flat.specs.Shapes.{Shape, shape_of, field_shape, fields_shape};

use fir_ast::{Field, Ty};

fn same_width(width: Option<u8>, other: Option<u8>) -> bool
    ensures { result ≡ true → width ≡ other }
{
    match width {
        None => other.is_none(),
        Some(bits) => match other {
            None => false,
            Some(other_bits) => bits == other_bits,
        },
    }
}

/// Whether two types are written alike. The time is linear in the size of the shorter one's text.
#[cycle(same_type)]
pub(crate) fn same_type(ty: &Ty, other: &Ty) -> bool
    ensures { result ≡ true → shape_of ty.now ≡ shape_of other.now }
{
    match ty {
        Ty::UInt(width) => match other {
            Ty::UInt(other_width) => same_width(*width, *other_width),
            _ => false,
        },
        Ty::SInt(width) => match other {
            Ty::SInt(other_width) => same_width(*width, *other_width),
            _ => false,
        },
        Ty::Clock => matches!(other, Ty::Clock),
        Ty::Reset => matches!(other, Ty::Reset),
        Ty::Bundle(fields) => match other {
            Ty::Bundle(others) => same_fields(fields.as_slice(), others.as_slice()),
            _ => false,
        },
        Ty::Vector(of, len) => match other {
            Ty::Vector(other_of, other_len) => {
                *len == *other_len && same_type(of.get(), other_of.get())
            }
            _ => false,
        },
    }
}

#[cycle(same_type)]
fn same_fields(fields: &[Field], others: &[Field]) -> bool
    ensures { result ≡ true → fields_shape fields.now ≡ fields_shape others.now }
{
    if fields.len() != others.len() {
        return false;
    }
    let mut k = 0;
    while k < fields.len() {
        if !same_field(&fields[k], &others[k]) {
            return false;
        }
        k += 1;
    }
    true
}

#[cycle(same_type)]
fn same_field(field: &Field, other: &Field) -> bool
    ensures { (rest : Shape) → result ≡ true → field_shape field.now rest ≡ field_shape other.now rest }
{
    if field.flip != other.flip {
        return false;
    }
    if field.name.bytes() != other.name.bytes() {
        return false;
    }
    same_type(&field.ty, &other.ty)
}
