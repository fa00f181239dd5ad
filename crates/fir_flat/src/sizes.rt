//! The number of ground parts of types.
ghost use Rattle.std.specs.Prelude.{◌≡◌};
ghost use Rattle.fir_flat.specs.Counts.{cut};
ghost use Rattle.fir_flat.specs.Measures.{facing};
ghost use Rattle.fir_flat.specs.Shapes.{size, shape_of, fields_shape, ports_shape};

use crate::counts::{product, sum};
use fir_ast::{Field, Port, Ty};

/// The number of a type's ground parts. The time is linear in the size of the type's text.
#[cycle(size)]
pub(crate) fn size_of(ty: &Ty) -> u64
    ensures { result ≡ cut (size (shape_of ty.now)) }
{
    match ty {
        Ty::UInt(_) => 1,
        Ty::SInt(_) => 1,
        Ty::Clock => 0,
        Ty::Reset => 1,
        Ty::Bundle(fields) => size_of_fields(fields.as_slice()),
        Ty::Vector(of, len) => product(u64::from(*len), size_of(of.get())),
    }
}

#[cycle(size)]
fn size_of_fields(fields: &[Field]) -> u64
    ensures { result ≡ cut (size (fields_shape fields.now)) }
{
    let mut total = 0;
    for field in fields {
        total = sum(total, size_of(&field.ty));
    }
    total
}

/// The number of the ground parts of ports.
pub(crate) fn size_of_ports(ports: &[Port]) -> u64
    ensures { result ≡ cut (size (ports_shape ports.now)) }
{
    let mut total = 0;
    for port in ports {
        total = sum(total, size_of(&port.ty));
    }
    total
}

/// The number of a type's ground parts that go against it, or of those that go with it.
#[cycle(facing)]
pub(crate) fn facing(ty: &Ty, against: bool) -> u64
    ensures { result ≡ cut (facing against (shape_of ty.now)) }
{
    match ty {
        Ty::UInt(_) => u64::from(!against),
        Ty::SInt(_) => u64::from(!against),
        Ty::Clock => 0,
        Ty::Reset => u64::from(!against),
        Ty::Bundle(fields) => facing_fields(fields.as_slice(), against),
        Ty::Vector(of, len) => product(u64::from(*len), facing(of.get(), against)),
    }
}

#[cycle(facing)]
fn facing_fields(fields: &[Field], against: bool) -> u64
    ensures { result ≡ cut (facing against (fields_shape fields.now)) }
{
    let mut total = 0;
    for field in fields {
        total = sum(total, facing(&field.ty, against != field.flip));
    }
    total
}

/// The same of an instance's type, whose inputs are flipped.
pub(crate) fn facing_ports(ports: &[Port], against: bool) -> u64
    ensures { result ≡ cut (facing against (ports_shape ports.now)) }
{
    let mut total = 0;
    for port in ports {
        total = sum(total, facing(&port.ty, against == port.output));
    }
    total
}
