//! Types as the elaboration sees them, and what a name stands for.
ghost use Rattle.std.specs.Prelude.{◌≡◌, []};
ghost use Rattle.fir_flat.specs.Counts.{cut};
ghost use Rattle.fir_check.specs.Seen.{type_at};
ghost use Rattle.fir_flat.specs.Shapes.{Shape, size, empty, field_named, fields_shape, shape_of, element, elements, is_signed};
ghost use Rattle.fir_flat.specs.Measures.{facing};
ghost use Rattle.fir_flat.specs.Values.{turned, may_be_driven};
ghost use Rattle.fir_flat.specs.Fields.{member_shape, Covers};
ghost use Rattle.fir_flat.specs.Kinds.{kind_shape, Finds};

use crate::counts::sum;
use crate::fields::{FieldTable, Member};
use crate::port_rows::PortRow;
use crate::sizes::{facing, size_of};
use crate::types::Types;
use fir_ast::{Field, Ty};

/// How a part may be driven.
#[derive(Clone, Copy, Debug, PartialEq, Eq)]
pub(crate) enum Flow {
    /// A wire or register.
    Free,
    /// An output port, or an input of an instance.
    Sink,
    /// An input port, or an output of an instance.
    Source,
    /// A node, a literal or an operation.
    Fixed,
}

impl Flow {
    /// The flow of a flipped part.
    pub(crate) fn turned(self) -> Flow
        ensures { result ≡ turned self }
    {
        match self {
            Flow::Free => Flow::Free,
            Flow::Sink => Flow::Source,
            Flow::Source => Flow::Sink,
            Flow::Fixed => Flow::Fixed,
        }
    }

    pub(crate) fn may_be_driven(self) -> bool
        ensures { result ≡ may_be_driven self }
    {
        matches!(self, Flow::Free | Flow::Sink)
    }
}

/// A type. Contracts see it by `kind_shape`, as plain data.
#[derive(Clone, Copy)]
pub(crate) enum Kind<'a> {
    /// A type of the text.
    Of(&'a Ty),
    /// One that the circuit declares, by its number.
    Numbered { types: &'a Types<'a>, number: usize },
    /// That of an instance: a bundle of the ports, the inputs flipped.
    Ports(&'a PortRow<'a>),
    /// A number without a written width, signed or not.
    Number(bool),
    /// A bundle without fields, which also stands for what isn't known.
    Empty,
}

/// A field of a bundle, as a part of it.
#[derive(Clone, Copy)]
pub(crate) struct Place<'a> {
    /// How many ground parts stand before it.
    pub(crate) before: u64,
    pub(crate) flip: bool,
    pub(crate) of: Kind<'a>,
}

/// A declared name.
#[derive(Clone, Copy)]
pub(crate) struct Known<'a> {
    pub(crate) name: &'a [u8],
    pub(crate) kind: Kind<'a>,
    pub(crate) flow: Flow,
    /// The number of the signal that is its first ground part.
    pub(crate) first: u32,
}

impl<'a> Kind<'a> {
    /// The number of ground parts. Only of a type that has no number the time grows with its text.
    pub(crate) fn size(self) -> u64
        ensures { result ≡ cut (size (kind_shape self.entry)) }
    {
        match self {
            Kind::Of(ty) => size_of(ty),
            Kind::Numbered { types, number } => types.size(number),
            Kind::Ports(ports) => ports.size(),
            Kind::Number(_) => 1,
            Kind::Empty => 0,
        }
    }

    /// The number of ground parts that go against the type, or with it. The time is as of `size`.
    pub(crate) fn facing(self, against: bool) -> u64
        ensures { result ≡ cut (facing against (kind_shape self.entry)) }
    {
        match self {
            Kind::Of(ty) => facing(ty, against),
            Kind::Numbered { types, number } => types.facing(number, against),
            Kind::Ports(ports) => ports.facing(against),
            Kind::Number(_) => u64::from(!against),
            Kind::Empty => 0,
        }
    }

    /// The field of a name. The time is that of a look-up; only of a type that has no number it is
    /// linear in the size of the type's text.
    pub(crate) fn field(self, name: &[u8]) -> Place<'a>
        ensures { Finds (field_named name.now (kind_shape self.entry)) result }
    {
        match self {
            Kind::Of(ty) => field_of_type(ty, name),
            Kind::Numbered { types, number } => field_of_number(types, number, name),
            Kind::Ports(ports) => ports.field(name),
            Kind::Number(_) => nowhere(),
            Kind::Empty => nowhere(),
        }
    }

    /// The type of an element.
    #[tactic(auto, using(crate::proofs::Rolled::bundles))]
    pub(crate) fn element(self) -> Kind<'a>
        ensures { kind_shape result ≡ element (kind_shape self.entry) }
    {
        match self {
            Kind::Of(ty) => element_of_type(ty),
            Kind::Numbered { types, number } => element_of_number(types, number),
            Kind::Ports(_) => Kind::Empty,
            Kind::Number(_) => Kind::Empty,
            Kind::Empty => Kind::Empty,
        }
    }

    /// The number of elements.
    #[tactic(auto, using(crate::proofs::Rolled::bundles))]
    pub(crate) fn elements(self) -> u32
        ensures { result ≡ elements (kind_shape self.entry) }
    {
        match self {
            Kind::Of(ty) => elements_of_type(ty),
            Kind::Numbered { types, number } => elements_of_type(types.ty(number)),
            Kind::Ports(_) => 0,
            Kind::Number(_) => 0,
            Kind::Empty => 0,
        }
    }

    /// Whether it is an SInt.
    #[tactic(auto, using(crate::proofs::Rolled::bundles))]
    pub(crate) fn is_signed(self) -> bool
        ensures { result ≡ is_signed (kind_shape self.entry) }
    {
        match self {
            Kind::Of(ty) => is_signed_type(ty),
            Kind::Numbered { types, number } => is_signed_type(types.ty(number)),
            Kind::Ports(_) => false,
            Kind::Number(signed) => signed,
            Kind::Empty => false,
        }
    }
}

/// Where a name is no field: an empty bundle.
pub(crate) fn nowhere<'a>() -> Place<'a>
    ensures { Finds (field_named [] empty) result }
{
    Place {
        before: 0,
        flip: false,
        of: Kind::Empty,
    }
}

fn field_of_type<'a>(ty: &'a Ty, name: &[u8]) -> Place<'a>
    ensures { Finds (field_named name.now (shape_of ty.now)) result }
{
    match ty {
        Ty::Bundle(fields) => named_in(fields.as_slice(), name),
        Ty::UInt(_) => nowhere(),
        Ty::SInt(_) => nowhere(),
        Ty::Clock => nowhere(),
        Ty::Reset => nowhere(),
        Ty::Vector(_, _) => nowhere(),
    }
}

fn named_in<'a>(fields: &'a [Field], name: &[u8]) -> Place<'a>
    ensures { Finds (field_named name.now (fields_shape fields.now)) result }
{
    let mut before = 0;
    let mut k = 0;
    while k < fields.len() {
        let field = &fields[k];
        if field.name.bytes() == name {
            return Place {
                before,
                flip: field.flip,
                of: Kind::Of(&field.ty),
            };
        }
        before = sum(before, size_of(&field.ty));
        k += 1;
    }
    Place {
        before,
        flip: false,
        of: Kind::Empty,
    }
}

/// A type inside one of these.
fn kind_of_member<'a>(types: &'a Types<'a>, member: Member<'a>) -> Kind<'a>
    ensures { kind_shape result ≡ member_shape types.now member.entry }
{
    match member {
        Member::Numbered(number) => Kind::Numbered { types, number },
        Member::Plain(ty) => Kind::Of(ty),
    }
}

/// The field of a name, by the table of a bundle's fields. The time is that of a look-up.
pub(crate) fn place_in<'a>(types: &'a Types<'a>, table: &FieldTable<'a>, name: &[u8]) -> Place<'a>
    ensures { (t : Shape) → Covers types.now t empty table.now → Finds (field_named name.now t) result }
{
    match table.find(name) {
        Some(spot) => Place {
            before: spot.before,
            flip: spot.flip,
            of: kind_of_member(types, spot.of),
        },
        None => Place {
            before: table.before,
            flip: false,
            of: Kind::Empty,
        },
    }
}

fn field_of_number<'a>(types: &'a Types<'a>, number: usize, name: &[u8]) -> Place<'a>
    ensures { Finds (field_named name.now (shape_of (type_at types.now number))) result }
{
    let row = types.row(number);
    match &row.fields {
        Some(table) => place_in(types, table, name),
        None => field_of_type(row.ty, name),
    }
}

fn element_of_number<'a>(types: &'a Types<'a>, number: usize) -> Kind<'a>
    ensures { kind_shape result ≡ element (shape_of (type_at types.now number)) }
{
    let row = types.row(number);
    match row.element {
        Some(member) => kind_of_member(types, member),
        None => element_of_type(row.ty),
    }
}

/// The same type, by its number where the circuit declares it. The time is linear in the size of the
/// text of a type that has no number yet.
pub(crate) fn numbered<'a>(types: &'a Types<'a>, kind: Kind<'a>) -> Kind<'a>
    ensures { kind_shape result ≡ kind_shape kind.entry }
{
    match kind {
        Kind::Of(ty) => numbered_type(types, ty),
        _ => kind,
    }
}

fn numbered_type<'a>(types: &'a Types<'a>, ty: &'a Ty) -> Kind<'a>
    ensures { kind_shape result ≡ shape_of ty.now }
{
    match types.list().number_of(ty) {
        Some(number) => Kind::Numbered { types, number },
        None => Kind::Of(ty),
    }
}

#[tactic(auto, using(crate::proofs::Rolled::bundles))]
fn element_of_type<'a>(ty: &'a Ty) -> Kind<'a>
    ensures { kind_shape result ≡ element (shape_of ty.now) }
{
    match ty {
        Ty::Vector(of, _) => Kind::Of(of.get()),
        Ty::UInt(_) => Kind::Empty,
        Ty::SInt(_) => Kind::Empty,
        Ty::Clock => Kind::Empty,
        Ty::Reset => Kind::Empty,
        Ty::Bundle(_) => Kind::Empty,
    }
}

#[tactic(auto, using(crate::proofs::Rolled::bundles))]
fn elements_of_type(ty: &Ty) -> u32
    ensures { result ≡ elements (shape_of ty.now) }
{
    match ty {
        Ty::Vector(_, len) => *len,
        Ty::UInt(_) => 0,
        Ty::SInt(_) => 0,
        Ty::Clock => 0,
        Ty::Reset => 0,
        Ty::Bundle(_) => 0,
    }
}

#[tactic(auto, using(crate::proofs::Rolled::bundles))]
fn is_signed_type(ty: &Ty) -> bool
    ensures { result ≡ is_signed (shape_of ty.now) }
{
    match ty {
        Ty::SInt(_) => true,
        Ty::UInt(_) => false,
        Ty::Clock => false,
        Ty::Reset => false,
        Ty::Bundle(_) => false,
        Ty::Vector(_, _) => false,
    }
}
