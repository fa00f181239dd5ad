//! Tables of the fields of bundles.
ghost use Rattle.std.specs.Prelude.{◌≡◌, ℕ, List, None, IfOk, IfSome, OnOk, OnErr};
ghost use Rattle.fir_ast.specs.declared.tree.Ty.{Ty};
ghost use Rattle.fir_flat.specs.Shapes.{Shape, empty, field, element, shape_of, fields_shape, ports_shape};
ghost use Rattle.fir_flat.specs.Fields.{types_listed, member_shape, field_given, GivesField, SameFields, Covers};

use crate::counts::sum;
use crate::sizes::size_of;
use crate::type_list::TypeList;
use fir_ast::{Field, Port, Ty as Type};
use indexmap::IndexMap;
use std::alloc::Global;
use tb_base::Memory;

/// A type inside another.
#[derive(Clone, Copy)]
pub(crate) enum Member<'a> {
    /// A listed one, by its number.
    Numbered(usize),
    Plain(&'a Type),
}

/// A field of a bundle.
#[derive(Clone, Copy)]
pub(crate) struct Spot<'a> {
    /// How many ground parts stand before it.
    pub(crate) before: u64,
    pub(crate) flip: bool,
    pub(crate) of: Member<'a>,
}

/// The type inside another, by its number where it is listed. The time is linear in the size of its
/// text.
fn member_of<'a>(list: &TypeList<'a>, ty: &'a Type) -> Member<'a>
    ensures { member_shape (types_listed list.now.listed.items) result ≡ shape_of ty.now }
{
    match list.number_of(ty) {
        Some(number) => Member::Numbered(number),
        None => Member::Plain(ty),
    }
}

/// Names, each with the field that it was given last. Contracts see it by `field_given`.
#[derive(Drop)]
pub(crate) struct FieldPlaces<'a> {
    fields: IndexMap<&'a [u8], Spot<'a>>,
}

impl<'a> FieldPlaces<'a> {
    /// No names. Takes no memory.
    fn new(alloc: Global) -> FieldPlaces<'a>
        ensures { (name : List ℕ) → field_given name result ≡ None }
    {
        FieldPlaces {
            fields: IndexMap::new(alloc),
        }
    }

    /// The field of a name, `None` where it was given none. The time is that of a look-up.
    fn find(&self, name: &[u8]) -> Option<Spot<'a>>
        ensures { result ≡ field_given name.now self.now }
    {
        self.fields.get(name).copied()
    }

    /// Gives the name a field, if it is to have one. The time is that of a look-up.
    fn give(&mut self, given: bool, name: &'a [u8], spot: Spot<'a>) -> Result<(), Memory>
        ensures ok { OnOk result (GivesField given name.now spot.entry self.old self.new) }
        ensures err { OnErr result (SameFields self.old self.new) }
    {
        if !given {
            return Ok(());
        }
        if self.fields.insert(name, spot).is_err() {
            return Err(Memory);
        }
        Ok(())
    }
}

/// The first field of each name of a bundle, or of its fields up to some place.
#[derive(Drop)]
pub(crate) struct FieldTable<'a> {
    places: FieldPlaces<'a>,
    /// The number of ground parts of all these fields.
    pub(crate) before: u64,
}

impl<'a> FieldTable<'a> {
    /// No fields. Takes no memory.
    fn new(alloc: Global) -> FieldTable<'a>
        ensures { (types : List Ty) (t : Shape) → Covers types t t result }
    {
        FieldTable {
            places: FieldPlaces::new(alloc),
            before: 0,
        }
    }

    /// A further field. The time is that of a look-up and linear in the size of the field's type.
    fn add(
        &mut self,
        name: &'a [u8],
        flip: bool,
        ty: &'a Type,
        of: Member<'a>,
    ) -> Result<(), Memory>
        ensures { (types : List Ty) (t rest : Shape) → member_shape types of.entry ≡ shape_of ty.now → Covers types t (field flip name.now (shape_of ty.now) rest) self.old → OnOk result (Covers types t rest self.new) }
    {
        let spot = Spot {
            before: self.before,
            flip,
            of,
        };
        let is_first = self.places.find(name).is_none();
        self.places.give(is_first, name, spot)?;
        self.before = sum(self.before, size_of(ty));
        Ok(())
    }

    /// The field of a name, `None` where there is none. The time is that of a look-up.
    pub(crate) fn find(&self, name: &[u8]) -> Option<Spot<'a>>
        ensures { result ≡ field_given name.now self.now.places }
    {
        self.places.find(name)
    }
}

/// A table of a bundle's fields. The time is linear in the size of the bundle's text, times the depth
/// of its nesting.
fn table_of_fields<'a>(
    alloc: Global,
    list: &TypeList<'a>,
    fields: &'a [Field],
) -> Result<FieldTable<'a>, Memory>
    ensures { IfOk result (Covers (types_listed list.now.listed.items) (fields_shape fields.now) empty) }
{
    let mut table = FieldTable::new(alloc);
    for field in fields {
        let of = member_of(list, &field.ty);
        table.add(field.name.bytes(), field.flip, &field.ty, of)?;
    }
    Ok(table)
}

/// A table of ports, as `table_of_fields`.
pub(crate) fn table_of_ports<'a>(
    alloc: Global,
    list: &TypeList<'a>,
    ports: &'a [Port],
) -> Result<FieldTable<'a>, Memory>
    ensures { IfOk result (Covers (types_listed list.now.listed.items) (ports_shape ports.now) empty) }
{
    let mut table = FieldTable::new(alloc);
    for port in ports {
        let of = member_of(list, &port.ty);
        table.add(port.name.bytes(), !port.output, &port.ty, of)?;
    }
    Ok(table)
}

/// A table of a bundle's fields, none of what is no bundle.
pub(crate) fn table_of_type<'a>(
    alloc: Global,
    list: &TypeList<'a>,
    ty: &'a Type,
) -> Result<Option<FieldTable<'a>>, Memory>
    ensures { IfOk result (λ table. IfSome table (Covers (types_listed list.now.listed.items) (shape_of ty.now) empty)) }
{
    match ty {
        Type::Bundle(fields) => {
            let table = table_of_fields(alloc, list, fields.as_slice())?;
            Ok(Some(table))
        }
        _ => Ok(None),
    }
}

/// The type of a vector's elements, none of what is no vector.
pub(crate) fn element_member<'a>(list: &TypeList<'a>, ty: &'a Type) -> Option<Member<'a>>
    ensures { IfSome result (λ m. member_shape (types_listed list.now.listed.items) m ≡ element (shape_of ty.now)) }
{
    match ty {
        Type::Vector(of, _) => Some(member_of(list, of.get())),
        _ => None,
    }
}
