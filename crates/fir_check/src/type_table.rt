//! A table of the types that a circuit declares.
//!
//! Each type has a number there, and so has each type in it. What the rules ask of a type is found
//! out once, when it is added.
ghost use Rattle.std.specs.Prelude.{◌≡◌, ◌<◌, ◌++◌, ◌∷◌, ◌&&◌, ◌==◌, [], not, true, All, List, map, length, bytes_eq, option_map, OnOk, IfOk, IfSome};
ghost use Rattle.std.specs.List.{position_from};
ghost use Rattle.fir_ast.specs.declared.tree.Ty.{Ty};
ghost use Rattle.fir_check.specs.Types.{field_named, vector_of, has_flip, holds_clock, same_shape};
ghost use Rattle.fir_check.specs.Fields.{field_name, field_type};
ghost use Rattle.fir_check.specs.Tables.{NamesFields};
ghost use Rattle.fir_check.specs.Scopes.{number_type};
ghost use Rattle.fir_check.specs.Seen.{type_at};
ghost use Rattle.fir_check.specs.Numbers.{Added, Gains};
ghost use Rattle.fir_check.specs.TypeRows.{IsRow, goes_against, list_of, parts_of, slot_seen, slot_pair, element_seen};

use crate::name_table::{NameTable, table_of_fields};
use crate::numbers::NumberTypes;
use crate::shape_firsts::ShapeFirsts;
use crate::types::{has_against_leaf, has_flip, holds_clock, same_shape};
use fir_ast::{Field, Ty};
use std::alloc::Global;
use std::marker::Model;
use tb_base::Memory;

/// A type, and what is known of it.
#[derive(Drop)]
struct TypeRow<'a> {
    ty: &'a Ty,
    /// Whether a field in it is flipped.
    flips: bool,
    /// Whether it is a Clock or has one in it.
    clocks: bool,
    /// Whether a ground part of it goes against it.
    against: bool,
    /// The fields of a bundle by their names, where there are many.
    fields: Option<NameTable>,
    /// The numbers of the types of a bundle's fields, or that of a vector's elements.
    parts: Vec<usize>,
    /// The number of a type of this shape.
    shape: usize,
}

/// Types by their numbers. Contracts see the list of the types.
#[derive(Drop)]
pub struct TypeTable<'a> {
    rows: Vec<TypeRow<'a>>,
    shapes: ShapeFirsts,
}

impl<'a> Model for TypeTable<'a> {
    ghost use Rattle.std.specs.Prelude.{List};
    ghost use Rattle.fir_ast.specs.declared.tree.Ty.{Ty};
    ghost use Rattle.fir_ast.specs.contracts.tree.Ty as e;
    ghost use Rattle.std.specs.Coded.{codes};
    ghost use Rattle.fir_check.specs.TypeRows.{types_seen, AreRows};

    ghost Value = { List Ty };

    ghost coded = { Prim.hlevel (codes, e.the_row.coded) };

    ghost view = { λ t. types_seen t.rows.items };

    ghost invariant = { λ t. AreRows t.rows.items };
}

/// The fields of a bundle by their names, where they are many.
fn fields_table(alloc: Global, ty: &Ty) -> Option<NameTable>
    ensures { IfSome result (NamesFields (list_of ty.now)) }
{
    match ty {
        Ty::Bundle(fields) => table_of_fields(alloc, fields.as_slice()),
        _ => None,
    }
}

/// What is known of a type, where `parts` are the numbers of the types in it, and `shape` is that of a
/// type of its shape.
fn row_of<'a>(alloc: Global, ty: &'a Ty, parts: Vec<usize>, shape: usize) -> TypeRow<'a>
    ensures ty { result.ty.now ≡ ty.now }
    ensures right { (types : List Ty) → All (λ n. n < length types) parts.items → map (type_at types) parts.items ≡ parts_of ty.now → shape < length types → same_shape ty.now (type_at types shape) ≡ true → IsRow types result }
{
    TypeRow {
        ty,
        flips: has_flip(alloc, ty),
        clocks: holds_clock(alloc, ty),
        against: has_against_leaf(alloc, ty),
        fields: fields_table(alloc, ty),
        parts,
        shape,
    }
}

/// Whether a ground part of a vector goes against it, where `against` says so of its elements: one of no
/// elements has no part.
fn vector_goes_against(len: u32, against: bool) -> bool
    ensures { result ≡ not (len == 0) && against }
{
    len != 0 && against
}

impl<'a> TypeTable<'a> {
    /// The types of numbers alone.
    pub fn new(alloc: Global, numbers: &'a NumberTypes) -> Result<TypeTable<'a>, Memory> {
        let first = row_of(alloc, numbers.of(false), Vec::new(alloc), 0);
        let second = row_of(alloc, numbers.of(true), Vec::new(alloc), 1);
        let mut rows = Vec::new(alloc);
        rows.push(first)?;
        rows.push(second)?;
        let shapes = ShapeFirsts::new(alloc);
        Ok(TypeTable { rows, shapes })
    }

    /// The row of a number; that of a UInt past the last.
    fn row(&self, number: usize) -> &TypeRow<'a>
        ensures ty { result.now.ty.now ≡ type_at self.now number }
        ensures right { IsRow self.now result.now }
    {
        if number < self.rows.len() {
            &self.rows[number]
        } else {
            &self.rows[0]
        }
    }

    /// The type of a number.
    pub fn ty(&self, number: usize) -> &'a Ty
        ensures { result.now ≡ type_at self.now number }
    {
        self.row(number).ty
    }

    /// The number of the type of numbers with or without a sign.
    pub fn of_sign(&self, signed: bool) -> usize
        ensures { type_at self.now result ≡ number_type signed }
    {
        let _ = &self.rows;
        if signed { 1 } else { 0 }
    }

    /// Whether a field in the type of this number is flipped.
    pub fn flips(&self, number: usize) -> bool
        ensures { result ≡ has_flip (type_at self.now number) }
    {
        self.row(number).flips
    }

    /// Whether the type of this number is a Clock or has one in it.
    pub fn holds_clock(&self, number: usize) -> bool
        ensures { result ≡ holds_clock (type_at self.now number) }
    {
        self.row(number).clocks
    }

    /// Whether a ground part of the type of this number goes against it, flips counted.
    pub fn goes_against(&self, number: usize) -> bool
        ensures { result ≡ goes_against (type_at self.now number) }
    {
        self.row(number).against
    }

    /// Whether the types of two numbers have one shape. Where they have, the time doesn't grow with the
    /// types.
    #[tactic(auto, using(crate::proofs::TypeRows::alike))]
    pub fn same_shape(&self, alloc: Global, number: usize, other: usize) -> bool
        ensures { result ≡ same_shape (type_at self.now number) (type_at self.now other) }
    {
        let row = self.row(number);
        let other_row = self.row(other);
        if row.shape == other_row.shape {
            return true;
        }
        same_shape(alloc, row.ty, other_row.ty)
    }

    /// The field of a name: whether it is flipped, and the number of its type. The time is that of a
    /// look-up.
    pub fn field(&self, number: usize, name: &[u8]) -> Option<(bool, usize)>
        ensures { option_map (slot_seen self.now) result ≡ option_map slot_pair (field_named name.now (type_at self.now number)) }
    {
        let row = self.row(number);
        match row.ty {
            Ty::Bundle(fields) => {
                let list = fields.as_slice();
                match place_of(name, list, &row.fields) {
                    None => None,
                    Some(place) => Some((list[place].flip, row.parts[place])),
                }
            }
            _ => None,
        }
    }

    /// A vector's element, by the number of its type, and the vector's length.
    pub fn element(&self, number: usize) -> Option<(usize, u32)>
        ensures { option_map (element_seen self.now) result ≡ vector_of (type_at self.now number) }
    {
        let row = self.row(number);
        match row.ty {
            Ty::Vector(_, len) => Some((row.parts[0], *len)),
            _ => None,
        }
    }

    /// The number of a type that may have the shape of this one, where these are the numbers of the
    /// types in it.
    fn propose(&mut self, alloc: Global, ty: &Ty, parts: &[usize]) -> Result<usize, Memory>
        ensures { self.new ≡ self.old }
    {
        let number = self.rows.len();
        let mut shapes = Vec::new(alloc);
        for part in parts {
            shapes.push(self.row(*part).shape)?;
        }
        let proposed = self.shapes.propose(alloc, ty, shapes.as_slice(), number)?;
        Ok(proposed)
    }

    /// Whether a type, whose parts have these numbers, has the shape of that of a number, if it says so.
    /// Elements of vectors are compared by their numbers.
    fn is_like(&self, alloc: Global, ty: &Ty, parts: &[usize], number: usize) -> bool
        requires { map (type_at self.now) parts.now ≡ parts_of ty.now }
        ensures { result ≡ true → same_shape ty.now (type_at self.now number) ≡ true }
    {
        match ty {
            Ty::Vector(_, len) => match self.element(number) {
                None => false,
                Some((of, other_len)) => {
                    *len == other_len && self.same_shape(alloc, parts[0], of)
                }
            },
            _ => same_shape(alloc, ty, self.ty(number)),
        }
    }

    /// The proposed number, if its type has the shape of this one; else that of this one, once it is
    /// added. The parts of this one have these numbers. The time is linear in the size of both types.
    #[tactic(auto, using(crate::proofs::TypeRows::confirmed_old, crate::proofs::TypeRows::confirmed_new, crate::proofs::TypeRows::low_last))]
    fn confirmed(&self, alloc: Global, ty: &Ty, parts: &[usize], proposed: usize) -> usize
        requires { map (type_at self.now) parts.now ≡ parts_of ty.now }
        ensures low { result < length (self.now ++ ty.now ∷ []) }
        ensures like { same_shape ty.now (type_at (self.now ++ ty.now ∷ []) result) ≡ true }
    {
        let count = self.rows.len();
        if proposed >= count {
            return count;
        }
        if self.is_like(alloc, ty, parts, proposed) {
            return proposed;
        }
        count
    }

    /// The row of a type, whose parts have these numbers, and where `shape` is that of a type of its shape.
    /// What is known of a vector is known of its elements.
    fn row_for(&self, alloc: Global, ty: &'a Ty, parts: Vec<usize>, shape: usize) -> TypeRow<'a>
        requires { map (type_at self.now) parts.items ≡ parts_of ty.now }
        ensures ty { result.ty.now ≡ ty.now }
        ensures right { (types : List Ty) → All (λ n. n < length types) parts.items → map (type_at types) parts.items ≡ parts_of ty.now → shape < length types → same_shape ty.now (type_at types shape) ≡ true → IsRow types result }
    {
        match ty {
            Ty::Vector(_, len) => {
                let part = parts[0];
                TypeRow {
                    ty,
                    flips: self.flips(part),
                    clocks: self.holds_clock(part),
                    against: vector_goes_against(*len, self.goes_against(part)),
                    fields: None,
                    parts,
                    shape,
                }
            }
            _ => row_of(alloc, ty, parts, shape),
        }
    }

    /// Adds a type, whose parts have these numbers.
    fn push(&mut self, alloc: Global, ty: &'a Ty, parts: Vec<usize>) -> Result<usize, Memory>
        requires low { All (λ n. n < length self.old) parts.items }
        requires parts { map (type_at self.old) parts.items ≡ parts_of ty.now }
        ensures table { OnOk result (self.new ≡ self.old ++ ty.now ∷ []) }
        ensures number { IfOk result (λ n. n ≡ length self.old) }
    {
        let proposed = self.propose(alloc, ty, parts.as_slice())?;
        let shape = self.confirmed(alloc, ty, parts.as_slice(), proposed);
        let row = self.row_for(alloc, ty, parts, shape);
        let number = self.add_row(row)?;
        Ok(number)
    }

    fn add_row(&mut self, row: TypeRow<'a>) -> Result<usize, Memory>
        requires { IsRow (self.old ++ row.ty.now ∷ []) row }
        ensures table { OnOk result (self.new ≡ self.old ++ row.entry.ty.now ∷ []) }
        ensures number { IfOk result (λ n. n ≡ length self.old) }
    {
        let number = self.rows.len();
        self.rows.push(row)?;
        Ok(number)
    }
}

/// The place of the first field of a name, by the table of the fields' names where there is one.
fn place_of(name: &[u8], fields: &[Field], table: &Option<NameTable>) -> Option<usize>
    requires { IfSome table.now (NamesFields fields.now) }
    ensures { result ≡ position_from (λ f. bytes_eq (field_name f) name.now) 0 fields.now }
{
    match table {
        None => first_place(name, fields),
        Some(table) => table.find(name),
    }
}

/// The place of the first field of a name.
fn first_place(name: &[u8], fields: &[Field]) -> Option<usize>
    ensures { result ≡ position_from (λ f. bytes_eq (field_name f) name.now) 0 fields.now }
{
    let mut k = 0;
    while k < fields.len() {
        if fields[k].name.bytes() == name {
            return Some(k);
        }
        k += 1;
    }
    None
}

/// Adds a type and the types in it. The time is linear in the type's size, times the depth to which
/// bundles are nested in it.
#[cycle(add_type)]
pub fn add_type<'a>(alloc: Global, ty: &'a Ty, table: &mut TypeTable<'a>) -> Result<usize, Memory>
    ensures { IfOk result (λ n. Added table.old table.new (ty.now ∷ []) (n ∷ [])) }
{
    let parts = add_parts(alloc, ty, table)?;
    table.push(alloc, ty, parts)
}

#[cycle(add_type)]
fn add_parts<'a>(alloc: Global, ty: &'a Ty, table: &mut TypeTable<'a>) -> Result<Vec<usize>, Memory>
    ensures { IfOk result (λ parts. Added table.old table.new (parts_of ty.now) parts.items) }
{
    match ty {
        Ty::Bundle(fields) => add_fields(alloc, fields.as_slice(), table),
        Ty::Vector(of, _) => add_element(alloc, of.get(), table),
        _ => Ok(Vec::new(alloc)),
    }
}

#[cycle(add_type)]
fn add_element<'a>(
    alloc: Global,
    of: &'a Ty,
    table: &mut TypeTable<'a>,
) -> Result<Vec<usize>, Memory>
    ensures { IfOk result (λ parts. Added table.old table.new (of.now ∷ []) parts.items) }
{
    let part = add_type(alloc, of, table)?;
    let mut parts = Vec::new(alloc);
    parts.push(part)?;
    Ok(parts)
}

#[cycle(add_type)]
fn add_fields<'a>(
    alloc: Global,
    fields: &'a [Field],
    table: &mut TypeTable<'a>,
) -> Result<Vec<usize>, Memory>
    ensures { IfOk result (λ parts. Added table.old table.new (map field_type fields.now) parts.items) }
{
    let mut parts = Vec::new(alloc);
    let mut k = 0;
    while k < fields.len() {
        let part = add_type(alloc, &fields[k].ty, table)?;
        parts.push(part)?;
        k += 1;
    }
    Ok(parts)
}
