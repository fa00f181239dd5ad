//! The bundles and vectors that a circuit declares, by their numbers.
//!
//! What is asked of a type again and again is found out once for all its uses: its number of ground
//! parts, its fields by their names, and the numbers of the types in it.
ghost use Rattle.std.specs.Prelude.{◌≡◌, ◌∷◌, [], None, All, IfOk, map};
ghost use Rattle.fir_ast.specs.declared.tree.Ty.TheVariants as ty;
ghost use Rattle.fir_check.specs.Seen.{type_at};
ghost use Rattle.fir_flat.specs.Counts.{cut};
ghost use Rattle.fir_flat.specs.Shapes.{shape_of, size};
ghost use Rattle.fir_flat.specs.Measures.{facing};
ghost use Rattle.fir_flat.specs.Fields.{types_listed};
ghost use Rattle.fir_flat.specs.Types.{IsRow, row_types};

use crate::fields::{FieldTable, Member, element_member, table_of_type};
use crate::sizes::{facing, size_of};
use crate::type_list::TypeList;
use fir_ast::{Module, Ty};
use std::alloc::Global;
use std::marker::Model;
use tb_base::Memory;

/// A type, and what is known of it.
#[derive(Drop)]
pub(crate) struct Row<'a> {
    pub(crate) ty: &'a Ty,
    /// The number of its ground parts, of those that go with it, and of those that go against it.
    pub(crate) size: u64,
    pub(crate) along: u64,
    pub(crate) against: u64,
    /// A bundle's fields.
    pub(crate) fields: Option<FieldTable<'a>>,
    /// The type of a vector's elements.
    pub(crate) element: Option<Member<'a>>,
}

/// Types by their numbers. Contracts see the list of the types.
#[derive(Drop)]
pub(crate) struct Types<'a> {
    list: TypeList<'a>,
    rows: Vec<Row<'a>>,
    /// Stands past the last.
    plain: Row<'a>,
}

impl<'a> Model for Types<'a> {
    ghost use Rattle.std.specs.Prelude.{List};
    ghost use Rattle.fir_ast.specs.declared.tree.Ty.{Ty};
    ghost use Rattle.fir_ast.specs.contracts.tree.Ty as e;
    ghost use Rattle.std.specs.Coded.{codes};

    ghost Value = { List Ty };

    ghost coded = { Prim.hlevel (codes, e.the_row.coded) };

    ghost use Rattle.fir_flat.specs.Fields.{types_listed};
    ghost use Rattle.fir_flat.specs.Types.{AreRows};

    ghost view = { λ t. types_listed t.list.listed.items };

    ghost invariant = { λ t. AreRows (types_listed t.list.listed.items) t.rows.items t.plain };
}

/// What is known of a type. The time is linear in the size of its text, times the depth of its nesting.
fn row_of<'a>(alloc: Global, list: &TypeList<'a>, ty: &'a Ty) -> Result<Row<'a>, Memory>
    ensures ty { IfOk result (λ row. row.ty.now ≡ ty.now) }
    ensures right { IfOk result (IsRow (types_listed list.now.listed.items)) }
{
    let fields = table_of_type(alloc, list, ty)?;
    Ok(Row {
        ty,
        size: size_of(ty),
        along: facing(ty, false),
        against: facing(ty, true),
        fields,
        element: element_member(list, ty),
    })
}

fn rows_of<'a>(alloc: Global, list: &TypeList<'a>) -> Result<Vec<Row<'a>>, Memory>
    ensures types { IfOk result (λ rows. row_types rows.items ≡ types_listed list.now.listed.items) }
    ensures right { IfOk result (λ rows. All (IsRow (types_listed list.now.listed.items)) rows.items) }
{
    let mut rows = Vec::new(alloc);
    for one in &list.listed {
        let row = row_of(alloc, list, one.ty)?;
        rows.push(row)?;
    }
    Ok(rows)
}

impl<'a> Types<'a> {
    /// The types that modules declare; `plain` stands for what has no number. The time and memory are
    /// linear in the size of their texts, times the depth of their nesting.
    pub(crate) fn new(
        alloc: Global,
        modules: &'a [Module],
        plain: &'a Ty,
    ) -> Result<Types<'a>, Memory>
        requires { plain.now ≡ ty.UInt None }
    {
        let list = TypeList::new(alloc, modules)?;
        let rows = rows_of(alloc, &list)?;
        let plain = row_of(alloc, &list, plain)?;
        Ok(Types { list, rows, plain })
    }

    /// The list of the types.
    pub(crate) fn list(&self) -> &TypeList<'a>
        ensures { types_listed result.now.listed.items ≡ self.now }
    {
        &self.list
    }

    /// What is known of the type of a number.
    pub(crate) fn row(&self, number: usize) -> &Row<'a>
        ensures ty { result.now.ty.now ≡ type_at self.now number }
        ensures right { IsRow self.now result.now }
    {
        if number < self.rows.len() {
            &self.rows[number]
        } else {
            &self.plain
        }
    }

    /// The type of a number.
    pub(crate) fn ty(&self, number: usize) -> &'a Ty
        ensures { result.now ≡ type_at self.now number }
    {
        self.row(number).ty
    }

    /// The number of the type's ground parts.
    pub(crate) fn size(&self, number: usize) -> u64
        ensures { result ≡ cut (size (shape_of (type_at self.now number))) }
    {
        self.row(number).size
    }

    /// The number of the type's ground parts that go against it, or of those that go with it.
    pub(crate) fn facing(&self, number: usize, against: bool) -> u64
        ensures { result ≡ cut (facing against (shape_of (type_at self.now number))) }
    {
        let row = self.row(number);
        if against { row.against } else { row.along }
    }
}
