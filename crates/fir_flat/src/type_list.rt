//! The bundles and vectors that a circuit declares, each once.
ghost use Rattle.std.specs.Prelude.{◌≡◌, IfSome};
ghost use Rattle.fir_check.specs.Seen.{type_at};
ghost use Rattle.fir_flat.specs.Shapes.{shape_of};
ghost use Rattle.fir_flat.specs.Fields.{types_listed};

use crate::digests::Digests;
use crate::same_type::same_type;
use fir_ast::{Field, Module, Port, Stmt, Ty};
use std::alloc::Global;
use tb_base::Memory;

/// A listed type.
#[derive(Clone, Copy)]
pub(crate) struct Listed<'a> {
    pub(crate) ty: &'a Ty,
}

/// Types, by their numbers.
#[derive(Drop)]
pub(crate) struct TypeList<'a> {
    pub(crate) listed: Vec<Listed<'a>>,
    pub(crate) digests: Digests,
}

/// The number, if the type of that number is written like this one.
fn confirmed(listed: &[Listed], number: usize, ty: &Ty) -> Option<usize>
    ensures { IfSome result (λ n. shape_of (type_at (types_listed listed.now) n) ≡ shape_of ty.now) }
{
    if number >= listed.len() {
        return None;
    }
    let one = listed[number];
    if same_type(one.ty, ty) {
        Some(number)
    } else {
        None
    }
}

impl<'a> TypeList<'a> {
    /// The types of a circuit's ports, wires and registers, and the types in them. The time is linear
    /// in the size of their texts, times the depth of their nesting.
    pub(crate) fn new(alloc: Global, modules: &'a [Module]) -> Result<TypeList<'a>, Memory> {
        let mut list = TypeList {
            listed: Vec::new(alloc),
            digests: Digests::new(alloc),
        };
        for home in modules {
            list_ports(home.ports.items(), &mut list)?;
            list_body(home.body.items(), &mut list)?;
        }
        Ok(list)
    }

    /// The number of the listed type that is written like this one, if one is. The time is linear in
    /// the size of the type's text.
    pub(crate) fn number_of(&self, ty: &Ty) -> Option<usize>
        ensures { IfSome result (λ n. shape_of (type_at (types_listed self.now.listed.items) n) ≡ shape_of ty.now) }
    {
        match self.digests.propose(ty) {
            Some(number) => confirmed(&self.listed, number, ty),
            None => None,
        }
    }

    /// Lists a type, where none of its digest is listed.
    fn add(&mut self, ty: &'a Ty) -> Result<(), Memory> {
        if self.digests.propose(ty).is_none() {
            let number = self.listed.len();
            self.digests.give(ty, number)?;
            self.listed.push(Listed { ty })?;
        }
        Ok(())
    }
}

/// Lists the aggregates in a type, and the type itself if it is one.
#[cycle(list_type)]
fn list_type<'a>(ty: &'a Ty, list: &mut TypeList<'a>) -> Result<(), Memory> {
    match ty {
        Ty::Bundle(fields) => {
            list_fields(fields.as_slice(), list)?;
            list.add(ty)
        }
        Ty::Vector(of, _) => {
            list_type(of.get(), list)?;
            list.add(ty)
        }
        _ => Ok(()),
    }
}

#[cycle(list_type)]
fn list_fields<'a>(fields: &'a [Field], list: &mut TypeList<'a>) -> Result<(), Memory> {
    for field in fields {
        list_type(&field.ty, list)?;
    }
    Ok(())
}

fn list_ports<'a>(ports: &'a [Port], list: &mut TypeList<'a>) -> Result<(), Memory> {
    for port in ports {
        list_type(&port.ty, list)?;
    }
    Ok(())
}

#[cycle(list_body)]
fn list_stmt<'a>(stmt: &'a Stmt, list: &mut TypeList<'a>) -> Result<(), Memory> {
    match stmt {
        Stmt::Wire {
            line: _,
            name: _,
            ty,
        } => list_type(ty, list),
        Stmt::Reg {
            line: _,
            name: _,
            ty,
            clock: _,
            reset: _,
        } => list_type(ty, list),
        Stmt::When {
            line: _,
            cond: _,
            taken,
            other,
        } => {
            list_body(taken.as_slice(), list)?;
            list_body(other.as_slice(), list)
        }
        _ => Ok(()),
    }
}

#[cycle(list_body)]
fn list_body<'a>(body: &'a [Stmt], list: &mut TypeList<'a>) -> Result<(), Memory> {
    for stmt in body {
        list_stmt(stmt, list)?;
    }
    Ok(())
}
