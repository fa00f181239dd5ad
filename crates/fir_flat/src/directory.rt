//! The modules of a circuit, by their names and places.
ghost use Rattle.std.specs.Prelude.{◌≡◌, length, map, IfOk};
ghost use Rattle.fir_flat.specs.Modules.{place_of, module_at};
ghost use Rattle.fir_flat.specs.Scopes.{GivesModules};
ghost use Rattle.fir_flat.specs.Shapes.{ports_shape};
ghost use Rattle.fir_flat.specs.Kinds.{kind_shape};

use crate::kinds::Kind;
use crate::places::NamePlaces;
use crate::port_rows::PortRow;
use crate::types::Types;
use fir_ast::{Module, Port, Stmt};
use std::alloc::Global;
use std::marker::Model;
use tb_base::Memory;

/// The modules, and the place of each name. Contracts see the list of modules.
#[derive(Drop)]
pub(crate) struct Directory<'a> {
    modules: &'a [Module],
    types: &'a Types<'a>,
    ports: &'a [PortRow<'a>],
    places: NamePlaces<'a>,
}

impl<'a> Model for Directory<'a> {
    ghost use Rattle.std.specs.Prelude.{List};
    ghost use Rattle.fir_ast.specs.declared.tree.Module.{Module};
    ghost use Rattle.fir_ast.specs.contracts.tree.Ty as ty;
    ghost use Rattle.fir_ast.specs.contracts.tree.Expr as expr;
    ghost use Rattle.fir_ast.specs.contracts.tree.Stmt as stmt;
    ghost use Rattle.std.specs.Coded.{codes};

    ghost Value = { List Module };

    ghost coded = { Prim.hlevel (codes, ty.the_row.coded, expr.the_row.coded, stmt.the_row.coded) };

    ghost use Rattle.fir_flat.specs.Scopes.{IsDirectory};

    ghost view = { λ d. d.modules.now };

    ghost invariant = { λ d. IsDirectory d.modules.now d.ports.now d.places };
}

impl<'a> Directory<'a> {
    /// The modules with their names' places, and with the types that they declare. The time is linear in
    /// their number.
    pub(crate) fn new(
        alloc: Global,
        modules: &'a [Module],
        types: &'a Types<'a>,
        ports: &'a [PortRow<'a>],
    ) -> Result<Directory<'a>, Memory>
        requires { ports.now ≡ map (λ m. m.ports) modules.now }
        ensures { IfOk result (λ d. d ≡ modules.now) }
    {
        let places = place_modules(alloc, modules)?;
        Ok(Directory {
            modules,
            types,
            ports,
            places,
        })
    }

    /// The types that the modules declare.
    pub(crate) fn types(&self) -> &'a Types<'a> {
        self.types
    }

    /// The modules.
    pub(crate) fn modules(&self) -> &'a [Module]
        ensures { result.now ≡ self.now }
    {
        self.modules
    }

    /// The place of the module of a name, and the number of modules where there is none. The time is
    /// that of a look-up.
    pub(crate) fn place_of(&self, name: &[u8]) -> usize
        ensures { result ≡ place_of self.now name.now }
    {
        match self.places.find(name) {
            Some(place) => place,
            None => self.modules.len(),
        }
    }

    /// The ports of the module at a place; none past the last.
    pub(crate) fn ports_at(&self, place: usize) -> &'a [Port]
        ensures { result.now ≡ (module_at self.now place).ports }
    {
        if place < self.modules.len() {
            self.modules[place].ports.items()
        } else {
            &[]
        }
    }

    /// The type of an instance of the module at a place; an empty bundle past the last.
    pub(crate) fn instance_at(&self, place: usize) -> Kind<'a>
        ensures { kind_shape result ≡ ports_shape (module_at self.now place).ports }
    {
        if place < self.ports.len() {
            Kind::Ports(&self.ports[place])
        } else {
            Kind::Empty
        }
    }

    /// The statements of the module at a place; none past the last.
    pub(crate) fn body_at(&self, place: usize) -> &'a [Stmt]
        ensures { result.now ≡ (module_at self.now place).body }
    {
        if place < self.modules.len() {
            self.modules[place].body.items()
        } else {
            &[]
        }
    }
}

/// Gives each module's name its place: a name means the first module that has it.
fn place_modules<'a>(alloc: Global, modules: &'a [Module]) -> Result<NamePlaces<'a>, Memory>
    ensures { IfOk result (GivesModules 0 modules.now) }
{
    let mut places = NamePlaces::new(alloc);
    let mut k = modules.len();
    while k > 0 {
        k -= 1;
        places.give(true, modules[k].name.bytes(), k)?;
    }
    Ok(places)
}
