//! The names that are known in a body.
ghost use Rattle.std.specs.Prelude.{◌≡◌, ◌++◌, ◌∷◌, [], length, take, OnOk};
ghost use Rattle.fir_flat.specs.Values.{bound_named};
ghost use Rattle.fir_flat.specs.Shapes.{field_named};
ghost use Rattle.fir_flat.specs.Kinds.{bound_of, seen, Finds};
ghost use Rattle.fir_flat.specs.Scopes.{first_place, is_at};

use crate::kinds::{Flow, Kind, Known, Place, numbered};
use crate::places::NamePlaces;
use crate::types::Types;
use std::alloc::Global;
use std::marker::Model;
use tb_base::Memory;

/// The names that are known, in the order of their declarations, and the place of each. Contracts see
/// the list. Places of names that aren't known any more stay, so that the end of a block costs
/// nothing: a place counts only where its name stands there.
#[derive(Drop)]
pub(crate) struct Scope<'a> {
    types: &'a Types<'a>,
    known: Vec<Known<'a>>,
    /// Each name's type, and maybe some of names that aren't known any more.
    kinds: Vec<Kind<'a>>,
    places: NamePlaces<'a>,
}

impl<'a> Model for Scope<'a> {
    ghost use Rattle.std.specs.Prelude.{List};
    ghost use Rattle.fir_flat.specs.declared.kinds.Known.{Known};
    ghost use Rattle.fir_ast.specs.contracts.tree.Ty as ty;
    ghost use Rattle.std.specs.Coded.{codes};

    ghost Value = { List Known };

    ghost coded = { Prim.hlevel (codes, ty.the_row.coded) };

    ghost use Rattle.fir_flat.specs.KnownNames.{IsScope};

    ghost view = { λ s. s.known.items };

    ghost invariant = { λ s. IsScope s.known.items s.kinds.items s.places };
}

impl<'a> Scope<'a> {
    /// No names. Takes no memory.
    pub(crate) fn new(alloc: Global, types: &'a Types<'a>) -> Scope<'a>
        ensures { result ≡ [] }
    {
        Scope {
            types,
            known: Vec::new(alloc),
            kinds: Vec::new(alloc),
            places: NamePlaces::new(alloc),
        }
    }

    /// The number of names.
    pub(crate) fn len(&self) -> usize
        ensures { result ≡ length self.now }
    {
        self.known.len()
    }

    /// The place of the first of that name. The time is that of a look-up.
    fn place(&self, name: &[u8]) -> Option<usize>
        ensures { result ≡ first_place name.now self.now }
    {
        match self.places.find(name) {
            None => None,
            Some(place) => {
                if stands_at(&self.known, place, name) {
                    Some(place)
                } else {
                    None
                }
            }
        }
    }

    /// The first of that name. What isn't known is a bundle without fields. The time is that of a
    /// look-up.
    pub(crate) fn find(&self, name: &[u8]) -> Known<'a>
        ensures { bound_of result ≡ bound_named name.now (seen self.now) }
    {
        match self.place(name) {
            Some(place) => {
                let known = self.known[place];
                let kind = self.kinds[place];
                Known { kind, ..known }
            }
            None => Known {
                name: b"",
                kind: Kind::Empty,
                flow: Flow::Fixed,
                first: 0,
            },
        }
    }

    /// A field of the first of that name. The time is that of a look-up.
    pub(crate) fn field(&self, name: &[u8], field: &[u8]) -> Place<'a>
        ensures { Finds (field_named field.now (bound_named name.now (seen self.now)).ty) result }
    {
        self.find(name).kind.field(field)
    }

    /// A further name. The time is that of a look-up, and linear in the size of the type's text where
    /// that has no number yet, as in a declaration.
    pub(crate) fn push(&mut self, known: Known<'a>) -> Result<(), Memory>
        ensures { OnOk result (self.new ≡ self.old ++ known.entry ∷ []) }
    {
        let is_first = self.place(known.name).is_none();
        let kind = numbered(self.types, known.kind);
        self.kinds.truncate(self.known.len());
        self.kinds.push(kind)?;
        self.places.give(is_first, known.name, self.known.len())?;
        self.known.push(known)?;
        Ok(())
    }

    /// The first so many names: a block has ended.
    pub(crate) fn truncate(&mut self, count: usize)
        ensures { self.new ≡ take count self.old }
    {
        self.known.truncate(count);
    }
}

/// Whether the name at the place is this one.
fn stands_at(known: &[Known], place: usize, name: &[u8]) -> bool
    ensures { result ≡ is_at name.now known.now place }
{
    place < known.len() && known[place].name == name
}
