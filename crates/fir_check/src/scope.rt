//! What a module has declared so far.
//!
//! The names stand in a map in the order of their declarations, each with a mark that its block is
//! still open. So a name is found in a number of steps that doesn't grow with the module, and the
//! names of a block are those from some place on.
ghost use Rattle.std.specs.Prelude.{◌≡◌, [], List, length, option_map, OnOk};
ghost use Rattle.fir_check.specs.Scopes.{fresh, is_declared, visible, added, hide};
ghost use Rattle.fir_check.specs.Seen.{meant};
ghost use Rattle.fir_check.specs.KnownSeen.{closed_at, closed_past, seen};
ghost use Rattle.fir_ast.specs.declared.tree.Ty.{Ty};

use crate::thing::Thing;
use indexmap::IndexMap;
use std::alloc::Global;
use std::marker::Model;
use tb_base::Memory;

/// What is known of a declared name.
#[derive(Clone, Copy)]
struct Declared {
    /// Whether its block is still open.
    open_here: bool,
    /// What it stands for, if that is known.
    meaning: Option<Thing>,
}

/// What a module has declared so far, in order. Contracts see each name with its fact, and by `seen`
/// the list of what is known.
#[derive(Drop)]
pub struct Scope {
    names: IndexMap<Vec<u8>, Declared>,
}

impl Model for Scope {
    ghost use Rattle.std.specs.Prelude.{List, ℕ};
    ghost use Rattle.fir_check.specs.declared.scope.Declared.{Declared};
    ghost use Rattle.fir_check.specs.KnownSeen.{facts_seen, IsDistinctNames};

    ghost Value = { List (List ℕ × Declared) };

    ghost view = { λ s. facts_seen s.names.entries };

    ghost invariant = { λ s. IsDistinctNames s.names.entries };
}

impl Scope {
    /// What is known in front of a module's ports. Takes no memory.
    pub fn new(alloc: Global) -> Scope
        ensures { result ≡ [] }
    {
        Scope {
            names: IndexMap::new(alloc),
        }
    }

    /// The number of declared names.
    pub fn len(&self) -> usize
        ensures { result ≡ length self.now }
    {
        self.names.len()
    }

    /// Whether the module has declared the name, in a block that is open or not. The time is that of
    /// a look-up.
    pub fn is_declared(&self, name: &[u8]) -> bool
        ensures { (types : List Ty) → result ≡ is_declared name.now (seen types self.now) }
    {
        self.names.contains_key(name)
    }

    /// What the name stands for, if that is known, where it is declared in a block that is open. The
    /// time is that of a look-up.
    pub fn visible(&self, name: &[u8]) -> Option<Option<Thing>>
        ensures { (types : List Ty) → option_map (option_map (meant types)) result ≡ option_map (λ k. k.meaning) (visible name.now (seen types self.now)) }
    {
        match self.names.get(name) {
            None => None,
            Some(fact) => {
                if fact.open_here {
                    Some(fact.meaning)
                } else {
                    None
                }
            }
        }
    }

    /// Declares the name in the open block; nothing where it is declared already. `Err(Memory)` says
    /// that there wasn't enough memory. The time is that of a look-up.
    pub fn add(&mut self, alloc: Global, name: &[u8], meaning: Option<Thing>) -> Result<(), Memory>
        ensures { OnOk result ((types : List Ty) → seen types self.new ≡ added (fresh name.now (option_map (meant types) meaning)) (seen types self.old)) }
    {
        if self.names.contains_key(name) {
            return Ok(());
        }
        let key = Vec::from_slice(alloc, name)?;
        let fact = Declared {
            open_here: true,
            meaning,
        };
        self.names.insert(key, fact)?;
        Ok(())
    }

    /// Hides the names from the first `from` on: their block has ended. The time is linear in their
    /// number.
    pub fn hide_from(&mut self, from: usize)
        ensures { (types : List Ty) → seen types self.new ≡ hide from (seen types self.old) }
    {
        hide_entries(&mut self.names, from);
    }
}

/// Clears the marks from the place `from` on.
fn hide_entries(names: &mut IndexMap<Vec<u8>, Declared>, from: usize)
    ensures { names.new.entries ≡ closed_past from names.old.entries }
{
    let mut k = names.len();
    while k > from {
        k -= 1;
        close(names, k);
    }
}

/// Clears the mark at a place.
fn close(names: &mut IndexMap<Vec<u8>, Declared>, k: usize)
    ensures { names.new.entries ≡ closed_at k names.old.entries }
{
    if let Some(fact) = names.get_index_mut(k) {
        fact.open_here = false;
    }
}
