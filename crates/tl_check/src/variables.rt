//! The variables that are known.
ghost use Rattle.std.specs.Prelude.{◌≡◌, [], length, take, OnOk};
ghost use Rattle.tl_check.specs.Scopes.{is_among, with_variable};

use indexmap::IndexSet;
use std::alloc::Global;
use std::marker::Model;
use tb_base::Memory;

/// The variables that are known, in the order in which they became so. Contracts see the list of
/// their names.
#[derive(Drop)]
pub struct Variables {
    names: IndexSet<Vec<u8>>,
}

impl Model for Variables {
    ghost use Rattle.std.specs.Prelude.{List, ℕ, map};

    ghost Value = { List (List ℕ) };

    ghost view = { λ v. map (λ name. name.items) v.names.keys };
}

impl Variables {
    /// None. Takes no memory.
    pub fn new(alloc: Global) -> Variables
        ensures { result ≡ [] }
    {
        Variables {
            names: IndexSet::new(alloc),
        }
    }

    /// The number of known variables.
    pub fn len(&self) -> usize
        ensures { result ≡ length self.now }
    {
        self.names.len()
    }

    /// Whether a variable is known. The time is that of a look-up.
    pub fn has(&self, name: &[u8]) -> bool
        ensures { result ≡ is_among name.now self.now }
    {
        self.names.contains(name)
    }

    /// Makes a variable known; nothing changes where it is. The time is that of a look-up.
    pub fn add(&mut self, alloc: Global, name: &[u8]) -> Result<(), Memory>
        ensures { OnOk result (self.new ≡ with_variable name.now self.old) }
    {
        if self.has(name) {
            return Ok(());
        }
        let own = Vec::from_slice(alloc, name)?;
        self.names.insert(own)?;
        Ok(())
    }

    /// Forgets all but the first of them: a block has ended. The time is linear in the number of
    /// those that are forgotten.
    pub fn keep(&mut self, count: usize)
        ensures { self.new ≡ take count self.old }
    {
        self.names.truncate(count);
    }
}
