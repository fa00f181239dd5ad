//! The handles that are known.
ghost use Rattle.std.specs.Prelude.{◌≡◌, [], length, take, OnOk};
ghost use Rattle.tl_check.specs.Scopes.{handle_named, with_handle};

use indexmap::IndexMap;
use std::alloc::Global;
use std::marker::Model;
use tb_base::Memory;

/// The handles that are known, in the order in which they became so, each with whether some fork in
/// its scope gave it to a Monitor thread. Contracts see the list of both.
#[derive(Drop)]
pub struct Handles {
    watches: IndexMap<Vec<u8>, bool>,
}

impl Model for Handles {
    ghost use Rattle.std.specs.Prelude.{List, ℕ, Bool};
    ghost use Rattle.tl_check.specs.Seen.{entries_seen};

    ghost Value = { List (List ℕ × Bool) };

    ghost view = { λ h. entries_seen h.watches.entries };
}

impl Handles {
    /// None. Takes no memory.
    pub fn new(alloc: Global) -> Handles
        ensures { result ≡ [] }
    {
        Handles {
            watches: IndexMap::new(alloc),
        }
    }

    /// The number of known handles.
    pub fn len(&self) -> usize
        ensures { result ≡ length self.now }
    {
        self.watches.len()
    }

    /// Of a known handle, whether some fork in its scope gave it to a Monitor thread; `None` exactly
    /// where it isn't known. The time is that of a look-up.
    pub fn find(&self, name: &[u8]) -> Option<bool>
        ensures { result ≡ handle_named name.now self.now }
    {
        self.watches.get(name).copied()
    }

    /// Makes a handle known; nothing changes where it is. The time is that of a look-up.
    pub fn add(&mut self, alloc: Global, name: &[u8], watches: bool) -> Result<(), Memory>
        ensures { OnOk result (self.new ≡ with_handle name.now watches self.old) }
    {
        if self.find(name).is_some() {
            return Ok(());
        }
        let own = Vec::from_slice(alloc, name)?;
        self.watches.insert(own, watches)?;
        Ok(())
    }

    /// Forgets all but the first of them: a block has ended. The time is linear in the number of
    /// those that are forgotten.
    pub fn keep(&mut self, count: usize)
        ensures { self.new ≡ take count self.old }
    {
        self.watches.truncate(count);
    }
}
