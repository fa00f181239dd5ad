//! Names and their slots.
ghost use Rattle.std.specs.Prelude.{◌≡◌, ◌+◌, ◌<◌, ◌≤◌, [], length, take, OnOk, IfSome};
ghost use Rattle.tl_threads.specs.Code.{slot, slot_found, with_name};

use indexmap::IndexSet;
use std::alloc::Global;
use std::marker::Model;
use tb_base::Memory;

/// The names that are known at a place, the oldest first. A name's slot is its place among them. Contracts see the list of the names.
#[derive(Drop)]
pub struct Names {
    names: IndexSet<Vec<u8>>,
}

impl Model for Names {
    ghost use Rattle.std.specs.Prelude.{List, ℕ, map};

    ghost Value = { List (List ℕ) };

    ghost view = { λ n. map (λ name. name.items) n.names.keys };
}

impl Names {
    /// None. Takes no memory.
    pub fn new(alloc: Global) -> Names
        ensures { result ≡ [] }
    {
        Names {
            names: IndexSet::new(alloc),
        }
    }

    /// The number of the names.
    pub fn len(&self) -> usize
        ensures { result ≡ length self.now }
    {
        self.names.len()
    }

    /// The slot of a name, and `None` exactly where it isn't known. The time is that of a look-up.
    pub fn find(&self, name: &[u8]) -> Option<usize>
        ensures slot { result ≡ slot_found name.now self.now }
        ensures within { IfSome result (λ slot. slot < length self.now) }
    {
        self.names.get_index_of(name)
    }

    /// The slot that a name has once it is known.
    pub fn slot_once_known(&self, name: &[u8]) -> usize
        ensures slot { result ≡ slot name.now (with_name self.now name.now) }
        ensures within { result ≤ length self.now }
    {
        match self.find(name) {
            Some(slot) => slot,
            None => self.len(),
        }
    }

    /// Makes a name known; nothing changes where it is. The time is that of a look-up.
    pub fn add(&mut self, alloc: Global, name: &[u8]) -> Result<(), Memory>
        ensures known { OnOk result (self.new ≡ with_name self.old name.now) }
        ensures grows { length self.new ≤ length self.old + 1 }
    {
        if self.find(name).is_some() {
            return Ok(());
        }
        let own = Vec::from_slice(alloc, name)?;
        self.names.insert(own)?;
        Ok(())
    }

    /// Forgets all but the first of them: a block has ended. The time is linear in the number of those that are forgotten.
    pub fn keep(&mut self, count: usize)
        ensures { self.new ≡ take count self.old }
    {
        self.names.truncate(count);
    }
}
