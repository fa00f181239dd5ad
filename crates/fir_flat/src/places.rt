//! Places by name.
ghost use Rattle.std.specs.Prelude.{◌≡◌, ℕ, List, None, OnOk, OnErr};
ghost use Rattle.fir_flat.specs.Scopes.{place_given, Gives, SamePlaces};

use indexmap::IndexMap;
use std::alloc::Global;
use tb_base::Memory;

/// Names, each with the place that it was given last. Contracts see it by `place_given`.
#[derive(Drop)]
pub(crate) struct NamePlaces<'a> {
    numbers: IndexMap<&'a [u8], usize>,
}

impl<'a> NamePlaces<'a> {
    /// No names. Takes no memory.
    pub(crate) fn new(alloc: Global) -> NamePlaces<'a>
        ensures { (name : List ℕ) → place_given name result ≡ None }
    {
        NamePlaces {
            numbers: IndexMap::new(alloc),
        }
    }

    /// The place of a name, `None` where it was given none. The time is that of a look-up.
    pub(crate) fn find(&self, name: &[u8]) -> Option<usize>
        ensures { result ≡ place_given name.now self.now }
    {
        self.numbers.get(name).copied()
    }

    /// Gives the name a place, if it is to have one. The time is that of a look-up.
    pub(crate) fn give(&mut self, given: bool, name: &'a [u8], place: usize) -> Result<(), Memory>
        ensures ok { OnOk result (Gives given name.now place self.old self.new) }
        ensures err { OnErr result (SamePlaces self.old self.new) }
    {
        if !given {
            return Ok(());
        }
        if self.numbers.insert(name, place).is_err() {
            return Err(Memory);
        }
        Ok(())
    }
}
