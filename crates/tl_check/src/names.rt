//! What is known at a statement.
ghost use Rattle.std.specs.Prelude.{◌≡◌, [], length, take, OnOk};
ghost use Rattle.tl_check.specs.Scopes.{nothing_known, inside_fork, is_among, handle_named, one_variable_more, one_handle_more};
ghost use Rattle.tl_check.specs.Walk.{behind_let, behind_fork};
ghost use Rattle.tl_check.specs.Following.{first_names};

use crate::handles::Handles;
use crate::variables::Variables;
use std::alloc::Global;
use std::marker::Model;
use std::mem;
use tb_base::Memory;

/// At most so many variables are known at one place.
const MOST_VARIABLES: usize = 256;

/// At most so many handles are known at one place.
const MOST_HANDLES: usize = 64;

/// The variable of a driver's own statements, which no text can write. It isn't counted.
const DRIVERS_VARIABLE: &[u8] = b"$r";

/// The handle of a driver's own statements.
const DRIVERS_HANDLE: &[u8] = b"$d";

/// The variables and handles that are known at a statement.
#[derive(Drop)]
pub struct Names {
    variables: Variables,
    handles: Handles,
}

impl Model for Names {
    ghost use Rattle.tl_check.specs.Scopes.{Known};

    ghost Value = { Known };

    ghost view = { λ n. record { variables = n.variables; handles = n.handles } };
}

/// How many variables and handles are known.
#[derive(Clone, Copy)]
pub struct Mark {
    variables: usize,
    handles: usize,
}

impl Names {
    /// Nothing is known. Takes no memory.
    pub fn new(alloc: Global) -> Names
        ensures { result ≡ nothing_known }
    {
        Names {
            variables: Variables::new(alloc),
            handles: Handles::new(alloc),
        }
    }

    /// Whether a variable is known.
    pub fn has_variable(&self, name: &[u8]) -> bool
        ensures { result ≡ is_among name.now self.now.variables }
    {
        self.variables.has(name)
    }

    /// Of a known handle, whether some fork in its scope gave it to a Monitor thread; `None` exactly
    /// where it isn't known.
    pub fn handle(&self, name: &[u8]) -> Option<bool>
        ensures { result ≡ handle_named name.now self.now.handles }
    {
        self.handles.find(name)
    }

    /// Whether a `let` of this name makes one variable too many known.
    pub fn is_variable_too_many(&self, name: &[u8]) -> bool
        ensures { result ≡ one_variable_more name.now self.now.variables }
    {
        if self.variables.has(name) || name == DRIVERS_VARIABLE {
            return false;
        }
        let count = self.variables.len();
        if self.variables.has(DRIVERS_VARIABLE) {
            MOST_VARIABLES <= count.saturating_sub(1)
        } else {
            MOST_VARIABLES <= count
        }
    }

    /// Whether a fork of this name makes one handle too many known.
    pub fn is_handle_too_many(&self, name: &[u8]) -> bool
        ensures { result ≡ one_handle_more name.now self.now.handles }
    {
        if self.handles.find(name).is_some() || name == DRIVERS_HANDLE {
            return false;
        }
        let count = self.handles.len();
        if self.handles.find(DRIVERS_HANDLE).is_some() {
            MOST_HANDLES <= count.saturating_sub(1)
        } else {
            MOST_HANDLES <= count
        }
    }

    /// Takes note of a `let`.
    pub fn add_variable(&mut self, alloc: Global, name: &[u8]) -> Result<(), Memory>
        ensures { OnOk result (self.new ≡ behind_let name.now self.old) }
    {
        self.variables.add(alloc, name)?;
        Ok(())
    }

    /// Takes note of a fork.
    pub fn add_handle(&mut self, alloc: Global, name: &[u8], watches: bool) -> Result<(), Memory>
        ensures { OnOk result (self.new ≡ behind_fork name.now watches self.old) }
    {
        self.handles.add(alloc, name, watches)?;
        Ok(())
    }

    /// How much is known.
    pub fn mark(&self) -> Mark
        ensures variables { result.variables ≡ length self.now.variables }
        ensures handles { result.handles ≡ length self.now.handles }
    {
        Mark {
            variables: self.variables.len(),
            handles: self.handles.len(),
        }
    }

    /// Forgets what became known since the mark: a block has ended.
    pub fn leave(&mut self, mark: Mark)
        ensures { self.new ≡ first_names mark.variables mark.handles self.old }
    {
        self.variables.keep(mark.variables);
        self.handles.keep(mark.handles);
    }

    /// Goes inside a fork, where no handle is known. Gives the handles outside.
    pub fn begin_fork(&mut self, alloc: Global) -> Handles
        ensures outside { result ≡ self.old.handles }
        ensures inside { self.new ≡ inside_fork self.old }
    {
        mem::replace(&mut self.handles, Handles::new(alloc))
    }

    /// Leaves a fork: the handles are those outside, the variables those since the mark forgotten.
    pub fn end_fork(&mut self, mark: Mark, outside: Handles)
        ensures { self.new ≡ record { variables = take mark.variables self.old.variables; handles = outside } }
    {
        self.variables.keep(mark.variables);
        self.handles = outside;
    }
}
