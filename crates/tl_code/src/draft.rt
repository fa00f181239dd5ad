//! Code as it is written.
ghost use Rattle.std.specs.Prelude.{◌≡◌, ◌<◌, ◌≤◌, [], length, take, OnOk};
ghost use Rattle.tl_threads.specs.Code.{at, slot, with_name};
ghost use Rattle.tl_code.specs.Drafts.{Drafted, scope_of, behind, replaced, stored};

use crate::level::Level;
use crate::names::Names;
use std::alloc::Global;
use std::marker::Model;
use std::mem;
use tb_base::Memory;
use tl_threads::code::{Instr, Operand, Placed};

/// The code that is written so far, with the names that are known behind it. Contracts see all three.
///
/// Each name that is known was brought by an instruction, so there are no more names than instructions.
#[derive(Drop)]
pub struct Draft {
    placed: Vec<Placed>,
    variables: Names,
    handles: Names,
}

impl Model for Draft {
    ghost use Rattle.std.specs.Prelude.{◌≤◌, length};
    ghost use Rattle.tl_code.specs.Drafts.{Drafted};

    ghost Value = { Drafted };

    ghost view = { λ d. record { placed = d.placed.items; variables = d.variables; handles = d.handles } };

    ghost invariant = { λ d. (length d.placed.items ≤ 4294967295) × (length d.variables ≤ length d.placed.items) × (length d.handles ≤ length d.placed.items) };
}

/// How many variables and handles are known.
#[derive(Clone, Copy)]
pub struct Mark {
    variables: usize,
    handles: usize,
}

fn slot_of(names: &Names, name: &[u8]) -> usize
    ensures slot { result ≡ slot name.now names.now }
    ensures within { result ≤ length names.now }
{
    match names.find(name) {
        Some(slot) => slot,
        None => 0,
    }
}

impl Draft {
    /// No code, and no names.
    pub fn new(alloc: Global) -> Draft
        ensures { result ≡ record { placed = []; variables = []; handles = [] } }
    {
        Draft {
            placed: Vec::new(alloc),
            variables: Names::new(alloc),
            handles: Names::new(alloc),
        }
    }

    /// The place behind the code.
    pub fn place(&self) -> u32
        ensures { result ≡ length self.now.placed }
    {
        self.placed.len() as u32
    }

    /// An instruction with what is known behind the code.
    fn at(&self, level: Level, instr: Instr) -> Placed
        ensures { result ≡ at (scope_of level self.now) instr }
    {
        Placed {
            instr,
            depth: level.depth,
            region: level.region,
            handles: self.handles.len() as u32,
            loops: level.loops,
        }
    }

    /// Writes one more instruction.
    pub fn put(&mut self, level: Level, instr: Instr) -> Result<(), Memory>
        requires { length self.old.placed < 4294967295 }
        ensures { OnOk result (self.new ≡ behind level instr self.old) }
    {
        let placed = self.at(level, instr);
        self.placed.push(placed)?;
        Ok(())
    }

    /// Writes an instruction over that of a place.
    pub fn replace(&mut self, level: Level, place: u32, instr: Instr)
        requires { place < length self.old.placed }
        ensures { self.new ≡ replaced level place instr self.old }
    {
        let placed = self.at(level, instr);
        self.placed[place as usize] = placed;
    }

    /// The slot of a variable, and 0 where it isn't known.
    pub fn variable_slot(&self, name: &[u8]) -> u32
        ensures { result ≡ slot name.now self.now.variables }
    {
        slot_of(&self.variables, name) as u32
    }

    /// The slot of a handle, and 0 where it isn't known.
    pub fn handle_slot(&self, name: &[u8]) -> u32
        ensures { result ≡ slot name.now self.now.handles }
    {
        slot_of(&self.handles, name) as u32
    }

    /// Writes that the number goes into a variable, which is known from then on.
    pub fn store(
        &mut self,
        alloc: Global,
        level: Level,
        line: u32,
        name: &[u8],
        value: Operand,
    ) -> Result<(), Memory>
        requires { length self.old.placed < 4294967295 }
        ensures { OnOk result (self.new ≡ stored level line name.now value self.old) }
    {
        let slot = self.variables.slot_once_known(name) as u32;
        self.put(level, Instr::Store { line, slot, value })?;
        self.variables.add(alloc, name)?;
        Ok(())
    }

    /// How much is known.
    pub fn mark(&self) -> Mark
        ensures variables { result.variables ≡ length self.now.variables }
        ensures handles { result.handles ≡ length self.now.handles }
    {
        Mark {
            variables: self.variables.len(),
            handles: self.handles.len(),
        }
    }

    /// Forgets what became known since the mark: a block has ended.
    pub fn leave(&mut self, mark: Mark)
        ensures { self.new ≡ record self.old { variables = take mark.variables self.old.variables; handles = take mark.handles self.old.handles } }
    {
        self.variables.keep(mark.variables);
        self.handles.keep(mark.handles);
    }

    /// Goes inside a fork, where no handle is known. Gives the handles outside.
    pub fn begin_fork(&mut self, alloc: Global) -> Names
        ensures outside { result ≡ self.old.handles }
        ensures inside { self.new ≡ record self.old { handles = [] } }
        ensures few { length result ≤ length self.old.placed }
    {
        mem::replace(&mut self.handles, Names::new(alloc))
    }

    /// Leaves a fork: the handles are those outside.
    pub fn end_fork(&mut self, outside: Names)
        requires { length outside ≤ length self.old.placed }
        ensures { self.new ≡ record self.old { handles = outside } }
    {
        self.handles = outside;
    }

    /// The slot that a handle has once it is known.
    pub fn handle_slot_once_known(&self, name: &[u8]) -> u32
        requires { length self.now.handles < length self.now.placed }
        ensures { result ≡ slot name.now (with_name self.now.handles name.now) }
    {
        self.handles.slot_once_known(name) as u32
    }

    /// Makes a handle known.
    pub fn add_handle(&mut self, alloc: Global, name: &[u8]) -> Result<(), Memory>
        requires { length self.old.handles < length self.old.placed }
        ensures { OnOk result (self.new ≡ record self.old { handles = with_name self.old.handles name.now }) }
    {
        self.handles.add(alloc, name)?;
        Ok(())
    }

    /// The code.
    pub fn into_placed(self) -> Vec<Placed>
        ensures code { result.items ≡ self.placed }
        ensures few { length result.items ≤ 4294967295 }
    {
        let Draft {
            placed,
            variables: _,
            handles: _,
        } = self;
        placed
    }
}
