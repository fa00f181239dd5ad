//! Where a thread stands that runs code, and instructions that were read for it.
ghost use Rattle.std.specs.Prelude.{◌≡◌, IfOk};

use std::alloc::Global;
use tb_base::{Memory, Path, Region, Seq};
use tl_threads::code::Instr;

/// The state of a thread between two of its acts.
#[derive(Debug, Drop)]
pub struct ThreadState {
    pub path: Path,
    pub region: Region,
    /// The place of the next instruction.
    pub pc: u32,
    /// A number for each of the code's slots for variables. The slots that are in use are those of the variables that are known at the
    /// place; the numbers of the others have no meaning.
    pub locals: Seq<u128>,
    /// For each of the code's slots for handles, the child that it names.
    pub handles: Seq<Option<Path>>,
    /// The remaining counts of the open `repeat`s, the innermost last.
    pub loops: Seq<u128>,
    /// How many children it has forked.
    pub forks: u32,
    /// How many acts it has taken.
    pub acts: u32,
    /// The child of a join that was the last act.
    pub joined: Option<Path>,
}

/// An instruction that was read at a place.
#[derive(Debug, Drop)]
pub struct Fetched {
    pub pc: u32,
    pub instr: Instr,
}

/// An equal answer. Takes no memory.
pub fn copy_child(child: &Option<Path>) -> Option<Path>
    ensures { result ≡ child.now }
{
    match child {
        None => None,
        Some(path) => Some(path.copy()),
    }
}

fn copy_children(alloc: Global, children: &[Option<Path>]) -> Result<Seq<Option<Path>>, Memory>
    ensures { IfOk result (λ copy. copy ≡ children.now) }
{
    let mut copy = Vec::new(alloc);
    for child in children {
        copy.push(copy_child(child))?;
    }
    Ok(Seq::of(copy))
}

impl ThreadState {
    /// An equal state, or `Memory`. The time and the memory are linear in the numbers of its slots and counts.
    pub fn copy(&self, alloc: Global) -> Result<ThreadState, Memory>
        ensures { IfOk result (λ copy. copy ≡ self.now) }
    {
        let locals = self.locals.copy(alloc)?;
        let handles = copy_children(alloc, self.handles.items())?;
        let loops = self.loops.copy(alloc)?;
        Ok(ThreadState {
            path: self.path.copy(),
            region: self.region,
            pc: self.pc,
            locals,
            handles,
            loops,
            forks: self.forks,
            acts: self.acts,
            joined: copy_child(&self.joined),
        })
    }
}
