//! A thread whose code is executed.
ghost use Rattle.std.specs.Prelude.{◌≡◌, IfOk};
ghost use Rattle.tl_code.specs.Codes.{core_of};
ghost use Rattle.tl_prepare.specs.Steps.{core_of_runner};

use std::alloc::Global;
use tb_base::{Memory, Path};
use tl_code::ThreadState;

/// What code changes of a thread's state, and its path.
#[derive(Debug, Drop)]
pub struct Runner {
    pub path: Path,
    pub pc: u32,
    pub locals: Vec<u128>,
    pub handles: Vec<Option<Path>>,
    /// The innermost count stands last.
    pub loops: Vec<u128>,
    pub forks: u32,
}

impl Runner {
    /// The thread of a state, or `Memory`.
    pub fn of(alloc: Global, from: &ThreadState) -> Result<Runner, Memory>
        ensures core { IfOk result (λ run. core_of_runner run ≡ core_of from.now) }
        ensures path { IfOk result (λ run. run.path ≡ from.now.path) }
        ensures handles { IfOk result (λ run. run.handles.items ≡ from.now.handles) }
        ensures forks { IfOk result (λ run. run.forks ≡ from.now.forks) }
    {
        let ThreadState {
            path,
            region: _,
            pc,
            locals,
            handles,
            loops,
            forks,
            acts: _,
            joined: _,
        } = from.copy(alloc)?;
        Ok(Runner {
            path,
            pc,
            locals: locals.into_vec(),
            handles: handles.into_vec(),
            loops: loops.into_vec(),
            forks,
        })
    }
}
