//! The code of a test.
ghost use Rattle.std.specs.Prelude.{◌≡◌, ◌↔◌, ◌≤◌, true, None, Some, length, map, replicate, IfOk};
ghost use Rattle.tl_check.specs.Bounds.{greatest, nested_forks};
ghost use Rattle.tl_check.specs.Walk.{test_rule};
ghost use Rattle.tl_threads.specs.Bodies.{test_body};
ghost use Rattle.tl_threads.specs.Code.{test_code};
ghost use Rattle.std.specs.Bool.{Decides};
ghost use Rattle.tl_threads.specs.Stands.{code_of};
ghost use Rattle.tl_code.specs.Codes.{IsCode, Fits, Holds, places, root_state};

use crate::draft::Draft;
use crate::emit::emit_block;
use crate::fits::{Slots, fits_at};
use crate::level::Level;
use crate::same::{same_ports, same_text};
use crate::slots::{handle_slots, variable_slots};
use crate::state::{Fetched, ThreadState};
use net_core::PortTable;
use sqlite_items::at;
use std::alloc::Global;
use std::marker::Model;
use tb_base::{Memory, Path, Region, Seq};
use tl_check::CoreTest;
use tl_threads::code::{Instr, Placed};

/// The code of a core test, with copies of the test and of the ports for which it was checked. Contracts see the test, the ports, the
/// instructions and the numbers of slots.
#[derive(Drop)]
pub struct Code {
    test: CoreTest,
    placed: Vec<Placed>,
    variables: usize,
    handles: usize,
}

impl Model for Code {
    ghost use Rattle.std.specs.Coded.{codes};
    ghost use Rattle.tl_ast.specs.contracts.tree.TestExpr as expr;
    ghost use Rattle.tl_ast.specs.contracts.tree.TestStmt as stmt;
    ghost use Rattle.tl_code.specs.Compiled.{Compiled};
    ghost use Rattle.tl_code.specs.Codes.{IsCode};

    ghost Value = { Compiled };

    ghost coded = { Prim.hlevel (codes, expr.the_row.coded, stmt.the_row.coded) };

    ghost view = { λ c. record { test = c.test; placed = c.placed.items; variables = c.variables; handles = c.handles } };

    ghost invariant = { λ c. IsCode (record { test = c.test; placed = c.placed.items; variables = c.variables; handles = c.handles }) };
}

/// Writes the instructions of a test.
fn write(alloc: Global, test: &CoreTest) -> Result<Vec<Placed>, Memory>
    ensures code { IfOk result (λ placed. placed.items ≡ test_code (test_body test.now.ports test.now.test)) }
    ensures few { IfOk result (λ placed. length placed.items ≤ 5242881) }
    ensures rule { IfOk result (λ placed. test_rule test.now.test test.now.ports ≡ None) }
    ensures forks { IfOk result (λ placed. greatest (map nested_forks test.now.test.body) ≤ 8) }
{
    let mut draft = Draft::new(alloc);
    let level = Level::first();
    emit_block(
        alloc,
        test.ports(),
        level,
        test.test().body.items(),
        &mut draft,
    )?;
    draft.put(level, Instr::End)?;
    Ok(draft.into_placed())
}

/// The code of a test that was checked for its ports. `Err(Memory)` says that there wasn't enough memory. The time is linear in the size
/// of the test.
pub fn compile(alloc: Global, test: &CoreTest) -> Result<Code, Memory>
    ensures test { IfOk result (λ code. code.test ≡ test.now) }
    ensures code { IfOk result (λ code. IsCode code) }
{
    let placed = write(alloc, test)?;
    let variables = variable_slots(placed.as_slice());
    let handles = handle_slots(placed.as_slice());
    let test = test.copy(alloc)?;
    Ok(Code {
        test,
        placed,
        variables,
        handles,
    })
}

/// So many slots for handles, none of which names a child.
pub fn no_handles(alloc: Global, count: usize) -> Result<Seq<Option<Path>>, Memory>
    ensures { IfOk result (λ handles. handles ≡ replicate count None) }
{
    let mut handles = Vec::new(alloc);
    for slot in 0..count {
        handles.push(None)?;
    }
    Ok(Seq::of(handles))
}

fn copy_placed(alloc: Global, code: &[Placed]) -> Result<Vec<Placed>, Memory>
    ensures { IfOk result (λ copy. copy.items ≡ code.now) }
{
    let mut copy = Vec::new(alloc);
    for placed in code {
        copy.push(Placed {
            instr: placed.instr.copy()?,
            depth: placed.depth,
            region: placed.region,
            handles: placed.handles,
            loops: placed.loops,
        })?;
    }
    Ok(copy)
}

impl Code {
    /// The test, with the ports for which it was checked.
    pub fn test(&self) -> &CoreTest
        ensures is { result.now ≡ self.now.test }
        ensures code { IsCode self.now }
    {
        &self.test
    }

    /// The ports for which the test was checked.
    pub fn ports(&self) -> &PortTable
        ensures { result.now ≡ self.now.test.ports }
    {
        self.test.ports()
    }

    /// The instructions, each with what is known at its place.
    pub fn placed(&self) -> &[Placed]
        ensures is { result.now ≡ self.now.placed }
        ensures code { IsCode self.now }
    {
        self.placed.as_slice()
    }

    /// The number of slots for variables.
    pub fn variables(&self) -> usize
        ensures { result ≡ self.now.variables }
    {
        self.variables
    }

    /// The number of slots for handles.
    pub fn handles(&self) -> usize
        ensures { result ≡ self.now.handles }
    {
        self.handles
    }

    /// The state of the root thread at the beginning, or `Memory`.
    pub fn root(&self, alloc: Global) -> Result<ThreadState, Memory>
        ensures is { IfOk result (λ state. state ≡ root_state self.now) }
        ensures fits { IfOk result (λ state. Fits self.now state) }
    {
        let locals = vec![in alloc; 0; self.variables]?;
        let handles = no_handles(alloc, self.handles)?;
        Ok(ThreadState {
            path: Path::root(alloc),
            region: Region::Main,
            pc: 0,
            locals: Seq::of(locals),
            handles,
            loops: Seq::of(Vec::new(alloc)),
            forks: 0,
            acts: 0,
            joined: None,
        })
    }

    /// Whether a thread's state fits the code. Takes no memory. The time is linear in the number of handles that are known at its place.
    pub fn fits(&self, thread: &ThreadState) -> bool
        ensures { Decides result (Fits self.now thread.now) }
    {
        let slots = Slots {
            variables: self.variables,
            handles: self.handles,
        };
        match at(self.placed.as_slice(), thread.pc as usize) {
            None => false,
            Some(placed) => fits_at(placed, slots, thread),
        }
    }

    /// Whether an instruction is the code's at its place.
    fn has(&self, fetched: &Fetched) -> bool
        ensures { Decides result (code_of (places self.now) fetched.now.pc ≡ Some fetched.now.instr) }
    {
        match at(self.placed.as_slice(), fetched.pc as usize) {
            None => false,
            Some(placed) => placed.instr.same(&fetched.instr),
        }
    }

    /// Whether each of these instructions is the code's at its place. Takes no memory.
    pub fn holds(&self, fetched: &[Fetched]) -> bool
        ensures { Decides result (Holds self.now fetched.now) }
    {
        for one in fetched {
            if !self.has(one) {
                return false;
            }
        }
        true
    }

    /// Whether both are the code of one test for one table of ports. Takes no memory, and its time is linear in the size of the lesser.
    pub fn same(&self, other: &Code) -> bool
        ensures { (result ≡ true) ↔ (self.now ≡ other.now) }
    {
        same_text(self.test.test(), other.test.test())
            && same_ports(self.test.ports(), other.test.ports())
    }

    /// Equal code, or `Memory`. The time is linear in the size of the test; operands are shared.
    pub fn copy(&self, alloc: Global) -> Result<Code, Memory>
        ensures { IfOk result (λ copy. copy ≡ self.now) }
    {
        let test = self.test.copy(alloc)?;
        let placed = copy_placed(alloc, self.placed.as_slice())?;
        Ok(Code {
            test,
            placed,
            variables: self.variables,
            handles: self.handles,
        })
    }
}
