//! The next action of a thread.
ghost use Rattle.std.specs.Prelude.{◌≡◌, ◌<◌, ◌++◌, ◌∷◌, [], None, suc, length, replicate, IfOk};
ghost use Rattle.std.specs.Option.{option_copied};
ghost use Rattle.tl_code.specs.Codes.{Fits, Holds};
ghost use Rattle.tl_prepare.specs.Steps.{core_of_runner};
ghost use Rattle.tl_prepare.specs.Listed.{Once};
ghost use Rattle.tl_prepare.specs.Given as given;
ghost use Rattle.tl_prepare.specs.Given.{IsPrepared, Ran, joined_by, ends, moved, stayed, newborn};

use crate::act::Act;
use crate::execute::{Executed, execute};
use crate::runner::Runner;
use crate::step::Stepped;
use std::alloc::Global;
use std::marker::Model;
use tb_base::{Memory, Path, Region, Seq};
use tl_code::laws::a_fitting_state_stands;
use tl_code::{Code, Fetched, ThreadState, no_handles};
use tl_threads::laws::{code_does_the_next_move, what_stands_fits};

/// The most local statements between two acts.
const MOST_LOCAL: u32 = 65_536;

/// An act of a thread, worked out from its state, with the state behind it and that of the child that it forks. Contracts see the parts.
///
/// They are what the instructions that were read give, executed from the state's place on: so they hold under each code that has these
/// instructions at their places.
#[derive(Drop)]
pub struct Prepared {
    from: ThreadState,
    act: Act,
    next: ThreadState,
    child: Option<ThreadState>,
    fetched: Vec<Fetched>,
}

impl Model for Prepared {
    ghost use Rattle.tl_prepare.specs.Work.{Work};
    ghost use Rattle.tl_prepare.specs.Given.{IsPrepared};

    ghost Value = { Work };

    ghost view = { λ p. record { from = p.from; act = p.act; next = p.next; child = p.child; fetched = p.fetched.items } };

    ghost invariant = { λ p. IsPrepared (record { from = p.from; act = p.act; next = p.next; child = p.child; fetched = p.fetched.items }) };
}

/// The child of a join.
fn joined_child(act: &Act) -> Option<Path>
    ensures { result ≡ joined_by act.now }
{
    match act {
        Act::Join { line: _, child } => Some(child.copy()),
        _ => None,
    }
}

/// Whether the thread stays where it was.
fn is_last(act: &Act) -> bool
    ensures { result ≡ ends act.now }
{
    match act {
        Act::Spend { line: _ } | Act::End => true,
        _ => false,
    }
}

/// The state behind an act.
fn state_behind(thread: &ThreadState, run: Runner, joined: Option<Path>) -> ThreadState
    requires { thread.now.acts < 4294967295 }
    ensures { result ≡ moved thread.now run joined }
{
    ThreadState {
        path: run.path,
        region: thread.region,
        pc: run.pc,
        locals: Seq::of(run.locals),
        handles: Seq::of(run.handles),
        loops: Seq::of(run.loops),
        forks: run.forks,
        acts: thread.acts + 1,
        joined,
    }
}

/// The numbers of a list, put in place of these. Takes no memory where these have the room.
fn refilled(numbers: Vec<u128>, list: &[u128]) -> Result<Vec<u128>, Memory>
    ensures { IfOk result (λ v. v.items ≡ list.now) }
{
    let mut numbers = numbers;
    numbers.clear();
    numbers.extend_from_slice(list)?;
    Ok(numbers)
}

/// The state of a thread that is spent or ends. Its numbers go back into the vectors in which they were worked on, which have had the room
/// for them since they were copied: so this takes no memory.
fn state_left(thread: &ThreadState, run: Runner) -> Result<ThreadState, Memory>
    requires acts { thread.now.acts < 4294967295 }
    requires handles { run.handles.items ≡ thread.now.handles }
    ensures { IfOk result (λ state. state ≡ stayed thread.now) }
{
    let locals = refilled(run.locals, thread.locals.items())?;
    let loops = refilled(run.loops, thread.loops.items())?;
    let acts = thread.acts + 1;
    Ok(ThreadState {
        path: thread.path.copy(),
        region: thread.region,
        pc: thread.pc,
        locals: Seq::of(locals),
        handles: Seq::of(run.handles),
        loops: Seq::of(loops),
        forks: thread.forks,
        acts,
        joined: None,
    })
}

/// The state of a child that begins.
fn state_of_child(
    alloc: Global,
    next: &ThreadState,
    path: Path,
    region: Region,
    pc: u32,
) -> Result<ThreadState, Memory>
    ensures { IfOk result (λ state. state ≡ newborn next.now path region pc) }
{
    let locals = next.locals.copy(alloc)?;
    let handles = no_handles(alloc, next.handles.items().len())?;
    Ok(ThreadState {
        path,
        region,
        pc,
        locals,
        handles,
        loops: Seq::of(Vec::new(alloc)),
        forks: 0,
        acts: 0,
        joined: None,
    })
}

/// The state behind an act that is no fork.
fn state_after(thread: &ThreadState, run: Runner, act: &Act) -> Result<ThreadState, Memory>
    requires acts { thread.now.acts < 4294967295 }
    requires handles { run.handles.items ≡ thread.now.handles }
    ensures { IfOk result (λ state. state ≡ given.state_after thread.now run act.now) }
{
    if is_last(act) {
        state_left(thread, run)
    } else {
        Ok(state_behind(thread, run, joined_child(act)))
    }
}

/// Puts together what was worked out.
fn complete(alloc: Global, thread: &ThreadState, executed: Executed) -> Result<Prepared, Memory>
    requires ran { Ran thread.now executed }
    requires acts { thread.now.acts < 4294967295 }
    ensures from { IfOk result (λ p. p.from ≡ thread.now) }
    ensures fetched { IfOk result (λ p. p.fetched ≡ executed.fetched.items) }
    ensures gives { IfOk result (λ p. IsPrepared p) }
{
    let from = thread.copy(alloc)?;
    let Executed { run, step, fetched } = executed;
    match step {
        Stepped::Acts(act) => {
            let next = state_after(thread, run, &act)?;
            Ok(Prepared {
                from,
                act,
                next,
                child: None,
                fetched,
            })
        }
        Stepped::Forks {
            line,
            region,
            begin,
            child,
        } => {
            let next = state_behind(thread, run, None);
            let begins = state_of_child(alloc, &next, child.copy(), region, begin)?;
            Ok(Prepared {
                from,
                act: Act::Fork { line, child },
                next,
                child: Some(begins),
                fetched,
            })
        }
        Stepped::Jumped | Stepped::Went | Stepped::Stuck => unreachable!(),
    }
}

/// The next action of a thread whose state fits the code. `Err(Memory)` says that there wasn't enough memory; none is taken but for what is
/// returned. The time is linear in the number of instructions that are executed, the lengths of their operands and the number of slots, but
/// for a logarithm: each instruction that is executed is looked up among those that were read.
pub fn prepare(alloc: Global, code: &Code, thread: &ThreadState) -> Result<Prepared, Memory>
    requires { Fits code.now thread.now }
    ensures from { IfOk result (λ p. p.from ≡ thread.now) }
    ensures fetched { IfOk result (λ p. Holds code.now p.fetched) }
    ensures once { IfOk result (λ p. Once p.fetched) }
    ensures gives { IfOk result (λ p. IsPrepared p) }
{
    a_fitting_state_stands();
    code_does_the_next_move();
    what_stands_fits();
    let start = Runner::of(alloc, thread)?;
    let executed = execute(alloc, code.placed(), start, MOST_LOCAL)?;
    complete(alloc, thread, executed)
}

impl Prepared {
    /// The state that it was worked out from.
    pub fn from(&self) -> &ThreadState
        ensures is { result.now ≡ self.now.from }
        ensures gives { IsPrepared self.now }
    {
        &self.from
    }

    /// The act.
    pub fn act(&self) -> &Act
        ensures { result.now ≡ self.now.act }
    {
        &self.act
    }

    /// The state behind the act. A number that is read isn't in it yet.
    pub fn next(&self) -> &ThreadState
        ensures { result.now ≡ self.now.next }
    {
        &self.next
    }

    /// The state of the child that is forked, at its beginning.
    pub fn child(&self) -> Option<&ThreadState>
        ensures { option_copied result ≡ self.now.child }
    {
        self.child.as_ref()
    }

    /// The instructions that were read, each once and with its place, in the order of their places.
    pub fn fetched(&self) -> &[Fetched]
        ensures { result.now ≡ self.now.fetched }
    {
        self.fetched.as_slice()
    }

    /// The state from which it was worked out, the act, the state behind it and that of the child. Takes no memory.
    pub fn into_parts(self) -> (ThreadState, Act, ThreadState, Option<ThreadState>)
        ensures from { result.0 ≡ self.from }
        ensures act { result.1 ≡ self.act }
        ensures next { result.2 ≡ self.next }
        ensures child { result.3 ≡ self.child }
    {
        let Prepared {
            from,
            act,
            next,
            child,
            fetched: _,
        } = self;
        (from, act, next, child)
    }
}
