//! Instructions are executed up to an act.
ghost use Rattle.std.specs.Prelude.{◌≡◌, ◌<◌, ◌≤◌, length, slice_get, IfOk};
ghost use Rattle.std.specs.Option.{option_copied};
ghost use Rattle.tl_prepare.specs.Steps.{core_of_runner};
ghost use Rattle.tl_prepare.specs.Listed.{Once};
ghost use Rattle.tl_prepare.specs.Runs.{code_at, HoldsAll, Works, Gives};

use crate::notes::Notes;
use crate::runner::Runner;
use crate::step::{Stepped, step};
use crate::values::Stack;
use sqlite_items::at;
use std::alloc::Global;
use tb_base::Memory;
use tl_code::Fetched;
use tl_threads::code::Placed;

/// A thread behind an act, the act, and the instructions that were read.
#[derive(Debug, Drop)]
pub struct Executed {
    pub run: Runner,
    /// An act or a fork.
    pub step: Stepped,
    pub fetched: Vec<Fetched>,
}

/// What is placed where the thread stands.
fn placed_at<'a>(code: &'a [Placed], run: &Runner) -> Option<&'a Placed>
    ensures { option_copied result ≡ slice_get code.now run.now.pc }
{
    at(code, run.pc as usize)
}

/// Executes instructions up to an act. The thread isn't stuck.
pub fn execute(
    alloc: Global,
    code: &[Placed],
    start: Runner,
    limit: u32,
) -> Result<Executed, Memory>
    requires works { Works limit (code_at code.now) 0 start.path (core_of_runner start) }
    requires forks { start.forks < 4294967295 }
    requires few { length code.now ≤ 4294967295 }
    ensures gives { IfOk result (λ e. Gives limit start e) }
    ensures fetched { IfOk result (λ e. HoldsAll (code_at code.now) e.fetched.items) }
    ensures once { IfOk result (λ e. Once e.fetched.items) }
{
    let mut run = start;
    let mut used = 0u32;
    let mut notes = Notes::new(alloc);
    let mut stack = Stack::new(alloc);
    'steps: loop {
        let Some(placed) = placed_at(code, &run) else {
            unreachable!()
        };
        notes.note(run.pc, &placed.instr)?;
        match step(&mut stack, &mut run, &placed.instr, used >= limit)? {
            Stepped::Jumped => {}
            Stepped::Went => used += 1,
            Stepped::Acts(act) => {
                return Ok(Executed {
                    run,
                    step: Stepped::Acts(act),
                    fetched: notes.into_fetched(),
                });
            }
            Stepped::Forks {
                line,
                region,
                begin,
                child,
            } => {
                return Ok(Executed {
                    run,
                    step: Stepped::Forks {
                        line,
                        region,
                        begin,
                        child,
                    },
                    fetched: notes.into_fetched(),
                });
            }
            Stepped::Stuck => unreachable!(),
        }
    }
}
