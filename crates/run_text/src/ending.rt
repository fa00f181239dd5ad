//! The lines of a run's outcome.
ghost use Rattle.std.specs.Prelude.{◌≡◌, ◌++◌, OnOk, codes};
ghost use Rattle.std.specs.Fmt.{decimal};
ghost use Rattle.bench_run.specs.Told.{outcome_told, result_told};
ghost use Rattle.run_text.specs.Report.{counts_text, limit_text, line_text, outcome_text};
ghost use Rattle.run_text.specs.Runs.{EndsIn};

use crate::access::{put_conflict, put_line};
use bench_run::{Outcome, Run};
use net_design::Design;
use std::alloc::Global;
use tb_base::{Memory, Path, put, put_decimal};

/// Puts a time step, and how many actions and records the run has.
fn put_counts(alloc: Global, out: &mut Vec<u8>, time: u32, run: &Run) -> Result<(), Memory>
    ensures { OnOk result (out.new.items ≡ out.old.items ++ counts_text time (result_told run.now)) }
{
    put_decimal(alloc, out, u128::from(time))?;
    put(out, b" after ")?;
    put_decimal(alloc, out, u128::from(run.actions))?;
    put(out, b" actions, ")?;
    put_decimal(alloc, out, run.observations.items().len() as u128)?;
    put(out, b" records\n")?;
    Ok(())
}

/// Puts the line of a run that failed or finished, behind the words for it.
fn put_end(
    alloc: Global,
    out: &mut Vec<u8>,
    ending: &[u8],
    time: u32,
    run: &Run,
) -> Result<(), Memory>
    ensures { OnOk result (out.new.items ≡ out.old.items ++ (ending.now ++ counts_text time (result_told run.now))) }
{
    put(out, ending)?;
    put_counts(alloc, out, time, run)?;
    Ok(())
}

/// Puts the line of a run that passed a limit, with the words for the limit.
fn put_limit(alloc: Global, out: &mut Vec<u8>, limit: &[u8], time: u32) -> Result<(), Memory>
    ensures { OnOk result (out.new.items ≡ out.old.items ++ limit_text limit.now time) }
{
    put(out, b"limit ")?;
    put(out, limit)?;
    put(out, b" at ")?;
    put_decimal(alloc, out, u128::from(time))?;
    put(out, b"\n")?;
    Ok(())
}

/// Puts the line of a run with a thread that is spent.
fn put_spent(
    alloc: Global,
    out: &mut Vec<u8>,
    time: u32,
    path: &Path,
    line: u32,
) -> Result<(), Memory>
    ensures { OnOk result (out.new.items
        ≡ out.old.items ++ (codes "spent at " ++ (decimal time ++ (codes " by " ++ (line_text path.now line ++ codes "\n"))))) }
{
    put(out, b"spent at ")?;
    put_decimal(alloc, out, u128::from(time))?;
    put(out, b" by ")?;
    put_line(alloc, out, path, line)?;
    put(out, b"\n")?;
    Ok(())
}

/// Puts the lines of the outcome.
pub fn put_outcome(
    alloc: Global,
    out: &mut Vec<u8>,
    design: &Design,
    run: &Run,
) -> Result<(), Memory>
    requires { EndsIn design.now.elab (outcome_told run.now.outcome) }
    ensures { OnOk result (out.new.items
        ≡ out.old.items ++ outcome_text design.now.elab (outcome_told run.now.outcome) (result_told run.now)) }
{
    match &run.outcome {
        Outcome::Conflict {
            time,
            first,
            second,
        } => put_conflict(alloc, out, design, *time, first, second),
        Outcome::StepActions { time } => put_limit(alloc, out, b"step actions", *time),
        Outcome::Failed { time } => put_end(alloc, out, b"failed at ", *time, run),
        Outcome::Spent { time, path, line } => put_spent(alloc, out, *time, path, *line),
        Outcome::Finished { time } => put_end(alloc, out, b"finished at ", *time, run),
        Outcome::ThreadLimit { time } => put_limit(alloc, out, b"threads", *time),
        Outcome::RecordLimit { time } => put_limit(alloc, out, b"records", *time),
        Outcome::RunActions { time } => put_limit(alloc, out, b"run actions", *time),
        Outcome::TimeLimit { time } => put_limit(alloc, out, b"time steps", *time),
    }
}
