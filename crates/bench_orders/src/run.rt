//! The run on one thread.
ghost use Rattle.std.specs.Prelude.{◌≡◌, ◌^◌, ◌<◌, None, Some, IfOk, OnOk};
ghost use Rattle.net_design.specs.Designs.{ports_of};
ghost use Rattle.bench_setting.specs.Limited.{limits_told};
ghost use Rattle.bench_setting.specs.Settings.{setting_of};
ghost use Rattle.bench_run.specs.Told.{outcome_told, result_told};
ghost use Rattle.bench_core.specs.Bench.{IsBench};
ghost use Rattle.bench_orders.specs.FirstRuns.{first_run};
ghost use Rattle.bench_orders.specs.EveryOrder.{SaysOfEvery};
ghost use Rattle.bench_orders.specs.Turns.{BeginsTurn, HasTurned};

use bench_core::{Bench, Commit, Pick};
use bench_run::Run;
use bench_setting::Limits;
use net_core::Engine;
use net_design::Design;
use sim_plain::PlainEngine;
use std::alloc::Global;
use tb_base::Memory;
use tl_code::Code;
use tl_prepare::prepare;

/// Takes the next act of the one-thread order, where the run goes on. `Err(Memory)` says that there wasn't enough memory.
fn take_turn<E: Engine>(alloc: Global, bench: &mut Bench<E>) -> Result<(), Memory>
    requires bench { IsBench bench.old }
    requires goes_on { bench.old.outcome ≡ None }
    requires begins { BeginsTurn bench.old }
    ensures { OnOk result (HasTurned bench.old bench.new) }
{
    let Pick::Take(thread) = bench.pick(alloc)? else {
        unreachable!()
    };
    let work = prepare(alloc, bench.code(), &thread)?;
    let Ok(commit) = bench.commit(alloc, work) else {
        return Err(Memory);
    };
    match commit {
        Commit::Committed(_) => Ok(()),
        Commit::Stale => unreachable!(),
        Commit::Over => unreachable!(),
    }
}

/// Runs the code of a test over a design, within limits, in the one-thread order: at each turn the thread of least path that may act takes its
/// next act, until the run has an outcome. `Err(Memory)` says that there wasn't enough memory.
///
/// The code is that of a test for the design's ports. The limits of the acts of one time step and of the run are less than 2^31. Takes memory
/// for copies of the design and of the code, and for what the run gives; and for each act the time of its preparation and of its commit over the
/// plain engine.
pub fn run_first(alloc: Global, design: &Design, code: &Code, limits: Limits) -> Result<Run, Memory>
    requires ports { code.now.test.ports ≡ ports_of design.now.elab }
    requires step_actions { limits.step_actions < 2 ^ 31 }
    requires run_actions { limits.run_actions < 2 ^ 31 }
    ensures run { IfOk result (λ run. first_run design.now.elab code.now.test (limits_told limits) ≡ Some (result_told run)) }
    ensures speaks { IfOk result (λ run. SaysOfEvery (setting_of design.now.elab code.now.test (limits_told limits)) (outcome_told run.outcome)) }
{
    let engine = PlainEngine::new(alloc, design)?;
    let mut bench = Bench::new(alloc, design, code, limits, engine)?;
    'turns: while bench.outcome().is_none() {
        take_turn(alloc, &mut bench)?;
    }
    match bench.into_run() {
        Some(run) => Ok(run),
        None => unreachable!(),
    }
}
