//! Handing out threads.
ghost use Rattle.std.specs.Prelude.{◌≡◌, ◌||◌, IfOk, OnErr};
ghost use Rattle.bench_model.specs.Paths.{Path};
ghost use Rattle.bench_model.specs.Orders.{least_of_run};
ghost use Rattle.bench_core.specs.Bench.{NothingMarked, marked_at, run_in};
ghost use Rattle.bench_core.specs.Picking.{PickSays, picked, marked_for, path_in, names};

use crate::bench::Bench;
use crate::laws::{marks_leave_benches, picks_are_right};
use net_core::Engine;
use std::alloc::Global;
use tb_base::Memory;
use tl_code::ThreadState;

/// What a bench hands out.
#[derive(Debug, Drop)]
pub enum Pick {
    /// A thread that may act, in a copy of its state. It is marked from now on.
    Take(ThreadState),
    /// No thread: each one that may act is marked.
    Idle,
    /// No thread: the run has its outcome.
    Over,
}

impl<E: Engine> Bench<E> {
    /// Hands out the thread of least path that may act and isn't marked, and marks it. `Err(Memory)` says that there wasn't enough memory for
    /// the copy of its state; nothing is changed then. Goes past the marked threads before it.
    ///
    /// Where no thread is marked, it is the next one of the one-thread order.
    pub fn pick(&mut self, alloc: Global) -> Result<Pick, Memory>
        ensures pick { IfOk result (λ pick. pick ≡ picked self.old) }
        ensures says { IfOk result (λ pick. PickSays self.old pick) }
        ensures first { IfOk result (λ pick. NothingMarked self.old → least_of_run (run_in self.old) ≡ path_in pick) }
        ensures bench { IfOk result (λ pick. self.new ≡ marked_for pick self.old) }
        ensures marks { IfOk result (λ pick. (p : Path) → marked_at self.new p ≡ (marked_at self.old p || names pick p)) }
        ensures same { OnErr result (self.new ≡ self.old) }
    {
        picks_are_right();
        marks_leave_benches();
        if self.outcome.is_some() {
            return Ok(Pick::Over);
        }
        let Some(entry) = self.course.threads().least_unmarked() else {
            return Ok(Pick::Idle);
        };
        let state = entry.state.copy(alloc)?;
        self.course.mark(&state.path);
        Ok(Pick::Take(state))
    }
}
