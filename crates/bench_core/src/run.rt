//! What the run of a bench gives.
ghost use Rattle.std.specs.Prelude.{◌≡◌, is_some, option_map};
ghost use Rattle.bench_model.specs.Orders.{run_of};
ghost use Rattle.bench_run.specs.Told.{result_told};
ghost use Rattle.bench_core.specs.Bench.{setting_in, run_in};

use crate::bench::Bench;
use crate::laws::results_are_told;
use bench_run::{Run, sort_observations};
use net_core::Engine;
use tb_base::Seq;

impl<E: Engine> Bench<E> {
    /// What the run gives: its observations, sorted, its samples, the number of its actions and its outcome. `None` exactly where it has no
    /// outcome yet. Takes no memory, and the time of n log n comparisons for n observations.
    pub fn into_run(self) -> Option<Run>
        ensures run { option_map result_told result ≡ run_of (setting_in self) (run_in self) }
        ensures over { is_some result ≡ is_some self.outcome }
    {
        results_are_told();
        let Bench {
            course,
            outcome,
            ..
        } = self;
        let outcome = outcome?;
        let (observations, samples, actions) = course.into_parts();
        Some(Run {
            observations: Seq::of(sort_observations(observations)),
            samples: Seq::of(samples),
            actions,
            outcome,
        })
    }
}
