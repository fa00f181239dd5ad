//! Laws of what a run gives.
ghost use Rattle.std.specs.Prelude.{◌≡◌};
ghost use Rattle.bench_run.specs.declared.run.Run.{Run};
ghost use Rattle.bench_run.specs.Told.{result_told};

use crate::observation::Observation;
use crate::outcome::Outcome;
use crate::run::Run;

/// A law: nothing of a run is lost where it is told in the words of the model, so runs with the same result are equal.
pub fn results_tell_runs_apart()
    ensures { (r s : Run) → result_told r ≡ result_told s → r ≡ s }
{}

fn shared<T: Send + Sync>(_value: &T) {}

/// Runs, observations and outcomes can be sent to another thread of the program, and be read by several at once.
pub fn runs_can_be_shared(run: &Run, observation: &Observation, outcome: &Outcome) {
    shared(run);
    shared(observation);
    shared(outcome)
}
